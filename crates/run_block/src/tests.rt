ghost use Rattle.std.specs.Prelude.{◌≡◌, ◌<◌, IfOk};
ghost use Rattle.mvcc_key.specs.Batches.{IsBatch};

use super::*;
use mem_table::MemTable;
use mvcc_key::{
    Batch, BatchBuilder, Bytes, Cursor, Key, Looks, OutOfMemory, PointOp, RangeOp, Timestamp,
    encode_key,
};
use std::alloc::Global;
use std::marker::Brand;
use std::sync::ledger::{Blank, Ledger};
use std::test::Fail;

/// One version: the key `a` at a wall time of a second, with the value `abc` in its plain form.
const FILE: &[u8; 52] = b"MVCCRUN1\
    \x00\x00\x00\x00\x00\x00\x00\x01\x00\x00\x00\x00\x00\x00\x00\x00\
    \x01\x00\x00\x00\x0ba\x00\x00\x00\x00\x00\x3b\x9a\xca\x00\x09\
    \x00\x00\x00\x08\x00\x00\x00\x00\x03abc";

/// Where the fields of the file begin.
const FIELDS: [u64; 8] = [0, 8, 16, 24, 25, 29, 40, 44];

fn fault_in(alloc: Global, bytes: &[u8]) -> Option<ParseFault> {
    parse(alloc, bytes).err()
}

fn fault(kind: FileKind, place: u64) -> Option<ParseFault> {
    Some(ParseFault::Fault(RunFault { kind, place }))
}

/// Where the last field begins that begins in or behind so many bytes.
fn last_field(len: u64) -> u64 {
    let mut last = 0;
    for field in FIELDS {
        if field <= len {
            last = field;
        }
    }
    last
}

#[test]
fn each_beginning_is_short(rt: HostRuntime) -> Result<(), Fail> {
    for len in 0..FILE.len() {
        let place = last_field(len as u64);
        assert_eq!(rt;
            fault_in(rt.alloc(), &FILE[..len]),
            fault(FileKind::Short, place),
            "at {len}"
        );
    }
    let mut more = FILE.to_vec(rt.alloc())?;
    more.push(0)?;
    assert_eq!(rt;
        fault_in(rt.alloc(), more.as_slice()),
        fault(FileKind::Trailing, 52)
    );
    Ok(())
}

/// Bytes of no run, and their first fault.
type Damaged = (&'static [u8], FileKind, u64);

const CASES: [Damaged; 19] = [
    (b"MVCCRUN2", FileKind::Magic, 0),
    (b"MVCCRUN", FileKind::Short, 0),
    // 2^63 points are claimed in 30 bytes: the key of the first is not whole
    (
        b"MVCCRUN1\x80\0\0\0\0\0\0\0\0\0\0\0\0\0\0\0\x01\0\0\0\x0ba",
        FileKind::Short,
        29,
    ),
    // a kind is judged when it is read
    (
        b"MVCCRUN1\0\0\0\0\0\0\0\x01\0\0\0\0\0\0\0\0\x02",
        FileKind::Key,
        24,
    ),
    (
        b"MVCCRUN1\0\0\0\0\0\0\0\x01\0\0\0\0\0\0\0\0\0\0\0\0\x02a\x07",
        FileKind::Key,
        24,
    ),
    (
        b"MVCCRUN1\0\0\0\0\0\0\0\x01\0\0\0\0\0\0\0\0\0\0\0\0\x01\0",
        FileKind::Key,
        24,
    ),
    // the record of a behind itself
    (
        b"MVCCRUN1\0\0\0\0\0\0\0\x02\0\0\0\0\0\0\0\0\0\0\0\0\x02a\0\0\0\0\0\x02a\0",
        FileKind::Order,
        31,
    ),
    // a key that is empty and not above the one before: by Key first
    (
        b"MVCCRUN1\0\0\0\0\0\0\0\x02\0\0\0\0\0\0\0\0\0\0\0\0\x02a\0\0\0\0\0\x01\0",
        FileKind::Key,
        31,
    ),
    // a value of 16,777,217 bytes, of which none is there: its length is judged first
    (
        b"MVCCRUN1\0\0\0\0\0\0\0\x01\0\0\0\0\0\0\0\0\x01\0\0\0\x02a\0\x01\0\0\x01",
        FileKind::Value,
        24,
    ),
    // a value of 16,777,216 bytes
    (
        b"MVCCRUN1\0\0\0\0\0\0\0\x01\0\0\0\0\0\0\0\0\x01\0\0\0\x02a\0\x01\0\0\0",
        FileKind::Short,
        35,
    ),
    // a key out of order with a value that is too long: by Order first
    (
        b"MVCCRUN1\0\0\0\0\0\0\0\x02\0\0\0\0\0\0\0\0\0\0\0\0\x02b\0\x01\0\0\0\x02a\0\x01\0\0\x01",
        FileKind::Order,
        31,
    ),
    (
        b"MVCCRUN1\0\0\0\0\0\0\0\0\0\0\0\0\0\0\0\x01\x02",
        FileKind::RangeOrder,
        24,
    ),
    // a bound of 4,098 bytes, of which none is there
    (
        b"MVCCRUN1\0\0\0\0\0\0\0\0\0\0\0\0\0\0\0\x01\x01\0\0\x10\x02",
        FileKind::RangeOrder,
        24,
    ),
    // from a to a at 1: judged when the counter is whole, and before that Short
    (
        b"MVCCRUN1\0\0\0\0\0\0\0\0\0\0\0\0\0\0\0\x01\x01\0\0\0\x01a\0\0\0\x01a\0\0\0\0\0\0\0\x01\0\0\0\0",
        FileKind::RangeOrder,
        24,
    ),
    (
        b"MVCCRUN1\0\0\0\0\0\0\0\0\0\0\0\0\0\0\0\x01\x01\0\0\0\x01a\0\0\0\x01a\0\0\0\0\0\0\0\x01\0\0\0",
        FileKind::Short,
        43,
    ),
    // no timestamp, and a wall time of 2^63
    (
        b"MVCCRUN1\0\0\0\0\0\0\0\0\0\0\0\0\0\0\0\x01\x01\0\0\0\x01a\0\0\0\x01b\0\0\0\0\0\0\0\0\0\0\0\0",
        FileKind::RangeOrder,
        24,
    ),
    (
        b"MVCCRUN1\0\0\0\0\0\0\0\0\0\0\0\0\0\0\0\x01\x01\0\0\0\x01a\0\0\0\x01b\x80\0\0\0\0\0\0\0\0\0\0\0",
        FileKind::RangeOrder,
        24,
    ),
    (
        b"MVCCRUN1\0\0\0\0\0\0\0\0\0\0\0\0\0\0\0\x01\0\0\0\0\x01a\0\0\0\x01b\0\0\0\0\0\0\0\x01\0\0\0\0\0",
        FileKind::Trailing,
        47,
    ),
    (
        b"MVCCRUN1\0\0\0\0\0\0\0\0\0\0\0\0\0\0\0\0\0",
        FileKind::Trailing,
        24,
    ),
];

#[test]
fn the_first_fault_is_told(rt: HostRuntime) -> Result<(), Fail> {
    for (bytes, kind, place) in CASES {
        assert_eq!(rt;
            fault_in(rt.alloc(), bytes),
            fault(kind, place),
            "in {bytes:?}"
        );
    }
    Ok(())
}

fn point_op(
    alloc: Global,
    key: &[u8],
    wall: u64,
    value: Option<&[u8]>,
) -> Result<PointOp, OutOfMemory> {
    let ts = Timestamp::new(wall, 0).unwrap_or(Timestamp::NONE);
    let value = match value {
        Some(bytes) => Some(Bytes::copy(alloc, bytes)?),
        None => None,
    };
    let key = Bytes::from_vec(encode_key(alloc, key, ts)?);
    Ok(PointOp { key, value })
}

/// The bytes of a record at the timestamp (2, 0).
const RECORD: &[u8; 36] = b"012345678901234567890123\0\0\0\0\0\0\0\x02\0\0\0\0";

/// The record of `a`, a clear of `a` at 9, and `b` at 5.
const POINTS: &[u8; 108] = b"MVCCRUN1\0\0\0\0\0\0\0\x03\0\0\0\0\0\0\0\0\
    \x01\0\0\0\x02a\0\0\0\0\x24012345678901234567890123\0\0\0\0\0\0\0\x02\0\0\0\0\
    \0\0\0\0\x0ba\0\0\0\0\0\0\0\0\x09\x09\
    \x01\0\0\0\x0bb\0\0\0\0\0\0\0\0\x05\x09\0\0\0\x01x";

/// The same, and two range operations.
const BUILT: &[u8; 154] = b"MVCCRUN1\0\0\0\0\0\0\0\x03\0\0\0\0\0\0\0\x02\
    \x01\0\0\0\x02a\0\0\0\0\x24012345678901234567890123\0\0\0\0\0\0\0\x02\0\0\0\0\
    \0\0\0\0\x0ba\0\0\0\0\0\0\0\0\x09\x09\
    \x01\0\0\0\x0bb\0\0\0\0\0\0\0\0\x05\x09\0\0\0\x01x\
    \x01\0\0\0\x01b\0\0\0\x01d\0\0\0\0\0\0\0\x04\0\0\0\x01\
    \0\0\0\0\x01a\0\0\0\x01b\0\0\0\0\0\0\0\x03\0\0\0\0";

/// No point: a tombstone over `a` to `e` is set at 5 seconds, and one over `b` to `d` removed at 6.
const OPERATIONS: &[u8; 70] = b"MVCCRUN1\0\0\0\0\0\0\0\0\0\0\0\0\0\0\0\x02\
    \x01\0\0\0\x01a\0\0\0\x01e\0\0\0\x01\x2a\x05\xf2\0\0\0\0\0\
    \0\0\0\0\x01b\0\0\0\x01d\0\0\0\x01\x65\xa0\xbc\0\0\0\0\0";

/// No entry.
const NONE: &[u8; 24] = b"MVCCRUN1\0\0\0\0\0\0\0\0\0\0\0\0\0\0\0\0";

/// What a cursor shows at a place: an encoded key, and a value where it is set.
type State = (&'static [u8], Option<&'static [u8]>);

const STATES: [State; 3] = [
    (b"a\0", Some(RECORD)),
    (b"a\0\0\0\0\0\0\0\0\x09\x09", None),
    (b"b\0\0\0\0\0\0\0\0\x05\x09", Some(b"x")),
];

fn is_at<C: Cursor>(cursor: &C, state: Option<State>) -> bool {
    match state {
        Some((key, value)) => cursor.key() == Some(key) && cursor.value() == value,
        None => cursor.key().is_none() && cursor.value().is_none(),
    }
}

/// Whether a cursor comes to these states on its way to the end, and back.
fn walks<L: Ledger>(run: &Run, states: &[State], blank: Blank) -> bool
    requires name { blank.name ≡ L.name }
    requires parts { blank.parts ≡ L.parts }
    requires some { 0 < blank.parts }
{
    let mut looks = Looks::<L>::new(blank);
    let mut cursor = run.cursor();
    let mut walked = is_at(&cursor, None);
    for state in states {
        cursor.next(&mut looks);
        walked = is_at(&cursor, Some(*state)) && walked;
    }
    cursor.next(&mut looks);
    walked = is_at(&cursor, None) && walked;
    for state in states.iter().rev() {
        cursor.prev(&mut looks);
        walked = is_at(&cursor, Some(*state)) && walked;
    }
    cursor.prev(&mut looks);
    is_at(&cursor, None) && walked
}

/// Whether the run is the one that has these bytes.
fn is_built(run: &Run) -> bool {
    let set = match run.range_op(0) {
        Some(op) => {
            op.start == b"b".as_slice()
                && op.end == b"d".as_slice()
                && (op.ts.wall(), op.ts.logical()) == (4, 1)
                && op.set == Some(b"".as_slice())
        }
        None => false,
    };
    let removed = match run.range_op(1) {
        Some(op) => op.start == b"a".as_slice() && op.ts.wall() == 3 && op.set.is_none(),
        None => false,
    };
    let times = match run.time_span() {
        Some((least, greatest)) => least.wall() == 2 && greatest.wall() == 5,
        None => false,
    };
    run.bytes() == BUILT.as_slice() && set && removed && times
}

/// A start, an end, a wall time and a counter, and whether a tombstone is set over them, or removed.
type Range = (&'static [u8], &'static [u8], (u64, u32), bool);

/// The range operations behind the three points.
const BUILT_RANGES: [Range; 2] = [(b"b", b"d", (4, 1), true), (b"a", b"b", (3, 0), false)];

/// Those of no point.
const ALONE: [Range; 2] = [
    (b"a", b"e", (5_000_000_000, 0), true),
    (b"b", b"d", (6_000_000_000, 0), false),
];

fn range_op(alloc: Global, range: Range) -> Result<RangeOp, OutOfMemory> {
    let (start, end, (wall, logical), is_set) = range;
    Ok(RangeOp {
        start: Key::copy(alloc, start)?,
        end: Key::copy(alloc, end)?,
        ts: Timestamp::new(wall, logical).unwrap_or(Timestamp::NONE),
        set: if is_set {
            Some(Bytes::new(alloc))
        } else {
            None
        },
    })
}

fn push_ranges(
    alloc: Global,
    batch: &mut BatchBuilder,
    ranges: &[Range],
) -> Result<(), OutOfMemory> {
    for range in ranges {
        let _ = batch.push_range(range_op(alloc, *range)?)?;
    }
    Ok(())
}

/// Range operations alone.
fn ranges_alone(alloc: Global, ranges: &[Range]) -> Result<Batch, OutOfMemory>
    ensures { IfOk result IsBatch }
{
    let mut batch = BatchBuilder::new(alloc);
    push_ranges(alloc, &mut batch, ranges)?;
    Ok(batch.into_batch())
}

/// The record of `a`, a clear of `a` at 9, and `b` at 5, with range operations.
fn three_points(alloc: Global, ranges: &[Range]) -> Result<Batch, OutOfMemory>
    ensures { IfOk result IsBatch }
{
    let mut batch = BatchBuilder::new(alloc);
    let _ = batch.push_point(point_op(alloc, b"a", 0, Some(RECORD))?)?;
    let _ = batch.push_point(point_op(alloc, b"a", 9, None)?)?;
    let _ = batch.push_point(point_op(alloc, b"b", 5, Some(b"x"))?)?;
    push_ranges(alloc, &mut batch, ranges)?;
    Ok(batch.into_batch())
}

#[test]
fn what_is_built_is_read_again(rt: HostRuntime) -> Result<(), Fail> {
    let alloc = rt.alloc();
    let batch = three_points(alloc, &[])?;
    let run = build(alloc, batch.points.as_slice(), batch.ranges.as_slice())?;
    assert_eq!(rt; run.bytes(), POINTS.as_slice());
    assert!(rt; walks::<Brand>(&run, &STATES, Blank::new(1)));
    assert!(rt; run.range_op(0).is_none());
    assert_eq!(rt; parse(alloc, run.bytes())?.len(), 3);
    Ok(())
}

#[test]
fn operations_are_built_behind_points(rt: HostRuntime) -> Result<(), Fail> {
    let batch = three_points(rt.alloc(), &BUILT_RANGES)?;
    let run = build(rt.alloc(), batch.points.as_slice(), batch.ranges.as_slice())?;
    assert!(rt; is_built(&run));
    Ok(())
}

const NO_ROOM: Room = Room {
    points: 0,
    bytes: 0,
};

/// Whether a table is collected to the run that is built of what it holds.
fn is_collected(alloc: Global, table: &MemTable, room: Room) -> Result<bool, OutOfMemory> {
    let run = collect(alloc, &mut table.cursor(), table.range_ops(), room)?;
    Ok(is_built(&run))
}

#[test]
fn a_table_is_collected(rt: HostRuntime) -> Result<(), Fail> {
    let alloc = rt.alloc();
    let mut table = MemTable::new(alloc);
    table.apply(three_points(alloc, &BUILT_RANGES)?)?;
    for (points, bytes) in [(0, 0), (1, 7), (3, 84), (100, 1000)] {
        let room = Room { points, bytes };
        assert!(rt;
            is_collected(alloc, &table, room)?,
            "with room for {points} points"
        );
    }
    for (points, bytes) in [(usize::MAX, 0), (0, usize::MAX)] {
        assert!(rt; is_collected(alloc, &table, Room { points, bytes }).is_err());
    }
    Ok(())
}

/// Whether the run has no point, and the two range operations that stand alone.
fn has_operations_alone(run: &Run) -> bool {
    let times = match run.time_span() {
        Some((least, greatest)) => {
            least.wall() == 5_000_000_000 && greatest.wall() == 6_000_000_000
        }
        None => false,
    };
    let counts = (run.len(), run.range_len(), run.is_empty()) == (0, 2, false);
    run.bytes() == OPERATIONS.as_slice() && counts && times
}

#[test]
fn a_run_has_operations_alone(rt: HostRuntime) -> Result<(), Fail> {
    let batch = ranges_alone(rt.alloc(), &ALONE)?;
    let run = build(rt.alloc(), &[], batch.ranges.as_slice())?;
    assert!(rt; has_operations_alone(&run));
    assert!(rt; has_operations_alone(&parse(rt.alloc(), OPERATIONS)?));
    Ok(())
}

#[test]
fn operations_alone_are_collected(rt: HostRuntime) -> Result<(), Fail> {
    let mut table = MemTable::new(rt.alloc());
    table.apply(ranges_alone(rt.alloc(), &ALONE)?)?;
    let run = collect(rt.alloc(), &mut table.cursor(), table.range_ops(), NO_ROOM)?;
    assert!(rt; has_operations_alone(&run));
    Ok(())
}

#[test]
fn the_points_of_a_run_are_collected_again(rt: HostRuntime) -> Result<(), Fail> {
    let alloc = rt.alloc();
    let built = parse(alloc, BUILT)?;
    let run = collect(alloc, &mut built.cursor(), &[], NO_ROOM)?;
    assert_eq!(rt; run.bytes(), POINTS.as_slice());
    assert!(rt; walks::<Brand>(&run, &STATES, Blank::new(1)));
    let empty = parse(alloc, NONE)?;
    assert_eq!(rt;
        collect(alloc, &mut empty.cursor(), &[], NO_ROOM)?.bytes(),
        NONE.as_slice()
    );
    Ok(())
}

#[test]
fn range_operations_are_read(rt: HostRuntime) -> Result<(), Fail> {
    let run = parse(rt.alloc(), BUILT)?;
    assert_eq!(rt; (run.len(), run.range_len(), run.is_empty()), (3, 2, false));
    assert!(rt; is_built(&run));
    assert!(rt; run.range_op(2).is_none());
    assert!(rt; walks::<Brand>(&run, &STATES, Blank::new(1)));
    Ok(())
}

#[test]
fn a_file_is_read(rt: HostRuntime) -> Result<(), Fail> {
    let run = parse(rt.alloc(), FILE)?;
    let ts = Timestamp::new(1_000_000_000, 0);
    assert_eq!(rt; run.time_span(), ts.zip(ts));
    let states: [State; 1] = [(b"a\0\0\0\0\0\x3b\x9a\xca\0\x09", Some(b"\0\0\0\0\x03abc"))];
    assert!(rt; walks::<Brand>(&run, &states, Blank::new(1)));
    let empty = parse(rt.alloc(), NONE)?;
    assert!(rt; empty.is_empty() && empty.time_span().is_none());
    laws_of_runs();
    Ok(())
}

#[test]
fn faults_are_told(rt: HostRuntime) -> Result<(), Fail> {
    let fault = ParseFault::from(RunFault {
        kind: FileKind::Order,
        place: 31,
    });
    let text = fault.to_string(rt.alloc())?;
    assert_eq!(rt;
        text.as_str(),
        "a point is not above the one before it, at byte 31"
    );
    let text = ParseFault::from(OutOfMemory).to_string(rt.alloc())?;
    assert_eq!(rt; text.as_str(), "out of memory");
    Ok(())
}
