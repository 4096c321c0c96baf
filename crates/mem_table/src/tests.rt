ghost use Rattle.std.specs.Prelude.{◌≡◌, ◌<◌, IfOk};
ghost use Rattle.mvcc_key.specs.Batches.{IsBatch};

use super::*;
use mvcc_key::{
    Batch, BatchBuilder, Bytes, Cursor, Key, Looks, OutOfMemory, PointOp, RangeOp, Timestamp,
    decode_key, encode_key,
};
use std::alloc::Global;
use std::marker::Brand;
use std::sync::ledger::{Blank, Ledger};
use std::test::Fail;

/// A key, a wall time (0 for the key's record), and a value where it is set.
type State = (&'static [u8], u64, Option<&'static [u8]>);

fn key_of(alloc: Global, key: &[u8], wall: u64) -> Result<Vec<u8>, OutOfMemory> {
    encode_key(
        alloc,
        key,
        Timestamp::new(wall, 0).unwrap_or(Timestamp::NONE),
    )
}

fn op_of(alloc: Global, state: State) -> Result<PointOp, OutOfMemory> {
    let value = match state.2 {
        Some(bytes) => Some(Bytes::copy(alloc, bytes)?),
        None => None,
    };
    let key = Bytes::from_vec(key_of(alloc, state.0, state.1)?);
    Ok(PointOp { key, value })
}

/// A start, an end, a wall time, and whether a tombstone is set over them, or removed.
type Range = (&'static [u8], &'static [u8], u64, bool);

fn range_of(alloc: Global, range: Range) -> Result<RangeOp, OutOfMemory> {
    let (start, end, wall, is_set) = range;
    Ok(RangeOp {
        start: Key::copy(alloc, start)?,
        end: Key::copy(alloc, end)?,
        ts: Timestamp::new(wall, 0).unwrap_or(Timestamp::NONE),
        set: if is_set {
            Some(Bytes::new(alloc))
        } else {
            None
        },
    })
}

/// The states and the range operations, but for those that are out of order or cannot be stored.
fn batch_of(alloc: Global, states: &[State], ranges: &[Range]) -> Result<Batch, OutOfMemory>
    ensures { IfOk result IsBatch }
{
    let mut batch = BatchBuilder::new(alloc);
    for state in states {
        let _ = batch.push_point(op_of(alloc, *state)?)?;
    }
    for range in ranges {
        let _ = batch.push_range(range_of(alloc, *range)?)?;
    }
    Ok(batch.into_batch())
}

fn table_of(alloc: Global, batches: &[&[State]]) -> Result<MemTable, OutOfMemory> {
    let mut table = MemTable::new(alloc);
    for states in batches {
        table.apply(batch_of(alloc, states, &[])?)?;
    }
    Ok(table)
}

/// The same table, with each state put at its place by itself.
fn placed(alloc: Global, batches: &[&[State]]) -> Result<MemTable, OutOfMemory> {
    let mut table = MemTable::new(alloc);
    for states in batches {
        for state in *states {
            put(&mut table, op_of(alloc, *state)?)?;
        }
    }
    Ok(table)
}

fn put(table: &mut MemTable, op: PointOp) -> Result<(), OutOfMemory> {
    if !op.is_storable() {
        return Ok(());
    }
    let place = table.find(op.key.as_slice());
    table.put_at(place, op)
}

fn is_at<C: Cursor>(alloc: Global, cursor: &C, state: Option<State>) -> Result<bool, OutOfMemory> {
    match state {
        Some((key, wall, value)) => {
            let key = key_of(alloc, key, wall)?;
            Ok(cursor.key() == Some(key.as_slice()) && cursor.value() == value)
        }
        None => Ok(cursor.key().is_none() && cursor.value().is_none()),
    }
}

/// Whether a cursor comes to these states on its way to the end, and back.
fn walks<L: Ledger>(
    alloc: Global,
    table: &MemTable,
    states: &[State],
    blank: Blank,
) -> Result<bool, OutOfMemory>
    requires name { blank.name ≡ L.name }
    requires parts { blank.parts ≡ L.parts }
    requires some { 0 < blank.parts }
{
    let mut looks = Looks::<L>::new(blank);
    let mut cursor = table.cursor();
    let mut walked = is_at(alloc, &cursor, None)?;
    for state in states {
        cursor.next(&mut looks);
        walked = is_at(alloc, &cursor, Some(*state))? && walked;
    }
    cursor.next(&mut looks);
    walked = is_at(alloc, &cursor, None)? && walked;
    for state in states.iter().rev() {
        cursor.prev(&mut looks);
        walked = is_at(alloc, &cursor, Some(*state))? && walked;
    }
    cursor.prev(&mut looks);
    Ok(is_at(alloc, &cursor, None)? && walked)
}

const ROW: [State; 3] = [
    (b"a", 1_000_000_000, Some(b"abc")),
    (b"a\x00", 1_000_000_000, Some(b"abc")),
    (b"a\x00\x01", 1_000_000_000, Some(b"abc")),
];

/// Batches, oldest first, and the states of their table.
type Case = (&'static [&'static [State]], &'static [State]);

const CASES: [Case; 13] = [
    (&[], &[]),
    (&[&ROW, &[]], &ROW),
    (
        &[&[(b"b", 1, Some(b"x"))], &[(b"a", 1, Some(b"y"))]],
        &[(b"a", 1, Some(b"y")), (b"b", 1, Some(b"x"))],
    ),
    (
        &[
            &[(b"a", 1, Some(b"1")), (b"c", 1, Some(b"3"))],
            &[(b"b", 1, Some(b"2")), (b"d", 1, Some(b"4"))],
        ],
        &[
            (b"a", 1, Some(b"1")),
            (b"b", 1, Some(b"2")),
            (b"c", 1, Some(b"3")),
            (b"d", 1, Some(b"4")),
        ],
    ),
    (
        &[&[(b"a", 1, Some(b"old"))], &[(b"a", 1, Some(b"new"))]],
        &[(b"a", 1, Some(b"new"))],
    ),
    (
        &[&[(b"a", 1, Some(b"old"))], &[(b"a", 1, None)]],
        &[(b"a", 1, None)],
    ),
    (
        &[&[(b"a", 1, None)], &[(b"a", 1, Some(b"new"))]],
        &[(b"a", 1, Some(b"new"))],
    ),
    (
        &[
            &[(b"b", 1, Some(b"old"))],
            &[(b"a", 1, Some(b"1"))],
            &[(b"c", 1, Some(b"3"))],
            &[(b"b", 1, Some(b"new"))],
        ],
        &[
            (b"a", 1, Some(b"1")),
            (b"b", 1, Some(b"new")),
            (b"c", 1, Some(b"3")),
        ],
    ),
    (
        &[
            &[(b"a", 1, Some(b"older"))],
            &[(b"a", 2, Some(b"newer"))],
            &[(b"a", 0, Some(b"record"))],
        ],
        &[
            (b"a", 0, Some(b"record")),
            (b"a", 2, Some(b"newer")),
            (b"a", 1, Some(b"older")),
        ],
    ),
    (
        &[
            &[
                (b"b", 1, Some(b"1")),
                (b"c", 1, Some(b"2")),
                (b"d", 1, Some(b"3")),
                (b"f", 1, Some(b"4")),
            ],
            &[
                (b"a", 1, Some(b"5")),
                (b"b", 1, Some(b"6")),
                (b"d", 1, None),
                (b"e", 1, Some(b"7")),
                (b"g", 1, None),
            ],
        ],
        &[
            (b"a", 1, Some(b"5")),
            (b"b", 1, Some(b"6")),
            (b"c", 1, Some(b"2")),
            (b"d", 1, None),
            (b"e", 1, Some(b"7")),
            (b"f", 1, Some(b"4")),
            (b"g", 1, None),
        ],
    ),
    (
        &[
            &[(b"12345678b", 1, Some(b"4"))],
            &[(b"12345678", 1, Some(b"2")), (b"12345678a", 1, Some(b"3"))],
            &[(b"1234567", 1, Some(b"1"))],
        ],
        &[
            (b"1234567", 1, Some(b"1")),
            (b"12345678", 1, Some(b"2")),
            (b"12345678a", 1, Some(b"3")),
            (b"12345678b", 1, Some(b"4")),
        ],
    ),
    (
        &[
            &[(b"\0\0\0\0\0\0\0\0", 1, Some(b"8"))],
            &[(b"\0", 1, Some(b"1")), (b"\0\0\0\0\0\0\0\0\0", 1, None)],
            &[(b"\0\0", 1, Some(b"2")), (b"\0\0\0\0\0\0\0", 1, Some(b"7"))],
            &[(b"\0\0\0\0", 1, Some(b"4"))],
        ],
        &[
            (b"\0", 1, Some(b"1")),
            (b"\0\0", 1, Some(b"2")),
            (b"\0\0\0\0", 1, Some(b"4")),
            (b"\0\0\0\0\0\0\0", 1, Some(b"7")),
            (b"\0\0\0\0\0\0\0\0", 1, Some(b"8")),
            (b"\0\0\0\0\0\0\0\0\0", 1, None),
        ],
    ),
    (
        &[
            &[(b"k", 3, Some(b"3"))],
            &[(b"k", 5, Some(b"5")), (b"k", 1, Some(b"1"))],
            &[(b"k", 0, Some(b"0")), (b"k", 4, None)],
            &[(b"k", 2, Some(b"2"))],
        ],
        &[
            (b"k", 0, Some(b"0")),
            (b"k", 5, Some(b"5")),
            (b"k", 4, None),
            (b"k", 3, Some(b"3")),
            (b"k", 2, Some(b"2")),
            (b"k", 1, Some(b"1")),
        ],
    ),
];

#[test]
fn batches_are_one_table(rt: HostRuntime) -> Result<(), Fail> {
    for (batches, states) in CASES {
        let table = table_of(rt.alloc(), batches)?;
        assert_eq!(rt; table.is_empty(), states.is_empty());
        assert!(rt; table.range_ops().is_empty());
        assert!(rt; walks::<Brand>(rt.alloc(), &table, states, Blank::new(1))?);
        let placed = placed(rt.alloc(), batches)?;
        assert!(rt; walks::<Brand>(rt.alloc(), &placed, states, Blank::new(1))?);
    }
    Ok(())
}

/// Whether a cursor comes to these states, the first at the key or behind it, and the second before it.
fn finds<L: Ledger>(
    alloc: Global,
    table: &MemTable,
    sought: (&[u8], u64),
    from: Option<State>,
    below: Option<State>,
    blank: Blank,
) -> Result<bool, OutOfMemory>
    requires name { blank.name ≡ L.name }
    requires parts { blank.parts ≡ L.parts }
    requires some { 0 < blank.parts }
{
    let mut looks = Looks::<L>::new(blank);
    let mut cursor = table.cursor();
    let key = key_of(alloc, sought.0, sought.1)?;
    if decode_key(key.as_slice()).is_err() {
        return Ok(false);
    }
    cursor.seek_ge(key.as_slice(), &mut looks);
    let found = is_at(alloc, &cursor, from)?;
    cursor.seek_lt(key.as_slice(), &mut looks);
    Ok(is_at(alloc, &cursor, below)? && found)
}

/// Whether this is known of a name.
fn knows(
    alloc: Global,
    table: &MemTable,
    sought: (&[u8], u64),
    known: Option<Option<&[u8]>>,
) -> Result<bool, OutOfMemory> {
    let key = key_of(alloc, sought.0, sought.1)?;
    if decode_key(key.as_slice()).is_err() {
        return Ok(false);
    }
    Ok(table.value_at(table.find(key.as_slice())) == known)
}

#[test]
fn names_are_known(rt: HostRuntime) -> Result<(), Fail> {
    let cleared: &[State] = &[(b"a\x00", 2, None), (b"b", 2, None)];
    let table = table_of(rt.alloc(), &[&ROW, cleared])?;
    let cases: [(&[u8], u64, Option<Option<&[u8]>>); 6] = [
        (b"a", 1_000_000_000, Some(Some(b"abc"))),
        (b"a", 2, None),
        (b"a\x00", 2, Some(None)),
        (b"a\x00\x01", 1_000_000_000, Some(Some(b"abc"))),
        (b"b", 2, Some(None)),
        (b"c", 2, None),
    ];
    for (key, wall, known) in cases {
        assert!(rt; knows(rt.alloc(), &table, (key, wall), known)?);
    }
    Ok(())
}

#[test]
fn keys_are_found(rt: HostRuntime) -> Result<(), Fail> {
    let table = table_of(rt.alloc(), &[&ROW])?;
    let [a, b, c] = ROW;
    let cases: [(&[u8], u64, Option<State>, Option<State>); 7] = [
        (b"a", 1_000_000_000, Some(a), None),
        (b"a\x00", 1_000_000_000, Some(b), Some(a)),
        (b"a\x00\x01", 1_000_000_000, Some(c), Some(b)),
        (b"a", 2_000_000_000, Some(a), None),
        (b"a", 999_999_999, Some(b), Some(a)),
        (b"a\x00\x00", 0, Some(c), Some(b)),
        (b"b", 0, None, Some(c)),
    ];
    for (key, wall, from, below) in cases {
        assert!(rt; finds::<Brand>(rt.alloc(), &table, (key, wall), from, below, Blank::new(1))?);
    }
    Ok(())
}

fn is_range(op: &RangeOp, range: Range) -> bool {
    let (start, end, wall, is_set) = range;
    op.start.bytes() == start
        && op.end.bytes() == end
        && (op.ts.wall(), op.ts.logical()) == (wall, 0)
        && op.set.is_some() == is_set
}

fn has_ranges(table: &MemTable, ranges: &[Range]) -> bool {
    let ops = table.range_ops();
    let mut same = ops.len() == ranges.len();
    for (op, range) in ops.iter().zip(ranges.iter()) {
        same = is_range(op, *range) && same;
    }
    same
}

/// Batches of states and range operations, oldest first.
const MIXED: [(&[State], &[Range]); 4] = [
    (&[(b"c", 1, Some(b"x"))], &[(b"b", b"e", 5, true)]),
    (&[], &[(b"a", b"d", 6, true), (b"b", b"c", 5, false)]),
    (&[(b"a", 2, Some(b"y")), (b"c", 1, None)], &[]),
    (&[], &[(b"a", b"d", 6, true)]),
];

/// Their states, and their range operations in the order in which they came.
const STATES: [State; 2] = [(b"a", 2, Some(b"y")), (b"c", 1, None)];

const RANGES: [Range; 4] = [
    (b"b", b"e", 5, true),
    (b"a", b"d", 6, true),
    (b"b", b"c", 5, false),
    (b"a", b"d", 6, true),
];

#[test]
fn range_operations_stay_in_order(rt: HostRuntime) -> Result<(), Fail> {
    let alloc = rt.alloc();
    let mut table = MemTable::new(alloc);
    for (states, ranges) in MIXED {
        table.apply(batch_of(alloc, states, ranges)?)?;
    }
    assert!(rt; has_ranges(&table, &RANGES));
    assert!(rt; walks::<Brand>(alloc, &table, &STATES, Blank::new(1))?);
    assert!(rt; !table.is_empty());
    Ok(())
}

#[test]
fn operations_alone_are_held(rt: HostRuntime) -> Result<(), Fail> {
    let alloc = rt.alloc();
    let mut table = MemTable::new(alloc);
    let refused: &[Range] = &[(b"b", b"b", 5, true), (b"a", b"b", 0, true)];
    table.apply(batch_of(alloc, &[], refused)?)?;
    assert!(rt; table.is_empty());
    table.apply(batch_of(alloc, &[], &RANGES)?)?;
    assert!(rt; has_ranges(&table, &RANGES) && table.len() == 0 && !table.is_empty());
    assert!(rt; walks::<Brand>(alloc, &table, &[], Blank::new(1))?);
    Ok(())
}

/// Whether a batch that is refused leaves the table as it was, and is taken up when it comes again.
fn takes_up_or_leaves(
    alloc: Global,
    table: &mut MemTable,
    batch: (&[State], &[Range]),
) -> Result<bool, OutOfMemory> {
    let first = batch_of(alloc, batch.0, batch.1)?;
    let again = batch_of(alloc, batch.0, batch.1)?;
    let before = (table.len(), table.range_ops().len());
    if table.apply(first).is_ok() {
        return Ok(true);
    }
    let left = (table.len(), table.range_ops().len()) == before;
    table.apply(again)?;
    Ok(left)
}

/// Meant to be tried with each allocation failing in turn, too.
#[test]
fn a_refused_batch_leaves_the_table(rt: HostRuntime) -> Result<(), Fail> {
    let mut table = MemTable::new(rt.alloc());
    for batch in MIXED {
        assert!(rt; takes_up_or_leaves(rt.alloc(), &mut table, batch)?);
    }
    assert!(rt; has_ranges(&table, &RANGES));
    assert!(rt; walks::<Brand>(rt.alloc(), &table, &STATES, Blank::new(1))?);
    Ok(())
}

/// In which order names come.
#[derive(Clone, Copy, Debug)]
enum Order {
    Rising,
    Falling,
    Jumping,
}

/// The number that comes at this turn; jumps need a count that 7,919 does not divide.
fn turn(order: Order, i: u32, count: u32) -> u32
    requires { i < count }
{
    match order {
        Order::Rising => i,
        Order::Falling => count - 1 - i,
        Order::Jumping => (u64::from(i) * 7_919 % u64::from(count)) as u32,
    }
}

/// The encoded key of the number, behind a prefix.
fn key_of_number(alloc: Global, prefix: &[u8], n: u32) -> Result<Vec<u8>, OutOfMemory> {
    let mut bytes = Vec::new(alloc);
    bytes.extend_from_slice(prefix)?;
    bytes.extend_from_slice(&n.to_be_bytes())?;
    key_of(alloc, bytes.as_slice(), 1)
}

fn op_of_number(alloc: Global, prefix: &[u8], n: u32) -> Result<PointOp, OutOfMemory> {
    let key = Bytes::from_vec(key_of_number(alloc, prefix, n)?);
    Ok(PointOp { key, value: None })
}

/// The table of so many numbers, which come in this order.
fn filled(alloc: Global, prefix: &[u8], order: Order, count: u32) -> Result<MemTable, OutOfMemory> {
    let mut table = MemTable::new(alloc);
    for i in 0..count {
        put(
            &mut table,
            op_of_number(alloc, prefix, turn(order, i, count))?,
        )?;
    }
    Ok(table)
}

/// Whether the cursor stands at this number, or at none.
fn stands_at<C: Cursor>(
    alloc: Global,
    cursor: &C,
    prefix: &[u8],
    n: Option<u32>,
) -> Result<bool, OutOfMemory> {
    match n {
        Some(n) => {
            let key = key_of_number(alloc, prefix, n)?;
            Ok(cursor.key() == Some(key.as_slice()))
        }
        None => Ok(cursor.key().is_none()),
    }
}

/// Whether a cursor comes to all numbers on its way to the end, and back.
fn passes<L: Ledger>(
    alloc: Global,
    table: &MemTable,
    prefix: &[u8],
    count: u32,
    blank: Blank,
) -> Result<bool, OutOfMemory>
    requires name { blank.name ≡ L.name }
    requires parts { blank.parts ≡ L.parts }
    requires some { 0 < blank.parts }
{
    let mut looks = Looks::<L>::new(blank);
    let mut cursor = table.cursor();
    let mut passed = true;
    for n in 0..count {
        cursor.next(&mut looks);
        passed = stands_at(alloc, &cursor, prefix, Some(n))? && passed;
    }
    cursor.next(&mut looks);
    passed = stands_at(alloc, &cursor, prefix, None)? && passed;
    for n in (0..count).rev() {
        cursor.prev(&mut looks);
        passed = stands_at(alloc, &cursor, prefix, Some(n))? && passed;
    }
    cursor.prev(&mut looks);
    Ok(stands_at(alloc, &cursor, prefix, None)? && passed)
}

/// Whether a cursor comes to each number that it seeks, to the one behind it and to the one before it.
fn seeks<L: Ledger>(
    alloc: Global,
    table: &MemTable,
    prefix: &[u8],
    count: u32,
    blank: Blank,
) -> Result<bool, OutOfMemory>
    requires name { blank.name ≡ L.name }
    requires parts { blank.parts ≡ L.parts }
    requires some { 0 < blank.parts }
{
    let mut looks = Looks::<L>::new(blank);
    let mut cursor = table.cursor();
    let mut found = true;
    for n in 0..count {
        let key = key_of_number(alloc, prefix, n)?;
        if decode_key(key.as_slice()).is_err() {
            return Ok(false);
        }
        cursor.seek_ge(key.as_slice(), &mut looks);
        found = stands_at(alloc, &cursor, prefix, Some(n))? && found;
        cursor.next(&mut looks);
        let behind = if n + 1 < count { Some(n + 1) } else { None };
        found = stands_at(alloc, &cursor, prefix, behind)? && found;
        cursor.seek_lt(key.as_slice(), &mut looks);
        found = stands_at(alloc, &cursor, prefix, n.checked_sub(1))? && found;
    }
    Ok(found)
}

/// Leaves split at their ends and in the middle; behind the prefix all abbreviated keys are the same.
#[test]
fn many_names_stand_in_order(rt: HostRuntime) -> Result<(), Fail> {
    let alloc = rt.alloc();
    let cases: [(&[u8], u32); 2] = [(b"", 100_000), (b"prefixed", 1_000)];
    for (prefix, count) in cases {
        for order in [Order::Rising, Order::Falling, Order::Jumping] {
            let table = filled(alloc, prefix, order, count)?;
            assert_eq!(rt; table.len(), count as usize);
            assert!(rt; passes::<Brand>(alloc, &table, prefix, count, Blank::new(1))?);
            assert!(rt; seeks::<Brand>(alloc, &table, prefix, count, Blank::new(1))?);
        }
    }
    Ok(())
}

/// Whether a name that is refused leaves the table, and is taken up when it comes again.
fn adds_or_leaves(alloc: Global, table: &mut MemTable, n: u32) -> Result<bool, OutOfMemory> {
    let first = op_of_number(alloc, b"", n)?;
    let again = op_of_number(alloc, b"", n)?;
    let before = table.len();
    if put(table, first).is_ok() {
        return Ok(table.len() > before);
    }
    let left = table.len() == before;
    put(table, again)?;
    Ok(left)
}

/// Meant to be tried with each allocation failing in turn, too.
#[test]
fn a_refused_split_leaves_the_table(rt: HostRuntime) -> Result<(), Fail> {
    let mut table = MemTable::new(rt.alloc());
    for i in 0..130u32 {
        let n = turn(Order::Jumping, i, 130);
        assert!(rt; adds_or_leaves(rt.alloc(), &mut table, n)?);
    }
    assert!(rt; passes::<Brand>(rt.alloc(), &table, b"", 130, Blank::new(1))?);
    Ok(())
}
