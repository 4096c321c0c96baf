ghost use Rattle.std.specs.Prelude.{◌≡◌, ◌<◌};

use super::*;
use std::alloc::Global;
use std::cmp::Ordering;
use std::marker::Brand;
use std::sync::ledger::{Blank, Ledger};
use std::test::Fail;

fn timestamp(wall: u64, logical: u32) -> Timestamp {
    Timestamp::new(wall, logical).unwrap_or(Timestamp::NONE)
}

#[test]
fn keys_are_encoded_and_read(rt: HostRuntime) -> Result<(), Fail> {
    let cases: [(&[u8], u64, u32, &[u8]); 6] = [
        (b"foo", 0, 0, b"foo\x00"),
        (b"foo", 1, 0, b"foo\x00\x00\x00\x00\x00\x00\x00\x00\x01\x09"),
        (
            b"foo",
            1,
            2,
            b"foo\x00\x00\x00\x00\x00\x00\x00\x00\x01\x00\x00\x00\x02\x0d",
        ),
        (
            b"a",
            1_000_000_000,
            0,
            b"a\x00\x00\x00\x00\x00\x3b\x9a\xca\x00\x09",
        ),
        (b"", 0, 0, b"\x00"),
        (
            b"",
            0,
            1,
            b"\x00\x00\x00\x00\x00\x00\x00\x00\x00\x00\x00\x00\x01\x0d",
        ),
    ];
    for (key, wall, logical, bytes) in cases {
        let ts = timestamp(wall, logical);
        assert_eq!(rt; encode_key(rt.alloc(), key, ts)?.as_slice(), bytes);
        let read = decode_key(bytes)?;
        assert_eq!(rt; read.key, key);
        assert_eq!(rt; read.ts, ts);
    }
    Ok(())
}

#[test]
fn the_first_fault_is_told(rt: HostRuntime) {
    let cases: [(&[u8], KeyFault); 13] = [
        (b"", KeyFault::Empty),
        (b"\x01", KeyFault::BadSuffix),
        (b"foo\x00\x0a", KeyFault::BadSuffix),
        (b"\x09", KeyFault::Short),
        (b"\x01\x00\x00\x00\x00\x00\x00\x00\x09", KeyFault::Short),
        (
            b"\x00\x00\x00\x00\x00\x00\x00\x00\x01\x00\x00\x02\x0d",
            KeyFault::Short,
        ),
        (
            b"\x01\xff\xff\xff\xff\xff\xff\xff\xff\x09",
            KeyFault::NoSentinel,
        ),
        (
            b"a\x01\x00\x00\x00\x00\x00\x00\x00\x01\x00\x00\x00\x00\x0d",
            KeyFault::NoSentinel,
        ),
        (
            b"a\x00\x80\x00\x00\x00\x00\x00\x00\x00\x09",
            KeyFault::OutOfRange,
        ),
        (
            b"a\x00\x80\x00\x00\x00\x00\x00\x00\x00\x00\x00\x00\x00\x0d",
            KeyFault::OutOfRange,
        ),
        (
            b"a\x00\x00\x00\x00\x00\x00\x00\x00\x01\x80\x00\x00\x00\x0d",
            KeyFault::OutOfRange,
        ),
        (
            b"a\x00\x00\x00\x00\x00\x00\x00\x00\x00\x00\x00\x00\x00\x0d",
            KeyFault::ZeroLogical,
        ),
        (
            b"a\x00\x00\x00\x00\x00\x00\x00\x00\x00\x09",
            KeyFault::ZeroTime,
        ),
    ];
    for (bytes, fault) in cases {
        assert_eq!(rt; decode_key(bytes).err(), Some(fault));
    }
}

fn order_of(a: &[u8], b: &[u8]) -> Option<Ordering> {
    match decode_key(a) {
        Ok(_) => match decode_key(b) {
            Ok(_) => Some(cmp_encoded(a, b)),
            Err(_) => None,
        },
        Err(_) => None,
    }
}

#[test]
fn names_stand_in_their_order(rt: HostRuntime) {
    // key by key, the record first, and then the newer version first; the last keys have one abbreviated key
    let rising: [&[u8]; 18] = [
        b"\x00",
        b"a\x00",
        b"a\x00\x00\x00\x00\x00\x00\x00\x00\x03\x09",
        b"a\x00\x00\x00\x00\x00\x00\x00\x00\x01\x00\x00\x00\x02\x0d",
        b"a\x00\x00\x00\x00\x00\x00\x00\x00\x01\x09",
        b"a\x00\x00",
        b"a\x00\x00\x00\x00\x00\x00\x00\x00\x00\x02\x09",
        b"a\x00\x01\x00",
        b"a\x09\x00",
        b"a\x0d\x00\x00\x00\x00\x00\x00\x00\x00\x00\x00\x00\x00\x01\x0d",
        b"b\x00\x7f\xff\xff\xff\xff\xff\xff\xff\x09",
        b"ba\x00",
        b"bbbbbbb\x00",
        b"bbbbbbbb\x00",
        b"bbbbbbbb\x00\x00\x00\x00\x00\x00\x00\x00\x01\x09",
        b"bbbbbbbb\x00\x00",
        b"bbbbbbbbb\x00",
        b"bbbbbbbbc\x00",
    ];
    for (i, a) in rising.iter().enumerate() {
        for (j, b) in rising.iter().enumerate() {
            assert_eq!(rt; order_of(a, b), Some(i.cmp(&j)));
        }
    }
}

fn names_in_a_list(alloc: Global) -> Result<Elements<Bytes>, OutOfMemory> {
    let mut names = Elements::new(alloc);
    names.push(Bytes::copy(alloc, b"a")?)?;
    names.push(Bytes::from_vec(encode_key(alloc, b"b", Timestamp::NONE)?))?;
    Ok(names)
}

#[test]
fn a_list_gives_its_vector_back(rt: HostRuntime) -> Result<(), Fail> {
    let mut names = names_in_a_list(rt.alloc())?;
    assert_eq!(rt; names.len(), 2);
    let last = names.pop().ok_or("two were put in")?;
    assert_eq!(rt; last.into_vec().as_slice(), b"b\x00".as_slice());
    assert!(rt; !names.is_empty());
    let rest = Elements::from_vec(names.into_vec());
    assert_eq!(rt; rest.as_slice().len(), 1);
    assert!(rt; Bytes::new(rt.alloc()).as_slice().is_empty());
    Ok(())
}

fn counts_one<L: Ledger>(blank: Blank) -> bool
    requires name { blank.name ≡ L.name }
    requires parts { blank.parts ≡ L.parts }
    requires some { 0 < blank.parts }
{
    let mut looks = Looks::<L>::new(blank);
    looks.tick();
    true
}

#[test]
fn a_counter_is_made(rt: HostRuntime) {
    assert!(rt; counts_one::<Brand>(Blank::new(1)));
}

fn point(
    alloc: Global,
    key: &[u8],
    wall: u64,
    value: Option<&[u8]>,
) -> Result<PointOp, OutOfMemory> {
    let value = match value {
        Some(bytes) => Some(Bytes::copy(alloc, bytes)?),
        None => None,
    };
    let key = Bytes::from_vec(encode_key(alloc, key, timestamp(wall, 0))?);
    Ok(PointOp { key, value })
}

fn range(
    alloc: Global,
    bounds: (&[u8], &[u8]),
    wall: u64,
    value: &[u8],
) -> Result<RangeOp, OutOfMemory> {
    Ok(RangeOp {
        start: Key::copy(alloc, bounds.0)?,
        end: Key::copy(alloc, bounds.1)?,
        ts: timestamp(wall, 0),
        set: Some(Bytes::copy(alloc, value)?),
    })
}

#[test]
fn a_batch_takes_what_can_be_stored(rt: HostRuntime) -> Result<(), Fail> {
    let mut batch = BatchBuilder::new(rt.alloc());
    let points: [(&[u8], u64, bool); 6] = [
        (b"", 5, false),
        (b"a", 0, true),
        (b"a", 7, true),
        (b"a", 7, false),
        (b"a", 8, false),
        (b"b", 9, true),
    ];
    for (key, wall, taken) in points {
        let op = point(rt.alloc(), key, wall, None)?;
        assert_eq!(rt; batch.push_point(op)?, taken);
    }
    let ranges: [(&[u8], &[u8], u64, &[u8], bool); 5] = [
        (b"b", b"c", 2, b"", true),
        (b"a", b"c", 1, b"", true),
        (b"b", b"b", 1, b"", false),
        (b"a", b"b", 0, b"", false),
        (b"a", b"b", 1, b"x", false),
    ];
    for (start, end, wall, value, taken) in ranges {
        let op = range(rt.alloc(), (start, end), wall, value)?;
        assert_eq!(rt; batch.push_range(op)?, taken);
    }
    let batch = batch.into_batch();
    assert_eq!(rt; (batch.points.len(), batch.ranges.len()), (3, 2));
    Ok(())
}

#[test]
fn long_things_cannot_be_stored(rt: HostRuntime) -> Result<(), Fail> {
    let alloc = rt.alloc();
    for (len, storable) in [(4096, true), (4097, false)] {
        let key = vec![in alloc; b'k'; len]?;
        assert_eq!(rt;
            point(alloc, key.as_slice(), 1, None)?.is_storable(),
            storable
        );
        let op = range(alloc, (b"a", key.as_slice()), 1, b"")?;
        assert!(rt; op.is_storable());
    }
    let key = vec![in alloc; b'k'; 4098]?;
    assert!(rt; !range(alloc, (b"a", key.as_slice()), 1, b"")?.is_storable());
    let key = Bytes::copy(alloc, b"no encoded key")?;
    assert!(rt; !PointOp { key, value: None }.is_storable());
    Ok(())
}

fn record_of(alloc: Global, key: &[u8], wall: u64) -> Result<Bytes, OutOfMemory> {
    let bytes = encode_key(alloc, key, timestamp(wall, 0))?;
    if decode_key(bytes.as_slice()).is_err() {
        return Ok(Bytes::new(alloc));
    }
    Bytes::copy(alloc, record_key(bytes.as_slice()))
}

#[test]
fn the_record_is_at_the_front(rt: HostRuntime) -> Result<(), Fail> {
    for wall in [0, 7] {
        let record = record_of(rt.alloc(), b"foo", wall)?;
        assert_eq!(rt; record.as_slice(), b"foo\x00".as_slice());
    }
    Ok(())
}
