//! Worked records and damaged ones, against bytes that were written by hand.
use super::*;
use mvcc_key::{Bytes, Key, OutOfMemory, SeqRange, Timestamp};
use std::alloc::Global;
use std::process::Abort;
use std::test::Fail;
use uuid::Uuid;

/// A put of `abc` at two seconds, of the transaction 1 at sequence 0.
const FIRST: [u8; 45] =
    *b"\0\0\0\0\0\0\0\0\0\0\0\0\0\0\0\x01\0\0\0\0\0\0\0\0\0\0\0\0\x77\x35\x94\0\0\0\0\0\0\0\0\0\x08\0\0\0\0";

/// Then a put of `de` at sequence 1.
const SECOND: [u8; 61] =
    *b"\0\0\0\0\0\0\0\0\0\0\0\0\0\0\0\x01\0\0\0\0\0\0\0\x01\0\0\0\0\x77\x35\x94\0\0\0\0\0\0\0\0\0\x07\0\0\0\x01\0\0\0\0\0\0\0\x08\0\0\0\0\x03abc";

/// The plain value `abc`.
const ABC: &[u8] = b"\0\0\0\0\x03abc";

/// The plain value `de`.
const DE: &[u8] = b"\0\0\0\0\x03de";

/// Two seconds.
fn two_seconds() -> Result<Timestamp, Fail> {
    Ok(Timestamp::new(2_000_000_000, 0).ok_or("a timestamp in range")?)
}

/// The record's bytes are these, and these bytes are a record with its fields.
fn check(
    rt: &impl Abort,
    alloc: Global,
    record: &IntentRecord,
    sequence: u32,
    bytes: &[u8],
) -> Result<(), Fail> {
    assert_eq!(rt; record.encode(alloc)?.as_slice(), bytes);
    assert_eq!(rt; record.encoded_len(), bytes.len() as u64);
    let read = decode(bytes)?;
    assert_eq!(rt; read.bytes(), bytes);
    assert_eq!(rt; read.id(), Uuid::from_u128(1));
    assert_eq!(rt; read.epoch(), 0);
    assert_eq!(rt; read.sequence(), sequence);
    assert_eq!(rt; read.ts(), two_seconds()?);
    assert!(rt; record_time(bytes) == Some(two_seconds()?));
    assert!(rt; record_time(&bytes[..35.min(bytes.len())]).is_none());
    assert!(rt; !read.deleted());
    Ok(())
}

#[test]
fn worked_records(rt: HostRuntime) -> Result<(), Fail> {
    let id = Uuid::from_u128(1);
    let ts = Timestamp::new(2_000_000_000, 0).ok_or("a timestamp in range")?;
    let first = IntentRecord::new(id, 0, ts, 0, false, 8, Entries::new(rt.alloc()));
    check(&rt, rt.alloc(), &first, 0, &FIRST)?;
    let mut history = Entries::new(rt.alloc());
    history.push(Entry {
        sequence: 0,
        value: Bytes::copy(rt.alloc(), b"\0\0\0\0\x03abc")?,
    })?;
    let second = IntentRecord::new(id, 0, ts, 1, false, 7, history);
    check(&rt, rt.alloc(), &second, 1, &SECOND)?;
    Ok(())
}

#[test]
fn every_prefix_is_short(rt: HostRuntime) {
    for len in 0..SECOND.len() {
        let fault = decode(&SECOND[..len]).err();
        assert_eq!(rt; fault, Some(IntentFault::Short), "{len}");
    }
}

/// The second record with these bytes from the place on, cut to a length.
#[derive(Drop)]
struct Damage {
    at: usize,
    new: &'static [u8],
    len: usize,
    fault: IntentFault,
}

/// The whole record with these bytes from the place on.
fn damaged(at: usize, new: &'static [u8], fault: IntentFault) -> Damage {
    cut(at, new, 61, fault)
}

/// The record with these bytes from the place on, cut to a length.
fn cut(at: usize, new: &'static [u8], len: usize, fault: IntentFault) -> Damage {
    Damage {
        at,
        new,
        len,
        fault,
    }
}

/// The second record with these bytes from the place on.
fn damaged_bytes(rt: &impl Abort, at: usize, new: &[u8]) -> [u8; 61] {
    let mut bytes = SECOND;
    assert!(rt; at <= 61);
    assert!(rt; new.len() <= 61 - at);
    bytes[at..at + new.len()].copy_from_slice(new);
    bytes
}

#[test]
fn damaged_records(rt: HostRuntime) -> Result<(), Fail> {
    use IntentFault::{Length, Order, Range, Short, Trailing};
    let rows = [
        damaged(16, b"\x80\0\0\0", Range),
        damaged(20, b"\x80\0\0\0", Range),
        damaged(24, b"\x80\0\0\0\0\0\0\0", Range),
        damaged(32, b"\x80\0\0\0", Range),
        damaged(24, b"\0\0\0\0\0\0\0\0\0\0\0\0", Range),
        damaged(36, b"\x02", Length),
        damaged(36, b"\x01", Length),
        damaged(37, b"\0\0\0\x04", Length),
        damaged(41, b"\0\0\0\0", Trailing),
        damaged(41, b"\0\0\0\x02", Short),
        damaged(41, b"\xff\xff\xff\xff", Short),
        cut(41, b"\xff\xff\xff\xff", 45, Short),
        damaged(45, b"\x80\0\0\0", Range),
        damaged(45, b"\0\0\0\x01", Order),
        damaged(49, b"\0\0\0\x09", Short),
        damaged(49, b"\0\0\0\x07", Trailing),
        damaged(49, b"\0\0\0\0", Trailing),
        damaged(49, b"\0\0\0\x04", Length),
        damaged(53, b"\x01", Length),
        damaged(57, b"\x02", Length),
        damaged(57, b"\x7f", Length),
        cut(16, b"\x80\0\0\0", 20, Range),
        cut(24, b"\x80\0\0\0\0\0\0\0", 32, Range),
        cut(36, b"\x02", 37, Length),
        cut(37, b"\0\0\0\x04", 41, Length),
        cut(45, b"\0\0\0\x01", 49, Order),
        cut(57, b"\x02", 60, Short),
    ];
    for row in &rows {
        let bytes = damaged_bytes(&rt, row.at, row.new);
        let len = row.len;
        assert!(rt; len <= 61);
        let fault = decode(&bytes[..len]).err();
        assert_eq!(rt; fault, Some(row.fault), "{} {:?}", row.at, row.new);
    }
    assert_eq!(rt;
        Order.to_string(rt.alloc())?.as_str(),
        "the sequences of the intent record do not rise"
    );
    Ok(())
}

/// The second record with other bytes from its sequence on.
fn with_history(alloc: Global, tail: &[u8]) -> Result<Vec<u8>, OutOfMemory> {
    let mut bytes = Vec::from_slice(alloc, &SECOND[..20])?;
    bytes.extend_from_slice(tail)?;
    Ok(bytes)
}

#[test]
fn histories(rt: HostRuntime) -> Result<(), Fail> {
    let head_and_two = b"\0\0\0\x02\0\0\0\0\x77\x35\x94\0\0\0\0\0\x01\0\0\0\x11\0\0\0\x02";
    let rising = b"\0\0\0\0\0\0\0\0\0\0\0\x01\0\0\0\x05\0\0\0\0\x03";
    let equal = b"\0\0\0\x01\0\0\0\0\0\0\0\x01\0\0\0\x05\0\0\0\0\x03";
    let headed = b"\0\0\0\0\0\0\0\x11\0\0\0\x0c\x7f\0\0\0\0\0\0\0\x01\0\0\0\0\0\0\0\x01\0\0\0\0";
    let rows = [
        (rising.as_slice(), None),
        (equal, Some(IntentFault::Order)),
        (headed, Some(IntentFault::Length)),
    ];
    for (tail, fault) in rows {
        let mut bytes = with_history(rt.alloc(), head_and_two)?;
        bytes.extend_from_slice(tail)?;
        assert_eq!(rt; decode(&bytes).err(), fault, "{tail:?}");
    }
    let mut bytes = with_history(rt.alloc(), head_and_two)?;
    bytes.extend_from_slice(rising)?;
    assert!(rt; decode(&bytes)?.deleted());
    Ok(())
}

/// A range of sequences.
fn range(first: u32, last: u32) -> SeqRange {
    SeqRange { first, last }
}

#[test]
fn entries_that_are_seen(rt: HostRuntime) -> Result<(), Fail> {
    let record = decode(&SECOND)?;
    let rows = [
        (0, range(9, 9), Some(ABC)),
        (1, range(9, 9), Some(DE)),
        (7, range(9, 9), Some(DE)),
        (1, range(1, 1), Some(ABC)),
        (0, range(0, 0), None),
        (1, range(0, 0), Some(DE)),
        (7, range(0, 1), None),
        (7, range(1, 0), Some(DE)),
    ];
    for (sequence, ignored, value) in rows {
        assert!(rt;
            record.entry_at(sequence, &[ignored], DE) == value,
            "{sequence} {ignored:?}"
        );
    }
    assert!(rt; record.entry_at(7, &[range(1, 1), range(0, 0)], DE) == None);
    assert!(rt; decode(&FIRST)?.entry_at(0, &[], ABC) == Some(ABC));
    Ok(())
}

#[test]
fn entries_that_are_left(rt: HostRuntime) -> Result<(), Fail> {
    let record = decode(&SECOND)?;
    let rows: [(SeqRange, &[(u32, &[u8])]); 4] = [
        (range(9, 9), &[(0, ABC), (1, DE)]),
        (range(1, 1), &[(0, ABC)]),
        (range(0, 0), &[(1, DE)]),
        (range(0, 1), &[]),
    ];
    for (ignored, entries) in rows {
        let left = record.without_ignored(rt.alloc(), &[ignored], DE)?;
        let Some(left) = left else {
            assert!(rt; entries.is_empty(), "{ignored:?}");
            continue;
        };
        assert_eq!(rt; left.len(), entries.len());
        for (entry, (sequence, value)) in left.as_slice().iter().zip(entries) {
            assert_eq!(rt; entry.sequence, *sequence);
            assert_eq!(rt; entry.value.as_slice(), *value);
        }
    }
    Ok(())
}

#[test]
fn intents_that_were_seen(rt: HostRuntime) -> Result<(), Fail> {
    let record = decode(&SECOND)?;
    let seen = IntentSeen {
        key: Key::copy(rt.alloc(), b"a")?,
        id: record.id(),
        ts: record.ts(),
    };
    assert_eq!(rt; seen.key.bytes(), b"a".as_slice());
    one_spelling();
    stored_is_read_back();
    Ok(())
}
