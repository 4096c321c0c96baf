//! Writes of a key into a store that holds nothing, against an outside count of the statistics.
ghost use Rattle.std.specs.Prelude.{◌≡◌, ◌<◌};
ghost use Rattle.lsm_store.specs.Shown.{first_runs};

use super::*;
use lsm_store::Store;
use mvcc_key::{Key, Looks, OutOfMemory, PointOp, Timestamp, decode_key, is_bad_span};
use mvcc_value::PlainValue;
use stat_core::Group;
use stat_delta::Change;
use std::alloc::Global;
use std::marker::Brand;
use std::sync::ledger::{Blank, Ledger};
use std::test::Fail;
use txn_state::Actor;
use write_rule::{WriteAnswer, WriteKind, WriteRequest};

/// Wall times of 7 and 20 seconds.
const SEVENTH: u64 = 7_000_000_000;

const TWENTIETH: u64 = 20_000_000_000;

const ABC: PlainValue<'static> = PlainValue::Bytes(b"abc");

/// The encoded values `abc` and 7.
const SET_ABC: &[u8] = b"\0\0\0\0\x03abc";

const SET_SEVEN: &[u8] = b"\0\0\0\0\x01\x0e";

/// What a write comes to.
#[derive(Clone, Copy)]
enum Want {
    /// The encoded value that is set of the key at the write's timestamp, by how much the statistics change, at which wall
    /// time, and the answer.
    Sets(&'static [u8], Group, u64, WriteAnswer),
    Empty,
    KeyOf(u64),
    ValueOf(u64),
    NoTime,
    NoValue,
}

fn at(wall: u64) -> Timestamp {
    Timestamp::new(wall, 0).unwrap_or(Timestamp::NONE)
}

/// A live key of one byte with one version, whose value has so many bytes, and which has so many with it.
fn live(value: i128, all: i128) -> Group {
    Group {
        key_count: 1,
        key_bytes: 14,
        val_count: 1,
        val_bytes: value,
        live_count: 1,
        live_bytes: all,
        ..Group::zero()
    }
}

/// Whether the operations set this value of the key at the timestamp, and nothing else.
fn sets(ops: &[PointOp], key: &[u8], ts: Timestamp, want: &[u8]) -> bool {
    let [op] = ops else {
        return false;
    };
    match (decode_key(op.key.as_slice()), &op.value) {
        (Ok(name), Some(value)) => { name.key == key && name.ts == ts && value.as_slice() == want }
        _ => false,
    }
}

/// A write of a key where nothing is stored, after a last moment: its wall time, the key, and what is written.
#[derive(Clone, Copy)]
struct Given<'a> {
    last: u64,
    wall: u64,
    key: &'a [u8],
    kind: WriteKind<'a>,
}

/// Whether a write is planned as this.
fn is_planned(change: &Change, answer: WriteAnswer, given: Given<'_>, want: Want) -> bool {
    match want {
        Want::Sets(value, delta, moment, wanted) => {
            sets(
                change.batch.points.as_slice(),
                given.key,
                at(given.wall),
                value,
            ) && change.batch.ranges.is_empty()
                && change.delta == delta
                && change.last == moment
                && answer == wanted
        }
        _ => false,
    }
}

/// Whether a write is refused by this.
fn is_refused(fault: &PutFault, want: Want) -> bool {
    match (fault, want) {
        (PutFault::EmptyKey, Want::Empty) => true,
        (PutFault::KeyTooLong(length), Want::KeyOf(wanted)) => *length == wanted,
        (PutFault::ValueTooLong(length), Want::ValueOf(wanted)) => *length == wanted,
        (PutFault::BadTimestamp, Want::NoTime) => true,
        (PutFault::ConditionFailed(None), Want::NoValue) => true,
        _ => false,
    }
}

/// Whether a write comes to this.
fn comes_to<L: Ledger>(
    alloc: Global,
    store: &Store,
    given: Given<'_>,
    want: Want,
    blank: Blank,
) -> bool
    requires empty { store.now ≡ first_runs }
    requires name { blank.name ≡ L.name }
    requires parts { blank.parts ≡ L.parts }
    requires some { 0 < blank.parts }
{
    let mut looks = Looks::<L>::new(blank);
    let last = at(given.last).wall();
    let request = WriteRequest {
        who: Actor::At(at(given.wall)),
        kind: given.kind,
        local: Timestamp::NONE,
    };
    match plan_put(alloc, store, last, given.key, &request, &mut looks) {
        Ok((change, answer)) => is_planned(&change, answer, given, want),
        Err(fault) => is_refused(&fault, want),
    }
}

/// The writes that are planned: each kind once, and a put after a later moment.
#[test]
fn writes_into_an_empty_store(rt: HostRuntime) -> Result<(), Fail> {
    let put = WriteKind::Put(ABC);
    let deletion = Group {
        key_count: 1,
        key_bytes: 14,
        val_count: 1,
        gc_bytes_age: 182,
        ..Group::zero()
    };
    let done = WriteAnswer::Done;
    let stored = Want::Sets(SET_ABC, live(8, 22), SEVENTH, done);
    let later = Want::Sets(SET_ABC, live(8, 22), TWENTIETH, done);
    let deleted = Want::Sets(b"", deletion, TWENTIETH, WriteAnswer::Found(false));
    let seven = Want::Sets(SET_SEVEN, live(6, 20), SEVENTH, WriteAnswer::Number(7));
    let rows = [
        (0, put, stored),
        (TWENTIETH, put, later),
        (TWENTIETH, WriteKind::Delete, deleted),
        (0, WriteKind::ConditionalPut(ABC, None), stored),
        (0, WriteKind::InitPut(ABC), stored),
        (0, WriteKind::Increment(7), seven),
    ];
    for (last, kind, want) in rows {
        let store = Store::new(rt.alloc());
        let given = Given {
            last,
            wall: SEVENTH,
            key: b"k",
            kind,
        };
        assert!(rt;
            comes_to::<Brand>(rt.alloc(), &store, given, want, Blank::new(1)),
            "{last}"
        );
    }
    Ok(())
}

/// Each refusal that a store that holds nothing can give, in the order of the rule where several apply.
#[test]
fn refusals_over_an_empty_store(rt: HostRuntime) -> Result<(), Fail> {
    let long_value = vec![in rt.alloc(); b'v'; 1_048_577]?;
    let too_long = WriteKind::Put(PlainValue::Bytes(&long_value));
    let put = WriteKind::Put(ABC);
    let if_same = WriteKind::ConditionalPut(ABC, Some(ABC));
    let rows = [
        (0, &b""[..], too_long, Want::Empty),
        (0, &[0x6b; 4097][..], too_long, Want::KeyOf(4097)),
        (0, &[0x6b; 4096][..], too_long, Want::ValueOf(1_048_577)),
        (0, &b"k"[..], put, Want::NoTime),
        (SEVENTH, &b"k"[..], if_same, Want::NoValue),
    ];
    for (wall, key, kind, want) in rows {
        let store = Store::new(rt.alloc());
        let given = Given {
            last: 0,
            wall,
            key,
            kind,
        };
        assert!(rt;
            comes_to::<Brand>(rt.alloc(), &store, given, want, Blank::new(1)),
            "{wall}"
        );
    }
    Ok(())
}

/// What the deletes of two keys come to: how many tombstones are set, by how much the statistics change, and at which wall time.
#[derive(Clone, Copy, PartialEq, Eq, Debug)]
enum Deleted {
    Sets(usize, Group, u64),
    Empty,
    NoTime,
    Other,
}

/// The deletes of two keys where nothing is stored, after a last moment, at a wall time.
fn deletes(
    alloc: Global,
    store: &Store,
    last: u64,
    wall: u64,
    keys: (&[u8], &[u8]),
) -> Result<Deleted, OutOfMemory>
    requires empty { store.now ≡ first_runs }
{
    let (lower, higher) = keys;
    if is_bad_span(lower, higher) {
        return Ok(Deleted::Other);
    }
    let first = Key::copy(alloc, lower)?;
    let second = Key::copy(alloc, higher)?;
    let keys = [first, second];
    let who = Actor::At(at(wall));
    let last = at(last).wall();
    match plan_deletes(alloc, store, last, who, &keys, Timestamp::NONE) {
        Ok(change) => Ok(Deleted::Sets(
            change.batch.points.as_slice().len(),
            change.delta,
            change.last,
        )),
        Err(PutFault::EmptyKey) => Ok(Deleted::Empty),
        Err(PutFault::BadTimestamp) => Ok(Deleted::NoTime),
        Err(_) => Ok(Deleted::Other),
    }
}

/// Two keys are deleted in one change at one moment, and one that is refused refuses both.
#[test]
fn deletes_over_an_empty_store(rt: HostRuntime) -> Result<(), Fail> {
    let two = Group {
        key_count: 2,
        key_bytes: 28,
        val_count: 2,
        ..Group::zero()
    };
    let aged = Group {
        gc_bytes_age: 364,
        ..two
    };
    let keys = (&b"k"[..], &b"l"[..]);
    let from_empty = (&b""[..], &b"l"[..]);
    let rows = [
        (0, SEVENTH, keys, Deleted::Sets(2, two, SEVENTH)),
        (TWENTIETH, SEVENTH, keys, Deleted::Sets(2, aged, TWENTIETH)),
        (0, SEVENTH, from_empty, Deleted::Empty),
        (0, 0, keys, Deleted::NoTime),
    ];
    for (last, wall, keys, want) in rows {
        let store = Store::new(rt.alloc());
        let deleted = deletes(rt.alloc(), &store, last, wall, keys)?;
        assert_eq!(rt; deleted, want, "{last} {wall}");
    }
    Ok(())
}
