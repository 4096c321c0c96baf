//! Writes of one key, each case of the rule at least once, against what the definition says of them.
use super::*;
use intent_meta::{IntentSeen, ListedIntent, ListedItem, ListedItems};
use mvcc_key::{Bytes, Key, PointOp, SeqRange, Timestamp, decode_key};
use mvcc_value::{Body, OwnedValue, PlainValue};
use std::alloc::Global;
use std::test::Fail;
use txn_state::{Actor, Txn};
use uuid::Uuid;

mod conditions;
mod limits;
mod replays;
mod rewrites;
mod writes;

/// The plain values `abc`, `de`, 7 and 8.
const ABC: &[u8] = b"\0\0\0\0\x03abc";

const DE: &[u8] = b"\0\0\0\0\x03de";

const SEVEN: &[u8] = b"\0\0\0\0\x01\x0e";

const EIGHT: &[u8] = b"\0\0\0\0\x01\x10";

/// The value `de`, written at 7.
const DE_AT_7: &[u8] = b"\0\0\0\x0c\x7f\0\0\0\0\0\0\0\x07\0\0\0\0\0\0\0\0\x03de";

fn at(wall: u64) -> Timestamp {
    Timestamp::new(wall, 0).unwrap_or(Timestamp::NONE)
}

/// Who writes: no transaction, at a wall time, or the transaction 1, with its epoch, its sequence, the wall times at which it
/// reads and writes, and what it ignores.
#[derive(Clone, Copy)]
enum Writer {
    At(u64),
    In(u32, u32, u64, u64, &'static [SeqRange]),
}

/// The transaction 1, at epoch 0 and a sequence, which reads and writes at 7.
fn txn(sequence: u32) -> Writer {
    Writer::In(0, sequence, 7, 7, &[])
}

/// An item: its wall time, and its value, or a tombstone. There is none at 0.
type Stored = (u64, Option<Body<'static>>);

/// The items of a key, the newer first.
type Items = [Stored; 2];

const NO_ITEM: Stored = (0, None);

const NO_ITEMS: Items = [NO_ITEM, NO_ITEM];

/// A version alone.
fn version(wall: u64, body: Body<'static>) -> Items {
    [(wall, Some(body)), NO_ITEM]
}

/// An item over a version.
fn over(item: Stored, wall: u64, body: Body<'static>) -> Items {
    [item, (wall, Some(body))]
}

/// An entry of an intent: its sequence, and its plain value.
type Entry = (u32, &'static [u8]);

/// An intent: its transaction, its epoch, its wall time, its earlier entries, and its provisional one with the encoded value.
#[derive(Clone, Copy)]
struct Laid {
    id: u128,
    epoch: u32,
    wall: u64,
    earlier: &'static [Entry],
    last: Entry,
}

/// An intent of the transaction 1 at epoch 0.
fn own_at(wall: u64, earlier: &'static [Entry], last: Entry) -> Laid {
    Laid {
        id: 1,
        epoch: 0,
        wall,
        earlier,
        last,
    }
}

/// What is told of the key before the write.
type Given = (Option<Laid>, Items);

/// Why the write is refused.
#[derive(Clone, Copy)]
enum Fault {
    Conflict(u128, u64),
    Epoch(u32, u32),
    Missing(u32),
    Mismatch(Option<PlainValue<'static>>),
    TooOld(u64),
    Condition(Option<PlainValue<'static>>),
    NotInteger(PlainValue<'static>),
    Overflow(i64, i64),
}

/// What the write comes to: a version at the wall time of the write, an intent, with the wall time at which the provisional
/// version of the replaced one is cleared, nothing but an answer, or a refusal.
#[derive(Clone, Copy)]
enum Want {
    Adds(&'static [u8], WriteAnswer),
    Leaves(Laid, u64, WriteAnswer),
    Answers(WriteAnswer),
    Refuses(Fault),
}

fn len_of(bytes: &[u8]) -> u32 {
    u32::try_from(bytes.len()).unwrap_or(u32::MAX)
}

/// The encoded record of an intent, field by field. A deletion has no bytes here.
fn record_of(alloc: Global, laid: &Laid) -> Result<Vec<u8>, Fail> {
    let (sequence, value) = laid.last;
    let mut head = Vec::from_slice(alloc, &laid.id.to_be_bytes())?;
    head.extend_from_slice(&laid.epoch.to_be_bytes())?;
    head.extend_from_slice(&sequence.to_be_bytes())?;
    head.extend_from_slice(&laid.wall.to_be_bytes())?;
    head.extend_from_slice(&[0, 0, 0, 0, u8::from(value.is_empty())])?;
    head.extend_from_slice(&len_of(value).to_be_bytes())?;
    head.extend_from_slice(&u32::try_from(laid.earlier.len())?.to_be_bytes())?;
    for (sequence, value) in laid.earlier {
        head.extend_from_slice(&sequence.to_be_bytes())?;
        head.extend_from_slice(&len_of(value).to_be_bytes())?;
        head.extend_from_slice(value)?;
    }
    Ok(head)
}

fn intent_of(alloc: Global, laid: Option<Laid>) -> Result<Option<ListedIntent>, Fail> {
    let Some(laid) = laid else {
        return Ok(None);
    };
    let head = Bytes::from_vec(record_of(alloc, &laid)?);
    let intent = ListedIntent::read(head, Bytes::copy(alloc, laid.last.1)?);
    if intent.is_none() {
        return Err("no intent has these bytes".into());
    }
    Ok(intent)
}

fn item_of(alloc: Global, wall: u64, body: Option<Body<'static>>) -> Result<ListedItem, Fail> {
    Ok(match body {
        Some(body) => ListedItem::version(alloc, at(wall), Timestamp::NONE, body)?,
        None => ListedItem::tombstone(at(wall)),
    })
}

/// The key `k` with what is told of it.
fn key_of(alloc: Global, (laid, stored): Given) -> Result<ListedItems, Fail> {
    let intent = intent_of(alloc, laid)?;
    let mut items = ListedItems::new(alloc, Key::copy(alloc, b"k")?, intent);
    for (wall, body) in stored {
        if wall != 0 && !items.push(item_of(alloc, wall, body)?)? {
            return Err("the items do not descend".into());
        }
    }
    Ok(items)
}

/// The transaction 1 with this epoch and sequence, which reads and writes at these wall times.
fn begin(
    alloc: Global,
    (epoch, sequence): (u32, u32),
    (read, write): (u64, u64),
    ignored: &[SeqRange],
) -> Result<Txn, Fail> {
    let mut txn = Txn::begin(alloc, Uuid::from_u128(1), at(read), at(read));
    for _ in 0..epoch {
        txn.restart(at(read))?;
    }
    txn.step(sequence)?;
    txn.advance(at(write));
    txn.ignore(ignored)?;
    Ok(txn)
}

/// What a write comes to.
type Planned = Result<KeyChange, WriteFault>;

/// What the writer's write of the key comes to.
fn plan_by(
    alloc: Global,
    key: &[u8],
    items: &ListedItems,
    writer: Writer,
    kind: WriteKind<'_>,
    local: Timestamp,
) -> Result<Planned, Fail> {
    match writer {
        Writer::At(wall) => {
            let who = Actor::At(at(wall));
            Ok(plan_write(alloc, key, items, &WriteRequest { who, kind, local }))
        }
        Writer::In(epoch, sequence, read, write, ignored) => {
            let txn = begin(alloc, (epoch, sequence), (read, write), ignored)?;
            let who = Actor::In(&txn);
            Ok(plan_write(alloc, key, items, &WriteRequest { who, kind, local }))
        }
    }
}

/// Whether the operation sets the pair of `k` at the wall time, 0 for the record.
fn sets(op: &PointOp, wall: u64, value: &[u8]) -> bool {
    match (decode_key(op.key.as_slice()), &op.value) {
        (Ok(name), Some(set)) => {
            name.key == b"k".as_slice() && name.ts == at(wall) && set.as_slice() == value
        }
        _ => false,
    }
}

/// Whether the operation clears the pair of `k` at the wall time.
fn clears(op: &PointOp, wall: u64) -> bool {
    match (decode_key(op.key.as_slice()), &op.value) {
        (Ok(name), None) => name.key == b"k".as_slice() && name.ts == at(wall),
        _ => false,
    }
}

/// Whether the operations put this intent, and clear a pair at the wall time `old`, where that is not 0.
fn puts(alloc: Global, ops: &[PointOp], laid: &Laid, old: u64) -> Result<bool, Fail> {
    let head = record_of(alloc, laid)?;
    Ok(match ops {
        [first, second] => {
            old == 0 && sets(first, 0, &head) && sets(second, laid.wall, laid.last.1)
        }
        [first, second, third] => {
            sets(first, 0, &head) && sets(second, laid.wall, laid.last.1) && clears(third, old)
        }
        _ => false,
    })
}

/// Whether the intents are this one of the key `k`.
fn are_one(intents: &[IntentSeen], id: u128, wall: u64) -> bool {
    match intents {
        [seen] => {
            seen.key.bytes() == b"k".as_slice()
                && seen.id == Uuid::from_u128(id)
                && seen.ts == at(wall)
        }
        _ => false,
    }
}

/// Whether an owned value is this one.
fn is_value(value: &Option<OwnedValue>, want: Option<PlainValue<'static>>) -> bool {
    match (value, want) {
        (Some(value), Some(want)) => value.as_plain() == want,
        (None, None) => true,
        _ => false,
    }
}

/// Whether the refusal is this one.
fn is_fault(fault: &WriteFault, want: Fault) -> bool {
    match (fault, want) {
        (WriteFault::Conflict(intents), Fault::Conflict(id, wall)) => {
            are_one(intents.as_slice(), id, wall)
        }
        (WriteFault::EpochFault(a, b), Fault::Epoch(c, d)) => *a == c && *b == d,
        (WriteFault::ReplayMissing(a), Fault::Missing(b)) => *a == b,
        (WriteFault::ReplayMismatch(value), Fault::Mismatch(want)) => is_value(value, want),
        (WriteFault::TooOld(ts), Fault::TooOld(wall)) => *ts == at(wall),
        (WriteFault::ConditionFailed(value), Fault::Condition(want)) => is_value(value, want),
        (WriteFault::NotInteger(value), Fault::NotInteger(want)) => value.as_plain() == want,
        (WriteFault::IntegerOverflow(a, b), Fault::Overflow(c, d)) => *a == c && *b == d,
        _ => false,
    }
}

/// Whether a write that is taken comes to this, where a version would be at the wall time.
fn is_taken(alloc: Global, change: &KeyChange, wall: u64, want: Want) -> Result<bool, Fail> {
    let ops = change.points.as_slice();
    Ok(match want {
        Want::Adds(value, answer) => {
            change.answer == answer && ops.len() == 1 && ops.iter().all(|op| sets(op, wall, value))
        }
        Want::Leaves(laid, old, answer) => {
            change.answer == answer && puts(alloc, ops, &laid, old)?
        }
        Want::Answers(answer) => change.answer == answer && ops.is_empty(),
        Want::Refuses(_) => false,
    })
}

/// Whether a write comes to this, where a version would be at the wall time.
fn is_wanted(alloc: Global, planned: &Planned, wall: u64, want: Want) -> Result<bool, Fail> {
    match (planned, want) {
        (Ok(change), _) => is_taken(alloc, change, wall, want),
        (Err(fault), Want::Refuses(wanted)) => Ok(is_fault(fault, wanted)),
        (Err(_), _) => Ok(false),
    }
}

/// The wall time of a version that the writer adds.
fn wall_of(writer: Writer) -> u64 {
    match writer {
        Writer::At(wall) => wall,
        Writer::In(..) => 0,
    }
}

/// Whether the writer's write of the key `k` comes to this. It has a local timestamp of a wall time, or none at 0.
fn comes_to(
    alloc: Global,
    given: Given,
    writer: Writer,
    (kind, local): (WriteKind<'static>, u64),
    want: Want,
) -> Result<bool, Fail> {
    let items = key_of(alloc, given)?;
    let planned = plan_by(alloc, b"k", &items, writer, kind, at(local))?;
    is_wanted(alloc, &planned, wall_of(writer), want)
}
