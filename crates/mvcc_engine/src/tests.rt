//! Courses of commands on an engine, against answers and statistics that were counted outside.
ghost use Rattle.std.specs.Prelude.{◌≡◌, ◌<◌};

use super::*;
use intent_resolve::{Ranged, TxnStatus, Update};
use mvcc_key::{Elements, Looks, OutOfMemory, SeqRange, Timestamp};
use mvcc_value::{Found, OwnedValue, PlainValue};
use stat_core::{Field, Stats};
use std::alloc::Global;
use std::marker::Brand;
use std::sync::ledger::{Blank, Ledger};
use std::test::Fail;
use txn_state::{Actor, Txn};
use uuid::Uuid;

mod conditions;
mod keys;
mod parts;
mod resolutions;
mod times;
mod txns;

const SECOND: u64 = 1_000_000_000;

const LARGEST: u64 = (1 << 63) - 1;

const ABC: PlainValue<'static> = PlainValue::Bytes(b"abc");

const DE: PlainValue<'static> = PlainValue::Bytes(b"de");

const X: PlainValue<'static> = PlainValue::Bytes(b"x");

fn at(wall: u64) -> Timestamp {
    Timestamp::new(wall, 0).unwrap_or(Timestamp::NONE)
}

/// Who writes: no transaction, at a wall time, or a transaction, with the number that its id is, the wall time at which it reads
/// and writes, and its sequence.
#[derive(Clone, Copy)]
enum Writer {
    At(u64),
    In(u128, u64, u32),
}

/// What is written.
#[derive(Clone, Copy)]
enum Write<'a> {
    Put(PlainValue<'a>),
    Delete,
    PutIf(PlainValue<'a>, Option<PlainValue<'a>>),
    InitPut(PlainValue<'a>),
    Increment(i64),
}

/// What is known of a transaction: the number that its id is, its epoch, its status, a wall time, and the first and the last of
/// the sequences that it ignores.
#[derive(Clone, Copy)]
struct Known {
    id: u128,
    epoch: u32,
    status: TxnStatus,
    wall: u64,
    ignored: Option<(u32, u32)>,
}

/// A call: a write of a key, a resolution of one, or of at most so many of a span, a read of a key at a wall time, or another.
#[derive(Clone, Copy)]
enum Call<'a> {
    Write(Writer, &'a [u8], Write<'a>),
    Resolve(&'a [u8], Known),
    ResolveRange(&'a [u8], &'a [u8], Known, Option<u64>),
    Get(&'a [u8], u64),
    Age(u64),
    Flush,
    Compact(u64),
}

/// What a call answers.
#[derive(Drop)]
enum Outcome {
    Done,
    WasThere(bool),
    Number(i64),
    Resolved(bool),
    Took(Ranged),
    Got(Option<Found>),
    Refused(Refusal),
}

/// What a call is to answer; a value that is found with its wall time, and intents that were taken with the start of what is left
/// of the span up to `z`.
#[derive(Clone, Copy)]
enum Answer {
    Done,
    WasThere(bool),
    Number(i64),
    Resolved(bool),
    Took(u64, Option<&'static [u8]>),
    Nothing,
    Shown(PlainValue<'static>, u64),
    Refused(Why),
}

/// Why a call is to be refused; an intent with the number that its id is, and its wall time.
#[derive(Clone, Copy)]
enum Why {
    Empty,
    KeyOf(u64),
    ValueOf(u64),
    NoTime,
    NoSpan,
    Conflict(u128, u64),
    Missing(u32),
    Mismatch(Option<PlainValue<'static>>),
    TooOld(u64),
    Condition(Option<PlainValue<'static>>),
    NotInteger(PlainValue<'static>),
    Overflow(i64, i64),
    Below(u64),
    TooEarly(u64),
    Count(Field),
}

impl From<Result<(), Refusal>> for Outcome {
    fn from(done: Result<(), Refusal>) -> Outcome {
        match done {
            Ok(()) => Outcome::Done,
            Err(why) => Outcome::Refused(why),
        }
    }
}

/// An engine whose statistics have this bound, or the largest.
fn bounded(alloc: Global, count_max: u64) -> Engine {
    if count_max == 0 || count_max > LARGEST {
        return Engine::new(alloc, LARGEST);
    }
    Engine::new(alloc, count_max)
}

fn write_as<L: Ledger>(
    engine: &mut Engine,
    who: Actor<'_>,
    key: &[u8],
    kind: Write<'_>,
    looks: &mut Looks<L>,
) -> Outcome {
    let local = Timestamp::NONE;
    match kind {
        Write::Put(value) => engine.put(who, key, value, local, looks).into(),
        Write::Delete => match engine.delete(who, key, local, looks) {
            Ok(there) => Outcome::WasThere(there),
            Err(why) => Outcome::Refused(why),
        },
        Write::PutIf(value, expected) => {
            engine
                .conditional_put(who, key, value, expected, local, looks)
                .into()
        }
        Write::InitPut(value) => engine.init_put(who, key, value, local, looks).into(),
        Write::Increment(by) => match engine.increment(who, key, by, local, looks) {
            Ok(number) => Outcome::Number(number),
            Err(why) => Outcome::Refused(why),
        },
    }
}

fn write_by<L: Ledger>(
    alloc: Global,
    engine: &mut Engine,
    who: Writer,
    key: &[u8],
    kind: Write<'_>,
    looks: &mut Looks<L>,
) -> Result<Outcome, Fail> {
    match who {
        Writer::At(wall) => Ok(write_as(engine, Actor::At(at(wall)), key, kind, looks)),
        Writer::In(id, wall, sequence) => {
            let mut txn = Txn::begin(alloc, Uuid::from_u128(id), at(wall), Timestamp::NONE);
            txn.step(sequence)?;
            Ok(write_as(engine, Actor::In(&txn), key, kind, looks))
        }
    }
}

/// What an update says that knows this.
fn update(alloc: Global, known: Known) -> Result<Update, OutOfMemory> {
    let mut ignored = Elements::new(alloc);
    if let Some((first, last)) = known.ignored {
        ignored.push(SeqRange { first, last })?;
    }
    Ok(Update {
        id: Uuid::from_u128(known.id),
        epoch: known.epoch,
        status: known.status,
        ts: at(known.wall),
        ignored,
    })
}

fn resolve<L: Ledger>(
    alloc: Global,
    engine: &mut Engine,
    key: &[u8],
    known: Known,
    looks: &mut Looks<L>,
) -> Result<Outcome, Fail> {
    match engine.resolve(key, &update(alloc, known)?, looks) {
        Ok(found) => Ok(Outcome::Resolved(found)),
        Err(why) => Ok(Outcome::Refused(why)),
    }
}

fn resolve_range(
    alloc: Global,
    engine: &mut Engine,
    span: (&[u8], &[u8]),
    known: Known,
    max: Option<u64>,
) -> Result<Outcome, Fail> {
    match engine.resolve_range(span.0, span.1, &update(alloc, known)?, max) {
        Ok(ranged) => Ok(Outcome::Took(ranged)),
        Err(why) => Ok(Outcome::Refused(why)),
    }
}

fn age(engine: &mut Engine, now: u64) -> Result<(), Refusal> {
    if now <= LARGEST {
        engine.age(now)?;
    }
    Ok(())
}

fn flush(engine: &mut Engine) -> Result<(), Refusal> {
    engine.flush()?;
    Ok(())
}

fn compact(engine: &mut Engine, keep: u64) -> Result<(), Refusal> {
    engine.compact(keep.max(1))?;
    Ok(())
}

fn make<L: Ledger>(
    alloc: Global,
    engine: &mut Engine,
    call: Call<'_>,
    looks: &mut Looks<L>,
) -> Result<Outcome, Fail> {
    match call {
        Call::Write(who, key, kind) => write_by(alloc, engine, who, key, kind, looks),
        Call::Resolve(key, known) => resolve(alloc, engine, key, known, looks),
        Call::ResolveRange(start, end, known, max) => {
            resolve_range(alloc, engine, (start, end), known, max)
        }
        Call::Get(key, wall) => match engine.get_at(key, at(wall)) {
            Ok(found) => Ok(Outcome::Got(found)),
            Err(why) => Ok(Outcome::Refused(why)),
        },
        Call::Age(now) => Ok(age(engine, now).into()),
        Call::Flush => Ok(flush(engine).into()),
        Call::Compact(keep) => Ok(compact(engine, keep).into()),
    }
}

/// Whether a value of its own is this one, or both are none.
fn is_value(value: &Option<OwnedValue>, want: Option<PlainValue<'_>>) -> bool {
    match (value, want) {
        (Some(value), Some(want)) => value.as_plain() == want,
        (None, None) => true,
        _ => false,
    }
}

fn is_why(refusal: &Refusal, want: Why) -> bool {
    match (refusal, want) {
        (Refusal::EmptyKey, Why::Empty) => true,
        (Refusal::KeyTooLong(length), Why::KeyOf(want)) => *length == want,
        (Refusal::ValueTooLong(length), Why::ValueOf(want)) => *length == want,
        (Refusal::BadTimestamp, Why::NoTime) => true,
        (Refusal::BadSpan, Why::NoSpan) => true,
        (Refusal::Conflict(intents), Why::Conflict(id, wall)) => match intents.as_slice() {
            [intent] => intent.id == Uuid::from_u128(id) && intent.ts == at(wall),
            _ => false,
        },
        (Refusal::ReplayMissing(sequence), Why::Missing(want)) => *sequence == want,
        (Refusal::ReplayMismatch(stored), Why::Mismatch(want)) => is_value(stored, want),
        (Refusal::TooOld(existing), Why::TooOld(wall)) => *existing == at(wall),
        (Refusal::ConditionFailed(actual), Why::Condition(want)) => is_value(actual, want),
        (Refusal::NotInteger(actual), Why::NotInteger(want)) => actual.as_plain() == want,
        (Refusal::IntegerOverflow(old, by), Why::Overflow(number, added)) => {
            *old == number && *by == added
        }
        (Refusal::CommitBelowIntent(ts), Why::Below(wall)) => *ts == at(wall),
        (Refusal::MomentTooEarly(latest), Why::TooEarly(want)) => *latest == want,
        (Refusal::CountOverflow(field), Why::Count(want)) => *field == want,
        _ => false,
    }
}

/// Whether so many intents were taken, and the rest of the span up to `z` begins here.
fn is_taken(ranged: &Ranged, count: u64, rest: Option<&[u8]>) -> bool {
    let is_rest = match (&ranged.resume, rest) {
        (Some(span), Some(start)) => span.start.bytes() == start
            && span.end.bytes() == b"z".as_slice(),
        (None, None) => true,
        _ => false,
    };
    ranged.count == count && is_rest
}

fn is_answer(outcome: &Outcome, want: Answer) -> bool {
    match (outcome, want) {
        (Outcome::Done, Answer::Done) => true,
        (Outcome::WasThere(there), Answer::WasThere(want)) => *there == want,
        (Outcome::Number(number), Answer::Number(want)) => *number == want,
        (Outcome::Resolved(found), Answer::Resolved(want)) => *found == want,
        (Outcome::Took(ranged), Answer::Took(count, rest)) => is_taken(ranged, count, rest),
        (Outcome::Got(None), Answer::Nothing) => true,
        (Outcome::Got(Some(found)), Answer::Shown(value, wall)) => {
            found.value.as_plain() == value && found.ts == at(wall)
        }
        (Outcome::Refused(why), Answer::Refused(want)) => is_why(why, want),
        _ => false,
    }
}

/// The number of the first call that is not answered as is wanted.
fn first_wrong<L: Ledger>(
    alloc: Global,
    engine: &mut Engine,
    calls: &[(Call<'_>, Answer)],
    looks: &mut Looks<L>,
) -> Result<Option<usize>, Fail> {
    for (i, (call, answer)) in calls.iter().enumerate() {
        let outcome = make(alloc, engine, *call, looks)?;
        if !is_answer(&outcome, *answer) {
            return Ok(Some(i));
        }
    }
    Ok(None)
}

/// The same, on an engine that is bounded so, with the engine after the calls.
fn course(
    alloc: Global,
    count_max: u64,
    calls: &[(Call<'_>, Answer)],
) -> Result<(Option<usize>, Engine), Fail> {
    course_in::<Brand>(alloc, count_max, calls, Blank::new(1))
}

/// The same, with the looks in a ledger of their own.
fn course_in<L: Ledger>(
    alloc: Global,
    count_max: u64,
    calls: &[(Call<'_>, Answer)],
    blank: Blank,
) -> Result<(Option<usize>, Engine), Fail>
    requires name { blank.name ≡ L.name }
    requires parts { blank.parts ≡ L.parts }
    requires some { 0 < blank.parts }
{
    let mut looks = Looks::<L>::new(blank);
    let mut engine = bounded(alloc, count_max);
    let wrong = first_wrong(alloc, &mut engine, calls, &mut looks)?;
    Ok((wrong, engine))
}

/// All statistics in their order, the moment last.
fn numbers(stats: &Stats) -> [u64; 15] {
    [
        stats.key_count(),
        stats.key_bytes(),
        stats.val_count(),
        stats.val_bytes(),
        stats.live_count(),
        stats.live_bytes(),
        stats.intent_count(),
        stats.intent_bytes(),
        stats.intent_age(),
        stats.gc_bytes_age(),
        stats.range_key_count(),
        stats.range_key_bytes(),
        stats.range_val_count(),
        stats.range_val_bytes(),
        stats.last_update_nanos(),
    ]
}

/// The statistics of keys without tombstones: key_count, key_bytes, val_count, val_bytes, live_count, live_bytes; then
/// intent_count, intent_bytes, intent_age; then gc_bytes_age and the moment.
fn of_keys(keys: [u64; 6], intents: [u64; 3], age: u64, last: u64) -> [u64; 15] {
    let [
        key_count,
        key_bytes,
        val_count,
        val_bytes,
        live_count,
        live_bytes,
    ] = keys;
    let [intent_count, intent_bytes, intent_age] = intents;
    [
        key_count,
        key_bytes,
        val_count,
        val_bytes,
        live_count,
        live_bytes,
        intent_count,
        intent_bytes,
        intent_age,
        age,
        0,
        0,
        0,
        0,
        last,
    ]
}
