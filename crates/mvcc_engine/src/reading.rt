//! A read of one key at a timestamp.
ghost use Rattle.std.specs.Prelude.{◌≡◌, ◌<◌, [], ◌∷◌, Some, Ok, IfOk, IsOk};
ghost use Rattle.std.specs.Option.{option_map};
ghost use Rattle.mvcc_key.specs.History.{Body as Stored, History};
ghost use Rattle.mvcc_key.specs.Order.{Timestamp as Time};
ghost use Rattle.mvcc_key.specs.Refusal.{Conflict};
ghost use Rattle.mvcc_key.specs.views.Seen.{time_of};
ghost use Rattle.mvcc_value.specs.Encoding.{value_of};
ghost use Rattle.mvcc_value.specs.views.Seen.{found_of};
ghost use Rattle.intent_meta.specs.KeyHistory.{key_history};
ghost use Rattle.txn_state.specs.views.SeenId.{id_of};
ghost use Rattle.read_rule.specs.Read.{row_of};
ghost use Rattle.read_rule.specs.views.Decided.{IsDecision, request_of};
ghost use Rattle.mvcc_cursor.specs.KeyHistory.{HasAlike};
ghost use Rattle.mvcc_cursor.specs.Standing.{sought_key};
ghost use Rattle.mvcc_cursor.specs.WellFormed.{IsWellFormed, history_in};
ghost use Rattle.mvcc_engine.specs.Step.{read_at};
ghost use Rattle.mvcc_engine.specs.views.Seen.{AnswersGet, IsReadable, refusal_of};

use crate::Refusal;
use intent_meta::IntentSeen;
use lsm_store::Store;
use mvcc_cursor::MvccCursor;
use mvcc_key::{Elements, Key, Looks, OutOfMemory, Timestamp};
use mvcc_value::{Body, Found, OwnedValue, read};
use read_rule::{Decision, ReadOptions, ReadRequest, decide};
use std::alloc::Global;
use std::marker::Brand;
use std::mem;
use std::sync::ledger::{Blank, Ledger};
use txn_state::{Actor, TxnId};

/// What a read of the key outside transactions answers at a timestamp. The buffer is one that serves the cursors of many reads.
pub(crate) fn get(
    buffer: &mut Vec<u8>,
    alloc: Global,
    store: &Store,
    key: &[u8],
    ts: Timestamp,
) -> Result<Option<Found>, Refusal>
    requires { IsWellFormed (history_in store.now) store.now }
    ensures { AnswersGet result (history_in store.now) key.now (time_of ts) }
{
    get_from::<Brand>(buffer, alloc, store, key, ts, Blank::new(1))
}

/// The same, with the looks in a ledger of their own.
fn get_from<L: Ledger>(
    buffer: &mut Vec<u8>,
    alloc: Global,
    store: &Store,
    key: &[u8],
    ts: Timestamp,
    blank: Blank,
) -> Result<Option<Found>, Refusal>
    requires formed { IsWellFormed (history_in store.now) store.now }
    requires name { blank.name ≡ L.name }
    requires parts { blank.parts ≡ L.parts }
    requires some { 0 < blank.parts }
    ensures { AnswersGet result (history_in store.now) key.now (time_of ts) }
{
    let lent = mem::replace(buffer, Vec::new(alloc));
    let mut cursor = MvccCursor::with_buffer(lent, store)?;
    let mut looks = Looks::<L>::new(blank);
    cursor.seek_exact(key, &mut looks);
    let request = outside(ts);
    let answered = answer(alloc, key, decide(&mut cursor, &request, &mut looks).0);
    *buffer = cursor.into_buffer();
    answered
}

/// A plain read outside transactions.
fn outside<'a>(ts: Timestamp) -> ReadRequest<'a>
    ensures { request_of result ≡ read_at (time_of ts) }
{
    ReadRequest {
        who: Actor::At(ts),
        options: ReadOptions {
            local_limit: Timestamp::NONE,
            inconsistent: false,
            fail_more_recent: false,
        },
    }
}

/// The answer that a decision about the key is.
fn answer(alloc: Global, key: &[u8], decision: Decision<'_>) -> Result<Option<Found>, Refusal>
    requires { IsReadable decision }
    ensures { (h : History) (ts : Time) → HasAlike h (sought_key key.now) key.now → IsDecision (read_at ts) (key_history (sought_key key.now) h) decision.entry → AnswersGet result h key.now ts }
{
    match decision {
        Decision::Value(value, found) => Ok(found_in(alloc, key, value, found)?),
        Decision::Conflict(id, existing) => Err(conflict(alloc, key, id, existing)?),
        Decision::Nothing => Ok(None),
        Decision::Uncertain(..) => Ok(None),
        Decision::TooOld(_) => Ok(None),
        Decision::EpochFault(..) => Ok(None),
    }
}

/// A value that is found, with its key.
fn found_in(
    alloc: Global,
    key: &[u8],
    value: &[u8],
    ts: Timestamp,
) -> Result<Option<Found>, OutOfMemory>
    requires { IsOk (value_of (time_of ts) value.now) }
    ensures { (local : Time) (body : Stored) → value_of (time_of ts) value.now ≡ Ok (record { local = local; body = body })
        → IfOk result (λ found. option_map found_of found ≡ option_map (λ row. row.found) (row_of key.now body (time_of ts) 0)) }
{
    let value = match read(value, ts).body {
        Body::Deletion => return Ok(None),
        Body::Bytes(bytes) => OwnedValue::Bytes(Key::copy(alloc, bytes)?),
        Body::Int(number) => OwnedValue::Int(number),
    };
    Ok(Some(Found {
        key: Key::copy(alloc, key)?,
        value,
        ts,
    }))
}

/// That this intent of the key is in the way.
fn conflict(alloc: Global, key: &[u8], id: TxnId, ts: Timestamp) -> Result<Refusal, OutOfMemory>
    ensures { IfOk result (λ why. refusal_of why ≡ Some (Conflict (record { key = key.now; id = id_of id; ts = time_of ts } ∷ []))) }
{
    let key = Key::copy(alloc, key)?;
    let mut intents = Elements::new(alloc);
    intents.push(IntentSeen {
        key,
        id: id.into(),
        ts,
    })?;
    Ok(Refusal::Conflict(intents))
}
