//! The record of the intent that a write leaves.
ghost use Rattle.std.specs.Prelude.{◌≡◌, ◌≤◌, Option, None, IfOk, IfSome, length, map, true, false};
ghost use Rattle.std.specs.Option.{option_map};
ghost use Rattle.mvcc_key.specs.History as history;
ghost use Rattle.mvcc_key.specs.History.{Intent};
ghost use Rattle.mvcc_key.specs.Order as order;
ghost use Rattle.mvcc_key.specs.views.Seen.{time_of};
ghost use Rattle.mvcc_value.specs.views.Seen.{seen_body};
ghost use Rattle.mvcc_value.specs.Encoding.{is_value_length};
ghost use Rattle.intent_meta.specs.Rules.{AreRecordEntries};
ghost use Rattle.intent_meta.specs.StoredPairs.{intent_record, plain_entry, provisional, stored_value};
ghost use Rattle.txn_state.specs.Transaction.{Actor, Txn, In};
ghost use Rattle.write_rule.specs.Write as rule;
ghost use Rattle.write_rule.specs.views.Own.{AreOwn, IsFirst, seen_own, time_behind};
ghost use Rattle.write_rule.specs.views.Points.{IsLeft};

use crate::own_intent::OwnIntent;
use intent_meta::{Entries, IntentRecord};
use mvcc_key::{OutOfMemory, Timestamp};
use mvcc_value::Body;
use std::alloc::Global;
use txn_state::Txn;

/// The timestamp of the write, never below that of the intent that it replaces.
pub(crate) fn raised(write_ts: Timestamp, own: Option<OwnIntent<'_>>) -> Timestamp
    ensures value { (who : Actor) (i : Option Intent) → AreOwn own.entry who i → time_of result ≡ rule.raised_time (time_of write_ts) i }
    ensures some { order.is_no_time (time_of write_ts) ≡ false → order.is_no_time (time_of result) ≡ false }
    ensures no_lower { IfSome own.entry (λ o. order.is_up_to (seen_own o).head.ts (time_of result) ≡ true) }
{
    match own {
        Some(own) => later(write_ts, own.ts()),
        None => write_ts,
    }
}

/// The later of two timestamps.
fn later(a: Timestamp, b: Timestamp) -> Timestamp
    ensures { time_of result ≡ order.later (time_of a) (time_of b) }
{
    if a.compare(b).is_lt() { b } else { a }
}

/// Where the replaced intent's provisional version stands, if the new one at `ts` does not take its place.
pub(crate) fn moved(own: Option<OwnIntent<'_>>, ts: Timestamp) -> Option<Timestamp>
    ensures value { (who : Actor) (i : Option Intent) → AreOwn own.entry who i → option_map time_of result ≡ time_behind (time_of ts) i }
    ensures left { IfSome own.entry (λ o. order.is_up_to (seen_own o).head.ts (time_of ts) ≡ true) → IfSome result (λ l. IsLeft (time_of l) (time_of ts)) }
{
    let old = own?.ts();
    if old == ts { None } else { Some(old) }
}

/// The record of the intent that a write leaves: the entries of the earlier intent that count in its history.
pub(crate) fn new_record(
    alloc: Global,
    txn: &Txn,
    ts: Timestamp,
    own: Option<OwnIntent<'_>>,
    body: Body<'_>,
    value_len: u32,
) -> Result<IntentRecord, OutOfMemory>
    requires time { order.is_no_time (time_of ts) ≡ false }
    requires value { is_value_length (history.is_deletion (seen_body body)) value_len ≡ true }
    requires first { IfSome own (λ o. IsFirst o txn.now) }
    ensures { (key : order.Key) (local : order.Timestamp) (i : Option Intent) → AreOwn own.entry (In txn.now) i → time_of ts ≡ rule.raised_time txn.now.write_ts i
        → value_len ≡ length (stored_value (provisional (rule.new_intent key txn.now i local (seen_body body.entry))))
        → IfOk result (λ r. r ≡ intent_record (rule.new_intent key txn.now i local (seen_body body.entry))) }
{
    let history = kept_entries(alloc, txn, own)?;
    Ok(IntentRecord::new(
        txn.id(),
        txn.epoch(),
        ts,
        txn.sequence(),
        is_deletion(body),
        value_len,
        history,
    ))
}

/// The value is a deletion.
fn is_deletion(body: Body<'_>) -> bool
    ensures { result ≡ history.is_deletion (seen_body body.entry) }
{
    matches!(body, Body::Deletion)
}

/// The entries that stand before the one of a write: those of the writer's intent, where it is of its epoch, that are not
/// ignored.
fn kept_entries(
    alloc: Global,
    txn: &Txn,
    own: Option<OwnIntent<'_>>,
) -> Result<Entries, OutOfMemory>
    requires { IfSome own (λ o. IsFirst o txn.now) }
    ensures entries { (i : Option Intent) → AreOwn own.entry (In txn.now) i → IfOk result (λ left. left ≡ map plain_entry (rule.kept_entries (rule.own_intent i (In txn.now)))) }
    ensures rules { IfOk result (AreRecordEntries None txn.now.sequence) }
{
    match own {
        Some(own) if own.is_of_epoch() => own.kept(alloc),
        _ => Ok(Entries::new(alloc)),
    }
}
