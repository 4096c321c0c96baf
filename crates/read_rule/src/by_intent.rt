//! What the key's intent alone decides of a read.
ghost use Rattle.std.specs.Prelude.{◌≡◌, ◌<◌, List, length, Some, None};
ghost use Rattle.std.specs.Option.{option_map};
ghost use Rattle.mvcc_key.specs.History.{Intent, entry_at};
ghost use Rattle.mvcc_key.specs.Order as order;
ghost use Rattle.mvcc_key.specs.views.Seen.{time_of};
ghost use Rattle.mvcc_value.specs.Encoding.{plain_bytes};
ghost use Rattle.intent_meta.specs.views.Lent.{lent_intent, seen_intent_at};
ghost use Rattle.txn_state.specs.Transaction.{own_txn};
ghost use Rattle.txn_state.specs.views.SeenId.{id_of};
ghost use Rattle.read_rule.specs.Read as read;
ghost use Rattle.read_rule.specs.views.Decided.{request_of};
ghost use Rattle.read_rule.specs.views.Steps.{DecidesByIntent};

use crate::ReadRequest;
use intent_meta::{IntentAt, KeyItems};
use mvcc_key::Timestamp;
use txn_state::{Txn, TxnId};

/// What the intent decides: it is passed over, and listed or not; an entry of the own intent answers; or it refuses.
#[derive(Clone, Copy)]
pub(crate) enum ByIntent {
    Passed(bool),
    Own,
    Conflict(TxnId, Timestamp),
    EpochFault(u32, u32),
}

/// What the key's intent decides, if it has one.
pub(crate) fn by_intent<K: KeyItems>(items: &K, request: &ReadRequest<'_>) -> ByIntent
    ensures { DecidesByIntent result (request_of request.now) (K.shown items.now).key (K.shown items.now).intent }
{
    let Some(intent) = items.intent() else {
        return ByIntent::Passed(false);
    };
    let id = TxnId::from(intent.head.id());
    match request.who.own_txn(id) {
        Some(txn) => by_own(intent, txn),
        None => by_foreign(id, intent.head.ts(), request),
    }
}

/// What an own intent decides.
fn by_own(intent: IntentAt<'_>, txn: &Txn) -> ByIntent
    ensures { (r : read.ReadRequest) (key : List _) (i : Intent) → seen_intent_at intent.entry ≡ lent_intent i → 0 < length i.entries
        → own_txn i.id r.who ≡ Some txn.now → DecidesByIntent result r key (Some i) }
{
    let own = txn.epoch();
    let other = intent.head.epoch();
    if own < other {
        return ByIntent::EpochFault(own, other);
    }
    if own == other && own_value(intent, txn).is_some() {
        return ByIntent::Own;
    }
    ByIntent::Passed(false)
}

/// The plain value of the entry that the transaction sees.
pub(crate) fn own_value<'a>(intent: IntentAt<'a>, txn: &Txn) -> Option<&'a [u8]>
    ensures { (i : Intent) → seen_intent_at intent.entry ≡ lent_intent i → 0 < length i.entries
        → option_map (λ v. v.now) result ≡ option_map (λ e. plain_bytes e.value) (entry_at txn.now.sequence txn.now.ignored i.entries) }
{
    intent
        .head
        .entry_at(txn.sequence(), txn.ignored(), intent.provisional)
}

/// What another's intent at `ts` decides.
fn by_foreign(id: TxnId, ts: Timestamp, request: &ReadRequest<'_>) -> ByIntent
    ensures { (i : Intent) → id_of id ≡ i.id → time_of ts ≡ i.ts → own_txn i.id (request_of request.now).who ≡ None
        → DecidesByIntent result (request_of request.now) i.key (Some i) }
{
    let read = request.who.read_time();
    if request.options.inconsistent {
        return ByIntent::Passed(ts.compare(read).is_le());
    }
    let limit = later(read, request.who.uncertainty_limit());
    if request.options.fail_more_recent || ts.compare(limit).is_le() {
        return ByIntent::Conflict(id, ts);
    }
    ByIntent::Passed(false)
}

/// The later of two timestamps.
fn later(a: Timestamp, b: Timestamp) -> Timestamp
    ensures { time_of result ≡ order.later (time_of a) (time_of b) }
{
    if a.compare(b).is_lt() { b } else { a }
}
