//! The decision of a read.
ghost use Rattle.std.specs.Prelude.{◌≡◌, ◌≤◌, ◌↔◌, ⊤, IsTrue, find};
ghost use Rattle.std.specs.Option.{option_map};
ghost use Rattle.std.specs.Borrow.{sem, follows_so};
ghost use mathlib.Core.Option.{none};
ghost use Rattle.mvcc_key.specs.Items.{newest_at};
ghost use Rattle.mvcc_key.specs.views.Seen.{time_of};
ghost use Rattle.intent_meta.specs.KeyHistory.{KeyHistory};
ghost use Rattle.intent_meta.specs.views.WholeKeys.{IsKeyHistory};
ghost use Rattle.intent_meta.specs.views.Lent.{Stays, lent_intent, lent_item, item_times, seen_intent_at, seen_item, seen_times};
ghost use Rattle.txn_state.specs.Transaction.{read_time};
ghost use Rattle.txn_state.specs.views.Seen.{actor_of};
ghost use Rattle.read_rule.specs.Read as read;
ghost use Rattle.read_rule.specs.Causes.{meets_conflict, meets_later_epoch, meets_more_recent, meets_uncertain};
ghost use Rattle.read_rule.specs.views.Decided.{IsDecision, request_of, is_conflict, is_uncertain, is_too_old, is_epoch_fault};
ghost use Rattle.read_rule.specs.views.Steps.{IsOwn, IsByItem};

use crate::by_intent::{ByIntent, by_intent, own_value};
use crate::{Decision, ReadRequest};
use intent_meta::{IntentAt, ItemRef, KeyItems};
use mvcc_key::{Looks, Timestamp};
use mvcc_value::plain_value;
use std::sync::ledger::Ledger;
use txn_state::Actor;

/// What a read of the key answers, and whether the key's intent is listed (CockroachDB `pkg/storage` `pebbleMVCCScanner.getOne`).
/// The first of these that applies decides:
///
/// 1. Another transaction's intent: an inconsistent read passes over it, and lists it where it is at or below the read
///    timestamp. To others it is a `Conflict` where it is at or below the later of the read timestamp and the uncertainty
///    limit, or at any timestamp where the read fails on more recent ones.
/// 2. An own intent: of a later epoch it is an `EpochFault`; of the reader's epoch the last entry that the reader sees answers, at
///    the intent's timestamp.
/// 3. The newest item at or above the read timestamp is `TooOld` where the read fails on more recent ones.
/// 4. The newest item above the read timestamp and up to the uncertainty limit, and by its effective local timestamp up to
///    the local limit, is `Uncertain`.
/// 5. The newest item at or below the read timestamp answers, and a deletion or none is no data.
///
/// It takes no memory and copies no value. What `items` tell, and where they stand, is as before.
pub fn decide<'k, K: KeyItems, L: Ledger>(
    items: &'k mut K,
    request: &ReadRequest<'_>,
    looks: &mut Looks<L>,
) -> (Decision<'k>, bool)
    ensures* stays { sem 𝓛 (follows_so K.row K.row items.entry.ghost_name none (λ _ _. ⊤) (Stays K.shown K.place items.old)) }
    ensures decision { IsDecision (request_of request.now) (K.shown items.old) result.0 }
    ensures listed { result.1 ≡ read.lists (request_of request.now) (K.shown items.old).intent }
    ensures conflict { IsTrue (is_conflict result.0) ↔ IsTrue (meets_conflict (request_of request.now) (K.shown items.old).intent) }
    ensures epoch { IsTrue (is_epoch_fault result.0) ↔ IsTrue (meets_later_epoch (request_of request.now) (K.shown items.old).intent) }
    ensures too_old { IsTrue (is_too_old result.0) ↔ IsTrue (meets_more_recent (request_of request.now) (K.shown items.old)) }
    ensures uncertain { IsTrue (is_uncertain result.0) ↔ IsTrue (meets_uncertain (request_of request.now) (K.shown items.old)) }
    ensures later { looks.old ≤ looks.new }
{
    let listed = match by_intent(items, request) {
        ByIntent::Passed(listed) => listed,
        ByIntent::Own => return (by_entry(items.intent(), request.who), false),
        ByIntent::Conflict(id, ts) => return (Decision::Conflict(id, ts), false),
        ByIntent::EpochFault(own, other) => return (Decision::EpochFault(own, other), false),
    };
    if let Some(ts) = more_recent(items, request) {
        return (Decision::TooOld(ts), listed);
    }
    if let Some((ts, local)) = unsure(items, request, looks) {
        return (Decision::Uncertain(ts, local), listed);
    }
    (
        by_item(items.at_or_below(request.who.read_time(), looks)),
        listed,
    )
}

/// The own entry that the reader sees.
fn by_entry<'k>(intent: Option<IntentAt<'k>>, who: Actor<'_>) -> Decision<'k>
    ensures { (r : read.ReadRequest) (k : KeyHistory) → actor_of who.entry ≡ r.who → IsKeyHistory k → IsOwn r k.intent
        → option_map seen_intent_at intent.entry ≡ option_map lent_intent k.intent → IsDecision r k result }
{
    let (Some(intent), Actor::In(txn)) = (intent, who) else {
        return Decision::Nothing;
    };
    let Some(value) = own_value(intent, txn) else {
        return Decision::Nothing;
    };
    if value.is_empty() {
        return Decision::Nothing;
    }
    Decision::Value(value, intent.head.ts())
}

/// The timestamp of the newest item, where the read fails on it.
fn more_recent<K: KeyItems>(items: &K, request: &ReadRequest<'_>) -> Option<Timestamp>
    ensures { option_map time_of result ≡ option_map (λ i. i.ts) (find (read.is_more_recent (request_of request.now)) (K.shown items.now).items) }
{
    if !request.options.fail_more_recent {
        return None;
    }
    let item = items.newest()?;
    if request.who.read_time().compare(item.ts).is_le() {
        Some(item.ts)
    } else {
        None
    }
}

/// The timestamps of the newest uncertain item. It looks only where the limit is above the read timestamp.
fn unsure<K: KeyItems, L: Ledger>(
    items: &mut K,
    request: &ReadRequest<'_>,
    looks: &mut Looks<L>,
) -> Option<(Timestamp, Timestamp)>
    ensures stays { Stays K.shown K.place items.old items.new }
    ensures value { option_map seen_times result ≡ option_map item_times (find (read.is_unsure (request_of request.now)) (K.shown items.old).items) }
    ensures later { looks.old ≤ looks.new }
{
    let read = request.who.read_time();
    let limit = request.who.uncertainty_limit();
    if limit.compare(read).is_le() {
        return None;
    }
    items.uncertain(read, limit, request.options.local_limit, looks)
}

/// An item as it answers.
fn by_item<'k>(item: Option<ItemRef<'k>>) -> Decision<'k>
    ensures { (r : read.ReadRequest) (k : KeyHistory) → IsKeyHistory k → IsByItem r k
        → option_map seen_item item.entry ≡ option_map lent_item (newest_at (read_time r.who) k.items) → IsDecision r k result }
{
    let Some(item) = item else {
        return Decision::Nothing;
    };
    let Some(value) = item.value else {
        return Decision::Nothing;
    };
    if plain_value(value).is_empty() {
        return Decision::Nothing;
    }
    Decision::Value(value, item.ts)
}
