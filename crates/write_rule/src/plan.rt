//! The plan of a write.
ghost use Rattle.std.specs.Prelude.{◌≡◌, ◌↔◌, ◌<◌, ◌≤◌, Option, None, Ok, Err, IfOk, IfErr, IfNone, IfSome, IsErrOf, length, true};
ghost use Rattle.std.specs.Option.{option_map};
ghost use Rattle.mvcc_key.specs.Batches.{AreEntries};
ghost use Rattle.mvcc_key.specs.History.{History, Intent, intent_of};
ghost use Rattle.mvcc_key.specs.Items.{Item, items, newest as newest_item};
ghost use Rattle.mvcc_key.specs.Limits.{max_bytes_length, max_key_length};
ghost use Rattle.mvcc_key.specs.Order.{is_no_time};
ghost use Rattle.mvcc_value.specs.views.Seen.{plain_body, seen_body};
ghost use Rattle.intent_meta.specs.KeyHistory.{key_history};
ghost use Rattle.intent_meta.specs.Valid.{IsStoredKey, IsValid};
ghost use Rattle.txn_state.specs.Transaction.{Actor, Txn, In, write_time};
ghost use Rattle.txn_state.specs.views.Seen.{actor_of};
ghost use Rattle.write_rule.specs.Write as rule;
ghost use Rattle.write_rule.specs.Writable.{IsWritable};
ghost use Rattle.write_rule.specs.Causes.{HasCause};
ghost use Rattle.write_rule.specs.Planned.{Answers};
ghost use Rattle.write_rule.specs.views.Own.{AreOwn, IsFirst, ReplaysOwn, seen_newest, stamped};
ghost use Rattle.write_rule.specs.views.Seen.{IsLate, kind_of, refusal_of, request_of};

use crate::check::check;
use crate::forming::{form_first, present};
use crate::meeting::own_intent;
use crate::newest::{Newest, newest_of, past_newest};
use crate::own_intent::OwnIntent;
use crate::points::written;
use crate::replay::replay;
use crate::writable::is_writable;
use crate::{KeyChange, WriteFault, WriteRequest};
use intent_meta::KeyItems;
use mvcc_key::Elements;
use mvcc_value::{Body, PlainValue};
use std::alloc::Global;

/// What a write of the key comes to (CockroachDB `mvccPutInternal`), by what `items` tells of it: the operations on what is stored,
/// which a batch may hold, and the answer.
///
/// | refusal | comes exactly where none before it does and |
/// |---|---|
/// | [`WriteFault::EmptyKey`], [`WriteFault::KeyTooLong`] | the key is empty, longer than 4,096 bytes |
/// | [`WriteFault::ValueTooLong`] | the data of a value of bytes is longer than 1,048,576 bytes |
/// | [`WriteFault::BadTimestamp`] | the writer's timestamp is [`Timestamp::NONE`] |
/// | [`WriteFault::Conflict`] | the key has another's intent, at any timestamp |
/// | [`WriteFault::EpochFault`] | the own intent is of a later epoch |
/// | [`WriteFault::ReplayMissing`], [`WriteFault::ReplayMismatch`] | the own intent is of the writer's epoch and has the write's sequence or a later one, and no entry has that sequence, or another value |
/// | [`WriteFault::TooOld`] | the newest item is at or above the timestamp at which the writer reads |
/// | [`WriteFault::ConditionFailed`], [`WriteFault::NotInteger`], [`WriteFault::IntegerOverflow`] | the value before is not the one on which the write depends, is bytes, or leaves 64 bits with what is added |
/// | [`WriteFault::IntentTooLong`] | the record of the new intent is longer than 16,777,216 bytes |
///
/// [`WriteFault::OutOfMemory`] may come in place of any of those from `Conflict` on, and of success.
pub fn plan_write<K: KeyItems>(
    alloc: Global,
    key: &[u8],
    items: &K,
    request: &WriteRequest<'_>,
) -> Result<KeyChange, WriteFault>
    ensures outcome { (h : History) → IsValid h → key_history key.now h ≡ K.shown items.now → Answers result h key.now (request_of request.now) }
    ensures cause { (h : History) → IsValid h → key_history key.now h ≡ K.shown items.now → IfErr result (λ why. IfSome (refusal_of why) (HasCause h key.now (request_of request.now))) }
    ensures batch { IfOk result (λ change. AreEntries change.points) }
    ensures writable { IsWritable (request_of request.now) }
    ensures empty { IsErrOf result WriteFault.EmptyKey ↔ (length key.now ≡ 0) }
    ensures long { IsErrOf result (WriteFault.KeyTooLong (length key.now)) ↔ (max_key_length < length key.now) }
    ensures large { IsErrOf result (WriteFault.ValueTooLong (rule.given_length (kind_of request.now.kind)))
        ↔ (IsStoredKey key.now × (max_bytes_length < rule.given_length (kind_of request.now.kind))) }
    ensures untimed { IsErrOf result WriteFault.BadTimestamp
        ↔ (IsStoredKey key.now × (rule.given_length (kind_of request.now.kind) ≤ max_bytes_length) × (is_no_time (write_time (actor_of request.now.who)) ≡ true)) }
{
    is_writable(request);
    check(key, request)?;
    plan_checked(alloc, key, items, request)
}

/// What a write comes to that passes the tests for which the key need not be looked at.
fn plan_checked<K: KeyItems>(
    alloc: Global,
    key: &[u8],
    items: &K,
    request: &WriteRequest<'_>,
) -> Result<KeyChange, WriteFault>
    requires writable { IsWritable (request_of request.now) }
    requires sound { rule.checked key.now (request_of request.now) ≡ Ok (request_of request.now) }
    ensures outcome { (h : History) → IsValid h → key_history key.now h ≡ K.shown items.now → Answers result h key.now (request_of request.now) }
    ensures batch { IfOk result (λ change. AreEntries change.points) }
    ensures late { IfErr result IsLate }
{
    let own = own_intent(alloc, key, items, request.who)?;
    let newest = newest_of(items);
    let before = value_before(own, newest);
    match replayed(own) {
        Some(own) => {
            let answer = replay(alloc, request.kind, before, own)?;
            let points = Elements::new(alloc);
            Ok(KeyChange { points, answer })
        }
        None => first_time(alloc, key, request, own, newest, before),
    }
}

/// The value before the write: that of the last own entry before it, or else the newest item's. A deletion is none.
fn value_before<'a>(
    own: Option<OwnIntent<'a>>,
    newest: Option<Newest<'a>>,
) -> Option<PlainValue<'a>>
    ensures { (who : Actor) (i : Option Intent) (item : Option Item) → AreOwn own.entry who i → option_map seen_newest newest.entry ≡ option_map stamped item
        → option_map plain_body result ≡ rule.entry_or_item (rule.own_entry (rule.own_intent i who)) item }
{
    match (own_entry(own), newest) {
        (Some(body), _) => present(body),
        (None, Some(item)) => present(item.body),
        (None, None) => None,
    }
}

/// The value of the last own entry before the write, where there is one.
fn own_entry<'a>(own: Option<OwnIntent<'a>>) -> Option<Body<'a>>
    ensures { (who : Actor) (i : Option Intent) → AreOwn own.entry who i
        → option_map seen_body result ≡ option_map (λ e. e.value) (rule.own_entry (rule.own_intent i who)) }
{
    match own {
        Some(own) if own.is_of_epoch() => own.entry_below(),
        _ => None,
    }
}

/// The own intent, where it says that the write was made before.
fn replayed<'a>(own: Option<OwnIntent<'a>>) -> Option<OwnIntent<'a>>
    ensures none { (who : Actor) (i : Option Intent) → AreOwn own.entry who i → IfNone result (rule.replayed (rule.own_intent i who) ≡ None) }
    ensures some { (who : Actor) (i : Option Intent) → AreOwn own.entry who i → IfSome result (λ r. ReplaysOwn r who i) }
    ensures first { (t : Txn) → IfSome own.entry (λ o. o.txn.now ≡ t) → IfNone result (IfSome own.entry (λ o. IsFirst o t)) }
{
    match own {
        Some(own) if own.is_of_epoch() && own.has_replay() => Some(own),
        _ => None,
    }
}

/// What a write comes to that was not made before.
fn first_time<'a>(
    alloc: Global,
    key: &[u8],
    request: &WriteRequest<'a>,
    own: Option<OwnIntent<'a>>,
    newest: Option<Newest<'a>>,
    before: Option<PlainValue<'a>>,
) -> Result<KeyChange, WriteFault>
    requires writable { IsWritable (request_of request.now) }
    requires sound { rule.checked key.now (request_of request.now) ≡ Ok (request_of request.now) }
    requires first { (t : Txn) → actor_of request.now.who ≡ In t → IfSome own (λ o. IsFirst o t) }
    ensures outcome { (h : History) → IsValid h → AreOwn own.entry (actor_of request.now.who) (intent_of key.now h)
        → option_map seen_newest newest.entry ≡ option_map stamped (newest_item (items h key.now))
        → option_map plain_body before.entry ≡ rule.value_before h (actor_of request.now.who) key.now
        → rule.past_any_intent (intent_of key.now h) (request_of request.now) ≡ Ok (request_of request.now)
        → rule.replayed (rule.own_intent (intent_of key.now h) (actor_of request.now.who)) ≡ None
        → Answers result h key.now (request_of request.now) }
    ensures batch { IfOk result (λ change. AreEntries change.points) }
    ensures late { IfErr result IsLate }
{
    past_newest(newest, request.who.read_time())?;
    let formed = form_first(alloc, request.kind, before)?;
    let points = written(alloc, key, request, own, formed.body)?;
    let answer = formed.answer;
    Ok(KeyChange { points, answer })
}
