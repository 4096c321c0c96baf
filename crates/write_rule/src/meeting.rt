//! The intent that a write meets.
ghost use Rattle.std.specs.Prelude.{◌≡◌, ◌∷◌, [], Ok, OnOk, IfOk, IfErr, IfSome};
ghost use Rattle.mvcc_key.specs.History.{Intent};
ghost use Rattle.mvcc_key.specs.Refusal.{Conflict};
ghost use Rattle.intent_meta.specs.views.Seen.{seen_intent};
ghost use Rattle.txn_state.specs.Transaction.{In};
ghost use Rattle.txn_state.specs.views.Seen.{actor_of};
ghost use Rattle.write_rule.specs.Write as rule;
ghost use Rattle.write_rule.specs.views.Own.{AreOwn};
ghost use Rattle.write_rule.specs.views.Seen.{IsLate, Tells, refusal_of};

use crate::WriteFault;
use crate::own_intent::OwnIntent;
use intent_meta::{IntentRef, IntentSeen, KeyItems};
use mvcc_key::{Elements, Key, OutOfMemory};
use std::alloc::Global;
use txn_state::{Actor, TxnId};

/// The key's intent, which is the writer's own where there is one. Another's is in the way at any timestamp, and so is an own one
/// of a later epoch.
pub(crate) fn own_intent<'a, K: KeyItems>(
    alloc: Global,
    key: &[u8],
    items: &'a K,
    who: Actor<'a>,
) -> Result<Option<OwnIntent<'a>>, WriteFault>
    ensures own { IfOk result (λ own. AreOwn own (actor_of who.entry) (K.shown items.now).intent) }
    ensures inside { IfOk result (λ own. IfSome own (λ o. actor_of who.entry ≡ In o.txn.now)) }
    ensures free { (w : rule.WriteRequest) → w.who ≡ actor_of who.entry → OnOk result (rule.past_any_intent (K.shown items.now).intent w ≡ Ok w) }
    ensures err { (w : rule.WriteRequest) → w.who ≡ actor_of who.entry → (K.shown items.now).key ≡ key.now
        → IfErr result (λ why. Tells (refusal_of why) (rule.past_any_intent (K.shown items.now).intent w)) }
    ensures late { IfErr result IsLate }
{
    let Some(intent) = items.intent() else {
        return Ok(None);
    };
    let head = intent.head;
    let Some(txn) = who.own_txn(TxnId::from(head.id())) else {
        return Err(conflict(alloc, key, head)?);
    };
    if txn.epoch() < head.epoch() {
        return Err(WriteFault::EpochFault(txn.epoch(), head.epoch()));
    }
    Ok(Some(OwnIntent::of(txn, intent)))
}

/// That this intent of the key is in the way.
fn conflict(alloc: Global, key: &[u8], head: IntentRef<'_>) -> Result<WriteFault, OutOfMemory>
    ensures told { IfOk result (λ why. refusal_of why ≡ Some (Conflict (record { key = key.now; id = (seen_intent head.entry).id; ts = (seen_intent head.entry).ts } ∷ []))) }
    ensures late { IfOk result IsLate }
{
    let key = Key::copy(alloc, key)?;
    let mut intents = Elements::new(alloc);
    intents.push(IntentSeen {
        key,
        id: head.id(),
        ts: head.ts(),
    })?;
    Ok(WriteFault::Conflict(intents))
}
