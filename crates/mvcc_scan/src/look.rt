//! A read of the key at which a cursor stands.
ghost use Rattle.std.specs.Prelude.{◌≡◌, ◌&&◌, ◌==◌, IfOk, nat_le, not, None, if◌then◌else◌};
ghost use Rattle.mvcc_key.specs.History.{is_ignored};
ghost use Rattle.intent_meta.specs.views.Lent.{Stays};
ghost use Rattle.intent_meta.specs.views.Seen.{is_ignored_by};
ghost use Rattle.txn_state.specs.views.Seen.{actor_of};
ghost use Rattle.read_rule.specs.Read as read;
ghost use Rattle.read_rule.specs.views.Decided.{request_of};
ghost use Rattle.mvcc_cursor.specs.views.Seen.{place_by, told_by};
ghost use Rattle.mvcc_scan.specs.views.Kept.{IsLength, IsLooked};

use crate::kept::{Kept, keep};
use crate::met::{Met, intent_met};
use intent_meta::KeyItems;
use mvcc_cursor::MvccCursor;
use mvcc_key::{Looks, OutOfMemory, SeqRange};
use read_rule::{ReadRequest, decide};
use std::alloc::Global;
use std::sync::ledger::Ledger;
use txn_state::{Actor, Txn, TxnId};

/// What a read of a key comes to, and the intent that it lists.
#[derive(Drop)]
pub(crate) struct Looked {
    pub(crate) kept: Kept,
    pub(crate) listed: Option<Met>,
}

/// A read of the key at which the cursor stands, which stays there.
pub(crate) fn look<L: Ledger>(
    alloc: Global,
    cursor: &mut MvccCursor<'_>,
    request: &ReadRequest<'_>,
    looks: &mut Looks<L>,
) -> Result<Looked, OutOfMemory>
    ensures stays { Stays told_by place_by cursor.old cursor.new }
    ensures looked { IfOk result (IsLooked (request_of request.now) (told_by cursor.old)) }
{
    let met = intent_met(cursor);
    let len = provisional_len(cursor, request.who);
    let (decision, is_listed) = decide(cursor, request, looks);
    let kept = keep(alloc, decision, len)?;
    Ok(Looked {
        kept,
        listed: met_if(is_listed, met),
    })
}

/// The intent that was met, where it is listed.
fn met_if(is_listed: bool, met: Option<Met>) -> Option<Met>
    ensures { result ≡ (if is_listed then met else None) }
{
    if is_listed { met } else { None }
}

/// How many bytes the value of the provisional version has, where the reader sees that entry of its own intent.
fn provisional_len(cursor: &MvccCursor<'_>, who: Actor<'_>) -> Option<u32>
    ensures { (r : read.ReadRequest) → actor_of who.entry ≡ r.who → IsLength r (told_by cursor.now) result }
{
    let intent = cursor.intent()?;
    let head = intent.head;
    let txn = who.own_txn(TxnId::from(head.id()))?;
    if sees_last(txn, head.epoch(), head.sequence()) {
        Some(head.value_len())
    } else {
        None
    }
}

/// Whether the transaction sees the last entry of its intent, which has this epoch and this sequence.
fn sees_last(txn: &Txn, epoch: u32, sequence: u32) -> bool
    ensures { result ≡ ((txn.now.epoch == epoch) && (nat_le sequence txn.now.sequence && not (is_ignored txn.now.ignored sequence))) }
{
    txn.epoch() == epoch && sequence <= txn.sequence() && !ignores(txn, sequence)
}

/// Whether the transaction ignores what it wrote at the sequence.
fn ignores(txn: &Txn, sequence: u32) -> bool
    ensures { result ≡ is_ignored txn.now.ignored sequence }
{
    is_among(txn.ignored(), sequence)
}

/// Whether a range contains the sequence.
fn is_among(ignored: &[SeqRange], sequence: u32) -> bool
    ensures { result ≡ is_ignored_by ignored.now sequence }
{
    ignored
        .iter()
        .any(|range| range.first <= sequence && sequence <= range.last)
}
