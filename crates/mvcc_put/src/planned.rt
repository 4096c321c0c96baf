//! The plan of a write by what is known of the key.
ghost use Rattle.std.specs.Prelude.{◌≡◌, ◌↔◌, ◌≤◌, ◌<◌, ◌^◌, ◌+◌, IsErrOf, length};
ghost use Rattle.mvcc_key.specs.History.{History};
ghost use Rattle.mvcc_key.specs.Limits.{max_key_length};
ghost use Rattle.intent_meta.specs.KeyHistory.{key_history};
ghost use Rattle.intent_meta.specs.LeftAlone.{AgreeAt};
ghost use Rattle.intent_meta.specs.Valid.{IsValid};
ghost use Rattle.write_rule.specs.views.Seen.{request_of};
ghost use Rattle.stat_delta.specs.Moments.{IsStoredBy};
ghost use Rattle.mvcc_cursor.specs.WellFormed.{IsWellFormed, history_in};
ghost use Rattle.mvcc_cursor.specs.views.Seen.{seen};
ghost use Rattle.key_top.specs.Top.{top_in};
ghost use Rattle.key_top.specs.views.Seen.{seen_top};
ghost use Rattle.mvcc_put.specs.WriteLooks.{write_looks};
ghost use Rattle.mvcc_put.specs.views.Changed.{IsTopOf};
ghost use Rattle.mvcc_put.specs.views.Planning.{Plans};

use crate::PutFault;
use crate::change::change_on_top;
use intent_meta::KeyItems;
use key_top::{KeyTop, newest_here, top_here};
use mvcc_cursor::MvccCursor;
use mvcc_key::Looks;
use stat_delta::Change;
use std::alloc::Global;
use std::sync::ledger::Ledger;
use write_rule::{WriteAnswer, WriteRequest, plan_write};

/// What a write of the key comes to, by a cursor, wherever it stands: in the store's history, and in each other one that has of the
/// key what that has.
pub(crate) fn planned_at<L: Ledger>(
    alloc: Global,
    last: u64,
    key: &[u8],
    cursor: &mut MvccCursor<'_>,
    request: &WriteRequest<'_>,
    looks: &mut Looks<L>,
) -> Result<(Change, WriteAnswer), PutFault>
    requires formed { IsWellFormed (history_in (seen cursor.old).store) (seen cursor.old).store }
    requires range { last < 2 ^ 63 }
    ensures outcome { (h : History) → IsValid h → IsStoredBy last h → AgreeAt key.now h (history_in (seen cursor.old).store) → h.tombstones ≡ (history_in (seen cursor.old).store).tombstones
        → Plans result h last key.now (request_of request.now) }
    ensures over { (seen cursor.new).store ≡ (seen cursor.old).store }
    ensures later { looks.old ≤ looks.new }
    ensures looks { looks.new ≤ looks.old + write_looks key.now (seen cursor.old).store }
{
    cursor.seek_exact(key, looks);
    let newest = newest_here(cursor, looks);
    let top = top_here(cursor, key.len() as u64, newest);
    planned_on(alloc, last, key, cursor, &top, request)
}

/// What a write of the key comes to, by what `items` tells of it and by its top.
pub(crate) fn planned_on<K: KeyItems>(
    alloc: Global,
    last: u64,
    key: &[u8],
    items: &K,
    top: &KeyTop<'_>,
    request: &WriteRequest<'_>,
) -> Result<(Change, WriteAnswer), PutFault>
    requires known { length key.now ≤ max_key_length → IsTopOf key.now (K.shown items.now) (seen_top top.now) }
    requires range { last < 2 ^ 63 }
    ensures outcome { (h : History) → IsValid h → IsStoredBy last h → key_history key.now h ≡ K.shown items.now → seen_top top.now ≡ top_in h key.now
        → Plans result h last key.now (request_of request.now) }
    ensures long { IsErrOf result (PutFault.KeyTooLong (length key.now)) ↔ (max_key_length < length key.now) }
    ensures empty { IsErrOf result PutFault.EmptyKey ↔ (length key.now ≡ 0) }
{
    let planned = plan_write(alloc, key, items, request)?;
    let change = change_on_top(alloc, planned.points, top, last);
    Ok((change, planned.answer))
}
