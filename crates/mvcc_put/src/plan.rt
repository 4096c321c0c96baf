//! The plan of a put.
ghost use Rattle.std.specs.Prelude.{◌≤◌, ◌<◌, ◌^◌, ◌+◌};
ghost use Rattle.write_rule.specs.views.Seen.{request_of};
ghost use Rattle.stat_delta.specs.Moments.{IsStoredBy};
ghost use Rattle.mvcc_cursor.specs.WellFormed.{IsWellFormed, history_in};
ghost use Rattle.mvcc_put.specs.PlannedPut.{Answers};
ghost use Rattle.mvcc_put.specs.WriteLooks.{write_looks};

use crate::PutFault;
use crate::planned::planned_at;
use lsm_store::Store;
use mvcc_cursor::MvccCursor;
use mvcc_key::Looks;
use stat_delta::Change;
use std::alloc::Global;
use std::mem;
use std::sync::ledger::Ledger;
use write_rule::{WriteAnswer, WriteRequest};

/// What a write of the key comes to (CockroachDB `mvccPutUsingIter`): the batch that makes what is stored that of the history after
/// it, by how much every statistic of all that is stored changes, at the moment that is the latest of `last` and of all wall times
/// stored then, and the answer. The refusals are those of [`write_rule::plan_write`], in its order, but want of memory may come in
/// the place of any of them, since the memory of the cursor is taken before the key is looked at. `last` is a moment, in
/// nanoseconds of wall time, that nothing stored is after.
///
/// It comes to the key by one seek, and looks at its intent, its newest version and the tombstones over it, however many versions
/// it has. Beside the cursor and the bytes of the change it takes no memory.
pub fn plan_put<L: Ledger>(
    alloc: Global,
    store: &Store,
    last: u64,
    key: &[u8],
    request: &WriteRequest<'_>,
    looks: &mut Looks<L>,
) -> Result<(Change, WriteAnswer), PutFault>
    requires formed { IsWellFormed (history_in store.now) store.now }
    requires by { IsStoredBy last (history_in store.now) }
    requires range { last < 2 ^ 63 }
    ensures outcome { Answers result (history_in store.now) last key.now (request_of request.now) }
    ensures later { looks.old ≤ looks.new }
    ensures looks { looks.new ≤ looks.old + write_looks key.now store.now }
{
    plan_put_with(
        &mut Vec::new(alloc),
        alloc,
        store,
        last,
        key,
        request,
        looks,
    )
}

/// The same, with a buffer that is kept from one plan to the next: once it has grown to the 4,111 bytes that a cursor needs, no later
/// plan takes memory for it. What it holds says nothing.
pub fn plan_put_with<L: Ledger>(
    buffer: &mut Vec<u8>,
    alloc: Global,
    store: &Store,
    last: u64,
    key: &[u8],
    request: &WriteRequest<'_>,
    looks: &mut Looks<L>,
) -> Result<(Change, WriteAnswer), PutFault>
    requires formed { IsWellFormed (history_in store.now) store.now }
    requires by { IsStoredBy last (history_in store.now) }
    requires range { last < 2 ^ 63 }
    ensures outcome { Answers result (history_in store.now) last key.now (request_of request.now) }
    ensures later { looks.old ≤ looks.new }
    ensures looks { looks.new ≤ looks.old + write_looks key.now store.now }
{
    let lent = mem::replace(buffer, Vec::new(alloc));
    let mut cursor = MvccCursor::with_buffer(lent, store)?;
    let planned = planned_at(alloc, last, key, &mut cursor, request, looks);
    *buffer = cursor.into_buffer();
    planned
}
