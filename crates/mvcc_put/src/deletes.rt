//! The plan of the deletes of several keys.
ghost use Rattle.std.specs.Prelude.{◌≡◌, ◌<◌, ◌^◌, max};
ghost use Rattle.std.specs.List.Sorted.{IsStrictlySortedBy};
ghost use Rattle.mvcc_key.specs.Order.{key_cmp};
ghost use Rattle.mvcc_key.specs.views.Seen.{time_of};
ghost use Rattle.txn_state.specs.views.Seen.{actor_of};
ghost use Rattle.stat_delta.specs.Moments.{IsStoredBy};
ghost use Rattle.mvcc_cursor.specs.WellFormed.{IsWellFormed, history_in};
ghost use Rattle.mvcc_put.specs.PlannedDeletes.{AnswersDeletes};

use crate::PutFault;
use crate::gathered::Gathered;
use crate::planned::planned_at;
use lsm_store::Store;
use mvcc_cursor::MvccCursor;
use mvcc_key::{Key, Looks, Timestamp};
use stat_delta::Change;
use std::alloc::Global;
use std::cmp::max;
use std::marker::Brand;
use std::sync::ledger::{Blank, Ledger};
use txn_state::Actor;
use write_rule::{WriteKind, WriteRequest};

/// What a delete of each of the keys comes to, one after another (CockroachDB `MVCCDeleteRange`, behind its scan): the batch that
/// makes what is stored that of the history after all of them, and by how much every statistic of all that is stored changes, at
/// the moment that is the latest of `last` and of all wall times stored then. All of the keys are deleted or none: the refusal is
/// that of the first key that is refused, and says nothing of those behind it. A key that shows no value is deleted too, and one
/// whose delete is a replay is left as it is. The keys rise strictly; `last` is a moment, in nanoseconds of wall time, that nothing
/// stored is after.
///
/// One cursor comes to each key by one seek. Beside it and the bytes of the change this takes no memory, but it takes the cursor's
/// first, so that want of memory may come in the place of any refusal.
pub fn plan_deletes(
    alloc: Global,
    store: &Store,
    last: u64,
    who: Actor<'_>,
    keys: &[Key],
    local: Timestamp,
) -> Result<Change, PutFault>
    requires formed { IsWellFormed (history_in store.now) store.now }
    requires by { IsStoredBy last (history_in store.now) }
    requires range { last < 2 ^ 63 }
    requires rising { IsStrictlySortedBy key_cmp keys.now }
    ensures outcome { AnswersDeletes result (history_in store.now) last (actor_of who.entry) (time_of local) keys.now }
{
    let request = WriteRequest {
        who,
        kind: WriteKind::Delete,
        local,
    };
    let blank = Blank::new(1);
    plan_each::<Brand>(alloc, store, last, &request, keys, blank)
}

/// What the write of each of the keys comes to, where it is a delete.
fn plan_each<L: Ledger>(
    alloc: Global,
    store: &Store,
    last: u64,
    request: &WriteRequest<'_>,
    keys: &[Key],
    blank: Blank,
) -> Result<Change, PutFault>
    requires formed { IsWellFormed (history_in store.now) store.now }
    requires by { IsStoredBy last (history_in store.now) }
    requires range { last < 2 ^ 63 }
    requires rising { IsStrictlySortedBy key_cmp keys.now }
    requires kind { request.now.kind ≡ WriteKind.Delete }
    requires name { blank.name ≡ L.name }
    requires parts { blank.parts ≡ L.parts }
    requires some { 0 < blank.parts }
    ensures { AnswersDeletes result (history_in store.now) last (actor_of request.now.who) (time_of request.now.local) keys.now }
{
    let later = moment_at(last, request.who.write_time());
    let mut looks = Looks::<L>::new(blank);
    let mut cursor = MvccCursor::over(alloc, store)?;
    let mut gathered = Gathered::new(alloc);
    for key in keys {
        let (change, _) = planned_at(alloc, later, key.bytes(), &mut cursor, request, &mut looks)?;
        gathered.add(change)?;
    }
    Ok(gathered.into_change(last, later))
}

/// The moment after a write at this time: the latest of the last one and of its own, in nanoseconds of wall time.
fn moment_at(last: u64, time: Timestamp) -> u64
    requires { last < 2 ^ 63 }
    ensures moment { result ≡ max last (time_of time).wall }
    ensures range { result < 2 ^ 63 }
{
    max(last, time.wall())
}
