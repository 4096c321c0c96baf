//! The plan of the resolution of one key.
ghost use Rattle.std.specs.Prelude.{◌≤◌, ◌<◌, ◌^◌, ◌+◌};
ghost use Rattle.stat_delta.specs.Moments.{IsStoredBy};
ghost use Rattle.mvcc_cursor.specs.WellFormed.{IsWellFormed, history_in};
ghost use Rattle.intent_resolve.specs.Planned.{Answers};
ghost use Rattle.intent_resolve.specs.ResolveLooks.{resolve_looks};
ghost use Rattle.intent_resolve.specs.views.Seen.{update_of};

use crate::change::{change_of, no_change};
use crate::key_plan::{is_others, look_here, plan_here};
use crate::{ResolveFault, Update};
use lsm_store::Store;
use mvcc_cursor::MvccCursor;
use mvcc_key::Looks;
use stat_delta::Change;
use std::alloc::Global;
use std::sync::ledger::Ledger;

/// What the resolution of the key's intent comes to (CockroachDB `MVCCResolveWriteIntent`): the batch that makes what is stored
/// that of the history after it, by how much every statistic of all that is stored changes, at the moment that is the latest of
/// `last` and of all wall times stored then, and whether the key has an intent of the update's transaction. Without one nothing
/// changes. `last` is a moment, in nanoseconds of wall time, that nothing stored is after.
///
/// | status | epoch of the intent | the intent |
/// |---|---|---|
/// | aborted | any | goes |
/// | committed | another | goes |
/// | committed | the same | becomes a version at the update's timestamp |
/// | pending | an earlier one | goes |
/// | pending | the same or a later one | moves to the update's timestamp, if that is later |
///
/// Where the epochs are the same, the entries at ignored sequences are dropped first, and an intent without entries goes. Where the
/// timestamp grows, the local timestamp is the earlier one, or else the earlier timestamp. [`ResolveFault::CommitBelowIntent`],
/// with the intent's timestamp, comes exactly where a commit is below it and entries of its epoch are left.
///
/// It comes to the key by one seek, and looks at its intent, its newest version and the tombstones over it, however many versions
/// it has. Beside the cursor, the entries that are left and the bytes of the change it takes no memory.
pub fn plan_resolve<L: Ledger>(
    alloc: Global,
    store: &Store,
    last: u64,
    key: &[u8],
    update: &Update,
    looks: &mut Looks<L>,
) -> Result<(Change, bool), ResolveFault>
    requires formed { IsWellFormed (history_in store.now) store.now }
    requires by { IsStoredBy last (history_in store.now) }
    requires range { last < 2 ^ 63 }
    ensures outcome { Answers result (history_in store.now) last key.now (update_of update.now) }
    ensures later { looks.old ≤ looks.new }
    ensures looks { looks.new ≤ looks.old + resolve_looks key.now store.now }
{
    let mut cursor = MvccCursor::over(alloc, store)?;
    cursor.seek_exact(key, looks);
    if is_others(&cursor, update) {
        return Ok((no_change(alloc, last), false));
    }
    let looked = look_here(&mut cursor, looks);
    let plan = plan_here(alloc, &cursor, looked, update)?;
    Ok((change_of(alloc, plan, last), true))
}
