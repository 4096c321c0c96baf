//! The plan of the resolution of the intent at which a cursor stands.
ghost use Rattle.std.specs.Prelude.{◌≡◌, ◌≤◌, ◌+◌, ◌*◌, IsTrue, Some, is_some, not, true};
ghost use Rattle.mvcc_key.specs.History.{Intent};
ghost use Rattle.mvcc_key.specs.Order.{Key, is_in_range};
ghost use Rattle.intent_meta.specs.views.Lent.{lent_intent};
ghost use Rattle.intent_resolve.specs.views.Own.{seen_own};
ghost use Rattle.mvcc_key.specs.views.Seen.{time_of};
ghost use Rattle.merge_cursor.specs.Merged.{entries_below};
ghost use Rattle.lsm_store.specs.Shown.{points_in};
ghost use Rattle.stat_core.specs.views.Seen.{version_shape_of};
ghost use Rattle.mvcc_cursor.specs.KeyPoints.{record_name};
ghost use Rattle.mvcc_cursor.specs.Standing.{AtKey, anew, entries_of, one_seek, told};
ghost use Rattle.mvcc_cursor.specs.WellFormed.{IsWellFormed, history_in};
ghost use Rattle.mvcc_cursor.specs.views.Seen.{passed, seen};
ghost use Rattle.intent_resolve.specs.Resolve.{of_update};
ghost use Rattle.intent_resolve.specs.views.KeyPlan.{IsLooked, PlansKey};
ghost use Rattle.intent_resolve.specs.views.Left.{seen_left, seen_new};
ghost use Rattle.intent_resolve.specs.views.Seen.{update_of};
ghost use Rattle.intent_resolve.specs.views.Front.{bytes_shape, front_left};
ghost use Rattle.key_top.specs.views.Seen.{seen_front};

use crate::here::local_here;
use crate::own_intent::OwnIntent;
use crate::points::resolution_points;
use crate::resolution::{NewVersion, Resolution, resolve_intent};
use crate::{ResolveFault, Update};
use intent_meta::KeyItems;
use key_top::{Front, IntentShape, KeyTop, newest_here, top_here, version_shape};
use mvcc_cursor::MvccCursor;
use mvcc_key::{Elements, Looks, PointOp, Timestamp};
use stat_core::VersionShape;
use std::alloc::Global;
use std::sync::ledger::Ledger;
use txn_state::TxnId;

/// What the versions of a key tell: the local timestamp of its intent's provisional version, and its newest committed version.
#[derive(Clone, Copy)]
pub(crate) struct Looked {
    pub local: Timestamp,
    pub newest: Option<VersionShape>,
}

/// What the resolution of a key's intent comes to: the operations, the top of the key before it, and what is left of the intent.
#[derive(Drop)]
pub(crate) struct KeyPlan<'c> {
    pub points: Elements<PointOp>,
    pub top: KeyTop<'c>,
    pub left: Front,
}

/// Whether the key has no intent of the update's transaction.
pub(crate) fn is_others(cursor: &MvccCursor<'_>, update: &Update) -> bool
    ensures { result ≡ not (is_some (of_update (update_of update.now) (told (seen cursor.now)).intent)) }
{
    !is_own(cursor, update)
}

/// Whether the key has an intent of the update's transaction.
fn is_own(cursor: &MvccCursor<'_>, update: &Update) -> bool
    ensures { result ≡ is_some (of_update (update_of update.now) (told (seen cursor.now)).intent) }
{
    match cursor.meta() {
        Some(head) => TxnId::from(head.id()).is_same(TxnId::from(update.id)),
        None => false,
    }
}

/// Looks at the versions of the key to which the cursor has come.
pub(crate) fn look_here<L: Ledger>(cursor: &mut MvccCursor<'_>, looks: &mut Looks<L>) -> Looked
    requires formed { IsWellFormed (history_in (seen cursor.old).store) (seen cursor.old).store }
    requires fresh { seen cursor.old ≡ anew (seen cursor.old) }
    requires there { is_some (told (seen cursor.old)).intent ≡ true }
    ensures stands { seen cursor.new ≡ anew (seen cursor.old) }
    ensures looked { IsLooked (seen cursor.new) result }
    ensures later { looks.old ≤ looks.new }
    ensures looks { (key : Key) → (seen cursor.old).at ≡ AtKey key → passed cursor.old ≡ entries_below (record_name key) (points_in (seen cursor.old).store)
        → looks.new ≤ looks.old + 2 * (one_seek (seen cursor.old).store + entries_of key (seen cursor.old).store) }
{
    let local = local_here(cursor, looks);
    let newest = newest_here(cursor, looks);
    Looked { local, newest }
}

/// The plan of the resolution of the key's intent, which is of the update's transaction.
pub(crate) fn plan_here<'c>(
    alloc: Global,
    cursor: &'c MvccCursor<'_>,
    looked: Looked,
    update: &Update,
) -> Result<KeyPlan<'c>, ResolveFault>
    requires formed { IsWellFormed (history_in (seen cursor.now).store) (seen cursor.now).store }
    requires own { is_some (of_update (update_of update.now) (told (seen cursor.now)).intent) ≡ true }
    requires looked { IsLooked (seen cursor.now) looked }
    ensures { (key : Key) → (seen cursor.now).at ≡ AtKey key → PlansKey result (history_in (seen cursor.now).store) key (update_of update.now) }
{
    fits_time(update.ts);
    let key = key_here(cursor);
    let own = own_here(cursor, looked.local);
    let what = resolve_intent(alloc, update, own)?;
    let top = top_here(cursor, key.len() as u64, looked.newest);
    let left = left_in_front(&what);
    let points = resolution_points(alloc, key, own.ts(), what)?;
    Ok(KeyPlan { points, top, left })
}

/// The key at which the cursor stands, which has an intent.
fn key_here<'c>(cursor: &'c MvccCursor<'_>) -> &'c [u8]
    requires formed { IsWellFormed (history_in (seen cursor.now).store) (seen cursor.now).store }
    requires there { is_some (told (seen cursor.now)).intent ≡ true }
    ensures { (key : Key) → (seen cursor.now).at ≡ AtKey key → result.now ≡ key }
{
    cursor.key().unwrap()
}

/// The intent there, whose provisional version keeps this local timestamp.
fn own_here<'c>(cursor: &'c MvccCursor<'_>, local: Timestamp) -> OwnIntent<'c>
    requires { is_some (told (seen cursor.now)).intent ≡ true }
    ensures lent { (i : Intent) → (told (seen cursor.now)).intent ≡ Some i → seen_own result ≡ lent_intent i }
    ensures local { time_of result.local ≡ time_of local }
{
    let at = cursor.intent().unwrap();
    OwnIntent {
        head: at.head,
        provisional: at.provisional,
        local,
    }
}

/// What the statistics see of what becomes of an intent.
fn left_in_front(resolution: &Resolution) -> Front
    ensures { seen_front result ≡ front_left (seen_left resolution.now) }
{
    match resolution {
        Resolution::Gone => Front::Nothing,
        Resolution::Stays(head, version) => Front::Intent(IntentShape {
            record_len: head.as_slice().len() as u64,
            provisional: new_shape(version),
        }),
        Resolution::Becomes(version) => Front::Version(new_shape(version)),
    }
}

/// What the statistics see of a version that is put.
fn new_shape(version: &NewVersion) -> VersionShape
    ensures { version_shape_of result ≡ bytes_shape (seen_new version.now) }
{
    version_shape(version.ts, version.value.as_slice())
}

/// A timestamp is in its range.
pub(crate) fn fits_time(ts: Timestamp)
    ensures { IsTrue (is_in_range (time_of ts)) }
{}
