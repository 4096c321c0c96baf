//! The plan of the resolution of a span.
ghost use Rattle.std.specs.Prelude.{◌≡◌, ◌<◌, ◌^◌, ℕ, List, OnOk, is_some, false, true};
ghost use Rattle.mvcc_key.specs.Order.{Key};
ghost use Rattle.mvcc_key.specs.Spans.{is_bad_span};
ghost use Rattle.stat_delta.specs.Moments.{IsStoredBy};
ghost use Rattle.mvcc_cursor.specs.Standing.{AtKey, anew, told};
ghost use Rattle.mvcc_cursor.specs.WellFormed.{IsWellFormed, history_in};
ghost use Rattle.mvcc_cursor.specs.views.Seen.{seen};
ghost use Rattle.intent_resolve.specs.Planned.{AnswersRange};
ghost use Rattle.intent_resolve.specs.Resolve.{of_update};
ghost use Rattle.intent_resolve.specs.views.Gathered.{Done, IsGathered, GathersKey};
ghost use Rattle.intent_resolve.specs.views.Seen.{update_of};
ghost use Rattle.intent_resolve.specs.views.Walked.{is_room};

use crate::gathered::Gathered;
use crate::key_plan::{fits_time, look_here, plan_here};
use crate::walk::{come_to_own, rest_from};
use crate::{Ranged, ResolveFault, Update};
use lsm_store::Store;
use mvcc_cursor::MvccCursor;
use mvcc_key::{Looks, is_bad_span};
use stat_delta::Change;
use std::alloc::Global;
use std::marker::Brand;
use std::sync::ledger::{Blank, Ledger};

/// What the resolution of the transaction's intents of a span comes to, in the order of their keys and at most `max` of them
/// (CockroachDB `MVCCResolveWriteIntentRange`): the batch that makes what is stored that of the history after it, by how much
/// every statistic of all that is stored changes, at the moment that is the latest of `last` and of all wall times stored then,
/// how many intents were handled, and the span from the next one on, if one is left. Each is resolved as by
/// [`plan_resolve`](crate::plan_resolve), and all of them are or none.
///
/// [`ResolveFault::BadSpan`] comes exactly where `start` is not below `end`, or one of them is longer than 4,097 bytes. Behind it,
/// [`ResolveFault::CommitBelowIntent`] comes exactly where one of the handled intents is refused so, with the timestamp of the
/// first of these. With a `max` of 0 none is handled, and the rest begins at the first.
pub fn plan_resolve_range(
    alloc: Global,
    store: &Store,
    last: u64,
    start: &[u8],
    end: &[u8],
    update: &Update,
    max: Option<u64>,
) -> Result<(Change, Ranged), ResolveFault>
    requires formed { IsWellFormed (history_in store.now) store.now }
    requires by { IsStoredBy last (history_in store.now) }
    requires range { last < 2 ^ 63 }
    ensures outcome { AnswersRange result (history_in store.now) last start.now end.now (update_of update.now) max }
{
    if is_bad_span(start, end) {
        return Err(ResolveFault::BadSpan);
    }
    let blank = Blank::new(1);
    plan_within::<Brand>(alloc, store, last, (start, end), update, max, blank)
}

/// The same for bounds that are a span.
fn plan_within<L: Ledger>(
    alloc: Global,
    store: &Store,
    last: u64,
    bounds: (&[u8], &[u8]),
    update: &Update,
    max: Option<u64>,
    blank: Blank,
) -> Result<(Change, Ranged), ResolveFault>
    requires formed { IsWellFormed (history_in store.now) store.now }
    requires by { IsStoredBy last (history_in store.now) }
    requires range { last < 2 ^ 63 }
    requires good { is_bad_span bounds.0.now bounds.1.now ≡ false }
    requires name { blank.name ≡ L.name }
    requires parts { blank.parts ≡ L.parts }
    requires some { 0 < blank.parts }
    ensures { AnswersRange result (history_in store.now) last bounds.entry.0.now bounds.entry.1.now (update_of update.now) max }
{
    fits_time(update.ts);
    let (start, end) = bounds;
    let mut looks = Looks::<L>::new(blank);
    let mut cursor = MvccCursor::over(alloc, store)?;
    cursor.seek_key(start, &mut looks);
    let mut gathered = Gathered::new(alloc, last, update.ts);
    let mut found = come_to_own(&mut cursor, end, update, &mut looks);
    while found && has_room(gathered.count, max) {
        gather_here(alloc, &mut cursor, update, &mut gathered, &mut looks)?;
        cursor.next_key(&mut looks);
        found = come_to_own(&mut cursor, end, update, &mut looks);
    }
    let resume = rest_from(alloc, &cursor, found, end)?;
    let count = gathered.count;
    Ok((gathered.into_change(), Ranged { count, resume }))
}

/// One intent more may be handled.
fn has_room(count: u64, max: Option<u64>) -> bool
    ensures { result ≡ is_room max count }
{
    match max {
        Some(max) => count < max,
        None => true,
    }
}

/// Gathers the plan of the resolution of the intent at which the cursor stands.
fn gather_here<L: Ledger>(
    alloc: Global,
    cursor: &mut MvccCursor<'_>,
    update: &Update,
    gathered: &mut Gathered,
    looks: &mut Looks<L>,
) -> Result<(), ResolveFault>
    requires formed { IsWellFormed (history_in (seen cursor.old).store) (seen cursor.old).store }
    requires fresh { seen cursor.old ≡ anew (seen cursor.old) }
    requires own { is_some (of_update (update_of update.now) (told (seen cursor.old)).intent) ≡ true }
    ensures stands { OnOk result (seen cursor.new ≡ anew (seen cursor.old)) }
    ensures gathered { (last : ℕ) (ds : List Done) (key : Key) → (seen cursor.old).at ≡ AtKey key → IsGathered (history_in (seen cursor.old).store) last (update_of update.now) ds gathered.old
        → GathersKey result (history_in (seen cursor.old).store) last (update_of update.now) ds key gathered.new }
{
    let looked = look_here(cursor, looks);
    let plan = plan_here(alloc, cursor, looked, update)?;
    gathered.add(plan)?;
    Ok(())
}
