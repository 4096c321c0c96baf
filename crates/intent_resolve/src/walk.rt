//! The walk over a transaction's intents of a span.
ghost use Rattle.std.specs.Prelude.{◌≡◌, IfOk};
ghost use Rattle.std.specs.Option.{option_map};
ghost use Rattle.mvcc_key.specs.Lists.{first};
ghost use Rattle.mvcc_cursor.specs.KeyPoints.{key_in};
ghost use Rattle.mvcc_cursor.specs.Standing.{here};
ghost use Rattle.mvcc_cursor.specs.WellFormed.{IsWellFormed, history_in};
ghost use Rattle.mvcc_cursor.specs.views.Seen.{seen};
ghost use Rattle.intent_resolve.specs.views.Seen.{span_of, update_of};
ghost use Rattle.intent_resolve.specs.views.Walked.{HasCome, StandsStored, is_key_below, span_if};

use crate::Update;
use crate::key_plan::is_others;
use mvcc_cursor::MvccCursor;
use mvcc_key::{Key, Looks, OutOfMemory, Span};
use std::alloc::Global;
use std::sync::ledger::Ledger;

/// Goes on from the key at which the cursor stands to the first key below `end` with an intent of the update's transaction, and
/// answers whether there is one.
pub(crate) fn come_to_own<L: Ledger>(
    cursor: &mut MvccCursor<'_>,
    end: &[u8],
    update: &Update,
    looks: &mut Looks<L>,
) -> bool
    requires formed { IsWellFormed (history_in (seen cursor.old).store) (seen cursor.old).store }
    requires stands { StandsStored (seen cursor.old) }
    ensures { HasCome (update_of update.now) end.now (seen cursor.old) (seen cursor.new) result }
{
    while is_before(cursor, end) {
        if !is_others(cursor, update) {
            return true;
        }
        cursor.next_key(looks);
    }
    false
}

/// The cursor stands at a key below `end`.
fn is_before(cursor: &MvccCursor<'_>, end: &[u8]) -> bool
    ensures { result ≡ is_key_below end.now (key_in (first (here (seen cursor.now)))) }
{
    match cursor.key() {
        Some(key) => key.cmp(end).is_lt(),
        None => false,
    }
}

/// The span from the key at which the cursor stands, where it has come to one.
pub(crate) fn rest_from(
    alloc: Global,
    cursor: &MvccCursor<'_>,
    found: bool,
    end: &[u8],
) -> Result<Option<Span>, OutOfMemory>
    ensures { IfOk result (λ rest. option_map span_of rest ≡ span_if found end.now (key_in (first (here (seen cursor.now))))) }
{
    if !found {
        return Ok(None);
    }
    match cursor.key() {
        Some(key) => Ok(Some(Span {
            start: Key::copy(alloc, key)?,
            end: Key::copy(alloc, end)?,
        })),
        None => Ok(None),
    }
}
