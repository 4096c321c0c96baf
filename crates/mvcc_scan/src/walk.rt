//! The walk of a scan.
ghost use Rattle.std.specs.Prelude.{◌≡◌, ◌≤◌, ◌∷◌, ℕ, Some, List, [], length, true, false, not, is_some, IfOk, if◌then◌else◌};
ghost use Rattle.mvcc_key.specs.Lists.{first, is_empty};
ghost use Rattle.mvcc_key.specs.Order.{Key as Bytes};
ghost use Rattle.read_rule.specs.Scan as scan;
ghost use Rattle.read_rule.specs.views.Decided.{request_of};
ghost use Rattle.mvcc_cursor.specs.Standing.{AtKey, here};
ghost use Rattle.mvcc_cursor.specs.WellFormed.{IsWellFormed, history_in};
ghost use Rattle.mvcc_cursor.specs.views.Seen.{place_by, seen};
ghost use Rattle.mvcc_scan.specs.views.Seen.{limits_of};
ghost use Rattle.mvcc_scan.specs.views.Taking.{IsTaken, IsAfter, stop_of};
ghost use Rattle.mvcc_scan.specs.views.Walking.{Bounds as Within, HasAhead, bounds_of, is_far, IsOnWay, ahead, IsWalk};

use crate::ScanLimits;
use crate::look::look;
use crate::taken::{Stop, Taken};
use mvcc_cursor::MvccCursor;
use mvcc_key::{Key, Looks, OutOfMemory};
use read_rule::ReadRequest;
use std::alloc::Global;
use std::sync::ledger::Ledger;

/// The bounds of a scan, and its direction.
#[derive(Clone, Copy)]
pub(crate) struct Bounds<'b> {
    pub(crate) start: &'b [u8],
    pub(crate) end: &'b [u8],
    pub(crate) reverse: bool,
}

/// What a walk has taken, and how it ended.
#[derive(Drop)]
pub(crate) struct Walk {
    pub(crate) taken: Taken,
    pub(crate) stop: Stop,
}

/// Goes to the first key of the walk.
pub(crate) fn begin<L: Ledger>(
    cursor: &mut MvccCursor<'_>,
    bounds: Bounds<'_>,
    looks: &mut Looks<L>,
)
    requires start { length bounds.start.now ≤ 4097 }
    requires end { length bounds.end.now ≤ 4097 }
    ensures store { (seen cursor.new).store ≡ (seen cursor.old).store }
    ensures ahead { IsWellFormed (history_in (seen cursor.old).store) (seen cursor.old).store → HasAhead (bounds_of bounds.entry)
        (scan.walked_keys (history_in (seen cursor.old).store) bounds.entry.start.now bounds.entry.end.now bounds.entry.reverse) (seen cursor.new) }
{
    if bounds.reverse {
        cursor.seek_key(bounds.end, looks);
        cursor.prev_key(looks);
    } else {
        cursor.seek_key(bounds.start, looks);
    }
}

/// Goes to the next key of the walk.
fn go_on<L: Ledger>(cursor: &mut MvccCursor<'_>, reverse: bool, looks: &mut Looks<L>)
    ensures store { (seen cursor.new).store ≡ (seen cursor.old).store }
    ensures next { (b : Within) (key : Bytes) (keys : List Bytes) → b.backwards ≡ reverse → IsOnWay b (seen cursor.old) → ahead b (seen cursor.old) ≡ key ∷ keys
        → HasAhead b keys (seen cursor.new) }
{
    if reverse {
        cursor.prev_key(looks);
    } else {
        cursor.next_key(looks);
    }
}

/// Whether the cursor stands at a key of the span.
fn is_inside(cursor: &MvccCursor<'_>, bounds: Bounds<'_>) -> bool
    ensures { IsOnWay (bounds_of bounds.entry) (seen cursor.now) → result ≡ not (is_empty (ahead (bounds_of bounds.entry) (seen cursor.now))) }
{
    match cursor.key() {
        Some(key) => bounds.has_not_passed(key),
        None => false,
    }
}

impl Bounds<'_> {
    /// Whether the key is within the bound at which the walk ends.
    fn has_not_passed(self, key: &[u8]) -> bool
        ensures { result ≡ is_far (bounds_of self.entry) key.now }
    {
        if self.reverse {
            self.start.cmp(key).is_le()
        } else {
            key.cmp(self.end).is_lt()
        }
    }
}

/// The stored key at which the cursor stands.
fn key_here<'c>(cursor: &'c MvccCursor<'_>) -> &'c [u8]
    ensures { (key : Bytes) → (seen cursor.now).at ≡ AtKey key → is_some (first (here (seen cursor.now))) ≡ true → result.now ≡ key }
{
    match cursor.key() {
        Some(key) => key,
        None => &[],
    }
}

impl Taken {
    /// Takes what a read of the key at which the cursor stands comes to, or tells how the walk stops there.
    fn meet<L: Ledger>(
        &mut self,
        alloc: Global,
        cursor: &mut MvccCursor<'_>,
        request: &ReadRequest<'_>,
        limits: &ScanLimits,
        looks: &mut Looks<L>,
    ) -> Result<Option<Stop>, OutOfMemory>
        ensures place { place_by cursor.new ≡ place_by cursor.old }
        ensures met { (key : Bytes) (t : scan.Taken) → (seen cursor.old).at ≡ AtKey key → is_some (first (here (seen cursor.old))) ≡ true → IsTaken (limits_of limits.now) self.old t
            → IfOk result (λ stop. IsAfter (limits_of limits.now) t (scan.take_key (history_in (seen cursor.old).store) (request_of request.now) (limits_of limits.now) key t) stop self.new) }
    {
        if self.is_full(limits) {
            return Ok(Some(Stop::Before(Key::copy(alloc, key_here(cursor))?)));
        }
        let looked = look(alloc, cursor, request, looks)?;
        self.take(alloc, key_here(cursor), looked, limits)
    }
}

/// The walk from the key at which the cursor stands.
pub(crate) fn walk_keys<L: Ledger>(
    alloc: Global,
    cursor: &mut MvccCursor<'_>,
    request: &ReadRequest<'_>,
    bounds: Bounds<'_>,
    limits: &ScanLimits,
    looks: &mut Looks<L>,
) -> Result<Walk, OutOfMemory>
    requires { IsOnWay (bounds_of bounds) (seen cursor.old) }
    ensures { IfOk result (IsWalk (limits_of limits.now)
        (scan.walk (history_in (seen cursor.old).store) (request_of request.now) (limits_of limits.now) (ahead (bounds_of bounds.entry) (seen cursor.old)) scan.nothing_taken)) }
{
    let mut taken = Taken::nothing(alloc, limits);
    while is_inside(cursor, bounds) {
        if let Some(stop) = taken.meet(alloc, cursor, request, limits, looks)? {
            return Ok(Walk { taken, stop });
        }
        go_on(cursor, bounds.reverse, looks);
    }
    let stop = Stop::AtEnd;
    Ok(Walk { taken, stop })
}
