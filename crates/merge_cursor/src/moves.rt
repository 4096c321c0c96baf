//! Moves of the parts.
ghost use Rattle.std.specs.Prelude.{◌≡◌, ◌≤◌, ◌<◌, ◌+◌, ℕ, IsTrue, map, sum_by, count_by, All};
ghost use Rattle.merge_cursor.specs.views.Moves.{IsSound, takes_look, looks_of, moved};
ghost use Rattle.merge_cursor.specs.views.Standing.{standing, standings};

use mvcc_key::{Cursor, Looks};
use std::sync::ledger::Ledger;

/// A move of a cursor.
#[derive(Clone, Copy)]
pub(crate) enum Move<'a> {
    SeekGe(&'a [u8]),
    SeekLt(&'a [u8]),
    Next,
    Prev,
}

/// Moves one part.
pub(crate) fn move_part<C: Cursor, L: Ledger>(part: &mut C, to: Move<'_>, looks: &mut Looks<L>)
    requires { IsSound to }
    ensures part { let seen = standing C.points C.place C.is_part in
        seen part.new ≡ moved to.entry (seen part.old) }
    ensures some { IsTrue (takes_look to.entry (C.points part.old) (C.place part.old)) → looks.old < looks.new }
    ensures later { looks.old ≤ looks.new }
    ensures looks { IsTrue (C.is_part part.old) → looks.new ≤ looks.old + looks_of to.entry (C.points part.old) }
{
    match to {
        Move::SeekGe(key) => part.seek_ge(key, looks),
        Move::SeekLt(key) => part.seek_lt(key, looks),
        Move::Next => part.next(looks),
        Move::Prev => part.prev(looks),
    }
}

/// Moves every part.
pub(crate) fn move_all<C: Cursor, L: Ledger>(parts: &mut [C], to: Move<'_>, looks: &mut Looks<L>)
    requires { IsSound to }
    ensures parts { let all = standings C.points C.place C.is_part in
        all parts.new ≡ map (moved to.entry) (all parts.old) }
    ensures some { let all = standings C.points C.place C.is_part in
        0 < count_by (λ s. takes_look to.entry s.points s.place) (all parts.old) → looks.old < looks.new }
    ensures later { looks.old ≤ looks.new }
    ensures looks { let all = standings C.points C.place C.is_part in
        All (λ s. IsTrue s.is_part) (all parts.old)
        → looks.new ≤ looks.old + sum_by (λ s. looks_of to.entry s.points) (all parts.old) }
{
    for part in parts.iter_mut() {
        move_part(part, to, looks);
    }
}
