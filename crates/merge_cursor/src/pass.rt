//! Parts that leave the current name.
ghost use Rattle.std.specs.Prelude.{◌≡◌, ◌≤◌, ◌<◌, ◌+◌, ℕ, length, take, map, sum_by, All, slice_get, Some, IsSome, IsTrue, false};
ghost use Rattle.mvcc_key.specs.Encoded.{name_in, IsName};
ghost use Rattle.mvcc_key.specs.Points.{Point, point_at};
ghost use Rattle.merge_cursor.specs.views.Moves.{IsSound, is_at, takes_look, passed, passing_looks, cut_past, cut_before};
ghost use Rattle.merge_cursor.specs.views.Standing.{Standing, standing, standings, head, point_of_part};

use crate::moves::{Move, move_all, move_part};
use mvcc_key::{Cursor, Looks};
use std::sync::ledger::Ledger;

/// Whether a part stands at the encoded key.
fn stands_at<C: Cursor>(part: &C, key: &[u8]) -> bool
    requires { IsName key.now }
    ensures { result ≡ is_at (name_in key.now) (point_at (C.points part.now) (C.place part.now)) }
{
    match part.key() {
        Some(other) => other == key,
        None => false,
    }
}

/// Moves a part where it stands at the encoded key.
fn pass_part<C: Cursor, L: Ledger>(part: &mut C, key: &[u8], to: Move<'_>, looks: &mut Looks<L>)
    requires key { IsName key.now }
    requires to { IsSound to }
    ensures part { let seen = standing C.points C.place C.is_part in
        seen part.new ≡ passed to.entry (name_in key.now) (seen part.old) }
    ensures later { looks.old ≤ looks.new }
    ensures looks { let seen = standing C.points C.place C.is_part in
        IsTrue (C.is_part part.old)
        → looks.new ≤ looks.old + passing_looks to.entry (name_in key.now) (seen part.old) }
{
    if stands_at(part, key) {
        move_part(part, to, looks);
    }
}

/// Moves each of the parts that stands at the encoded key.
fn pass_key<C: Cursor, L: Ledger>(parts: &mut [C], key: &[u8], to: Move<'_>, looks: &mut Looks<L>)
    requires key { IsName key.now }
    requires to { IsSound to }
    ensures parts { let all = standings C.points C.place C.is_part in
        all parts.new ≡ map (passed to.entry (name_in key.now)) (all parts.old) }
    ensures later { looks.old ≤ looks.new }
    ensures looks { let all = standings C.points C.place C.is_part in
        All (λ s. IsTrue s.is_part) (all parts.old)
        → looks.new ≤ looks.old + sum_by (passing_looks to.entry (name_in key.now)) (all parts.old) }
{
    for part in parts.iter_mut() {
        pass_part(part, key, to, looks);
    }
}

/// Moves the current part, and each older one that stands at the same name. No newer one does.
pub(crate) fn pass<C: Cursor, L: Ledger>(
    parts: &mut [C],
    current: usize,
    to: Move<'_>,
    looks: &mut Looks<L>,
)
    requires to { IsSound to }
    requires within { current < length parts.old }
    requires here { let all = standings C.points C.place C.is_part in
        IsSome (point_of_part (all parts.old) current) }
    requires newest { let all = standings C.points C.place C.is_part in
        (p : Point) → point_of_part (all parts.old) current ≡ Some p
        → All (λ s. is_at p.name (head s) ≡ false) (take current (all parts.old)) }
    ensures parts { let all = standings C.points C.place C.is_part in
        (p : Point) → point_of_part (all parts.old) current ≡ Some p
        → all parts.new ≡ map (passed to.entry p.name) (all parts.old) }
    ensures some { (s : Standing) → slice_get (standings C.points C.place C.is_part parts.old) current ≡ Some s
        → IsTrue (takes_look to.entry s.points s.place) → looks.old < looks.new }
    ensures later { looks.old ≤ looks.new }
    ensures looks { let all = standings C.points C.place C.is_part in
        (p : Point) → point_of_part (all parts.old) current ≡ Some p
        → All (λ s. IsTrue s.is_part) (all parts.old)
        → looks.new ≤ looks.old + sum_by (passing_looks to.entry p.name) (all parts.old) }
{
    let (_, rest) = parts.split_at_mut(current);
    let Some((here, older)) = rest.split_first_mut() else {
        return;
    };
    let Some(key) = here.key() else {
        return;
    };
    pass_key(older, key, to, looks);
    move_part(here, to, looks);
}
