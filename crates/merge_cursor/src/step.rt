//! The parts on the way on and back.
ghost use Rattle.std.specs.Prelude.{◌≡◌, ◌≤◌, ◌<◌, ◌+◌, ℕ, true, false, IsSome, IsTrue, All, sum_by};
ghost use Rattle.merge_cursor.specs.views.Moves.{cut_past, cut_before};
ghost use Rattle.merge_cursor.specs.views.Standing.{standings, lists_of, point_of_part, cut_of, count_in, positioned, IsAligned};

use crate::moves::{Move, move_all};
use crate::pass::pass;
use mvcc_key::{Cursor, Looks};
use std::sync::ledger::Ledger;

/// Goes on from the current name: each part then stands at its first pair above it. Where the parts stand on the way back, all
/// of them turn, and else those at the current name move.
pub(crate) fn go_on<C: Cursor, L: Ledger>(
    parts: &mut [C],
    current: usize,
    ahead: bool,
    looks: &mut Looks<L>,
)
    requires { IsAligned ahead (standings C.points C.place C.is_part parts.old) current }
    ensures parts { let all = standings C.points C.place C.is_part in
        all parts.new ≡ positioned true (cut_past ahead (point_of_part (all parts.old) current)) (all parts.old) }
    ensures some { let all = standings C.points C.place C.is_part in
        IsSome (point_of_part (all parts.old) current) → looks.old < looks.new }
    ensures later { looks.old ≤ looks.new }
    ensures looks { let all = standings C.points C.place C.is_part in
        let here = point_of_part (all parts.old) current in
        IsTrue ahead → All (λ s. IsTrue s.is_part) (all parts.old)
        → looks.new + sum_by (count_in (cut_of true here)) (lists_of (all parts.old))
        ≤ looks.old + sum_by (count_in (cut_past true here)) (lists_of (all parts.old)) }
{
    if !ahead {
        move_all(parts, Move::Next, looks);
        return;
    }
    if current == parts.len() {
        return;
    }
    pass(parts, current, Move::Next, looks);
}

/// Goes back from the current name: each part then stands at its last pair below it. Where the parts stand on the way on, all of
/// them turn, and else those at the current name move.
pub(crate) fn go_back<C: Cursor, L: Ledger>(
    parts: &mut [C],
    current: usize,
    ahead: bool,
    looks: &mut Looks<L>,
)
    requires { IsAligned ahead (standings C.points C.place C.is_part parts.old) current }
    ensures parts { let all = standings C.points C.place C.is_part in
        all parts.new ≡ positioned false (cut_before ahead (point_of_part (all parts.old) current)) (all parts.old) }
    ensures some { let all = standings C.points C.place C.is_part in
        IsSome (point_of_part (all parts.old) current) → looks.old < looks.new }
    ensures later { looks.old ≤ looks.new }
{
    if ahead {
        move_all(parts, Move::Prev, looks);
        return;
    }
    if current == parts.len() {
        return;
    }
    pass(parts, current, Move::Prev, looks);
}
