//! The merging cursor.
ghost use Rattle.std.specs.Prelude.{◌≡◌, ◌≤◌, ◌<◌, ◌+◌, ◌-◌, ℕ, false, length, map, min, All, IsTrue};
ghost use Rattle.mvcc_key.specs.Encoded.{name_in, IsName};
ghost use Rattle.mvcc_key.specs.views.CursorMoves.{SeeksGe, SeeksLt, GoesOn, GoesBack};
ghost use Rattle.mvcc_key.specs.Points.{AreEncodable, count_below, point_at};
ghost use Rattle.merge_cursor.specs.views.PartsMoves.{KeepsParts, SeeksParts, PassesParts};
ghost use Rattle.merge_cursor.specs.Merged.{merged, merged-rising, seek_looks, entries_below, entries_before};
ghost use Rattle.merge_cursor.specs.views.Standing.{standings, lists_of, cut_of, heads, head_of, IsAligned, merged_place, place_in-le};

use crate::leading::leading;
use crate::moves::{Move, move_all};
use crate::step::{go_back, go_on};
use mvcc_key::{Cursor, Looks};
use std::sync::ledger::Ledger;

/// One view of several parts, the newest first: of each name the newest part's pair, in both directions.
///
/// Over a part with a = 1 and c = 3, and an older one with a = 0 and b = 2, it shows a = 1, b = 2, c = 3.
#[derive(Drop)]
pub struct MergeCursor<C: Cursor> {
    parts: Vec<C>,
    /// The newest part at the current name, or the number of parts before the first name and past the last.
    current: usize,
    /// Whether each part stands at its first pair from the current name on, and not at its last up to it.
    ahead: bool,
    ghost aligned: { IsAligned ahead (standings C.points C.place C.is_part parts.items) current },
    ghost encodable: { AreEncodable (merged (lists_of (standings C.points C.place C.is_part parts.items))) },
}

impl<C: Cursor> MergeCursor<C> {
    ghost use Rattle.merge_cursor.specs.views.Seen.{lists_in, HasParts};

    /// A cursor over these parts, before the first pair. This takes no memory.
    pub fn over(parts: Vec<C>) -> MergeCursor<C>
        requires { All (λ c. C.place c ≡ 0) parts.items }
        ensures points { ⟦<Self as Cursor>⟧.points result ≡ merged (map C.points parts.items) }
        ensures place { ⟦<Self as Cursor>⟧.place result ≡ 0 }
        ensures lists { lists_in C.points result ≡ map C.points parts.items }
        ensures parts { All (λ c. IsTrue (C.is_part c)) parts.items → HasParts C.is_part result }
    {
        let current = parts.len();
        MergeCursor {
            parts,
            current,
            ahead: false,
        }
    }
}

impl<C: Cursor> Cursor for MergeCursor<C> {
    ghost use Rattle.merge_cursor.specs.views.Seen.{lists_in, HasParts, is_ahead};

    ghost points = { λ m. merged (lists_of (standings C.points C.place C.is_part m.parts.items)) };

    ghost place = { λ m. merged_place m.ahead (standings C.points C.place C.is_part m.parts.items) m.current };

    ghost is_part = { λ _. false };

    ghost rising = { λ m. merged-rising (lists_of (standings C.points C.place C.is_part m.parts.items)) };

    ghost encodable = { λ m. m.encodable };

    ghost in_range = { λ m. place_in-le m.ahead (cut_of m.ahead (head_of (heads (standings C.points C.place C.is_part m.parts.items)) m.current)) (merged (lists_of (standings C.points C.place C.is_part m.parts.items))) };

    fn seek_ge<L: Ledger>(&mut self, key: &[u8], looks: &mut Looks<L>)
        requires { IsName key.now }
        ensures moves { let seen = ⟦<Self as Cursor>⟧ in
            SeeksGe seen.points seen.place seen.is_part key.now self.old self.new looks.old looks.new }
        ensures parts { let seen = ⟦<Self as Cursor>⟧ in
            SeeksParts seen.points seen.place (lists_in C.points) (HasParts C.is_part) is_ahead key.now self.old self.new looks.old looks.new }
        ensures reached { let here = point_at (⟦<Self as Cursor>⟧.points self.new) (⟦<Self as Cursor>⟧.place self.new) in
            entries_before here (lists_in C.points self.old) ≡ entries_below (name_in key.now) (lists_in C.points self.old) }
    {
        move_all(&mut self.parts, Move::SeekGe(key), looks);
        self.current = leading(&self.parts, true);
        self.ahead = true;
    }

    fn seek_lt<L: Ledger>(&mut self, key: &[u8], looks: &mut Looks<L>)
        requires { IsName key.now }
        ensures moves { let seen = ⟦<Self as Cursor>⟧ in
            SeeksLt seen.points seen.place seen.is_part key.now self.old self.new looks.old looks.new }
        ensures parts { KeepsParts (lists_in C.points) (HasParts C.is_part) self.old self.new }
    {
        move_all(&mut self.parts, Move::SeekLt(key), looks);
        self.current = leading(&self.parts, false);
        self.ahead = false;
    }

    fn next<L: Ledger>(&mut self, looks: &mut Looks<L>)
        ensures moves { let seen = ⟦<Self as Cursor>⟧ in
            GoesOn seen.points seen.place seen.is_part self.old self.new looks.old looks.new }
        ensures parts { let seen = ⟦<Self as Cursor>⟧ in
            PassesParts seen.points seen.place (lists_in C.points) (HasParts C.is_part) is_ahead self.old self.new looks.old looks.new }
    {
        go_on(&mut self.parts, self.current, self.ahead, looks);
        self.current = leading(&self.parts, true);
        self.ahead = true;
    }

    fn prev<L: Ledger>(&mut self, looks: &mut Looks<L>)
        ensures moves { let seen = ⟦<Self as Cursor>⟧ in
            GoesBack seen.points seen.place seen.is_part self.old self.new looks.old looks.new }
        ensures parts { KeepsParts (lists_in C.points) (HasParts C.is_part) self.old self.new }
    {
        go_back(&mut self.parts, self.current, self.ahead, looks);
        self.current = leading(&self.parts, false);
        self.ahead = false;
    }

    fn key(&self) -> Option<&[u8]> {
        let part = self.parts.get(self.current)?;
        part.key()
    }

    fn value(&self) -> Option<&[u8]> {
        let part = self.parts.get(self.current)?;
        part.value()
    }
}
