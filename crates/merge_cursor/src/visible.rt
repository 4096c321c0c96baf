//! The pairs that are visible: the merged ones without cleared names.
ghost use Rattle.std.specs.Prelude.{◌≡◌, ◌≤◌, ◌<◌, ◌+◌, ◌-◌, ℕ, false, length, min, take, is_some, IsTrue};
ghost use Rattle.mvcc_key.specs.Encoded.{name_in, IsName};
ghost use Rattle.mvcc_key.specs.views.CursorMoves.{SeeksGe, SeeksLt, GoesOn, GoesBack};
ghost use Rattle.mvcc_key.specs.Points.{IsRising, AreEncodable, count_below, point_at, value_at};
ghost use Rattle.merge_cursor.specs.views.PartsMoves.{KeepsParts, SeeksParts, PassesParts};
ghost use Rattle.merge_cursor.specs.Merged.{seek_looks, entries_below, entries_before};
ghost use Rattle.merge_cursor.specs.views.Seen.{lists_in, HasParts, is_ahead, shown_points, shown_place};
ghost use Rattle.merge_cursor.specs.Visible.{visible, visible_place, visible_place-le, StandsVisible};

use crate::MergeCursor;
use mvcc_key::{Cursor, Looks};
use std::sync::ledger::Ledger;

/// The pairs of several parts that are set: of each name the newest part's pair, and none where that part clears the name.
#[derive(Drop)]
pub struct VisibleCursor<C: Cursor> {
    merged: MergeCursor<C>,
    ghost stands: { StandsVisible (shown_points C.points C.place C.is_part merged) (shown_place C.points C.place C.is_part merged) },
    ghost rising: { IsRising (visible (shown_points C.points C.place C.is_part merged)) },
    ghost encodable: { AreEncodable (visible (shown_points C.points C.place C.is_part merged)) },
}

/// Whether the cursor stands at a name that is cleared.
fn is_at_cleared<C: Cursor>(merged: &MergeCursor<C>) -> bool
    ensures cleared { let points = shown_points C.points C.place C.is_part in
        let place = shown_place C.points C.place C.is_part in
        IsTrue result → is_some (value_at (points merged.now) (place merged.now)) ≡ false }
    ensures inside { let points = shown_points C.points C.place C.is_part in
        let place = shown_place C.points C.place C.is_part in
        IsTrue result → (0 < place merged.now) × (place merged.now ≤ length (points merged.now)) }
    ensures stands { let points = shown_points C.points C.place C.is_part in
        let place = shown_place C.points C.place C.is_part in
        result ≡ false → StandsVisible (points merged.now) (place merged.now) }
{
    merged.key().is_some() && merged.value().is_none()
}

/// Goes on to the first name that is not cleared, from the current one on.
fn skip_on<C: Cursor, L: Ledger>(merged: &mut MergeCursor<C>, looks: &mut Looks<L>)
    requires { 1 ≤ shown_place C.points C.place C.is_part merged.old }
    ensures same { let points = shown_points C.points C.place C.is_part in points merged.new ≡ points merged.old }
    ensures stands { let points = shown_points C.points C.place C.is_part in
        let place = shown_place C.points C.place C.is_part in
        StandsVisible (points merged.new) (place merged.new) }
    ensures some { 1 ≤ shown_place C.points C.place C.is_part merged.new }
    ensures kept { let points = shown_points C.points C.place C.is_part in
        let place = shown_place C.points C.place C.is_part in
        length (visible (take (place merged.new - 1) (points merged.old)))
        ≡ length (visible (take (place merged.old - 1) (points merged.old))) }
    ensures later { looks.old ≤ looks.new }
    ensures parts { KeepsParts (lists_in C.points) (HasParts C.is_part) merged.old merged.new }
    ensures ahead { IsTrue (is_ahead merged.old) → IsTrue (is_ahead merged.new) }
    ensures looks { let points = shown_points C.points C.place C.is_part in
        let place = shown_place C.points C.place C.is_part in
        let lists = lists_in C.points merged.old in
        HasParts C.is_part merged.old → IsTrue (is_ahead merged.old)
        → looks.new + entries_before (point_at (points merged.old) (place merged.old)) lists
        ≤ looks.old + entries_before (point_at (points merged.new) (place merged.new)) lists }
{
    while is_at_cleared(merged) {
        merged.next(looks);
    }
}

/// Goes back to the last name that is not cleared, from the current one back.
fn skip_back<C: Cursor, L: Ledger>(merged: &mut MergeCursor<C>, looks: &mut Looks<L>)
    requires { let points = shown_points C.points C.place C.is_part in
        shown_place C.points C.place C.is_part merged.old ≤ length (points merged.old) }
    ensures same { let points = shown_points C.points C.place C.is_part in points merged.new ≡ points merged.old }
    ensures stands { let points = shown_points C.points C.place C.is_part in
        let place = shown_place C.points C.place C.is_part in
        StandsVisible (points merged.new) (place merged.new) }
    ensures within { let points = shown_points C.points C.place C.is_part in
        shown_place C.points C.place C.is_part merged.new ≤ length (points merged.old) }
    ensures kept { let points = shown_points C.points C.place C.is_part in
        let place = shown_place C.points C.place C.is_part in
        length (visible (take (place merged.new) (points merged.old)))
        ≡ length (visible (take (place merged.old) (points merged.old))) }
    ensures later { looks.old ≤ looks.new }
    ensures parts { KeepsParts (lists_in C.points) (HasParts C.is_part) merged.old merged.new }
{
    while is_at_cleared(merged) {
        merged.prev(looks);
    }
}

impl<C: Cursor> VisibleCursor<C> {
    ghost use Rattle.merge_cursor.specs.views.SeenVisible.{lists_behind, StandsOnParts};

    /// A cursor over the visible ones of these merged pairs, before the first. This takes no memory.
    pub fn over(merged: MergeCursor<C>) -> VisibleCursor<C>
        requires { ⟦<MergeCursor<C> as Cursor>⟧.place merged ≡ 0 }
        ensures points { ⟦<Self as Cursor>⟧.points result ≡ visible (⟦<MergeCursor<C> as Cursor>⟧.points merged) }
        ensures place { ⟦<Self as Cursor>⟧.place result ≡ 0 }
        ensures lists { lists_behind C.points result ≡ lists_in C.points merged }
        ensures parts { HasParts C.is_part merged → StandsOnParts C.is_part result }
    {
        VisibleCursor { merged }
    }
}

impl<C: Cursor> Cursor for VisibleCursor<C> {
    ghost use Rattle.merge_cursor.specs.views.SeenVisible.{lists_behind, StandsOnParts, goes_ahead};

    ghost points = { λ v. visible (shown_points C.points C.place C.is_part v.merged) };

    ghost place = { λ v. visible_place (shown_points C.points C.place C.is_part v.merged) (shown_place C.points C.place C.is_part v.merged) };

    ghost is_part = { λ _. false };

    ghost rising = { λ v. v.rising };

    ghost encodable = { λ v. v.encodable };

    ghost in_range = { λ v. visible_place-le (shown_points C.points C.place C.is_part v.merged) (shown_place C.points C.place C.is_part v.merged) };

    fn seek_ge<L: Ledger>(&mut self, key: &[u8], looks: &mut Looks<L>)
        requires { IsName key.now }
        ensures moves { let seen = ⟦<Self as Cursor>⟧ in
            SeeksGe seen.points seen.place seen.is_part key.now self.old self.new looks.old looks.new }
        ensures parts { let seen = ⟦<Self as Cursor>⟧ in
            SeeksParts seen.points seen.place (lists_behind C.points) (StandsOnParts C.is_part) goes_ahead key.now self.old self.new looks.old looks.new }
    {
        self.merged.seek_ge(key, looks);
        skip_on(&mut self.merged, looks);
    }

    fn seek_lt<L: Ledger>(&mut self, key: &[u8], looks: &mut Looks<L>)
        requires { IsName key.now }
        ensures moves { let seen = ⟦<Self as Cursor>⟧ in
            SeeksLt seen.points seen.place seen.is_part key.now self.old self.new looks.old looks.new }
        ensures parts { KeepsParts (lists_behind C.points) (StandsOnParts C.is_part) self.old self.new }
    {
        self.merged.seek_lt(key, looks);
        skip_back(&mut self.merged, looks);
    }

    fn next<L: Ledger>(&mut self, looks: &mut Looks<L>)
        ensures moves { let seen = ⟦<Self as Cursor>⟧ in
            GoesOn seen.points seen.place seen.is_part self.old self.new looks.old looks.new }
        ensures parts { let seen = ⟦<Self as Cursor>⟧ in
            PassesParts seen.points seen.place (lists_behind C.points) (StandsOnParts C.is_part) goes_ahead self.old self.new looks.old looks.new }
    {
        self.merged.next(looks);
        skip_on(&mut self.merged, looks);
    }

    fn prev<L: Ledger>(&mut self, looks: &mut Looks<L>)
        ensures moves { let seen = ⟦<Self as Cursor>⟧ in
            GoesBack seen.points seen.place seen.is_part self.old self.new looks.old looks.new }
        ensures parts { KeepsParts (lists_behind C.points) (StandsOnParts C.is_part) self.old self.new }
    {
        self.merged.prev(looks);
        skip_back(&mut self.merged, looks);
    }

    fn key(&self) -> Option<&[u8]> {
        self.merged.key()
    }

    fn value(&self) -> Option<&[u8]> {
        self.merged.value()
    }
}
