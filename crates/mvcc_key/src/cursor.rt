//! A place in a sorted list of stored pairs.
ghost use Rattle.std.specs.Prelude.{◌≡◌, ◌≤◌, ◌<◌, ◌+◌, ℕ, Bool, List, length, min};
ghost use Rattle.std.specs.Option.{option_map};
ghost use Rattle.mvcc_key.specs.Encoded.{name_in, IsName};
ghost use Rattle.mvcc_key.specs.Points.{Point, IsRising, AreEncodable, key_at, value_at, count_below};
ghost use Rattle.mvcc_key.specs.views.CursorMoves.{SeeksGe, SeeksLt, GoesOn, GoesBack, ComesTo};

use crate::Looks;
use std::marker::Brand;
use std::sync::ledger::{Blank, Ledger};

/// A sorted list of stored pairs and a place in it, from before the first pair to past the last. Moves past an end stay there.
/// They neither fail nor take memory, and none changes the list. Keys are encoded, and stand in the order that
/// [`cmp_encoded`](crate::cmp_encoded) tells, each once.
///
/// The cursor of one part, a memory table or a run, also shows the names that the part clears, which have no value, and each
/// of its moves takes few looks.
///
/// ```text
/// over a@2=x, a@1=y, c@1=z    place    key, value
/// (a new cursor)              0        none: before the first
/// seek_ge(b)                  3        c@1, z
/// prev                        2        a@1, y
/// seek_lt(a@2)                0        none
/// next                        1        a@2, x
/// seek_ge(d)                  4        none: past the last
/// next                        4        none
/// prev                        3        c@1, z
/// ```
pub trait Cursor {
    /// The pairs in order; a name without a value is cleared.
    ghost points: { Self → List Point };

    /// 0 before the first pair, n at the nth, and one more than their number past the last.
    ghost place: { Self → ℕ };

    /// Whether this is the cursor of one part.
    ghost is_part: { Self → Bool };

    /// Goes to the first pair that is not below the encoded key, or past the last where there is none.
    fn seek_ge<L: Ledger>(&mut self, key: &[u8], looks: &mut Looks<L>)
        requires { IsName key.now }
        ensures { SeeksGe points place is_part key.now self.old self.new looks.old looks.new };

    /// Goes to the last pair that is below the encoded key, or before the first where there is none.
    fn seek_lt<L: Ledger>(&mut self, key: &[u8], looks: &mut Looks<L>)
        requires { IsName key.now }
        ensures { SeeksLt points place is_part key.now self.old self.new looks.old looks.new };

    /// Goes to the next pair, or past the last.
    fn next<L: Ledger>(&mut self, looks: &mut Looks<L>)
        ensures { GoesOn points place is_part self.old self.new looks.old looks.new };

    /// Goes to the pair before, or before the first.
    fn prev<L: Ledger>(&mut self, looks: &mut Looks<L>)
        ensures { GoesBack points place is_part self.old self.new looks.old looks.new };

    /// The encoded key of the pair here. `None` before the first and past the last.
    fn key(&self) -> Option<&[u8]>
        ensures { option_map (λ k. k.now) result ≡ key_at (points self.now) (place self.now) };

    /// The value of the pair here. `None` before the first and past the last, and where a part clears the name.
    fn value(&self) -> Option<&[u8]>
        ensures { option_map (λ v. v.now) result ≡ value_at (points self.now) (place self.now) };

    ghost rising: { (c : Self) → IsRising (points c) };

    ghost encodable: { (c : Self) → AreEncodable (points c) };

    ghost in_range: { (c : Self) → place c ≤ length (points c) + 1 };
}

/// [`Cursor::seek_ge`] for a caller that counts no looks.
pub fn seek_ge<C: Cursor>(cursor: &mut C, key: &[u8])
    requires { IsName key.now }
    ensures { ComesTo C.points C.place C.is_part (count_below (name_in key.now) (C.points cursor.old) + 1) cursor.old cursor.new }
{
    seek_ge_from::<C, Brand>(cursor, key, Blank::new(1));
}

/// The same, with the looks in a ledger of their own.
fn seek_ge_from<C: Cursor, L: Ledger>(cursor: &mut C, key: &[u8], blank: Blank)
    requires key { IsName key.now }
    requires name { blank.name ≡ L.name }
    requires parts { blank.parts ≡ L.parts }
    requires some { 0 < blank.parts }
    ensures { ComesTo C.points C.place C.is_part (count_below (name_in key.now) (C.points cursor.old) + 1) cursor.old cursor.new }
{
    cursor.seek_ge(key, &mut Looks::<L>::new(blank));
}

/// [`Cursor::next`] for a caller that counts no looks.
pub fn next<C: Cursor>(cursor: &mut C)
    ensures { ComesTo C.points C.place C.is_part (min (C.place cursor.old + 1) (length (C.points cursor.old) + 1)) cursor.old cursor.new }
{
    next_from::<C, Brand>(cursor, Blank::new(1));
}

/// The same, with the looks in a ledger of their own.
fn next_from<C: Cursor, L: Ledger>(cursor: &mut C, blank: Blank)
    requires name { blank.name ≡ L.name }
    requires parts { blank.parts ≡ L.parts }
    requires some { 0 < blank.parts }
    ensures { ComesTo C.points C.place C.is_part (min (C.place cursor.old + 1) (length (C.points cursor.old) + 1)) cursor.old cursor.new }
{
    cursor.next(&mut Looks::<L>::new(blank));
}
