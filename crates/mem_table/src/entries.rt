//! Entries that are reached by their numbers, and one look at them.
ghost use Rattle.std.specs.Prelude.{◌≡◌, ◌<◌, ◌+◌, ℕ, List, length, slice_get, Some, if◌then◌else◌};
ghost use Rattle.std.specs.Option.{option_map};
ghost use Rattle.mvcc_key.specs.KeyFormat.{encoded_name};
ghost use Rattle.mvcc_key.specs.Encoded.{name_in, IsBytes, IsName};
ghost use Rattle.mvcc_key.specs.Points.{Point, AreEncodable, is_below_name};
ghost use Rattle.mem_table.specs.views.Entries.{entry_at};

use mvcc_key::{Looks, cmp_encoded};
use std::sync::ledger::Ledger;

/// Entries by their numbers, in the order in which they came.
pub(crate) trait Entries {
    ghost points: { Self → List Point };

    /// The encoded key of an entry.
    fn key(&self, number: u32) -> &[u8]
        requires { number < length (points self.now) }
        ensures { option_map (λ p. encoded_name p.name) (slice_get (points self.now) number) ≡ Some result.now };

    ghost encodable: { (s : Self) → AreEncodable (points s) };

    ghost bytes: { (s : Self) → (i : ℕ) (p : Point) → slice_get (points s) i ≡ Some p → IsBytes p.name.key };
}

/// Whether an entry is below the encoded key sought.
pub(crate) fn is_entry_below<E: Entries>(entries: &E, number: u32, sought: &[u8]) -> bool
    requires within { number < length (E.points entries.now) }
    requires sought { IsName sought.now }
    ensures { result ≡ is_below_name (name_in sought.now) (entry_at (E.points entries.now) number) }
{
    cmp_encoded(entries.key(number), sought).is_lt()
}

/// One look: the half where an entry is below the encoded key sought, and else 0.
pub(crate) fn half_if_below_name<E: Entries, L: Ledger>(
    entries: &E,
    number: u32,
    sought: &[u8],
    half: usize,
    looks: &mut Looks<L>,
) -> usize
    requires within { number < length (E.points entries.now) }
    requires sought { IsName sought.now }
    ensures answer { result ≡ (if is_below_name (name_in sought.now) (entry_at (E.points entries.now) number) then half else 0) }
    ensures cost { looks.new ≡ looks.old + 1 }
{
    looks.tick();
    if is_entry_below(entries, number, sought) {
        half
    } else {
        0
    }
}
