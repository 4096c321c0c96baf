//! Halving over abbreviated keys alone, with no branch on what is compared.
ghost use Rattle.std.specs.Prelude.{◌≡◌, ◌<◌, ◌≤◌, ◌+◌, ◌-◌, ◌/◌, length, slice_index, nat_lt, if◌then◌else◌};
ghost use Rattle.mvcc_key.specs.views.Looks.{bits};
ghost use Rattle.mem_table.specs.views.Halves.{AreNotFalling, IsHalved};

use mvcc_key::Looks;
use std::sync::ledger::Ledger;

/// The half where the abbreviated key is below the one sought, and else 0. It is a subtraction with a borrow, so that a loop over it has no
/// branch to foretell.
#[inline]
fn half_if_below(stored: u64, abbreviated: u64, half: usize) -> usize
    ensures { result ≡ (if nat_lt stored abbreviated then half else 0) }
{
    let borrow = u128::from(stored).wrapping_sub(u128::from(abbreviated)) >> 64;
    borrow as usize & half
}

/// Halves `count` abbreviated keys from `base` on, until the one in the middle is the abbreviated key sought, or none is left: the first of those that
/// are left, and their number. Each comparison that decides is a look.
pub(crate) fn halve<L: Ledger>(
    abbreviated_keys: &[u64],
    abbreviated: u64,
    base: usize,
    count: usize,
    looks: &mut Looks<L>,
) -> (usize, usize)
    requires rising { AreNotFalling abbreviated_keys.now }
    requires within { base + count ≤ length abbreviated_keys.now }
    ensures halved { IsHalved abbreviated_keys.now abbreviated base count result.0 result.1 }
    ensures bound { looks.new + bits result.1 ≤ looks.old + bits count }
    ensures later { looks.old ≤ looks.new }
    ensures some { result.1 < count → looks.old < looks.new }
    ensures tied { 0 < result.1 → slice_index abbreviated_keys.now (result.0 + (result.1 - result.1 / 2) - 1) ≡ abbreviated }
{
    let mut low = base;
    let mut left = count;
    while left > 0 {
        let half = left - left / 2;
        let stored = abbreviated_keys[low + half - 1];
        if stored == abbreviated {
            return (low, left);
        }
        looks.tick();
        low += half_if_below(stored, abbreviated, half);
        left -= half;
    }
    (low, left)
}
