//! Places in a list of fragments, found by halving.
ghost use Rattle.std.specs.Prelude.{◌≡◌, ◌+◌, ◌≤◌, length, take, drop, find, slice_range};
ghost use Rattle.std.specs.Option.{option_copied};
ghost use Rattle.mvcc_key.specs.Canonical.{IsCanonical};
ghost use Rattle.mvcc_key.specs.views.Looks.{bits};
ghost use Rattle.mvcc_key.specs.Order.{is_at_or_below, is_within};
ghost use Rattle.mvcc_key.specs.Pieces.{EndBy, EndBelow, StartsFrom, StartsAbove};
ghost use Rattle.range_key.specs.views.Places.{EndsAbove, EndsFrom, StartBy, StartBelow};

use crate::Fragment;
use mvcc_key::Looks;
use std::sync::ledger::Ledger;

/// One look: whether a fragment's bound is the key or before it.
fn is_by<L: Ledger>(bound: &[u8], key: &[u8], looks: &mut Looks<L>) -> bool
    ensures answer { result ≡ is_at_or_below bound.now key.now }
    ensures cost { looks.new ≡ looks.old + 1 }
{
    looks.tick();
    bound.cmp(key).is_le()
}

/// The place of the first fragment that ends above the key. Each comparison is a look.
fn first_ending_above<L: Ledger>(fragments: &[Fragment], key: &[u8], looks: &mut Looks<L>) -> usize
    requires { IsCanonical fragments.now }
    ensures within { result ≤ length fragments.now }
    ensures before { EndBy key.now (take result fragments.now) }
    ensures from { EndsAbove key.now (drop result fragments.now) }
    ensures later { looks.old ≤ looks.new }
    ensures cost { looks.new ≤ looks.old + bits (length fragments.now) }
{
    let mut low = 0;
    let mut high = fragments.len();
    while low < high {
        let middle = low + (high - low) / 2;
        if is_by(fragments[middle].end_bytes(), key, looks) {
            low = middle + 1;
        } else {
            high = middle;
        }
    }
    low
}

/// The fragment that contains the key, where there is one.
pub(crate) fn fragment_at<'a, L: Ledger>(
    fragments: &'a [Fragment],
    key: &[u8],
    looks: &mut Looks<L>,
) -> Option<&'a Fragment>
    requires { IsCanonical fragments.now }
    ensures found { option_copied result ≡ find (λ f. is_within f.start f.end key.now) fragments.now }
    ensures later { looks.old ≤ looks.new }
    ensures looks { looks.new ≤ looks.old + bits (length fragments.now) + 1 }
{
    let place = first_ending_above(fragments, key, looks);
    let fragment = fragments.get(place)?;
    if is_by(fragment.start_bytes(), key, looks) {
        Some(fragment)
    } else {
        None
    }
}

/// How many fragments end below the key.
fn ending_below(fragments: &[Fragment], key: &[u8]) -> usize
    requires { IsCanonical fragments.now }
    ensures within { result ≤ length fragments.now }
    ensures before { EndBelow key.now (take result fragments.now) }
    ensures from { EndsFrom key.now (drop result fragments.now) }
{
    fragments.partition_point(|f| f.end_bytes().cmp(key).is_lt())
}

/// How many fragments end at the key or below it.
pub(crate) fn ending_by(fragments: &[Fragment], key: &[u8]) -> usize
    requires { IsCanonical fragments.now }
    ensures within { result ≤ length fragments.now }
    ensures before { EndBy key.now (take result fragments.now) }
    ensures from { EndsAbove key.now (drop result fragments.now) }
{
    fragments.partition_point(|f| f.end_bytes().cmp(key).is_le())
}

/// How many fragments start below the key.
pub(crate) fn starting_below(fragments: &[Fragment], key: &[u8]) -> usize
    requires { IsCanonical fragments.now }
    ensures within { result ≤ length fragments.now }
    ensures before { StartBelow key.now (take result fragments.now) }
    ensures from { StartsFrom key.now (drop result fragments.now) }
{
    fragments.partition_point(|f| f.start_bytes().cmp(key).is_lt())
}

/// How many fragments start at the key or below it.
fn starting_by(fragments: &[Fragment], key: &[u8]) -> usize
    requires { IsCanonical fragments.now }
    ensures within { result ≤ length fragments.now }
    ensures before { StartBy key.now (take result fragments.now) }
    ensures from { StartsAbove key.now (drop result fragments.now) }
{
    fragments.partition_point(|f| f.start_bytes().cmp(key).is_le())
}

/// The places of the fragments that overlap the span or abut it: from the first up to, and without, the second.
pub(crate) fn touched(fragments: &[Fragment], start: &[u8], end: &[u8]) -> (usize, usize)
    requires { IsCanonical fragments.now }
    ensures ordered { result.0 ≤ result.1 }
    ensures within { result.1 ≤ length fragments.now }
    ensures left { EndBelow start.now (take result.0 fragments.now) }
    ensures from { EndsFrom start.now (slice_range fragments.now result.0 result.1) }
    ensures by { StartBy end.now (slice_range fragments.now result.0 result.1) }
    ensures right { StartsAbove end.now (drop result.1 fragments.now) }
{
    let low = ending_below(fragments, start);
    let (_, rest) = fragments.split_at(low);
    (low, low + starting_by(rest, end))
}
