//! Sorted pairs that are reached by their numbers, and the cursor over them.
ghost use Rattle.std.specs.Prelude.{◌≡◌, ◌≤◌, ◌<◌, ◌+◌, ◌^◌, List, length, slice_get, true, Some, IfSome, IsTrue};
ghost use Rattle.std.specs.Option.{option_map, option_and_then};
ghost use Rattle.mvcc_key.specs.KeyFormat.{encoded_name};
ghost use Rattle.mvcc_key.specs.Encoded.{name_in, IsName};
ghost use Rattle.mvcc_key.specs.views.AbbreviatedKey.{IsAbbreviatedKey};
ghost use Rattle.mvcc_key.specs.views.Looks.{bits};
ghost use Rattle.mvcc_key.specs.Points.{Point, IsRising, AreEncodable, count_below, is_below_name};

use crate::abbreviated::{abbreviated_key, cmp_past_abbreviated};
use crate::{Cursor, Looks};
use std::cmp::Ordering;
use std::sync::ledger::Ledger;

/// The stored pairs of one part, sorted, each reached by its number from 0 on.
pub trait SortedPairs {
    /// The pairs in order; a name without a value is cleared.
    ghost points: { Self → List Point };

    /// How many pairs there are, cleared ones among them.
    fn len(&self) -> usize
        ensures count { result ≡ length (points self.now) }
        ensures small { result < 2 ^ 63 };

    /// The encoded key of a pair.
    fn key(&self, index: usize) -> &[u8]
        requires { index < length (points self.now) }
        ensures { option_map (λ p. encoded_name p.name) (slice_get (points self.now) index) ≡ Some result.now };

    /// The abbreviated key of a pair's key, as [`abbreviated_key`](crate::abbreviated_key) tells it.
    fn abbreviated_key(&self, index: usize) -> u64
        requires { index < length (points self.now) }
        ensures { IfSome (slice_get (points self.now) index) (λ p. IsAbbreviatedKey p.name.key result) };

    /// The value of a pair, and `None` where it is cleared.
    fn value(&self, index: usize) -> Option<&[u8]>
        requires { index < length (points self.now) }
        ensures { option_map (λ v. v.now) result ≡ option_and_then (λ p. p.value) (slice_get (points self.now) index) };

    ghost rising: { (s : Self) → IsRising (points s) };

    ghost encodable: { (s : Self) → AreEncodable (points s) };
}

/// One look: whether a pair is below the encoded key sought, whose abbreviated key is known. Mostly the
/// abbreviated keys decide.
fn is_below<P: SortedPairs, L: Ledger>(
    pairs: &P,
    index: usize,
    sought: &[u8],
    abbreviated: u64,
    looks: &mut Looks<L>,
) -> bool
    requires within { index < length (P.points pairs.now) }
    requires sought { IsName sought.now }
    requires abbreviated { IsAbbreviatedKey (name_in sought.now).key abbreviated }
    ensures answer { IfSome (slice_get (P.points pairs.now) index) (λ p. result ≡ is_below_name (name_in sought.now) p) }
    ensures cost { looks.new ≡ looks.old + 1 }
{
    looks.tick();
    match pairs.abbreviated_key(index).cmp(&abbreviated) {
        Ordering::Less => true,
        Ordering::Equal => cmp_past_abbreviated(pairs.key(index), sought).is_lt(),
        Ordering::Greater => false,
    }
}

/// How many pairs are below the encoded key, by halves, each comparison a look.
fn pairs_below<P: SortedPairs, L: Ledger>(pairs: &P, sought: &[u8], looks: &mut Looks<L>) -> usize
    requires { IsName sought.now }
    ensures count { result ≡ count_below (name_in sought.now) (P.points pairs.now) }
    ensures within { result ≤ length (P.points pairs.now) }
    ensures small { result < 2 ^ 63 }
    ensures some { 0 < length (P.points pairs.now) → looks.old < looks.new }
    ensures later { looks.old ≤ looks.new }
    ensures bound { looks.new ≤ looks.old + bits (length (P.points pairs.now)) }
{
    let abbreviated = abbreviated_key(sought);
    let mut low = 0;
    let mut high = pairs.len();
    while low < high {
        let middle = low + (high - low) / 2;
        if is_below(pairs, middle, sought, abbreviated, looks) {
            low = middle + 1;
        } else {
            high = middle;
        }
    }
    low
}

/// The cursor over sorted pairs. Each seek halves.
#[derive(Drop)]
pub struct PairsCursor<'a, P: SortedPairs> {
    pairs: &'a P,
    at: usize,
    ghost in_range: { at ≤ length (P.points pairs.now) + 1 },
}

impl<'a, P: SortedPairs> PairsCursor<'a, P> {
    /// A cursor before the first of the pairs.
    pub fn over(pairs: &'a P) -> Self
        ensures points { ⟦<PairsCursor<'a, P> as Cursor>⟧.points result ≡ P.points pairs.now }
        ensures place { ⟦<PairsCursor<'a, P> as Cursor>⟧.place result ≡ 0 }
        ensures part { IsTrue (⟦<PairsCursor<'a, P> as Cursor>⟧.is_part result) }
    {
        PairsCursor { pairs, at: 0 }
    }
}

impl<P: SortedPairs> Cursor for PairsCursor<'_, P> {
    ghost points = { λ c. P.points c.pairs.now };

    ghost place = { λ c. c.at };

    ghost is_part = { λ _. true };

    ghost rising = { λ c. P.rising c.pairs.now };

    ghost encodable = { λ c. P.encodable c.pairs.now };

    ghost in_range = { λ c. c.in_range };

    fn seek_ge<L: Ledger>(&mut self, key: &[u8], looks: &mut Looks<L>) {
        self.at = pairs_below(self.pairs, key, looks) + 1;
    }

    fn seek_lt<L: Ledger>(&mut self, key: &[u8], looks: &mut Looks<L>) {
        self.at = pairs_below(self.pairs, key, looks);
    }

    fn next<L: Ledger>(&mut self, looks: &mut Looks<L>) {
        if self.at <= self.pairs.len() {
            looks.tick();
            self.at += 1;
        }
    }

    fn prev<L: Ledger>(&mut self, looks: &mut Looks<L>) {
        if self.at > 0 {
            looks.tick();
            self.at -= 1;
        }
    }

    fn key(&self) -> Option<&[u8]> {
        if self.at == 0 || self.at > self.pairs.len() {
            return None;
        }
        Some(self.pairs.key(self.at - 1))
    }

    fn value(&self) -> Option<&[u8]> {
        if self.at == 0 || self.at > self.pairs.len() {
            return None;
        }
        self.pairs.value(self.at - 1)
    }
}
