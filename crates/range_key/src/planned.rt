//! Changes of a list of fragments in two steps: the pieces are made, and then put in place without memory.
ghost use Rattle.std.specs.Prelude.{◌≡◌, ◌+◌, ◌-◌, ◌≤◌, ◌++◌, IfOk, IsTrue, not, length, take, drop, slice_range, vec_len, vec_capacity};
ghost use Rattle.mvcc_key.specs.Canonical.{IsCanonical};
ghost use Rattle.mvcc_key.specs.Order.{is_below};
ghost use Rattle.mvcc_key.specs.views.Seen.{time_of};
ghost use Rattle.mvcc_key.specs.SameFragments.{are_same_fragments};
ghost use Rattle.range_key.specs.views.Changes.{AddsTombstone, TakesOut};
ghost use Rattle.range_key.specs.views.Planned.{IsWithin, with_pieces};
ghost use Rattle.range_key.specs.views.Taken.{is_taken};

use crate::Fragment;
use crate::change::{added, thinned};
use crate::place::touched;
use crate::taken::Taken;
use mvcc_key::{OutOfMemory, Timestamp};
use std::alloc::Global;

/// Pieces that are to stand in the place of the fragments from `low` up to, and without, `high`.
#[derive(Drop)]
pub(crate) struct Change {
    low: usize,
    high: usize,
    pieces: Vec<Fragment>,
}

/// The change that lays a tombstone over the span.
pub(crate) fn plan_add(
    alloc: Global,
    fragments: &[Fragment],
    start: &[u8],
    end: &[u8],
    ts: Timestamp,
) -> Result<Change, OutOfMemory>
    requires canonical { IsCanonical fragments.now }
    requires span { IsTrue (is_below start.now end.now) }
    ensures within { IfOk result (IsWithin fragments.now) }
    ensures adds { IfOk result (λ c. AddsTombstone start.now end.now (time_of ts) fragments.now (with_pieces fragments.now c)) }
{
    let (low, high) = touched(fragments, start, end);
    let pieces = added(alloc, &fragments[low..high], start, end, ts)?;
    Ok(Change { low, high, pieces })
}

/// The change that takes timestamps out of the span.
pub(crate) fn plan_taking(
    alloc: Global,
    fragments: &[Fragment],
    start: &[u8],
    end: &[u8],
    taken: Taken,
) -> Result<Change, OutOfMemory>
    requires canonical { IsCanonical fragments.now }
    requires span { IsTrue (is_below start.now end.now) }
    ensures within { IfOk result (IsWithin fragments.now) }
    ensures takes { IfOk result (λ c. TakesOut start.now end.now (is_taken taken) fragments.now (with_pieces fragments.now c)) }
{
    let (low, high) = touched(fragments, start, end);
    let pieces = thinned(alloc, &fragments[low..high], start, end, taken)?;
    Ok(Change { low, high, pieces })
}

impl Change {
    /// How many fragments it needs room for.
    pub(crate) fn len(&self) -> usize
        ensures { result ≡ vec_len self.now.pieces }
    {
        self.pieces.len()
    }

    /// Whether the list is another one after it.
    pub(crate) fn alters(&self, fragments: &[Fragment]) -> bool
        requires { IsWithin fragments.now self.now }
        ensures { result ≡ not (are_same_fragments fragments.now (with_pieces fragments.now self.now)) }
    {
        &fragments[self.low..self.high] != self.pieces.as_slice()
    }

    /// Puts the pieces in their place, for which there is room. The fragments behind them are moved once, and only where there are
    /// more pieces, or fewer, than fragments that go.
    pub(crate) fn put_in(self, fragments: &mut Vec<Fragment>)
        requires within { IsWithin fragments.old.items self }
        requires room { vec_len fragments.old + vec_len self.pieces ≤ vec_capacity fragments.old }
        ensures { fragments.new.items ≡ with_pieces fragments.old.items self }
    {
        let Change {
            low,
            high,
            mut pieces,
        } = self;
        let (gone, come) = (high - low, pieces.len());
        let both = gone.min(come);
        exchange(fragments, low, &mut pieces, both);
        append(fragments, &mut pieces);
        turn_right(fragments, low + both, come - both);
        turn_left(fragments, low + come, gone - both);
        fragments.truncate(fragments.len() - gone);
    }
}

/// Lets so many fragments from a place on and as many pieces from the first on change places.
fn exchange(fragments: &mut Vec<Fragment>, from: usize, pieces: &mut Vec<Fragment>, count: usize)
    requires within { from + count ≤ vec_len fragments.old }
    requires enough { count ≤ vec_len pieces.old }
    ensures items { fragments.new.items ≡ take from fragments.old.items
        ++ (take count pieces.old.items ++ drop (from + count) fragments.old.items) }
    ensures len { vec_len fragments.new ≡ vec_len fragments.old }
    ensures capacity { vec_capacity fragments.new ≡ vec_capacity fragments.old }
    ensures pieces { pieces.new.items ≡ slice_range fragments.old.items from (from + count) ++ drop count pieces.old.items }
    ensures pieces_len { vec_len pieces.new ≡ vec_len pieces.old }
{
    fragments[from..from + count].swap_with_slice(&mut pieces[0..count]);
}

/// Moves the pieces behind the fragments, for which there is room.
fn append(fragments: &mut Vec<Fragment>, pieces: &mut Vec<Fragment>)
    requires room { vec_len fragments.old + vec_len pieces.old ≤ vec_capacity fragments.old }
    ensures { fragments.new.items ≡ fragments.old.items ++ pieces.old.items }
{
    fragments.append(pieces).unwrap();
}

/// Lets the last fragments, so many of them, stand at a place, before those that stood there.
fn turn_right(fragments: &mut Vec<Fragment>, from: usize, count: usize)
    requires { from + count ≤ vec_len fragments.old }
    ensures { fragments.new.items ≡ take from fragments.old.items
        ++ (drop (vec_len fragments.old - count) fragments.old.items
        ++ slice_range fragments.old.items from (vec_len fragments.old - count)) }
{
    fragments[from..].rotate_right(count);
}

/// Lets the fragments at a place, so many of them, stand last.
fn turn_left(fragments: &mut Vec<Fragment>, from: usize, count: usize)
    requires { from + count ≤ vec_len fragments.old }
    ensures { fragments.new.items ≡ take from fragments.old.items
        ++ (drop (from + count) fragments.old.items ++ slice_range fragments.old.items from (from + count)) }
{
    fragments[from..].rotate_left(count);
}
