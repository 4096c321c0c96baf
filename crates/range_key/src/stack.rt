//! The timestamps over one span, newest first.
ghost use Rattle.std.specs.Prelude.{◌≡◌, ◌∷◌, [], map, filter, not, length, IfOk, IsTrue, ◌↔◌};
ghost use Rattle.std.specs.List.Sorted.{IsStrictlySortedBy, IsBinarySearchResult, IsSearchInRange};
ghost use Rattle.mvcc_key.specs.Fragments.{is_same_stack};
ghost use Rattle.mvcc_key.specs.Lists.{put_in_order};
ghost use Rattle.mvcc_key.specs.Order.{newer_first, time_cmp};
ghost use Rattle.mvcc_key.specs.views.Seen.{time_of};
ghost use Rattle.range_key.specs.views.Taken.{is_taken};

use crate::taken::Taken;
use mvcc_key::{OutOfMemory, Timestamp};
use smallvec::SmallVec;
use std::alloc::Global;
use std::marker::Model;

/// The timestamps of the range tombstones over one span, newest first. Up to two of them take no memory of their own.
#[derive(Debug, Drop)]
pub struct Stack {
    held: SmallVec<Timestamp, 2>,
}

impl Model for Stack {
    ghost use Rattle.std.specs.Prelude.{List, map};
    ghost use Rattle.std.specs.List.Sorted.{IsStrictlySortedBy};
    ghost use Rattle.mvcc_key.specs.Order.{Timestamp, newer_first};
    ghost use Rattle.mvcc_key.specs.views.Seen.{time_of};

    ghost Value = { List Timestamp };

    ghost view = { λ s. map time_of s.held.items };

    ghost invariant = { λ s. IsStrictlySortedBy newer_first (map time_of s.held.items) };
}

impl Stack {
    /// The timestamps, newest first.
    pub fn times(&self) -> &[Timestamp]
        ensures value { map time_of result.now ≡ self.now }
        ensures descending { IsStrictlySortedBy newer_first self.now }
    {
        self.held.as_slice()
    }

    /// One timestamp.
    pub(crate) fn one(alloc: Global, ts: Timestamp) -> Stack
        ensures { result ≡ time_of ts ∷ [] }
    {
        let mut held = SmallVec::new(alloc);
        held.push_reserved(ts);
        Stack { held }
    }

    /// A copy of it.
    pub(crate) fn copy(&self, alloc: Global) -> Result<Stack, OutOfMemory>
        ensures { IfOk result (λ s. s ≡ self.now) }
    {
        Ok(Stack {
            held: SmallVec::from_slice(alloc, self.held.as_slice())?,
        })
    }

    /// A copy with a timestamp more, which is there once.
    pub(crate) fn with(&self, alloc: Global, ts: Timestamp) -> Result<Stack, OutOfMemory>
        ensures { IfOk result (λ s. s ≡ put_in_order newer_first (time_of ts) self.now) }
    {
        let times = self.held.as_slice();
        let mut held = SmallVec::with_capacity(alloc, times.len() + 1)?;
        held.extend_from_slice(times)?;
        if let Err(place) = position_of(times, ts) {
            held.insert(place, ts)?;
        }
        Ok(Stack { held })
    }

    /// A copy without those that are taken out.
    pub(crate) fn without(&self, alloc: Global, taken: Taken) -> Result<Stack, OutOfMemory>
        ensures { IfOk result (λ s. s ≡ filter (λ t. not (is_taken taken t)) self.now) }
    {
        let mut held = SmallVec::new(alloc);
        for time in self.held.as_slice() {
            if !taken.takes(*time) {
                held.push(*time)?;
            }
        }
        Ok(Stack { held })
    }

    /// Whether no timestamp is left.
    pub(crate) fn is_empty(&self) -> bool
        ensures { IsTrue result ↔ (self.now ≡ []) }
    {
        self.held.is_empty()
    }

    /// Whether the other has the same timestamps.
    pub(crate) fn is_same(&self, other: &Stack) -> bool
        ensures { result ≡ is_same_stack self.now other.now }
    {
        self.times() == other.times()
    }
}

/// The place of a timestamp among others, newest first, or that where it is to stand.
fn position_of(times: &[Timestamp], ts: Timestamp) -> Result<usize, usize>
    ensures bound { IsSearchInRange result (length times.now) }
    ensures place { IsBinarySearchResult (λ t. time_cmp (time_of ts) (time_of t)) times.now result }
{
    times.binary_search_by(|time| ts.compare(*time))
}
