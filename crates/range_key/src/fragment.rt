//! Fragments.
ghost use Rattle.std.specs.Prelude.{◌≡◌, ◌+◌, ◌≤◌, IfOk, ◌&&◌, filter, not, vec_len, vec_capacity};
ghost use Rattle.std.proofs.lemmas.Cmp.{nat_list_eq_equiv, and_equiv, on_equiv, lists_equiv};
ghost use Rattle.std.specs.Cmp.{partial_equiv_from_equiv};
ghost use Rattle.mvcc_key.proofs.FragmentLaws.{is_same_time-equiv};
ghost use Rattle.mvcc_key.specs.Fragments.{is_same_stack};
ghost use Rattle.mvcc_key.specs.Lists.{put_in_order};
ghost use Rattle.mvcc_key.specs.Order.{is_same_key, newer_first};
ghost use Rattle.mvcc_key.specs.Pieces.{piece};
ghost use Rattle.mvcc_key.specs.views.Seen.{time_of};
ghost use Rattle.mvcc_key.specs.SameFragments.{is_same_fragment};
ghost use Rattle.range_key.specs.views.Taken.{is_taken};

use crate::Stack;
use crate::taken::Taken;
use mvcc_key::{Key, OutOfMemory, Timestamp};
use std::alloc::Global;
use std::marker::Model;

/// The keys from `start` up to, and without, `end`, and the timestamps of the range tombstones over them (CockroachDB's
/// MVCC range tombstone tech note calls this a fragment).
#[derive(Debug, Drop)]
pub struct Fragment {
    pub start: Key,
    pub end: Key,
    pub stack: Stack,
}

impl Model for Fragment {
    ghost use Rattle.mvcc_key.specs.Fragments.{Fragment};

    ghost Value = { Fragment };

    ghost view = { λ f. record { start = f.start; end = f.end; stack = f.stack } };
}

impl Fragment {
    /// The span between these bounds, which are copied, with this stack.
    pub(crate) fn copy(
        alloc: Global,
        start: &[u8],
        end: &[u8],
        stack: Stack,
    ) -> Result<Fragment, OutOfMemory>
        ensures { IfOk result (λ f. f ≡ piece start.now end.now stack) }
    {
        Ok(Fragment {
            start: Key::copy(alloc, start)?,
            end: Key::copy(alloc, end)?,
            stack,
        })
    }

    /// A copy of it.
    pub(crate) fn copy_of(&self, alloc: Global) -> Result<Fragment, OutOfMemory>
        ensures { IfOk result (λ f. f ≡ self.now) }
    {
        let stack = self.copy_stack(alloc)?;
        Fragment::copy(alloc, self.start_bytes(), self.end_bytes(), stack)
    }

    /// Its stack, copied.
    pub(crate) fn copy_stack(&self, alloc: Global) -> Result<Stack, OutOfMemory>
        ensures { IfOk result (λ s. s ≡ self.now.stack) }
    {
        self.stack.copy(alloc)
    }

    /// Its stack with a timestamp more.
    pub(crate) fn stack_with(&self, alloc: Global, ts: Timestamp) -> Result<Stack, OutOfMemory>
        ensures { IfOk result (λ s. s ≡ put_in_order newer_first (time_of ts) self.now.stack) }
    {
        self.stack.with(alloc, ts)
    }

    /// Its stack without the timestamps that are taken out.
    pub(crate) fn stack_without(&self, alloc: Global, taken: Taken) -> Result<Stack, OutOfMemory>
        ensures { IfOk result (λ s. s ≡ filter (λ t. not (is_taken taken t)) self.now.stack) }
    {
        self.stack.without(alloc, taken)
    }

    /// The bytes of its first key.
    pub(crate) fn start_bytes(&self) -> &[u8]
        ensures { result.now ≡ self.now.start }
    {
        self.start.bytes()
    }

    /// The bytes of the key behind its last.
    pub(crate) fn end_bytes(&self) -> &[u8]
        ensures { result.now ≡ self.now.end }
    {
        self.end.bytes()
    }

    /// Whether a piece that starts here with this stack is one with it.
    pub(crate) fn is_joined_by(&self, start: &[u8], stack: &Stack) -> bool
        ensures { result ≡ (is_same_key self.now.end start.now && is_same_stack self.now.stack stack.now) }
    {
        self.end_bytes() == start && self.stack.is_same(stack)
    }
}

impl PartialEq for Fragment {
    ghost eq = { is_same_fragment };

    ghost laws = { partial_equiv_from_equiv (and_equiv (and_equiv (on_equiv (λ f. f.start) nat_list_eq_equiv)
        (on_equiv (λ f. f.end) nat_list_eq_equiv)) (on_equiv (λ f. f.stack) (lists_equiv is_same_time-equiv))) };

    /// Whether the other has the same bounds and the same stack.
    fn eq(&self, other: &Fragment) -> bool {
        self.start_bytes() == other.start_bytes()
            && self.end_bytes() == other.end_bytes()
            && self.stack.is_same(&other.stack)
    }
}

/// Copies of the fragments, with room for so many more.
pub(crate) fn copied(
    alloc: Global,
    fragments: &[Fragment],
    more: usize,
) -> Result<Vec<Fragment>, OutOfMemory>
    ensures items { IfOk result (λ v. v.items ≡ fragments.now) }
    ensures room { IfOk result (λ v. vec_len v + more ≤ vec_capacity v) }
{
    let mut copies = Vec::with_capacity(alloc, fragments.len().saturating_add(more))?;
    for fragment in fragments {
        copies.push(fragment.copy_of(alloc)?)?;
    }
    copies.reserve(more)?;
    Ok(copies)
}
