//! Lists of fragments that are changed in two steps.
ghost use Rattle.std.specs.Prelude.{◌≡◌, [], IsTrue, IfOk, MatchOption, OnOk, OnErr, not};
ghost use Rattle.mvcc_key.specs.Canonical.{IsCanonical};
ghost use Rattle.mvcc_key.specs.Order.{is_below};
ghost use Rattle.mvcc_key.specs.views.Seen.{time_of};
ghost use Rattle.range_key.specs.RangeOps.{fragments_with, removing, setting};
ghost use Rattle.mvcc_key.specs.SameFragments.{are_same_fragments};
ghost use Rattle.range_key.specs.views.Planned.{IsWithin, with_pieces};
ghost use Rattle.mvcc_key.specs.views.SeenRange.{range_op_of};
ghost use Rattle.range_key.specs.views.Stages.{settled};

use crate::fragment::copied;
use crate::planned::{Change, plan_add, plan_taking};
use crate::taken::Taken;
use crate::{Fragment, FragmentList, FragmentsRef};
use mvcc_key::{OutOfMemory, RangeOp, Timestamp};
use std::alloc::Global;
use std::marker::Model;
use std::mem;

/// What is to stand in the place of a list.
#[derive(Drop)]
enum Next {
    /// The list itself.
    Same,
    /// The list with one change, for which there is room in it.
    Changed(Change),
    /// A list of its own.
    Other(FragmentList),
}

/// The fragments of some range tombstones, as a [`FragmentList`] has them, with what range operations are to make of them: `stage`
/// takes the memory for that and leaves the fragments as they are, and `commit` puts it in place without memory. So a caller whose
/// own step may still be refused stages first.
///
/// One operation makes anew only the fragments that its span overlaps or abuts, which it finds by halving. From the second one on
/// the operations change a copy of the list.
#[derive(Drop)]
pub struct StagedFragments {
    held: Vec<Fragment>,
    next: Next,
}

impl Model for StagedFragments {
    ghost use Rattle.std.specs.Prelude.{vec_len, vec_capacity};
    ghost use Rattle.range_key.specs.views.Stages.{Stage};

    ghost Value = { Stage };

    ghost use Rattle.range_key.specs.views.Staged.{IsStaged, next_of};

    ghost view = { λ s. record { fragments = s.held.items; next = next_of s.held.items s.next } };

    ghost invariant = { λ s. IsStaged s.held.items (vec_len s.held) (vec_capacity s.held) s.next };
}

impl StagedFragments {
    /// No fragments, and nothing staged. This takes no memory.
    pub fn new(alloc: Global) -> StagedFragments
        ensures { result ≡ settled [] }
    {
        StagedFragments {
            held: Vec::new(alloc),
            next: Next::Same,
        }
    }

    /// The fragments as they are, lent. This takes no memory.
    pub fn lend(&self) -> FragmentsRef<'_>
        ensures { result ≡ self.now.fragments }
    {
        FragmentsRef::over(*self.held.allocator(), self.held.as_slice())
    }

    /// Stages one operation more: one that sets is [`stage_add`](StagedFragments::stage_add), and one that removes is
    /// [`stage_remove_at`](StagedFragments::stage_remove_at).
    pub fn stage(&mut self, op: &RangeOp) -> Result<(), OutOfMemory>
        requires { IsTrue (is_below op.now.start op.now.end) }
        ensures fragments { self.new.fragments ≡ self.old.fragments }
        ensures next { OnOk result (self.new.next ≡ fragments_with self.old.next (range_op_of op.now)) }
        ensures err { OnErr result (self.new.next ≡ self.old.fragments) }
    {
        let (start, end) = (op.start.bytes(), op.end.bytes());
        match op.set {
            Some(_) => self.stage_add(start, end, op.ts),
            None => self.stage_remove_at(start, end, op.ts),
        }
    }

    /// Stages a tombstone over the span, on what is staged already. Where memory is wanting nothing is staged.
    pub fn stage_add(&mut self, start: &[u8], end: &[u8], ts: Timestamp) -> Result<(), OutOfMemory>
        requires { IsTrue (is_below start.now end.now) }
        ensures fragments { self.new.fragments ≡ self.old.fragments }
        ensures next { OnOk result (self.new.next ≡ fragments_with self.old.next (setting start.now end.now (time_of ts))) }
        ensures err { OnErr result (self.new.next ≡ self.old.fragments) }
    {
        match self.take_next()? {
            None => {
                let alloc = *self.held.allocator();
                let change = plan_add(alloc, self.held.as_slice(), start, end, ts)?;
                self.keep(change)
            }
            Some(mut list) => {
                list.add(start, end, ts)?;
                self.keep_list(list);
                Ok(())
            }
        }
    }

    /// Stages that one timestamp goes out of the span, on what is staged already. Where memory is wanting nothing is staged.
    pub fn stage_remove_at(
        &mut self,
        start: &[u8],
        end: &[u8],
        ts: Timestamp,
    ) -> Result<(), OutOfMemory>
        requires { IsTrue (is_below start.now end.now) }
        ensures fragments { self.new.fragments ≡ self.old.fragments }
        ensures next { OnOk result (self.new.next ≡ fragments_with self.old.next (removing start.now end.now (time_of ts))) }
        ensures err { OnErr result (self.new.next ≡ self.old.fragments) }
    {
        match self.take_next()? {
            None => {
                let taken = Taken::One(ts);
                let alloc = *self.held.allocator();
                let change = plan_taking(alloc, self.held.as_slice(), start, end, taken)?;
                self.keep(change)
            }
            Some(mut list) => {
                list.remove_at(start, end, ts)?;
                self.keep_list(list);
                Ok(())
            }
        }
    }

    /// Whether what is staged differs from the fragments.
    pub fn is_changed(&self) -> bool
        ensures { result ≡ not (are_same_fragments self.now.fragments self.now.next) }
    {
        match &self.next {
            Next::Same => false,
            Next::Changed(change) => change.alters(self.held.as_slice()),
            Next::Other(list) => self.held.as_slice() != list.as_slice(),
        }
    }

    /// Puts what is staged in place. This takes no memory.
    pub fn commit(&mut self)
        ensures { self.new ≡ settled self.old.next }
    {
        match mem::replace(&mut self.next, Next::Same) {
            Next::Same => {}
            Next::Changed(change) => change.put_in(&mut self.held),
            Next::Other(list) => self.held = list.into_vec(),
        }
    }

    /// Gives up what is staged.
    pub fn discard(&mut self)
        ensures { self.new ≡ settled self.old.fragments }
    {
        self.next = Next::Same;
    }

    /// What is staged, as a list of its own, where anything is. Nothing is staged afterwards.
    fn take_next(&mut self) -> Result<Option<FragmentList>, OutOfMemory>
        ensures settled { self.new ≡ settled self.old.fragments }
        ensures next { IfOk result (λ next. MatchOption next (self.old.next ≡ self.old.fragments) (λ list. list ≡ self.old.next)) }
    {
        match mem::replace(&mut self.next, Next::Same) {
            Next::Same => Ok(None),
            Next::Changed(change) => Ok(Some(list_with(
                self.held.as_slice(),
                change,
                *self.held.allocator(),
            )?)),
            Next::Other(list) => Ok(Some(list)),
        }
    }

    /// Stages one change of the fragments, where it alters them.
    fn keep(&mut self, change: Change) -> Result<(), OutOfMemory>
        requires within { IsWithin self.old.fragments change }
        requires canonical { IsCanonical (with_pieces self.old.fragments change) }
        requires settled { self.old.next ≡ self.old.fragments }
        ensures fragments { self.new.fragments ≡ self.old.fragments }
        ensures next { OnOk result (self.new.next ≡ with_pieces self.old.fragments change) }
        ensures err { OnErr result (self.new.next ≡ self.old.fragments) }
    {
        if change.alters(self.held.as_slice()) {
            self.held.reserve(change.len())?;
            self.next = Next::Changed(change);
        }
        Ok(())
    }

    /// Stages a list of its own.
    fn keep_list(&mut self, list: FragmentList)
        requires { IsCanonical list }
        ensures fragments { self.new.fragments ≡ self.old.fragments }
        ensures next { self.new.next ≡ list }
    {
        self.next = Next::Other(list);
    }
}

/// The list that a change makes of the fragments.
fn list_with(
    fragments: &[Fragment],
    change: Change,
    alloc: Global,
) -> Result<FragmentList, OutOfMemory>
    requires within { IsWithin fragments.now change }
    requires canonical { IsCanonical (with_pieces fragments.now change) }
    ensures { IfOk result (λ list. list ≡ with_pieces fragments.now change) }
{
    let mut held = copied(alloc, fragments, change.len())?;
    change.put_in(&mut held);
    Ok(FragmentList::of(held))
}
