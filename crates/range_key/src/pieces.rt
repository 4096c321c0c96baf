//! Pieces of fragments, joined as they come.
ghost use Rattle.std.specs.Prelude.{◌≡◌, [], OnOk};
ghost use Rattle.mvcc_key.specs.Canonical.{IsCanonical};
ghost use Rattle.mvcc_key.specs.Fragments.{part_within};
ghost use Rattle.mvcc_key.specs.Pieces.{cut_below, cut_from, filled, piece};
ghost use Rattle.mvcc_key.specs.views.Seen.{time_of};
ghost use Rattle.range_key.specs.views.Joining.{is_one_with_last, joined_on, joined_with, with_last_end};
ghost use Rattle.range_key.specs.views.Places.{EndsFrom, StartBy};

use crate::cut::bounds_within;
use crate::{Fragment, Stack};
use mvcc_key::{Key, OutOfMemory, Timestamp};
use std::alloc::Global;
use std::marker::Model;

/// Pieces in the order of keys. One that comes and abuts the last with an equal stack is one with it.
#[derive(Drop)]
pub(crate) struct Pieces {
    held: Vec<Fragment>,
}

impl Model for Pieces {
    ghost use Rattle.std.specs.Prelude.{List};
    ghost use Rattle.mvcc_key.specs.Fragments.{Fragment};

    ghost Value = { List Fragment };

    ghost view = { λ p. p.held.items };
}

impl Pieces {
    /// No pieces.
    pub(crate) fn new(alloc: Global) -> Pieces
        ensures { result ≡ [] }
    {
        Pieces {
            held: Vec::new(alloc),
        }
    }

    /// The pieces.
    pub(crate) fn into_vec(self) -> Vec<Fragment>
        ensures { result.items ≡ self }
    {
        self.held
    }

    /// The allocator.
    pub(crate) fn alloc(&self) -> Global {
        *self.held.allocator()
    }

    /// Puts a piece behind the others.
    pub(crate) fn push(&mut self, start: &[u8], end: &[u8], stack: Stack) -> Result<(), OutOfMemory>
        ensures { OnOk result (self.new ≡ joined_with self.old (piece start.now end.now stack)) }
    {
        let alloc = self.alloc();
        if is_one_with_last(&self.held, start, &stack) {
            set_last_end(&mut self.held, Key::copy(alloc, end)?);
            return Ok(());
        }
        self.held.push(Fragment::copy(alloc, start, end, stack)?)?;
        Ok(())
    }

    /// Puts the free stretch between two bounds, where there is one, under the timestamp behind the others.
    pub(crate) fn fill(
        &mut self,
        start: &[u8],
        end: &[u8],
        ts: Timestamp,
    ) -> Result<(), OutOfMemory>
        ensures { OnOk result (self.new ≡ joined_on self.old (filled start.now end.now (time_of ts))) }
    {
        if start.cmp(end).is_lt() {
            self.push(start, end, Stack::one(self.alloc(), ts))?;
        }
        Ok(())
    }

    /// Puts the part of a fragment within a span behind the others.
    fn push_part(
        &mut self,
        fragment: &Fragment,
        start: &[u8],
        end: &[u8],
    ) -> Result<(), OutOfMemory>
        ensures { OnOk result (self.new
            ≡ joined_on self.old (part_within start.now end.now fragment.now)) }
    {
        if let Some((low, high)) = bounds_within(fragment, start, end) {
            self.push(low, high, fragment.copy_stack(self.alloc())?)?;
        }
        Ok(())
    }

    /// Puts what the fragments have below the key behind the others.
    pub(crate) fn push_below(
        &mut self,
        fragments: &[Fragment],
        key: &[u8],
    ) -> Result<(), OutOfMemory>
        requires canonical { IsCanonical fragments.now }
        requires from { EndsFrom key.now fragments.now }
        ensures { OnOk result (self.new ≡ joined_on self.old (cut_below key.now fragments.now)) }
    {
        if let Some(first) = fragments.first() {
            self.push_part(first, first.start_bytes(), key)?;
        }
        Ok(())
    }

    /// Puts what the fragments have from the key on behind the others.
    pub(crate) fn push_from(
        &mut self,
        fragments: &[Fragment],
        key: &[u8],
    ) -> Result<(), OutOfMemory>
        requires canonical { IsCanonical fragments.now }
        requires by { StartBy key.now fragments.now }
        ensures { OnOk result (self.new ≡ joined_on self.old (cut_from key.now fragments.now)) }
    {
        if let Some(last) = fragments.last() {
            self.push_part(last, key, last.end_bytes())?;
        }
        Ok(())
    }
}

/// Whether a piece that starts here with this stack is one with the last.
fn is_one_with_last(pieces: &[Fragment], start: &[u8], stack: &Stack) -> bool
    ensures { result ≡ is_one_with_last pieces.now start.now stack.now }
{
    match pieces.last() {
        Some(last) => last.is_joined_by(start, stack),
        None => false,
    }
}

/// Lets the last end here.
fn set_last_end(pieces: &mut [Fragment], end: Key)
    ensures { pieces.new ≡ with_last_end pieces.old end }
{
    if let Some(last) = pieces.last_mut() {
        last.end = end;
    }
}
