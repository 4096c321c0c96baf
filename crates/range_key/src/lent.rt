//! Lists of fragments that are lent.
ghost use Rattle.std.specs.Prelude.{◌≡◌, ◌+◌, ◌≤◌, [], length, slice_get, find, IsTrue, ◌↔◌, IfOk};
ghost use Rattle.std.specs.Option.{option_copied};
ghost use Rattle.mvcc_key.specs.Canonical.{IsCanonical};
ghost use Rattle.mvcc_key.specs.Fragments.{cut_to};
ghost use Rattle.mvcc_key.specs.views.Looks.{bits};
ghost use Rattle.mvcc_key.specs.Order.{is_within};
ghost use Rattle.mvcc_key.specs.views.SeenRange.{range_ops_of};
ghost use Rattle.range_key.specs.RangeOps.{operations_of};

use crate::cut::cut;
use crate::ops::ops_of;
use crate::place::fragment_at;
use crate::{Fragment, FragmentList};
use mvcc_key::{Looks, OutOfMemory, RangeOp};
use std::alloc::Global;
use std::marker::Model;
use std::sync::ledger::Ledger;

/// The fragments of a [`FragmentList`] that another owns, with the calls that read them.
#[derive(Drop)]
pub struct FragmentsRef<'a> {
    alloc: Global,
    held: &'a [Fragment],
}

impl<'a> Model for FragmentsRef<'a> {
    ghost use Rattle.std.specs.Prelude.{List};
    ghost use Rattle.mvcc_key.specs.Canonical.{IsCanonical};
    ghost use Rattle.mvcc_key.specs.Fragments.{Fragment};

    ghost Value = { List Fragment };

    ghost view = { λ f. f.held.now };

    ghost invariant = { λ f. IsCanonical f.held.now };
}

impl<'a> FragmentsRef<'a> {
    /// The fragments of the list.
    pub(crate) fn over(alloc: Global, held: &'a [Fragment]) -> FragmentsRef<'a>
        requires { IsCanonical held.now }
        ensures { result ≡ held.now }
    {
        FragmentsRef { alloc, held }
    }

    /// How many fragments there are.
    pub fn len(&self) -> usize
        ensures value { result ≡ length self.now }
        ensures canonical { IsCanonical self.now }
    {
        self.held.len()
    }

    /// Whether there are none.
    pub fn is_empty(&self) -> bool
        ensures { IsTrue result ↔ (self.now ≡ []) }
    {
        self.held.is_empty()
    }

    /// The fragment at this place, counted from 0 in the order of keys.
    pub fn get(&self, index: usize) -> Option<&Fragment>
        ensures { option_copied result ≡ slice_get self.now index }
    {
        self.held.get(index)
    }

    /// The fragments.
    pub fn as_slice(&self) -> &'a [Fragment]
        ensures value { result.now ≡ self.now }
        ensures canonical { IsCanonical self.now }
    {
        self.held
    }

    /// The fragment that contains the key, as [`FragmentList::at`] finds it. It is lent by the owner of the list, as
    /// [`as_slice`](FragmentsRef::as_slice) is.
    pub fn at<L: Ledger>(&self, key: &[u8], looks: &mut Looks<L>) -> Option<&'a Fragment>
        ensures found { option_copied result ≡ find (λ f. is_within f.start f.end key.now) self.now }
        ensures later { looks.old ≤ looks.new }
        ensures looks { looks.new ≤ looks.old + bits (length self.now) + 1 }
    {
        fragment_at(self.held, key, looks)
    }

    /// The operations that set what the fragments stand for, as [`FragmentList::to_ops`] gives them.
    pub fn to_ops(&self) -> Result<Vec<RangeOp>, OutOfMemory>
        ensures { IfOk result (λ ops. range_ops_of ops.items ≡ operations_of self.now) }
    {
        ops_of(self.alloc, self.held)
    }

    /// The fragments cut to the span, as a list of its own.
    pub fn truncate(&self, start: &[u8], end: &[u8]) -> Result<FragmentList, OutOfMemory>
        ensures value { IfOk result (λ l. l ≡ cut_to start.now end.now self.now) }
        ensures canonical { IfOk result IsCanonical }
    {
        let held = cut(self.alloc, self.held, start, end)?;
        Ok(FragmentList::of(held))
    }
}
