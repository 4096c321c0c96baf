//! Lists of fragments.
ghost use Rattle.std.specs.Prelude.{◌≡◌, ◌+◌, ◌≤◌, [], length, slice_get, find, IsTrue, ◌↔◌, IfOk, OnOk, OnErr, filter, take, drop, ◌++◌};
ghost use Rattle.std.specs.List.{AllPass};
ghost use Rattle.std.specs.Option.{option_copied};
ghost use Rattle.mvcc_key.specs.Canonical.{IsCanonical, is_apart};
ghost use Rattle.mvcc_key.specs.Fragments.{cut_to, fragments};
ghost use Rattle.mvcc_key.specs.views.Looks.{bits};
ghost use Rattle.mvcc_key.specs.Order.{is_below, is_in_window, is_same_time, is_within};
ghost use Rattle.mvcc_key.specs.views.Seen.{time_of};
ghost use Rattle.range_key.specs.RangeOps.{fragments_with, operations_of, removing, setting, tombstones_after};
ghost use Rattle.range_key.specs.views.Changes.{AddsTombstone, PutsOver, TakesFrom, TakesOut, without_times};
ghost use Rattle.range_key.specs.views.Planned.{IsWithin, with_pieces};
ghost use Rattle.mvcc_key.specs.views.SeenRange.{range_op_of, range_ops_of};
ghost use Rattle.range_key.specs.views.Taken.{is_taken};

use crate::place::fragment_at;
use crate::planned::{Change, plan_add, plan_taking};
use crate::taken::Taken;
use crate::{Fragment, FragmentsRef};
use mvcc_key::{Looks, OutOfMemory, RangeOp, Timestamp};
use std::alloc::Global;
use std::marker::Model;
use std::sync::ledger::Ledger;

/// The fragments of some range tombstones, ascending by key: maximal spans, each under one stack of timestamps, so that of two
/// that abut the stacks differ. Each list is the only one with its stacks.
///
/// A tombstone over [a, e) at 5 is one fragment, `a-e [5]`. One over [b, d) at 6 splits it: `a-b [5]`, `b-d [6, 5]`,
/// `d-e [5]`. One over [e, g) at 5 joins the last, `d-g [5]`, and `remove` of [b, d) above 5 and up to 6 joins all: `a-g [5]`.
#[derive(Debug, Drop)]
pub struct FragmentList {
    held: Vec<Fragment>,
}

impl Model for FragmentList {
    ghost use Rattle.std.specs.Prelude.{List};
    ghost use Rattle.mvcc_key.specs.Canonical.{IsCanonical};
    ghost use Rattle.mvcc_key.specs.Fragments.{Fragment};

    ghost Value = { List Fragment };

    ghost view = { λ l. l.held.items };

    ghost invariant = { λ l. IsCanonical l.held.items };
}

impl FragmentList {
    /// No fragments. This takes no memory.
    pub fn new(alloc: Global) -> FragmentList
        ensures { result ≡ [] }
    {
        FragmentList {
            held: Vec::new(alloc),
        }
    }

    /// The fragments after these operations, each on what the one before it left: one that sets lays its tombstone over its
    /// span, and one that removes takes its very timestamp out of it.
    pub fn of_ops(alloc: Global, ops: &[RangeOp]) -> Result<FragmentList, OutOfMemory>
        requires { AllPass (λ op. is_below op.start op.end) ops.now }
        ensures value { IfOk result (λ l. l ≡ fragments (tombstones_after (range_ops_of ops.now))) }
        ensures canonical { IfOk result IsCanonical }
    {
        let mut list = FragmentList::new(alloc);
        for op in ops {
            list.apply(op)?;
        }
        Ok(list)
    }

    /// How many fragments there are.
    pub fn len(&self) -> usize
        ensures value { result ≡ length self.now }
        ensures canonical { IsCanonical self.now }
    {
        self.held.len()
    }

    /// Whether there are none.
    pub fn is_empty(&self) -> bool
        ensures { IsTrue result ↔ (self.now ≡ []) }
    {
        self.held.is_empty()
    }

    /// The fragment at this place, counted from 0 in the order of keys.
    pub fn get(&self, index: usize) -> Option<&Fragment>
        ensures { option_copied result ≡ slice_get self.now index }
    {
        self.held.get(index)
    }

    /// The fragments.
    pub fn as_slice(&self) -> &[Fragment]
        ensures value { result.now ≡ self.now }
        ensures canonical { IsCanonical self.now }
    {
        self.held.as_slice()
    }

    /// The fragments cut to the span.
    pub fn truncate(&self, start: &[u8], end: &[u8]) -> Result<FragmentList, OutOfMemory>
        ensures value { IfOk result (λ l. l ≡ cut_to start.now end.now self.now) }
        ensures canonical { IfOk result IsCanonical }
    {
        self.lend().truncate(start, end)
    }

    /// The same fragments, lent. This takes no memory.
    pub fn lend(&self) -> FragmentsRef<'_>
        ensures { result ≡ self.now }
    {
        FragmentsRef::over(*self.held.allocator(), self.as_slice())
    }

    /// Lays a tombstone over the span: its timestamp is over each key there, once. Only the fragments that overlap the span or
    /// abut it are made anew, and those behind them are moved at most once. The memory is taken before the first change.
    pub fn add(&mut self, start: &[u8], end: &[u8], ts: Timestamp) -> Result<(), OutOfMemory>
        requires { IsTrue (is_below start.now end.now) }
        ensures ok { OnOk result (AddsTombstone start.now end.now (time_of ts) self.old self.new) }
        ensures op { OnOk result (self.new ≡ fragments_with self.old (setting start.now end.now (time_of ts))) }
        ensures stacks { OnOk result (PutsOver start.now end.now (time_of ts) self.old self.new) }
        ensures apart { filter (is_apart start.now end.now) self.new
            ≡ filter (is_apart start.now end.now) self.old }
        ensures canonical { IsCanonical self.new }
        ensures err { OnErr result (self.new ≡ self.old) }
    {
        let change = plan_add(*self.held.allocator(), self.as_slice(), start, end, ts)?;
        self.carry_out(change)
    }

    /// Takes the timestamps above `from` and at or below `to` out of the span. Only the fragments that overlap the span or abut
    /// it are made anew, and those behind them are moved at most once. The memory is taken before the first change.
    pub fn remove(
        &mut self,
        start: &[u8],
        end: &[u8],
        from: Timestamp,
        to: Timestamp,
    ) -> Result<(), OutOfMemory>
        requires { IsTrue (is_below start.now end.now) }
        ensures ok { OnOk result
            (TakesOut start.now end.now (is_in_window (time_of from) (time_of to)) self.old self.new) }
        ensures stacks { OnOk result
            (TakesFrom start.now end.now (is_in_window (time_of from) (time_of to)) self.old self.new) }
        ensures apart { filter (is_apart start.now end.now) self.new
            ≡ filter (is_apart start.now end.now) self.old }
        ensures canonical { IsCanonical self.new }
        ensures err { OnErr result (self.new ≡ self.old) }
    {
        self.take_out(start, end, Taken::Window(from, to))
    }

    /// The fragment that contains the key, where there is one. It is found by halving: each fragment compared is a look.
    pub fn at<L: Ledger>(&self, key: &[u8], looks: &mut Looks<L>) -> Option<&Fragment>
        ensures found { option_copied result ≡ find (λ f. is_within f.start f.end key.now) self.now }
        ensures later { looks.old ≤ looks.new }
        ensures looks { looks.new ≤ looks.old + bits (length self.now) + 1 }
    {
        fragment_at(self.as_slice(), key, looks)
    }

    /// Takes one timestamp out of the span, as [`remove`](FragmentList::remove) takes those of a window.
    pub fn remove_at(&mut self, start: &[u8], end: &[u8], ts: Timestamp) -> Result<(), OutOfMemory>
        requires { IsTrue (is_below start.now end.now) }
        ensures ok { OnOk result (TakesOut start.now end.now (λ t. is_same_time t (time_of ts)) self.old self.new) }
        ensures op { OnOk result (self.new ≡ fragments_with self.old (removing start.now end.now (time_of ts))) }
        ensures stacks { OnOk result (TakesFrom start.now end.now (λ t. is_same_time t (time_of ts)) self.old self.new) }
        ensures apart { filter (is_apart start.now end.now) self.new
            ≡ filter (is_apart start.now end.now) self.old }
        ensures canonical { IsCanonical self.new }
        ensures err { OnErr result (self.new ≡ self.old) }
    {
        self.take_out(start, end, Taken::One(ts))
    }

    /// Carries out one operation: one that sets is [`add`](FragmentList::add), and one that removes is
    /// [`remove_at`](FragmentList::remove_at).
    pub fn apply(&mut self, op: &RangeOp) -> Result<(), OutOfMemory>
        requires { IsTrue (is_below op.now.start op.now.end) }
        ensures ok { OnOk result (self.new ≡ fragments_with self.old (range_op_of op.now)) }
        ensures canonical { IsCanonical self.new }
        ensures err { OnErr result (self.new ≡ self.old) }
    {
        let (start, end) = (op.start.bytes(), op.end.bytes());
        match op.set {
            Some(_) => self.add(start, end, op.ts),
            None => self.remove_at(start, end, op.ts),
        }
    }

    /// The operations that set what the fragments stand for: one for each timestamp of each fragment, by their starts and then
    /// from the newest. Carried out in their order they give the fragments again.
    pub fn to_ops(&self) -> Result<Vec<RangeOp>, OutOfMemory>
        ensures { IfOk result (λ ops. range_ops_of ops.items ≡ operations_of self.now) }
    {
        self.lend().to_ops()
    }

    /// Takes timestamps out of the span.
    fn take_out(&mut self, start: &[u8], end: &[u8], taken: Taken) -> Result<(), OutOfMemory>
        requires { IsTrue (is_below start.now end.now) }
        ensures ok { OnOk result (TakesOut start.now end.now (is_taken taken) self.old self.new) }
        ensures shows { OnOk result (self.new ≡ without_times start.now end.now (is_taken taken) self.old) }
        ensures stacks { OnOk result (TakesFrom start.now end.now (is_taken taken) self.old self.new) }
        ensures apart { filter (is_apart start.now end.now) self.new
            ≡ filter (is_apart start.now end.now) self.old }
        ensures canonical { IsCanonical self.new }
        ensures err { OnErr result (self.new ≡ self.old) }
    {
        let change = plan_taking(*self.held.allocator(), self.as_slice(), start, end, taken)?;
        self.carry_out(change)
    }

    /// Puts a change in place, where there is memory for it. One that alters nothing does nothing.
    fn carry_out(&mut self, change: Change) -> Result<(), OutOfMemory>
        requires within { IsWithin self.old change }
        requires canonical { IsCanonical (with_pieces self.old change) }
        ensures ok { OnOk result (self.new ≡ with_pieces self.old change) }
        ensures err { OnErr result (self.new ≡ self.old) }
    {
        if change.alters(self.held.as_slice()) {
            self.held.reserve(change.len())?;
            change.put_in(&mut self.held);
        }
        Ok(())
    }

    /// The list of these fragments.
    pub(crate) fn of(held: Vec<Fragment>) -> FragmentList
        requires { IsCanonical held.items }
        ensures { result ≡ held.items }
    {
        FragmentList { held }
    }

    /// Its fragments.
    pub(crate) fn into_vec(self) -> Vec<Fragment>
        ensures items { result.items ≡ self }
        ensures canonical { IsCanonical self }
    {
        self.held
    }
}
