//! One leaf.
ghost use Rattle.std.specs.Prelude.{◌≡◌, ◌≤◌, ◌<◌, ◌+◌, ◌++◌, ◌^◌, length, map, take, drop, insert, All, IfOk, vec_len, vec_capacity};
ghost use Rattle.std.specs.List.{AllByRecursion};
ghost use Rattle.mem_table.specs.views.Slots.{IsEmptyLeaf, most, first_abbreviated, with_slot, lower_half, upper_half, AreLeaves, AreLeaves-prop};

use crate::search::Numbers;
use mvcc_key::OutOfMemory;
use std::alloc::Global;
use std::marker::Model;

/// How many slots a leaf has at most.
pub(crate) const MOST: usize = 64;

/// How many slots each half of a leaf has that is split.
pub(crate) const HALF: usize = 32;

/// Numbers of entries in the order of their names, and beside each the entry's abbreviated key. The room for all slots is taken with the
/// leaf.
#[derive(Drop)]
pub(crate) struct Leaf {
    abbreviated_keys: Vec<u64>,
    numbers: Vec<u32>,
}

impl Model for Leaf {
    ghost use Rattle.std.specs.Prelude.{◌≤◌, vec_capacity};
    ghost use Rattle.mem_table.specs.views.Slots.{Slots, most};

    ghost Value = { Slots };

    ghost view = { λ l. record { abbreviated_keys = l.abbreviated_keys.items; numbers = l.numbers.items } };

    ghost invariant = { λ l. (most ≤ vec_capacity l.abbreviated_keys) × (most ≤ vec_capacity l.numbers) };
}

impl Leaf {
    /// A leaf with nothing in it.
    pub(crate) fn new(alloc: Global) -> Result<Leaf, OutOfMemory>
        ensures { IfOk result IsEmptyLeaf }
    {
        let abbreviated_keys = Vec::with_capacity(alloc, MOST)?;
        let numbers = Vec::with_capacity(alloc, MOST)?;
        Ok(Leaf {
            abbreviated_keys,
            numbers,
        })
    }

    /// The abbreviated keys.
    pub(crate) fn abbreviated_keys(&self) -> &[u64]
        ensures { result.now ≡ self.now.abbreviated_keys }
    {
        self.abbreviated_keys.as_slice()
    }

    /// The numbers.
    pub(crate) fn numbers(&self) -> &[u32]
        ensures { result.now ≡ self.now.numbers }
    {
        self.numbers.as_slice()
    }

    /// The first abbreviated key.
    pub(crate) fn first_abbreviated(&self) -> u64
        requires { 0 < length self.now.abbreviated_keys }
        ensures { result ≡ first_abbreviated self.now }
    {
        self.abbreviated_keys[0]
    }

    /// Puts a number and its abbreviated key at a slot, with those from there on moved by one.
    pub(crate) fn insert(&mut self, slot: usize, abbreviated: u64, number: u32)
        requires beside { length self.old.abbreviated_keys ≡ length self.old.numbers }
        requires room { length self.old.numbers < most }
        requires within { slot ≤ length self.old.numbers }
        ensures { self.new ≡ with_slot self.old slot abbreviated number }
    {
        insert_reserved(&mut self.abbreviated_keys, slot, abbreviated);
        insert_reserved(&mut self.numbers, slot, number);
    }

    /// Moves the upper half of a full leaf to an empty one.
    pub(crate) fn split(&mut self, upper: &mut Leaf)
        requires beside { length self.old.abbreviated_keys ≡ length self.old.numbers }
        requires full { length self.old.numbers ≡ most }
        requires empty { IsEmptyLeaf upper.old }
        ensures lower { self.new ≡ lower_half self.old }
        ensures upper { upper.new ≡ upper_half self.old }
    {
        upper
            .abbreviated_keys
            .extend_from_slice(self.abbreviated_keys.as_slice().split_at(HALF).1)
            .unwrap();
        upper
            .numbers
            .extend_from_slice(self.numbers.as_slice().split_at(HALF).1)
            .unwrap();
        self.abbreviated_keys.truncate(HALF);
        self.numbers.truncate(HALF);
    }
}

/// Takes one of the empty leaves.
pub(crate) fn take_spare(spare: &mut Vec<Leaf>) -> Leaf
    requires some { 0 < vec_len spare.old }
    requires empty { All IsEmptyLeaf spare.old.items }
    ensures leaf { IsEmptyLeaf result }
    ensures empty { All IsEmptyLeaf spare.new.items }
    ensures count { vec_len spare.new + 1 ≡ vec_len spare.old }
{
    spare.pop().unwrap()
}

/// Puts an item at an index, where there is room for it.
pub(crate) fn insert_reserved<T: Drop>(items: &mut Vec<T>, index: usize, item: T)
    requires within { index ≤ vec_len items.old }
    requires room { vec_len items.old < vec_capacity items.old }
    ensures items { items.new.items ≡ insert items.old.items index item }
    ensures count { vec_len items.new ≡ vec_len items.old + 1 }
    ensures capacity { vec_capacity items.old ≤ vec_capacity items.new }
{
    items.insert(index, item).unwrap();
}

/// Adds one to each from an index on.
pub(crate) fn add_one(starts: &mut [u32], from: usize)
    requires within { from ≤ length starts.old }
    requires fits { AllByRecursion (λ n. n + 1 < 2 ^ 32) (drop from starts.old) }
    ensures { starts.new ≡ take from starts.old ++ map (λ n. n + 1) (drop from starts.old) }
{
    for i in from..starts.len() {
        starts[i] += 1;
    }
}

/// The numbers of a leaf.
#[derive(Drop)]
pub(crate) struct SlotNumbers<'a> {
    pub(crate) numbers: &'a [u32],
}

impl Numbers for SlotNumbers<'_> {
    ghost list = { λ s. s.numbers.now };

    fn at(&self, index: usize) -> u32 {
        self.numbers[index]
    }
}

/// The first number of each leaf.
#[derive(Drop)]
pub(crate) struct FirstNumbers<'a> {
    pub(crate) leaves: &'a [Leaf],
    ghost sized: { AreLeaves leaves.now } by { AreLeaves-prop leaves.now },
}

impl Numbers for FirstNumbers<'_> {
    ghost use Rattle.mem_table.specs.views.Slots.{first_number};

    ghost list = { λ f. map first_number f.leaves.now };

    fn at(&self, index: usize) -> u32 {
        self.leaves[index].numbers()[0]
    }
}
