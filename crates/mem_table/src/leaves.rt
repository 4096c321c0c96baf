//! Leaves in two levels.
ghost use Rattle.std.specs.Prelude.{◌≡◌, ◌≤◌, ◌<◌, ◌+◌, ◌^◌, ℕ, List, [], ◌∷◌, ◌++◌, length, map, insert, slice_get, All, Some, IfSome, OnOk, OnErr, IsOk, IsTrue, vec_len, vec_capacity};
ghost use Rattle.mvcc_key.specs.Encoded.{name_in, IsName};
ghost use Rattle.mvcc_key.specs.views.Looks.{bits};
ghost use Rattle.mvcc_key.specs.Points.{Point, count_below};
ghost use Rattle.mem_table.specs.views.Slots.{IsEmptyLeaf, most, half, first_abbreviated, split_leaf, AreLeaves, AreLeaves-prop, numbers_in, starts_from, HaveAbbreviatedKeys, IsIndexed};
ghost use Rattle.mem_table.specs.views.Entries.{numbered, abbreviated_at};

use crate::entries::{Entries, is_entry_below};
use crate::leaf::{
    FirstNumbers, HALF, Leaf, MOST, SlotNumbers, add_one, insert_reserved, take_spare,
};
use crate::search::count_below_name;
use mvcc_key::{Looks, OutOfMemory, abbreviated_key};
use std::alloc::Global;
use std::sync::ledger::Ledger;

/// Numbers of entries in the order of their names, in leaves of up to 64. A search halves the leaves by their first entries, and
/// then one leaf. A number more moves the others of its leaf and adds one to the starts of the leaves behind it, and a split moves the
/// list of leaves.
///
/// After 64 rising names there is one full leaf, and the 65th begins a second one. A name among the first 64 then splits the
/// full leaf into two of 32, of which one takes it, so that each leaf but the last has at least 32.
#[derive(Drop)]
pub(crate) struct Leaves {
    leaves: Vec<Leaf>,
    /// The first abbreviated key of each leaf.
    firsts: Vec<u64>,
    /// How many numbers stand before each leaf.
    starts: Vec<u32>,
    /// Empty leaves whose room is taken.
    spare: Vec<Leaf>,
    ghost sized: { AreLeaves leaves.items } by { AreLeaves-prop leaves.items },
    ghost firsts_are: { firsts.items ≡ map first_abbreviated leaves.items },
    ghost starts_are: { starts.items ≡ starts_from 0 leaves.items },
    ghost few: { length (numbers_in leaves.items) ≤ 2 ^ 32 },
    ghost empty: { All IsEmptyLeaf spare.items },
    ghost room: { vec_len leaves + vec_len spare ≤ vec_capacity leaves },
    ghost firsts_room: { vec_len leaves + vec_len spare ≤ vec_capacity firsts },
    ghost starts_room: { vec_len leaves + vec_len spare ≤ vec_capacity starts },
}

impl Leaves {
    ghost use Rattle.mem_table.specs.views.Held.{held, spares};
    ghost use Rattle.mem_table.specs.views.Gaps.{place_of, leaf_at, IsGap, IsSlot, IsAt, IsBefore};

    /// No leaves. This takes no memory.
    pub(crate) fn new(alloc: Global) -> Leaves
        ensures held { held result ≡ [] }
        ensures spares { spares result ≡ 0 }
    {
        Leaves {
            leaves: Vec::new(alloc),
            firsts: Vec::new(alloc),
            starts: Vec::new(alloc),
            spare: Vec::new(alloc),
        }
    }

    /// Takes room for `more` insertions. Where memory is wanting the numbers are as they were; leaves that were taken stay spare.
    pub(crate) fn reserve(&mut self, more: usize) -> Result<(), OutOfMemory>
        ensures held { held self.new ≡ held self.old }
        ensures ok { OnOk result (more ≤ spares self.new) }
        ensures kept { spares self.old ≤ spares self.new }
        ensures enough { more ≤ spares self.old → IsOk result }
    {
        while self.spare.len() < more {
            self.add_spare()?;
        }
        Ok(())
    }

    /// Takes one more spare leaf, and room for it.
    fn add_spare(&mut self) -> Result<(), OutOfMemory>
        ensures held { held self.new ≡ held self.old }
        ensures ok { OnOk result (spares self.new ≡ spares self.old + 1) }
        ensures err { OnErr result (spares self.new ≡ spares self.old) }
    {
        let leaf = Leaf::new(*self.spare.allocator())?;
        let count = self.spare.len() + 1;
        self.leaves.reserve(count)?;
        self.firsts.reserve(count)?;
        self.starts.reserve(count)?;
        self.spare.reserve(1)?;
        self.spare.push_reserved(leaf);
        Ok(())
    }

    /// Where the name with this encoded key stands, or would stand: its leaf, and its slot there.
    pub(crate) fn seek<E: Entries, L: Ledger>(
        &self,
        entries: &E,
        sought: &[u8],
        looks: &mut Looks<L>,
    ) -> (usize, usize)
        requires index { IsIndexed (E.points entries.now) (held self.now) }
        requires sought { IsName sought.now }
        ensures gap { IsGap (held self.now) result.0 result.1 }
        ensures place { place_of (held self.now) result.0 result.1 ≡ count_below (name_in sought.now) (numbered (E.points entries.now) (numbers_in (held self.now))) }
        ensures some { 0 < length (numbers_in (held self.now)) → looks.old < looks.new }
        ensures later { looks.old ≤ looks.new }
        ensures bound { looks.new ≤ looks.old + bits (length (numbers_in (held self.now))) + 2 }
    {
        if self.leaves.is_empty() {
            return (0, 0);
        }
        let abbreviated = abbreviated_key(sought);
        let abbreviated_keys = self.firsts.as_slice().split_at(1).1;
        let leaves = self.leaves.as_slice().split_at(1).1;
        let firsts = FirstNumbers { leaves };
        let leaf = count_below_name(
            entries,
            abbreviated_keys,
            &firsts,
            sought,
            abbreviated,
            looks,
        );
        let found = &self.leaves[leaf];
        let numbers = found.numbers();
        let slots = SlotNumbers { numbers };
        let slot = count_below_name(
            entries,
            found.abbreviated_keys(),
            &slots,
            sought,
            abbreviated,
            looks,
        );
        (leaf, slot)
    }

    /// Puts a number and its abbreviated key at a slot of a leaf, or behind its last one. This takes no memory.
    pub(crate) fn insert(&mut self, leaf: usize, slot: usize, abbreviated: u64, number: u32)
        requires gap { IsGap (held self.old) leaf slot }
        requires spare { 0 < spares self.old }
        requires few { length (numbers_in (held self.old)) < 2 ^ 32 }
        ensures numbers { numbers_in (held self.new) ≡ insert (numbers_in (held self.old)) (place_of (held self.old) leaf slot) number }
        ensures abbreviated_keys { (points : List Point) → abbreviated ≡ abbreviated_at points number → HaveAbbreviatedKeys points (held self.old) → HaveAbbreviatedKeys points (held self.new) }
        ensures spares { spares self.old ≤ spares self.new + 1 }
    {
        if self.leaves.is_empty() {
            self.begin(0, abbreviated, number);
        } else if self.leaves[leaf].numbers().len() < MOST {
            self.put_slot(leaf, slot, abbreviated, number);
        } else if slot == MOST && leaf + 1 == self.leaves.len() {
            let start = self.starts[leaf] + MOST as u32;
            self.begin(start, abbreviated, number);
        } else {
            self.put_split(leaf, slot, abbreviated, number);
        }
    }

    /// Puts a number and its abbreviated key into a leaf that is not full.
    fn put_slot(&mut self, leaf: usize, slot: usize, abbreviated: u64, number: u32)
        requires leaf { leaf < length (held self.old) }
        requires room { length (leaf_at (held self.old) leaf).numbers < most }
        requires slot { slot ≤ length (leaf_at (held self.old) leaf).numbers }
        requires few { length (numbers_in (held self.old)) < 2 ^ 32 }
        ensures numbers { numbers_in (held self.new) ≡ insert (numbers_in (held self.old)) (place_of (held self.old) leaf slot) number }
        ensures abbreviated_keys { (points : List Point) → abbreviated ≡ abbreviated_at points number → HaveAbbreviatedKeys points (held self.old) → HaveAbbreviatedKeys points (held self.new) }
        ensures spares { spares self.new ≡ spares self.old }
    {
        self.leaves[leaf].insert(slot, abbreviated, number);
        self.firsts[leaf] = self.leaves[leaf].first_abbreviated();
        add_one(self.starts.as_mut_slice(), leaf + 1);
    }

    /// Splits a full leaf, and puts a number and its abbreviated key into one of its halves.
    fn put_split(&mut self, leaf: usize, slot: usize, abbreviated: u64, number: u32)
        requires leaf { leaf < length (held self.old) }
        requires full { length (leaf_at (held self.old) leaf).numbers ≡ most }
        requires slot { slot ≤ most }
        requires spare { 0 < spares self.old }
        requires few { length (numbers_in (held self.old)) < 2 ^ 32 }
        ensures numbers { numbers_in (held self.new) ≡ insert (numbers_in (held self.old)) (place_of (held self.old) leaf slot) number }
        ensures abbreviated_keys { (points : List Point) → abbreviated ≡ abbreviated_at points number → HaveAbbreviatedKeys points (held self.old) → HaveAbbreviatedKeys points (held self.new) }
        ensures spares { spares self.new + 1 ≡ spares self.old }
    {
        self.split(leaf);
        if slot <= HALF {
            self.put_slot(leaf, slot, abbreviated, number);
        } else {
            self.put_slot(leaf + 1, slot - HALF, abbreviated, number);
        }
    }

    /// Begins a new leaf behind the others, where the last of these has enough.
    fn begin(&mut self, start: u32, abbreviated: u64, number: u32)
        requires enough { (last : ℕ) → last + 1 ≡ length (held self.old) → half ≤ length (leaf_at (held self.old) last).numbers }
        requires start { start ≡ length (numbers_in (held self.old)) }
        requires spare { 0 < spares self.old }
        ensures numbers { numbers_in (held self.new) ≡ numbers_in (held self.old) ++ number ∷ [] }
        ensures abbreviated_keys { (points : List Point) → abbreviated ≡ abbreviated_at points number → HaveAbbreviatedKeys points (held self.old) → HaveAbbreviatedKeys points (held self.new) }
        ensures spares { spares self.new + 1 ≡ spares self.old }
    {
        let mut fresh = take_spare(&mut self.spare);
        fresh.insert(0, abbreviated, number);
        self.leaves.push_reserved(fresh);
        self.firsts.push_reserved(abbreviated);
        self.starts.push_reserved(start);
    }

    /// Splits a full leaf into its halves.
    fn split(&mut self, leaf: usize)
        requires leaf { leaf < length (held self.old) }
        requires full { length (leaf_at (held self.old) leaf).numbers ≡ most }
        requires spare { 0 < spares self.old }
        ensures held { held self.new ≡ split_leaf (held self.old) leaf }
        ensures spares { spares self.new + 1 ≡ spares self.old }
    {
        let mut upper = take_spare(&mut self.spare);
        self.leaves[leaf].split(&mut upper);
        insert_reserved(&mut self.firsts, leaf + 1, upper.first_abbreviated());
        insert_reserved(&mut self.leaves, leaf + 1, upper);
        let start = self.starts[leaf] + HALF as u32;
        insert_reserved(&mut self.starts, leaf + 1, start);
    }

    /// The gap behind all numbers, where the last name is below the one sought. Where names rise this spares the search.
    pub(crate) fn end_below<E: Entries>(&self, entries: &E, sought: &[u8]) -> Option<(usize, usize)>
        requires index { IsIndexed (E.points entries.now) (held self.now) }
        requires sought { IsName sought.now }
        ensures gap { IfSome result (λ g. IsGap (held self.now) g.0 g.1) }
        ensures place { IfSome result (λ g. place_of (held self.now) g.0 g.1 ≡ count_below (name_in sought.now) (numbered (E.points entries.now) (numbers_in (held self.now)))) }
    {
        if self.leaves.is_empty() {
            return None;
        }
        let leaf = self.leaves.len() - 1;
        let slot = self.leaves[leaf].numbers().len();
        if is_entry_below(entries, self.number(leaf, slot - 1), sought) {
            Some((leaf, slot))
        } else {
            None
        }
    }

    /// The number at a slot.
    pub(crate) fn number(&self, leaf: usize, slot: usize) -> u32
        requires { IsSlot (held self.now) leaf slot }
        ensures { slice_get (numbers_in (held self.now)) (place_of (held self.now) leaf slot) ≡ Some result }
    {
        self.leaves[leaf].numbers()[slot]
    }

    /// The slot at a gap, or none behind the last.
    pub(crate) fn slot_at(&self, leaf: usize, slot: usize) -> Option<(usize, usize)>
        requires { IsGap (held self.now) leaf slot }
        ensures { IsAt (held self.now) (place_of (held self.now) leaf slot) result }
    {
        if self.leaves.is_empty() {
            None
        } else if slot < self.leaves[leaf].numbers().len() {
            Some((leaf, slot))
        } else if leaf + 1 < self.leaves.len() {
            Some((leaf + 1, 0))
        } else {
            None
        }
    }

    /// The slot before a gap, or none before the first.
    pub(crate) fn prev(&self, leaf: usize, slot: usize) -> Option<(usize, usize)>
        requires { IsGap (held self.now) leaf slot }
        ensures { IsBefore (held self.now) (place_of (held self.now) leaf slot) result }
    {
        if slot > 0 {
            Some((leaf, slot - 1))
        } else if leaf > 0 {
            Some((leaf - 1, self.leaves[leaf - 1].numbers().len() - 1))
        } else {
            None
        }
    }

    /// How many numbers stand before a gap.
    pub(crate) fn place(&self, leaf: usize, slot: usize) -> usize
        requires { IsGap (held self.now) leaf slot }
        ensures { result ≡ place_of (held self.now) leaf slot }
    {
        if self.leaves.is_empty() {
            0
        } else {
            self.starts[leaf] as usize + slot
        }
    }

    /// The gap before which so many numbers stand. It is not sought where the leaf and the slot are those.
    pub(crate) fn gap_from(&self, leaf: usize, slot: usize, place: usize) -> (usize, usize)
        requires { place ≤ length (numbers_in (held self.now)) }
        ensures gap { IsGap (held self.now) result.0 result.1 }
        ensures place { place_of (held self.now) result.0 result.1 ≡ place }
    {
        if self.is_gap(leaf, slot, place) {
            (leaf, slot)
        } else {
            self.gap_at(place)
        }
    }

    /// Whether this is a gap before which so many numbers stand.
    fn is_gap(&self, leaf: usize, slot: usize, place: usize) -> bool
        ensures { IsTrue result → IsGap (held self.now) leaf slot × (place_of (held self.now) leaf slot ≡ place) }
    {
        if leaf >= self.leaves.len() {
            return false;
        }
        if slot > self.leaves[leaf].numbers().len() {
            return false;
        }
        self.starts[leaf] as usize + slot == place
    }

    /// The gap before which so many numbers stand, found by halving.
    fn gap_at(&self, place: usize) -> (usize, usize)
        requires { place ≤ length (numbers_in (held self.now)) }
        ensures gap { IsGap (held self.now) result.0 result.1 }
        ensures place { place_of (held self.now) result.0 result.1 ≡ place }
    {
        if self.leaves.is_empty() {
            return (0, 0);
        }
        let mut leaf = 0;
        let mut behind = self.leaves.len();
        while leaf + 1 < behind {
            let middle = leaf + (behind - leaf) / 2;
            if self.starts[middle] as usize <= place {
                leaf = middle;
            } else {
                behind = middle;
            }
        }
        (leaf, place - self.starts[leaf] as usize)
    }
}
