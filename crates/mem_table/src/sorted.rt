//! Point operations in order.
ghost use Rattle.std.specs.Prelude.{◌≡◌, ◌<◌, ◌≤◌, ◌+◌, ◌-◌, ◌↔◌, ◌^◌, ℕ, [], ◌∷◌, length, slice_get, OnOk, OnErr, IsOk, IsTrue, Some};
ghost use Rattle.std.specs.Option.{option_map, option_and_then};
ghost use Rattle.mvcc_key.specs.Order.{Name};
ghost use Rattle.mvcc_key.specs.KeyFormat.{encoded_name};
ghost use Rattle.mvcc_key.specs.Encoded.{name_in, IsName};
ghost use Rattle.mvcc_key.specs.Points.{AreEncodable, count_below};
ghost use Rattle.mvcc_key.specs.views.Looks.{bits};
ghost use Rattle.mvcc_key.specs.views.SeenPoint.{points_of};
ghost use Rattle.mvcc_key.specs.Batches.{AreEntries, IsStorable};
ghost use Rattle.mem_table.specs.views.Places.{listed, AreNumbersOf};
ghost use Rattle.mem_table.specs.views.Slots.{numbers_in, keys_in, keys_of};
ghost use Rattle.mem_table.specs.views.Held.{held};
ghost use Rattle.mem_table.specs.views.Gaps.{IsGap, IsAt, IsBefore, place_of};

use crate::MemPlace;
use crate::entries::Entries;
use crate::leaves::Leaves;
use crate::ops::Ops;
use crate::place::is_at;
use mvcc_key::{Looks, OutOfMemory, PointOp};
use std::alloc::Global;
use std::marker::Brand;
use std::sync::ledger::{Blank, Ledger};

/// The point operations of a memory table: each name once, in order. A name keeps its number, so that a new one among them
/// moves the numbers of one leaf and no operation.
///
/// After b, a and c, each in a batch of its own, and then a newer b, the operations are the newer b, a and c, and the order of
/// their names is 1, 0, 2, in one leaf.
#[derive(Drop)]
pub struct SortedOps {
    /// The operations, each at the number that its name got when it came.
    ops: Ops,
    /// Their numbers in the order of names.
    leaves: Leaves,
    ghost count: { length (numbers_in (held leaves)) ≡ length ops.ops.items },
    ghost numbers: { AreNumbersOf ops.ops.items (numbers_in (held leaves)) },
    ghost abbreviated_keys: { keys_in (held leaves) ≡ keys_of (points_of ops.ops.items) (held leaves) },
    ghost entries: { AreEntries (listed ops.ops.items (numbers_in (held leaves))) },
    ghost encodable: { AreEncodable (points_of (listed ops.ops.items (numbers_in (held leaves)))) },
}

impl SortedOps {
    ghost use Rattle.mem_table.specs.views.Places.{newest_ops, IsPlaceOf, IsPlace};
    ghost use Rattle.mem_table.specs.views.Seen.{ops_held, points_held, HasRoom};
    ghost use Rattle.mem_table.specs.Table.{state_of};

    /// No operations. This takes no memory.
    pub(crate) fn new(alloc: Global) -> SortedOps
        ensures { ops_held result ≡ [] }
    {
        SortedOps {
            ops: Ops::new(alloc),
            leaves: Leaves::new(alloc),
        }
    }

    /// How many operations there are.
    pub(crate) fn len(&self) -> usize
        ensures count { result ≡ length (points_held self.now) }
        ensures small { result < 2 ^ 63 }
    {
        self.ops.len()
    }

    /// Whether there is no operation.
    pub(crate) fn is_empty(&self) -> bool
        ensures { IsTrue result ↔ (ops_held self.now ≡ []) }
    {
        self.ops.len() == 0
    }

    /// Takes newer operations up, each at the place of its name. The memory is taken before the first change.
    pub(crate) fn apply(&mut self, newer: Vec<PointOp>) -> Result<(), OutOfMemory>
        requires { AreEntries newer.items }
        ensures ok { OnOk result (ops_held self.new ≡ newest_ops newer.items (ops_held self.old)) }
        ensures err { OnErr result (ops_held self.new ≡ ops_held self.old) }
    {
        self.reserve(newer.len())?;
        self.put_all(newer);
        Ok(())
    }

    /// Takes room for so many names more. Where memory is wanting the operations are as they were.
    fn reserve(&mut self, more: usize) -> Result<(), OutOfMemory>
        ensures held { ops_held self.new ≡ ops_held self.old }
        ensures ok { OnOk result (HasRoom self.new more) }
    {
        self.ops.reserve(more)?;
        self.leaves.reserve(more)
    }

    /// Takes newer operations up where there is room for their names, from the last to the first.
    fn put_all(&mut self, mut newer: Vec<PointOp>)
        requires newer { AreEntries newer.items }
        requires room { HasRoom self.old (length newer.items) }
        ensures { ops_held self.new ≡ newest_ops newer.items (ops_held self.old) }
    {
        while let Some(op) = newer.pop() {
            self.put(op);
        }
    }

    /// Takes one newer operation up where there is room for its name.
    fn put(&mut self, op: PointOp)
        requires op { IsStorable op }
        requires room { HasRoom self.old 1 }
        ensures held { ops_held self.new ≡ newest_ops (op ∷ []) (ops_held self.old) }
        ensures room { (more : ℕ) → HasRoom self.old (more + 1) → HasRoom self.new more }
    {
        let place = self.find(op.key.as_slice());
        if place.low < place.behind {
            self.replace(place, op);
        } else {
            self.add(place, op);
        }
    }

    /// The place of the name with this encoded key.
    pub(crate) fn find(&self, key: &[u8]) -> MemPlace
        requires { IsName key.now }
        ensures { IsPlaceOf (name_in key.now) (points_held self.now) result }
    {
        self.find_from::<Brand>(key, Blank::new(1))
    }

    /// The same, with the looks in a ledger of their own.
    fn find_from<L: Ledger>(&self, key: &[u8], blank: Blank) -> MemPlace
        requires key { IsName key.now }
        requires name { blank.name ≡ L.name }
        requires parts { blank.parts ≡ L.parts }
        requires some { 0 < blank.parts }
        ensures { IsPlaceOf (name_in key.now) (points_held self.now) result }
    {
        let (leaf, slot) = self.gap_of(key, &mut Looks::<L>::new(blank));
        let low = self.leaves.place(leaf, slot);
        if is_at(&self.ops, &self.leaves, leaf, slot, key) {
            MemPlace {
                low,
                behind: low + 1,
                leaf,
                slot,
            }
        } else {
            MemPlace {
                low,
                behind: low,
                leaf,
                slot,
            }
        }
    }

    /// The gap before which the names below the key stand. Where names rise it is behind the last one, which is looked at first.
    fn gap_of<L: Ledger>(&self, key: &[u8], looks: &mut Looks<L>) -> (usize, usize)
        requires { IsName key.now }
        ensures gap { IsGap (held self.now.leaves) result.0 result.1 }
        ensures place { place_of (held self.now.leaves) result.0 result.1 ≡ count_below (name_in key.now) (points_held self.now) }
    {
        match self.leaves.end_below(&self.ops, key) {
            Some(gap) => gap,
            None => self.seek(key, looks),
        }
    }

    /// What is known of the name at a place: nothing, that it is cleared, or its value.
    pub(crate) fn value_at(&self, place: MemPlace) -> Option<Option<&[u8]>>
        requires { IsPlace (points_held self.now) place }
        ensures { (name : Name) → IsPlaceOf name (points_held self.now) place
            → option_map (option_map (λ v. v.now)) result ≡ option_map (λ p. p.value) (state_of name (points_held self.now)) }
    {
        if place.low < place.behind {
            let (leaf, slot) = self.leaves.gap_from(place.leaf, place.slot, place.low);
            Some(self.value(leaf, slot))
        } else {
            None
        }
    }

    /// Takes one newer operation up at the place of its name.
    pub(crate) fn put_at(&mut self, place: MemPlace, op: PointOp) -> Result<(), OutOfMemory>
        requires op { IsStorable op }
        requires place { IsPlaceOf (name_in op.key) (points_held self.old) place }
        ensures known { place.low < place.behind → IsOk result }
        ensures ok { OnOk result (ops_held self.new ≡ newest_ops (op ∷ []) (ops_held self.old)) }
        ensures err { OnErr result (ops_held self.new ≡ ops_held self.old) }
    {
        if place.low < place.behind {
            self.replace(place, op);
            return Ok(());
        }
        self.reserve(1)?;
        self.add(place, op);
        Ok(())
    }

    /// Replaces the operation at the place of its name by a newer one. This takes no memory.
    fn replace(&mut self, place: MemPlace, op: PointOp)
        requires op { IsStorable op }
        requires place { IsPlaceOf (name_in op.key) (points_held self.old) place }
        requires known { place.low < place.behind }
        ensures held { ops_held self.new ≡ newest_ops (op ∷ []) (ops_held self.old) }
        ensures room { (more : ℕ) → HasRoom self.old (more + 1) → HasRoom self.new more }
    {
        let (leaf, slot) = self.leaves.gap_from(place.leaf, place.slot, place.low);
        let number = self.number(leaf, slot);
        self.ops.set(number, op);
    }

    /// Takes an operation up whose name is new, at its place. This takes no memory.
    fn add(&mut self, place: MemPlace, op: PointOp)
        requires op { IsStorable op }
        requires place { IsPlaceOf (name_in op.key) (points_held self.old) place }
        requires new { place.behind ≤ place.low }
        requires room { HasRoom self.old 1 }
        ensures held { ops_held self.new ≡ newest_ops (op ∷ []) (ops_held self.old) }
        ensures room { (more : ℕ) → HasRoom self.old (more + 1) → HasRoom self.new more }
    {
        let (leaf, slot) = self.leaves.gap_from(place.leaf, place.slot, place.low);
        let (number, abbreviated) = self.ops.push(op);
        self.leaves.insert(leaf, slot, abbreviated, number);
    }

    /// The gap at the first name that is not below this encoded key.
    pub(crate) fn seek<L: Ledger>(&self, key: &[u8], looks: &mut Looks<L>) -> (usize, usize)
        requires { IsName key.now }
        ensures gap { IsGap (held self.now.leaves) result.0 result.1 }
        ensures place { place_of (held self.now.leaves) result.0 result.1 ≡ count_below (name_in key.now) (points_held self.now) }
        ensures some { 0 < length (points_held self.now) → looks.old < looks.new }
        ensures later { looks.old ≤ looks.new }
        ensures bound { looks.new ≤ looks.old + bits (length (points_held self.now)) + 2 }
    {
        self.leaves.seek(&self.ops, key, looks)
    }

    /// How many names stand before a gap.
    pub(crate) fn place(&self, leaf: usize, slot: usize) -> usize
        requires { IsGap (held self.now.leaves) leaf slot }
        ensures place { result ≡ place_of (held self.now.leaves) leaf slot }
        ensures within { result ≤ length (points_held self.now) }
        ensures small { result < 2 ^ 63 }
    {
        self.leaves.place(leaf, slot)
    }

    /// The gap behind the next name, where there is one.
    pub(crate) fn next(&self, leaf: usize, slot: usize) -> (usize, usize)
        requires gap { IsGap (held self.now.leaves) leaf slot }
        requires within { place_of (held self.now.leaves) leaf slot < length (points_held self.now) }
        ensures gap { IsGap (held self.now.leaves) result.0 result.1 }
        ensures place { place_of (held self.now.leaves) result.0 result.1 ≡ place_of (held self.now.leaves) leaf slot + 1 }
    {
        let (leaf, slot) = self.leaves.slot_at(leaf, slot).unwrap();
        (leaf, slot + 1)
    }

    /// The gap before the name in front of this one, where there is one, and else the first.
    pub(crate) fn prev(&self, leaf: usize, slot: usize) -> (usize, usize)
        requires { IsGap (held self.now.leaves) leaf slot }
        ensures gap { IsGap (held self.now.leaves) result.0 result.1 }
        ensures place { place_of (held self.now.leaves) result.0 result.1 ≡ place_of (held self.now.leaves) leaf slot - 1 }
    {
        self.leaves.prev(leaf, slot).unwrap_or((0, 0))
    }

    /// The number of the operation behind a gap.
    fn number(&self, leaf: usize, slot: usize) -> u32
        requires gap { IsGap (held self.now.leaves) leaf slot }
        requires within { place_of (held self.now.leaves) leaf slot < length (points_held self.now) }
        ensures { slice_get (numbers_in (held self.now.leaves)) (place_of (held self.now.leaves) leaf slot) ≡ Some result }
    {
        let (leaf, slot) = self.leaves.slot_at(leaf, slot).unwrap();
        self.leaves.number(leaf, slot)
    }

    /// The encoded key behind a gap.
    pub(crate) fn key(&self, leaf: usize, slot: usize) -> &[u8]
        requires gap { IsGap (held self.now.leaves) leaf slot }
        requires within { place_of (held self.now.leaves) leaf slot < length (points_held self.now) }
        ensures { option_map (λ p. encoded_name p.name) (slice_get (points_held self.now) (place_of (held self.now.leaves) leaf slot)) ≡ Some result.now }
    {
        self.ops.key(self.number(leaf, slot))
    }

    /// The value behind a gap, and `None` where the name is cleared.
    pub(crate) fn value(&self, leaf: usize, slot: usize) -> Option<&[u8]>
        requires gap { IsGap (held self.now.leaves) leaf slot }
        requires within { place_of (held self.now.leaves) leaf slot < length (points_held self.now) }
        ensures { option_map (λ v. v.now) result ≡ option_and_then (λ p. p.value) (slice_get (points_held self.now) (place_of (held self.now.leaves) leaf slot)) }
    {
        self.ops.value(self.number(leaf, slot))
    }
}
