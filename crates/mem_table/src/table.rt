//! The memory table.
ghost use Rattle.std.specs.Prelude.{◌≡◌, ◌<◌, ◌↔◌, [], ◌∷◌, length, All, OnOk, OnErr, IsOk, IsTrue};
ghost use Rattle.std.specs.Option.{option_map};
ghost use Rattle.mvcc_key.specs.Order.{Name};
ghost use Rattle.mvcc_key.specs.Encoded.{name_in, IsName};
ghost use Rattle.mvcc_key.specs.Points.{IsRising};
ghost use Rattle.mvcc_key.specs.views.SeenPoint.{points_of};
ghost use Rattle.mvcc_key.specs.Batches.{IsBatch, IsStorable, IsStorableRange, IsStoredPoint};
ghost use Rattle.mem_table.specs.views.Places.{IsPlaceOf, IsPlace};
ghost use Rattle.mem_table.specs.Table.{empty_table, batch_of_one, after_batch, state_of, ShowsNewest};

use crate::{MemCursor, MemPlace, SortedOps};
use mvcc_key::{Batch, Cursor, OutOfMemory, PointOp, RangeOp};
use std::alloc::Global;
use std::marker::Model;

/// What was written since the last run: of each name its newest state, set or cleared, in the order of stored pairs, and the range
/// operations in the order in which they came.
///
/// After a batch that sets b, and one that sets a and clears b, the table holds a with its value, and b with none: the clear
/// stays, since an older run may set b. After a batch that sets a range tombstone over a to c, and one that removes it, the
/// table holds both operations, since the removal may reach into an older run.
#[derive(Drop)]
pub struct MemTable {
    points: SortedOps,
    ranges: Vec<RangeOp>,
    ghost storable: { All IsStorableRange ranges.items },
}

impl Model for MemTable {
    ghost use Rattle.mem_table.specs.Table.{Table};
    ghost use Rattle.mem_table.specs.views.Seen.{points_held};

    ghost Value = { Table };

    ghost view = { λ t. record { points = points_held t.points; ranges = t.ranges.items } };
}

impl MemTable {
    /// A table that holds nothing. This takes no memory.
    pub fn new(alloc: Global) -> MemTable
        ensures { result ≡ empty_table }
    {
        MemTable {
            points: SortedOps::new(alloc),
            ranges: Vec::new(alloc),
        }
    }

    /// Takes a batch up, whole or, where memory is wanting, not at all. The batch's state of a name replaces the older one, and its
    /// range operations come behind those that were there.
    pub fn apply(&mut self, batch: Batch) -> Result<(), OutOfMemory>
        requires { IsBatch batch }
        ensures ok { OnOk result (self.new ≡ after_batch batch self.old) }
        ensures newest { OnOk result
            (ShowsNewest (points_of batch.points) self.old.points self.new.points) }
        ensures err { OnErr result (self.new ≡ self.old) }
    {
        let Batch { points, ranges } = batch;
        let mut ranges = ranges.into_vec();
        self.ranges.reserve(ranges.len())?;
        self.points.apply(points.into_vec())?;
        self.ranges.append(&mut ranges).unwrap();
        Ok(())
    }

    /// Where the name with this encoded key stands, found by halving. The place is good for [`value_at`](MemTable::value_at)
    /// and then for [`put_at`](MemTable::put_at), so that the name is sought once.
    pub fn find(&self, key: &[u8]) -> MemPlace
        requires { IsName key.now }
        ensures place { IsPlaceOf (name_in key.now) self.now.points result }
        ensures rising { IsRising self.now.points }
    {
        self.points.find(key)
    }

    /// What the table knows of the name at a place. `None` where it knows nothing of it, and `Some(None)` where it is cleared.
    pub fn value_at(&self, place: MemPlace) -> Option<Option<&[u8]>>
        requires { IsPlace self.now.points place }
        ensures { (name : Name) → IsPlaceOf name self.now.points place
            → option_map (option_map (λ v. v.now)) result ≡ option_map (λ p. p.value) (state_of name self.now.points) }
    {
        self.points.value_at(place)
    }

    /// Takes one operation up at the place of its name or, where memory is wanting, not at all. This is what
    /// [`apply`](MemTable::apply) does with a batch of that operation, without the search.
    pub fn put_at(&mut self, place: MemPlace, op: PointOp) -> Result<(), OutOfMemory>
        requires op { IsStorable op }
        requires place { IsPlaceOf (name_in op.key) self.old.points place }
        ensures known { place.low < place.behind → IsOk result }
        ensures ok { OnOk result (self.new ≡ after_batch (batch_of_one op) self.old) }
        ensures newest { OnOk result
            (ShowsNewest (points_of (op ∷ [])) self.old.points self.new.points) }
        ensures err { OnErr result (self.new ≡ self.old) }
    {
        self.points.put_at(place, op)
    }

    /// How many points there are, cleared names among them.
    pub fn len(&self) -> usize
        ensures { result ≡ length self.now.points }
    {
        self.points.len()
    }

    /// Whether there is neither a point nor a range operation.
    pub fn is_empty(&self) -> bool
        ensures { IsTrue result ↔ ((self.now.points ≡ []) × (self.now.ranges ≡ [])) }
    {
        self.points.is_empty() && self.ranges.is_empty()
    }

    /// A cursor before the first point.
    pub fn cursor<'a>(&'a self) -> MemCursor<'a>
        ensures points { ⟦<MemCursor<'a> as Cursor>⟧.points result ≡ self.now.points }
        ensures place { ⟦<MemCursor<'a> as Cursor>⟧.place result ≡ 0 }
        ensures part { IsTrue (⟦<MemCursor<'a> as Cursor>⟧.is_part result) }
        ensures stored { All IsStoredPoint self.now.points }
    {
        MemCursor::over(&self.points)
    }

    /// The range operations in the order in which they came.
    pub fn range_ops(&self) -> &[RangeOp]
        ensures ops { result.now ≡ self.now.ranges }
        ensures storable { All IsStorableRange self.now.ranges }
    {
        self.ranges.as_slice()
    }
}
