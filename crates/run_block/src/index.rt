//! The index of a run.
ghost use Rattle.std.specs.Prelude.{◌≡◌, ℕ, List, [], ◌∷◌, ◌++◌, IfOk, OnOk};

use crate::place::{PointPlace, RangePlace};
use crate::time::{time_of_point, widen};
use mvcc_key::{OutOfMemory, Timestamp};
use std::alloc::Global;

/// Where the entries of a run lie, and the least and the greatest of their timestamps.
#[derive(Drop)]
pub(crate) struct Index {
    pub(crate) points: Vec<PointPlace>,
    pub(crate) ranges: Vec<RangePlace>,
    pub(crate) span: Option<(Timestamp, Timestamp)>,
}

impl Index {
    ghost use Rattle.run_block.specs.views.Places.{IsIndex, IsPlaced, IsRangePlaced};

    /// An index of nothing, with room for so many entries.
    pub(crate) fn with_room(
        alloc: Global,
        points: usize,
        ranges: usize,
    ) -> Result<Index, OutOfMemory>
        ensures index { IfOk result (λ index. (bytes : List ℕ) → IsIndex bytes index) }
        ensures points { IfOk result (λ index. index.points.items ≡ []) }
        ensures ranges { IfOk result (λ index. index.ranges.items ≡ []) }
    {
        Ok(Index {
            points: Vec::with_capacity(alloc, points)?,
            ranges: Vec::with_capacity(alloc, ranges)?,
            span: None,
        })
    }

    /// Takes up a point of the bytes. The points come before the range operations.
    pub(crate) fn add_point(&mut self, bytes: &[u8], point: PointPlace) -> Result<(), OutOfMemory>
        requires index { IsIndex bytes.now self.old }
        requires placed { IsPlaced bytes.now point }
        requires first { self.old.ranges.items ≡ [] }
        ensures index { OnOk result (IsIndex bytes.now self.new) }
        ensures points { OnOk result (self.new.points.items ≡ self.old.points.items ++ point ∷ []) }
        ensures ranges { OnOk result (self.new.ranges.items ≡ []) }
    {
        self.points.push(point)?;
        if let Some(ts) = time_of_point(bytes, point) {
            self.span = widen(self.span, ts);
        }
        Ok(())
    }

    /// Takes up a range operation.
    pub(crate) fn add_range(&mut self, range: RangePlace) -> Result<(), OutOfMemory>
        ensures index { OnOk result ((bytes : List ℕ) → IsIndex bytes self.old → IsRangePlaced bytes range → IsIndex bytes self.new) }
        ensures points { OnOk result (self.new.points.items ≡ self.old.points.items) }
        ensures ranges { OnOk result (self.new.ranges.items ≡ self.old.ranges.items ++ range ∷ []) }
    {
        self.ranges.push(range)?;
        self.span = widen(self.span, range.ts);
        Ok(())
    }
}
