//! A sorted run.
ghost use Rattle.std.specs.Prelude.{ℕ, ◌≡◌, ◌↔◌, ◌+◌, [], length, IsTrue, IsNone, IfSome, All, slice_get};
ghost use Rattle.std.specs.Option.{option_map};
ghost use Rattle.mvcc_key.specs.views.Seen.{time_of};
ghost use Rattle.mvcc_key.specs.Batches.{IsStoredPoint};
ghost use Rattle.run_block.specs.RunFormat as words;
ghost use Rattle.run_block.specs.Runs.{IsRun, IsRunOf};
ghost use Rattle.run_block.specs.views.SeenRange.{lent_range};
ghost use Rattle.run_block.specs.TimeSpan.{times_of, IsLeast, IsGreatest};
ghost use Rattle.run_block.specs.views.Places.{IsIndex, run_in, set_value, piece_in};

use crate::index::Index;
use crate::place::RangePlace;
use crate::{RangeOpRef, RunPoints};
use mvcc_key::{Cursor, PairsCursor, Timestamp};
use std::marker::Model;

/// A cursor over the points of a run, in both directions. It is a part's cursor: a cleared name has no value. Keys and values
/// are lent out of the bytes of the run.
pub type RunCursor<'a> = PairsCursor<'a, RunPoints>;

/// Points in the order of stored pairs, set or cleared, and range operations in the order in which they are applied, in the
/// bytes of a file that begins with `MVCCRUN1`. The bytes are kept once and not changed, and where each entry lies is known,
/// so a seek halves and nothing is copied.
#[derive(Drop)]
pub struct Run {
    points: RunPoints,
    ranges: Vec<RangePlace>,
    span: Option<(Timestamp, Timestamp)>,
}

impl Model for Run {
    ghost use Rattle.run_block.specs.RunFormat.{Run};
    ghost use Rattle.run_block.specs.views.Held.{held_run, IsHeld};

    ghost Value = { Run };

    ghost view = { λ r. held_run r.points.bytes.items r.points.places.items r.ranges.items };

    ghost invariant = { λ r. IsHeld r.points.bytes.items r.points.places.items r.ranges.items r.span };
}

impl Run {
    /// The run of these bytes, whose entries lie where the index says.
    pub(crate) fn new(bytes: Vec<u8>, index: Index) -> Run
        requires index { IsIndex bytes.items index }
        requires run { IsRunOf bytes.items (run_in bytes.items index) }
        ensures { result ≡ run_in bytes.items index }
    {
        let Index {
            points: places,
            ranges,
            span,
        } = index;
        Run {
            points: RunPoints { bytes, places },
            ranges,
            span,
        }
    }

    /// How many points there are, cleared names among them.
    pub fn len(&self) -> usize
        ensures { result ≡ length self.now.points }
    {
        self.points.places.len()
    }

    /// How many range operations there are.
    pub fn range_len(&self) -> usize
        ensures value { result ≡ length self.now.ranges }
        ensures run { IsRun self.now }
    {
        self.ranges.len()
    }

    /// Whether there is neither a point nor a range operation.
    pub fn is_empty(&self) -> bool
        ensures { IsTrue result ↔ ((self.now.points ≡ []) × (self.now.ranges ≡ [])) }
    {
        self.points.places.is_empty() && self.ranges.is_empty()
    }

    /// Its bytes, as [`parse`](crate::parse) reads them again.
    pub fn bytes(&self) -> &[u8]
        ensures spelled { result.now ≡ words.run_bytes self.now }
        ensures run { IsRun self.now }
    {
        self.points.bytes.as_slice()
    }

    /// A cursor before the first point.
    pub fn cursor<'a>(&'a self) -> RunCursor<'a>
        ensures points { ⟦<RunCursor<'a> as Cursor>⟧.points result ≡ self.now.points }
        ensures stored { All IsStoredPoint self.now.points }
        ensures place { ⟦<RunCursor<'a> as Cursor>⟧.place result ≡ 0 }
        ensures part { IsTrue (⟦<RunCursor<'a> as Cursor>⟧.is_part result) }
    {
        PairsCursor::over(&self.points)
    }

    /// The range operation at this place of the order in which they are applied, counted from 0. `None` exactly behind the last.
    pub fn range_op(&self, index: u64) -> Option<RangeOpRef<'_>>
        ensures { option_map lent_range result ≡ slice_get self.now.ranges index }
    {
        let place = *self.ranges.get(index as usize)?;
        let bytes = self.points.bytes.as_slice();
        Some(RangeOpRef {
            start: place.start.slice(bytes),
            end: place.end.slice(bytes),
            ts: place.ts,
            set: if place.set { Some(&[]) } else { None },
        })
    }

    /// The least and the greatest timestamp of its set versions, of its set intent records, and of its range operations of either
    /// kind. The timestamp of an intent record is in its bytes 24 to 35; a record without one in range counts for nothing.
    pub fn time_span(&self) -> Option<(Timestamp, Timestamp)>
        ensures none { IsNone result ↔ (times_of self.now ≡ []) }
        ensures least { IfSome result (λ span. IsLeast (times_of self.now) (time_of span.0)) }
        ensures greatest { IfSome result (λ span. IsGreatest (times_of self.now) (time_of span.1)) }
    {
        self.span
    }
}
