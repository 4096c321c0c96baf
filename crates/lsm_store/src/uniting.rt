//! Several runs as one.
ghost use Rattle.std.specs.Prelude.{◌≡◌, map, All, IfOk};
ghost use Rattle.mvcc_key.specs.Batches.{IsStoredPoint};
ghost use Rattle.range_key.specs.RangeOps.{operations_of};
ghost use Rattle.merge_cursor.specs.Merged.{merged};
ghost use Rattle.merge_cursor.specs.Visible.{visible};
ghost use Rattle.lsm_store.specs.Shown.{fragments_in};

use crate::PartCursor;
use crate::ranges::closing_ops;
use merge_cursor::{MergeCursor, VisibleCursor};
use mvcc_key::{Cursor, OutOfMemory};
use run_block::{Room, Run, collect};
use std::alloc::Global;

/// The run of what these runs show together, from the newest to the oldest: of each name the newest run's pair, and none where
/// that run clears the name, and the closing fragments of the newest run as operations that set. The points are
/// made in one pass.
pub(crate) fn unite(alloc: Global, runs: &[Run]) -> Result<Run, OutOfMemory>
    ensures { IfOk result (λ run. run ≡ record { points = visible (merged (map (λ r. r.points) runs.now)); ranges = operations_of (fragments_in runs.now) }) }
{
    let ops = closing_ops(alloc, runs)?;
    let mut cursor = VisibleCursor::over(MergeCursor::over(cursors_over(alloc, runs)?));
    collect(alloc, &mut cursor, ops.as_slice(), room_of(runs))
}

/// The cursors of the runs, before their first points.
fn cursors_over<'a>(alloc: Global, runs: &'a [Run]) -> Result<Vec<PartCursor<'a>>, OutOfMemory>
    ensures points { IfOk result (λ v. map ⟦<PartCursor<'a> as Cursor>⟧.points v.items ≡ map (λ r. r.points) runs.now) }
    ensures places { IfOk result (λ v. All (λ c. ⟦<PartCursor<'a> as Cursor>⟧.place c ≡ 0) v.items) }
    ensures stored { IfOk result (λ _. All (λ r. All IsStoredPoint r.points) runs.now) }
{
    let mut cursors = Vec::with_capacity(alloc, runs.len())?;
    for run in runs {
        cursors.push(PartCursor::Run(run.cursor()))?;
    }
    Ok(cursors)
}

/// The room that the runs have together, or the greatest there is.
fn room_of(runs: &[Run]) -> Room {
    let mut room = Room {
        points: 0,
        bytes: 0,
    };
    for run in runs {
        room.points = room.points.saturating_add(run.len());
        room.bytes = room.bytes.saturating_add(run.bytes().len());
    }
    room
}
