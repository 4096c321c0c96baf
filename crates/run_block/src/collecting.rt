//! From a cursor to a run.
ghost use Rattle.std.specs.Prelude.{◌≡◌, ◌≤◌, ◌<◌, ◌++◌, ◌∷◌, [], All, length, Ok, IfOk, OnOk};
ghost use Rattle.std.specs.List.{flat_map};
ghost use Rattle.mvcc_key.specs.Batches.{IsStorableRange, IsStoredPoint};
ghost use Rattle.run_block.specs.RunFormat.{point_bytes, run_bytes, run_of};
ghost use Rattle.run_block.specs.Runs.{IsRun};
ghost use Rattle.run_block.specs.views.Places.{IsIndex, points_in};
ghost use Rattle.mvcc_key.specs.views.SeenRange.{range_ops_of};
ghost use Rattle.run_block.specs.views.Writing.{IsBehind};

use crate::Run;
use crate::adding::add_point;
use crate::building::{ranges_end, run_with};
use crate::index::Index;
use crate::write::{HEAD_LEN, put_head, set_point_count};
use mvcc_key::{Cursor, OutOfMemory, RangeOp, next};
use std::alloc::Global;

/// How much memory is taken at first for the points of a run that is collected: a guess, which changes no promise.
#[derive(Clone, Copy, Debug)]
pub struct Room {
    /// Of so many points.
    pub points: usize,
    /// Of so many bytes of their entries.
    pub bytes: usize,
}

/// The run of the points that a cursor shows, cleared names among them, in one pass of the cursor, and of these range operations.
/// Each entry is put where it stays, and more memory than `room` says for the points is taken only where that does not suffice.
pub fn collect<C: Cursor>(
    alloc: Global,
    cursor: &mut C,
    ranges: &[RangeOp],
    room: Room,
) -> Result<Run, OutOfMemory>
    requires start { C.place cursor.old ≡ 0 }
    requires stored { All IsStoredPoint (C.points cursor.old) }
    requires ranges { All IsStorableRange ranges.now }
    ensures run { IfOk result (λ run. run ≡ record { points = C.points cursor.old; ranges = range_ops_of ranges.now }) }
    ensures read { IfOk result (λ run. run_of (run_bytes run) ≡ Ok run) }
    ensures whole { IfOk result IsRun }
{
    let Some(len) = ranges_end(HEAD_LEN.saturating_add(room.bytes), ranges) else {
        return Err(OutOfMemory);
    };
    let mut bytes = Vec::with_capacity(alloc, len)?;
    let mut index = Index::with_room(alloc, room.points, ranges.len())?;
    put_head(&mut bytes, 0, ranges.len())?;
    add_shown(&mut bytes, &mut index, cursor)?;
    set_point_count(&mut bytes, index.points.len());
    run_with(bytes, index, ranges)
}

/// Puts the points that a cursor shows, and takes up where they lie.
fn add_shown<C: Cursor>(
    out: &mut Vec<u8>,
    index: &mut Index,
    cursor: &mut C,
) -> Result<(), OutOfMemory>
    requires start { C.place cursor.old ≡ 0 }
    requires stored { All IsStoredPoint (C.points cursor.old) }
    requires index { IsIndex out.old.items index.old }
    requires no_points { index.old.points.items ≡ [] }
    requires no_ranges { index.old.ranges.items ≡ [] }
    ensures items { OnOk result (out.new.items ≡ out.old.items ++ flat_map point_bytes (C.points cursor.old)) }
    ensures index { OnOk result (IsIndex out.new.items index.new) }
    ensures points { OnOk result (points_in out.new.items index.new.points.items ≡ C.points cursor.old) }
    ensures behind { OnOk result (All (IsBehind (length out.old.items)) index.new.points.items) }
    ensures ranges { OnOk result (index.new.ranges.items ≡ []) }
{
    next(cursor);
    while let Some(key) = cursor.key() {
        add_point(out, index, key, cursor.value())?;
        next(cursor);
    }
    Ok(())
}
