//! From operations to a run.
ghost use Rattle.std.specs.Prelude.{◌≡◌, ◌<◌, ◌+◌, ◌^◌, ◌++◌, [], Ok, length, vec_len, All, IfOk, OnOk, IfSome, MatchOption, ◌≤◌};
ghost use Rattle.std.specs.List.{flat_map};
ghost use Rattle.mvcc_key.specs.Encoded.{IsName};
ghost use Rattle.mvcc_key.specs.Points.{IsRising};
ghost use Rattle.mvcc_key.specs.views.SeenPoint.{point_of, points_of};
ghost use Rattle.mvcc_key.specs.Batches.{AreEntries, IsStorableRange, IsStoredPoint};
ghost use Rattle.run_block.specs.RunFormat.{value_part, point_bytes, range_bytes, run_bytes, run_of};
ghost use Rattle.run_block.specs.Runs.{IsRun};
ghost use Rattle.run_block.specs.views.Places.{IsIndex, points_in, run_in};
ghost use Rattle.mvcc_key.specs.views.SeenRange.{range_op_of, range_ops_of};
ghost use Rattle.run_block.specs.views.Writing.{head_bytes};

use crate::Run;
use crate::adding::{add_point, add_range};
use crate::index::Index;
use crate::write::{HEAD_LEN, lent, put_head};
use mvcc_key::{Bytes, OutOfMemory, PointOp, RangeOp};
use std::alloc::Global;

/// The run of these points and range operations, cleared names among the points, in the format that
/// [`parse`](crate::parse) reads. The room for all of its bytes is taken at once.
pub fn build(alloc: Global, points: &[PointOp], ranges: &[RangeOp]) -> Result<Run, OutOfMemory>
    requires points { AreEntries points.now }
    requires ranges { All IsStorableRange ranges.now }
    ensures run { IfOk result (λ run. run ≡ record { points = points_of points.now; ranges = range_ops_of ranges.now }) }
    ensures read { IfOk result (λ run. run_of (run_bytes run) ≡ Ok run) }
    ensures whole { IfOk result IsRun }
{
    let Some(len) = encoded_len(points, ranges) else {
        return Err(OutOfMemory);
    };
    let mut bytes = Vec::with_capacity(alloc, len)?;
    let mut index = Index::with_room(alloc, points.len(), ranges.len())?;
    put_head(&mut bytes, points.len(), ranges.len())?;
    put_points(&mut bytes, points, &mut index)?;
    run_with(bytes, index, ranges)
}

/// The run of points behind a head, which counts them and these range operations, and of the range operations, which are put
/// behind them.
pub(crate) fn run_with(
    mut bytes: Vec<u8>,
    mut index: Index,
    ranges: &[RangeOp],
) -> Result<Run, OutOfMemory>
    requires bytes { bytes.items ≡ head_bytes (vec_len index.points) (length ranges.now) ++ flat_map point_bytes (points_in bytes.items index.points.items) }
    requires index { IsIndex bytes.items index }
    requires no_ranges { index.ranges.items ≡ [] }
    requires stored { All IsStoredPoint (points_in bytes.items index.points.items) }
    requires rising { IsRising (points_in bytes.items index.points.items) }
    requires ranges { All IsStorableRange ranges.now }
    ensures run { IfOk result (λ run. run ≡ record { points = points_in bytes.items index.points.items; ranges = range_ops_of ranges.now }) }
    ensures read { IfOk result (λ run. run_of (run_bytes run) ≡ Ok run) }
    ensures whole { IfOk result IsRun }
{
    put_ranges(&mut bytes, ranges, &mut index)?;
    Ok(Run::new(bytes, index))
}

/// Puts the points, and takes up where they lie.
fn put_points(out: &mut Vec<u8>, points: &[PointOp], index: &mut Index) -> Result<(), OutOfMemory>
    requires entries { AreEntries points.now }
    requires index { IsIndex out.old.items index.old }
    requires no_points { index.old.points.items ≡ [] }
    requires no_ranges { index.old.ranges.items ≡ [] }
    ensures items { OnOk result (out.new.items ≡ out.old.items ++ flat_map point_bytes (points_of points.now)) }
    ensures index { OnOk result (IsIndex out.new.items index.new) }
    ensures points { OnOk result (points_in out.new.items index.new.points.items ≡ points_of points.now) }
    ensures ranges { OnOk result (index.new.ranges.items ≡ []) }
{
    for op in points {
        add_point(out, index, op.key.as_slice(), lent(&op.value))?;
    }
    Ok(())
}

/// Puts the range operations, and takes up where they lie.
fn put_ranges(out: &mut Vec<u8>, ranges: &[RangeOp], index: &mut Index) -> Result<(), OutOfMemory>
    requires entries { All IsStorableRange ranges.now }
    requires index { IsIndex out.old.items index.old }
    requires no_ranges { index.old.ranges.items ≡ [] }
    ensures items { OnOk result (out.new.items ≡ out.old.items ++ flat_map range_bytes (range_ops_of ranges.now)) }
    ensures index { OnOk result (IsIndex out.new.items index.new) }
    ensures run { OnOk result (run_in out.new.items index.new
        ≡ record { points = points_in out.old.items index.old.points.items; ranges = range_ops_of ranges.now }) }
{
    for op in ranges {
        add_range(out, index, op)?;
    }
    Ok(())
}

/// How many bytes a point has before its key, and its value before that: the length, and with the key the kind.
const KEY_HEAD_LEN: usize = 5;

const VALUE_HEAD_LEN: usize = 4;

/// How many bytes a range operation has beside its bounds: the kind, two lengths, and the timestamp.
const RANGE_HEAD_LEN: usize = 21;

/// How many bytes the value of a point has.
fn value_len(value: &Option<Bytes>) -> usize
    ensures value { result ≡ length (value_part value.now) }
    ensures fits { result < 2 ^ 63 + 4 }
{
    match value {
        Some(value) => VALUE_HEAD_LEN + value.as_slice().len(),
        None => 0,
    }
}

/// How many bytes a point has, where that is a length.
fn point_len(op: &PointOp) -> Option<usize>
    requires { IsName op.now.key }
    ensures { MatchOption result (2 ^ 64 ≤ length (point_bytes (point_of op.now))) (λ n. n ≡ length (point_bytes (point_of op.now))) }
{
    (KEY_HEAD_LEN + op.key.as_slice().len()).checked_add(value_len(&op.value))
}

/// How many bytes a range operation has, where that is a length.
fn range_len(op: &RangeOp) -> Option<usize>
    ensures { MatchOption result (2 ^ 64 ≤ length (range_bytes (range_op_of op.now))) (λ n. n ≡ length (range_bytes (range_op_of op.now))) }
{
    (RANGE_HEAD_LEN + op.start.bytes().len()).checked_add(op.end.bytes().len())
}

/// How many bytes there are up to the last point, where `start` stand before the first.
fn points_end(start: usize, points: &[PointOp]) -> Option<usize>
    requires { AreEntries points.now }
    ensures { IfSome result (λ n. n ≡ start + length (flat_map point_bytes (points_of points.now))) }
{
    let mut end = start;
    for op in points {
        end = end.checked_add(point_len(op)?)?;
    }
    Some(end)
}

/// How many bytes there are up to the last range operation, where `start` stand before the first.
pub(crate) fn ranges_end(start: usize, ranges: &[RangeOp]) -> Option<usize>
    ensures { IfSome result (λ n. n ≡ start + length (flat_map range_bytes (range_ops_of ranges.now))) }
{
    let mut end = start;
    for op in ranges {
        end = end.checked_add(range_len(op)?)?;
    }
    Some(end)
}

/// How many bytes the run has, where that is a length.
fn encoded_len(points: &[PointOp], ranges: &[RangeOp]) -> Option<usize>
    requires { AreEntries points.now }
    ensures { IfSome result (λ n. n ≡ 24 + length (flat_map point_bytes (points_of points.now)) + length (flat_map range_bytes (range_ops_of ranges.now))) }
{
    let end = points_end(HEAD_LEN, points)?;
    ranges_end(end, ranges)
}
