//! Entries, written behind others and taken up in the index.
ghost use Rattle.std.specs.Prelude.{◌≡◌, ◌≤◌, ◌<◌, ◌^◌, ◌++◌, ◌∷◌, [], ℕ, All, length, OnOk};
ghost use Rattle.std.specs.Option.{ForSome, option_map};
ghost use Rattle.mvcc_key.specs.Encoded.{IsName};
ghost use Rattle.mvcc_key.specs.Limits.{max_stored_length};
ghost use Rattle.run_block.specs.RunFormat.{point_bytes, range_bytes};
ghost use Rattle.mvcc_key.specs.Batches.{IsStorableRange};
ghost use Rattle.mvcc_key.specs.views.SeenRange.{range_op_of};
ghost use Rattle.run_block.specs.views.Places.{IsIndex, points_in, ranges_in};
ghost use Rattle.run_block.specs.views.Writing.{point_with, IsBehind};

use crate::index::Index;
use crate::write::{put_point, put_range};
use mvcc_key::{OutOfMemory, RangeOp};

/// Puts a point and takes up where it lies. The points come before the range operations.
pub(crate) fn add_point(
    out: &mut Vec<u8>,
    index: &mut Index,
    key: &[u8],
    value: Option<&[u8]>,
) -> Result<(), OutOfMemory>
    requires name { IsName key.now }
    requires short { length key.now < 2 ^ 32 }
    requires value { ForSome (option_map (λ v. v.now) value) (λ v. length v ≤ max_stored_length) }
    requires index { IsIndex out.old.items index.old }
    requires first { index.old.ranges.items ≡ [] }
    ensures items { OnOk result (out.new.items ≡ out.old.items ++ point_bytes (point_with key.now (option_map (λ v. v.now) value.entry))) }
    ensures index { OnOk result (IsIndex out.new.items index.new) }
    ensures points { OnOk result (points_in out.new.items index.new.points.items
        ≡ points_in out.old.items index.old.points.items ++ point_with key.now (option_map (λ v. v.now) value.entry) ∷ []) }
    ensures behind { OnOk result ((n : ℕ) → n ≤ length out.old.items → All (IsBehind n) index.old.points.items → All (IsBehind n) index.new.points.items) }
    ensures ranges { OnOk result (index.new.ranges.items ≡ []) }
{
    let place = put_point(out, key, value)?;
    index.add_point(out.as_slice(), place)?;
    Ok(())
}

/// Puts a range operation and takes up where it lies.
pub(crate) fn add_range(
    out: &mut Vec<u8>,
    index: &mut Index,
    op: &RangeOp,
) -> Result<(), OutOfMemory>
    requires entry { IsStorableRange op.now }
    requires index { IsIndex out.old.items index.old }
    ensures items { OnOk result (out.new.items ≡ out.old.items ++ range_bytes (range_op_of op.now)) }
    ensures index { OnOk result (IsIndex out.new.items index.new) }
    ensures points { OnOk result (points_in out.new.items index.new.points.items ≡ points_in out.old.items index.old.points.items) }
    ensures ranges { OnOk result (ranges_in out.new.items index.new.ranges.items
        ≡ ranges_in out.old.items index.old.ranges.items ++ range_op_of op.now ∷ []) }
{
    let place = put_range(out, op)?;
    index.add_range(place)?;
    Ok(())
}
