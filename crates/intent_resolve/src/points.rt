//! The operations by which a key has what is left of its intent.
ghost use Rattle.std.specs.Prelude.{◌≡◌, ◌≤◌, IfOk, IfSome, Option, None, Some, [], ◌∷◌, length, true, false};
ghost use Rattle.std.specs.Option.{option_map, ForSome};
ghost use Rattle.mvcc_key.specs.Batches.{AreEntries, IsStorable};
ghost use Rattle.mvcc_key.specs.Limits.{max_stored_length};
ghost use Rattle.mvcc_key.specs.Order.{is_no_time, is_up_to, no_time};
ghost use Rattle.mvcc_key.specs.views.Seen.{time_of};
ghost use Rattle.mvcc_key.specs.views.SeenPoint.{point_of, points_of};
ghost use Rattle.intent_meta.specs.Valid.{IsStoredKey};
ghost use Rattle.write_rule.specs.views.Points.{IsLeft};
ghost use Rattle.intent_resolve.specs.views.Left.{IsPutAbove, IsStorableLeft, time_left, kept_points, left_points, point_at, seen_left, seen_new};

use crate::resolution::{NewVersion, Resolution};
use mvcc_key::{Bytes, Elements, OutOfMemory, PointOp, Timestamp, encode_key};
use std::alloc::Global;

/// The operations by which a key has what is left of its intent, which was at the timestamp `old`.
pub(crate) fn resolution_points(
    alloc: Global,
    key: &[u8],
    old: Timestamp,
    resolution: Resolution,
) -> Result<Elements<PointOp>, OutOfMemory>
    requires key { IsStoredKey key.now }
    requires time { is_no_time (time_of old) ≡ false }
    requires storable { IsStorableLeft (time_of old) (seen_left resolution) }
    ensures points { IfOk result (λ ops. points_of ops ≡ left_points key.now (time_of old) (seen_left resolution)) }
    ensures batch { IfOk result AreEntries }
{
    match resolution {
        Resolution::Gone => gone_points(alloc, key, old),
        Resolution::Stays(head, version) => put_points(alloc, key, old, Some(head), version),
        Resolution::Becomes(version) => put_points(alloc, key, old, None, version),
    }
}

/// The operations that clear the record and the provisional version.
fn gone_points(alloc: Global, key: &[u8], old: Timestamp) -> Result<Elements<PointOp>, OutOfMemory>
    requires key { IsStoredKey key.now }
    requires time { is_no_time (time_of old) ≡ false }
    ensures points { IfOk result (λ ops. points_of ops ≡ point_at key.now (no_time) None ∷ point_at key.now (time_of old) None ∷ []) }
    ensures batch { IfOk result AreEntries }
{
    let head = operation(alloc, key, Timestamp::NONE, None)?;
    let version = operation(alloc, key, old, None)?;
    let mut points = Elements::new(alloc);
    points.push(head)?;
    points.push(version)?;
    Ok(points)
}

/// The operations that put or clear the record, put a version, and clear that at `old` where the new one does not take its place.
fn put_points(
    alloc: Global,
    key: &[u8],
    old: Timestamp,
    head: Option<Bytes>,
    version: NewVersion,
) -> Result<Elements<PointOp>, OutOfMemory>
    requires key { IsStoredKey key.now }
    requires time { is_no_time (time_of old) ≡ false }
    requires head { ForSome head (λ bytes. length bytes ≤ max_stored_length) }
    requires version { IsPutAbove (time_of old) (seen_new version) }
    ensures points { IfOk result (λ ops. points_of ops ≡ kept_points key.now (time_of old) head (seen_new version)) }
    ensures batch { IfOk result AreEntries }
{
    let ts = version.ts;
    let head = operation(alloc, key, Timestamp::NONE, head)?;
    let new = operation(alloc, key, ts, Some(version.value))?;
    let mut points = Elements::new(alloc);
    points.push(head)?;
    points.push(new)?;
    let behind = left_behind(old, ts);
    match behind {
        Some(left) => points.push(operation(alloc, key, left, None)?)?,
        None => {}
    }
    Ok(points)
}

/// Where the old provisional version stands, if a new one at `ts` does not take its place.
fn left_behind(old: Timestamp, ts: Timestamp) -> Option<Timestamp>
    ensures value { option_map time_of result ≡ time_left (time_of old) (time_of ts) }
    ensures left { is_no_time (time_of old) ≡ false → is_up_to (time_of old) (time_of ts) ≡ true → IfSome result (λ l. IsLeft (time_of l) (time_of ts)) }
{
    if old == ts { None } else { Some(old) }
}

/// The operation that sets a stored pair, or clears it.
fn operation(
    alloc: Global,
    key: &[u8],
    ts: Timestamp,
    value: Option<Bytes>,
) -> Result<PointOp, OutOfMemory>
    requires key { IsStoredKey key.now }
    requires value { ForSome value (λ bytes. length bytes ≤ max_stored_length) }
    ensures point { IfOk result (λ op. point_of op ≡ point_at key.now (time_of ts) value) }
    ensures storable { IfOk result IsStorable }
{
    Ok(PointOp {
        key: Bytes::from_vec(encode_key(alloc, key, ts)?),
        value,
    })
}
