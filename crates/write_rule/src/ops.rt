//! Operations on stored pairs.
ghost use Rattle.std.specs.Prelude.{◌≡◌, ◌≤◌, IfOk, IfSome, length};
ghost use Rattle.std.specs.Option.{option_map};
ghost use Rattle.mvcc_key.specs.Batches.{AreEntries, IsStorable};
ghost use Rattle.mvcc_key.specs.Limits.{max_stored_length};
ghost use Rattle.mvcc_key.specs.Order.{no_time};
ghost use Rattle.mvcc_key.specs.views.Seen.{time_of};
ghost use Rattle.mvcc_key.specs.views.SeenPoint.{point_of, points_of};
ghost use Rattle.intent_meta.specs.PointPairs.{cleared_point, set_point};
ghost use Rattle.intent_meta.specs.Record.{record_bytes};
ghost use Rattle.intent_meta.specs.Valid.{IsStoredKey};
ghost use Rattle.write_rule.specs.views.Points.{IsLeft, IsTimed, pair_at, points_at};

use intent_meta::IntentRecord;
use mvcc_key::{Bytes, Elements, OutOfMemory, PointOp, Timestamp, encode_key};
use std::alloc::Global;

/// The operations that put a record and the provisional version at `ts`, and clear the version that the replaced intent left
/// behind.
pub(crate) fn intent_ops(
    alloc: Global,
    key: &[u8],
    intent: &IntentRecord,
    ts: Timestamp,
    value: Bytes,
    left: Option<Timestamp>,
) -> Result<Elements<PointOp>, OutOfMemory>
    requires key { IsStoredKey key.now }
    requires record { length (record_bytes intent.now) ≤ max_stored_length }
    requires value { length value ≤ max_stored_length }
    requires time { IsTimed (time_of ts) }
    requires left { IfSome left (λ l. IsLeft (time_of l) (time_of ts)) }
    ensures points { IfOk result (λ points. points_of points ≡ points_at key.now (record_bytes intent.now) (time_of ts) value (option_map time_of left)) }
    ensures batch { IfOk result AreEntries }
{
    let head = Bytes::from_vec(intent.encode(alloc)?);
    let head = set(alloc, key, Timestamp::NONE, head)?;
    let version = set(alloc, key, ts, value)?;
    let mut points = Elements::new(alloc);
    points.push(head)?;
    points.push(version)?;
    if let Some(left) = left {
        points.push(cleared(alloc, key, left)?)?;
    }
    Ok(points)
}

/// The operation that sets a stored pair.
pub(crate) fn set(
    alloc: Global,
    key: &[u8],
    ts: Timestamp,
    value: Bytes,
) -> Result<PointOp, OutOfMemory>
    requires key { IsStoredKey key.now }
    requires value { length value ≤ max_stored_length }
    ensures point { IfOk result (λ op. point_of op ≡ set_point (pair_at key.now (time_of ts) value)) }
    ensures storable { IfOk result IsStorable }
{
    Ok(PointOp {
        key: Bytes::from_vec(encode_key(alloc, key, ts)?),
        value: Some(value),
    })
}

/// The operation that clears a stored pair.
fn cleared(alloc: Global, key: &[u8], ts: Timestamp) -> Result<PointOp, OutOfMemory>
    requires { IsStoredKey key.now }
    ensures point { IfOk result (λ op. point_of op ≡ cleared_point (record { key = key.now; ts = time_of ts })) }
    ensures storable { IfOk result IsStorable }
{
    Ok(PointOp {
        key: Bytes::from_vec(encode_key(alloc, key, ts)?),
        value: None,
    })
}
