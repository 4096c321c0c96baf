//! A store for the tests: a version that a tombstone hides, and an intent above both, all by one batch.
ghost use Rattle.std.specs.Prelude.{◌≡◌, ◌<◌, ◌^◌, IfOk, OnOk};
ghost use Rattle.mvcc_key.specs.Batches.{IsBatch};
ghost use Rattle.mvcc_key.specs.views.Building.{with_point};
ghost use Rattle.mvcc_key.specs.views.Seen.{time_of};
ghost use Rattle.mvcc_key.specs.views.SeenRange.{range_ops_of};
ghost use Rattle.stat_delta.specs.Moments.{IsStoredBy};
ghost use Rattle.mvcc_cursor.specs.WellFormed.{IsWellFormed, history_in};
ghost use Rattle.intent_resolve.specs.views.Hidden.{abc, five_seconds, head_bytes, hidden_points, hidden_ranges, op};

use intent_meta::{Entries, IntentRecord};
use lsm_store::Store;
use mvcc_key::{
    Batch, BatchBuilder, Bytes, Key, OutOfMemory, PointOp, RangeOp, Timestamp, encode_key,
};
use mvcc_value::{Body, encode};
use std::alloc::Global;
use uuid::Uuid;

const SECOND: u64 = 1_000_000_000;

/// The timestamp of so many nanoseconds.
fn at(wall: u64) -> Timestamp
    ensures { wall < 2 ^ 63 → time_of result ≡ record { wall = wall; logical = 0 } }
{
    Timestamp::new(wall, 0).unwrap_or(Timestamp::NONE)
}

/// The encoded bytes of the value `abc`.
fn value(alloc: Global, wall: u64) -> Result<Bytes, OutOfMemory>
    requires { wall < 2 ^ 63 }
    ensures { IfOk result (λ b. b ≡ abc wall) }
{
    let bytes = encode(alloc, Body::Bytes(b"abc"), Timestamp::NONE, at(wall))?;
    Ok(Bytes::from_vec(bytes))
}

/// The encoded bytes of the record of an intent of `abc` at five seconds.
fn head(alloc: Global) -> Result<Bytes, OutOfMemory>
    ensures { IfOk result (λ b. b ≡ head_bytes) }
{
    let id = Uuid::from_bytes([7; 16]);
    let record = IntentRecord::new(id, 0, at(5 * SECOND), 0, false, 8, Entries::new(alloc));
    Ok(Bytes::from_vec(record.encode(alloc)?))
}

/// Puts a point of the key `a` behind the others. One that is not taken up fails the test as want of memory does.
fn put(batch: &mut BatchBuilder, alloc: Global, wall: u64, value: Bytes) -> Result<(), OutOfMemory>
    requires { wall < 2 ^ 63 }
    ensures { OnOk result (batch.new ≡ with_point batch.old (op wall value)) }
{
    let key = Bytes::from_vec(encode_key(alloc, b"a", at(wall))?);
    let value = Some(value);
    if batch.push_point(PointOp { key, value })? {
        Ok(())
    } else {
        Err(OutOfMemory)
    }
}

/// The intent of `a` at five seconds and its version at one, and a tombstone from `a` up to `b` at three.
fn batch(alloc: Global) -> Result<Batch, OutOfMemory>
    ensures batch { IfOk result IsBatch }
    ensures points { IfOk result (λ b. b.points ≡ hidden_points) }
    ensures ranges { IfOk result (λ b. range_ops_of b.ranges ≡ hidden_ranges) }
{
    let op = RangeOp {
        start: Key::copy(alloc, b"a")?,
        end: Key::copy(alloc, b"b")?,
        ts: at(3 * SECOND),
        set: Some(Bytes::new(alloc)),
    };
    let mut batch = BatchBuilder::new(alloc);
    put(&mut batch, alloc, 0, head(alloc)?)?;
    put(&mut batch, alloc, 5 * SECOND, value(alloc, 5 * SECOND)?)?;
    put(&mut batch, alloc, SECOND, value(alloc, SECOND)?)?;
    if batch.push_range(op)? {
        Ok(batch.into_batch())
    } else {
        Err(OutOfMemory)
    }
}

/// The store of that batch.
pub(crate) fn hidden(alloc: Global) -> Result<Store, OutOfMemory>
    ensures formed { IfOk result (λ s. IsWellFormed (history_in s) s) }
    ensures by { IfOk result (λ s. IsStoredBy five_seconds (history_in s)) }
{
    let batch = batch(alloc)?;
    let mut store = Store::new(alloc);
    store.apply(batch)?;
    Ok(store)
}
