//! A store for the tests: keys with an intent, with versions, with a version that is cleared, and a tombstone, in three parts.
ghost use Rattle.std.specs.Prelude.{◌≡◌, ◌<◌, ◌^◌, IfOk, OnOk};
ghost use Rattle.mvcc_key.specs.Batches.{IsBatch};
ghost use Rattle.mvcc_key.specs.views.Building.{with_point};
ghost use Rattle.mvcc_key.specs.views.Seen.{time_of};
ghost use Rattle.mvcc_key.specs.views.SeenPoint.{points_of};
ghost use Rattle.mvcc_key.specs.views.SeenRange.{range_ops_of};
ghost use Rattle.range_key.specs.RangeOps.{fragments_after};
ghost use Rattle.lsm_store.specs.Shown.{fragments_in, shown, with_batch};
ghost use Rattle.mvcc_cursor.specs.WellFormed.{IsWellFormed, history_in};
ghost use Rattle.mvcc_cursor.specs.views.Filled.{cleared_points, first_batch, op, plain, record_at_five, second_ranges, third_batch};

use intent_meta::{Entries, IntentRecord};
use lsm_store::Store;
use mvcc_key::{
    Batch, BatchBuilder, Bytes, Key, OutOfMemory, PointOp, RangeOp, Timestamp, encode_key,
};
use mvcc_value::{Body, encode};
use std::alloc::Global;
use uuid::Uuid;

/// The timestamp of so many nanoseconds.
pub(crate) fn at(wall: u64) -> Timestamp
    ensures { wall < 2 ^ 63 → time_of result ≡ record { wall = wall; logical = 0 } }
{
    Timestamp::new(wall, 0).unwrap_or(Timestamp::NONE)
}

/// The encoded bytes of a value of one byte.
pub(crate) fn value(alloc: Global, byte: u8, wall: u64) -> Result<Bytes, OutOfMemory>
    requires { wall < 2 ^ 63 }
    ensures { IfOk result (λ b. b ≡ plain byte wall) }
{
    let bytes = encode(alloc, Body::Bytes(&[byte]), Timestamp::NONE, at(wall))?;
    Ok(Bytes::from_vec(bytes))
}

/// The encoded bytes of the record of an intent at 5 whose value has one byte.
fn head(alloc: Global) -> Result<Bytes, OutOfMemory>
    ensures { IfOk result (λ b. b ≡ record_at_five) }
{
    let id = Uuid::from_bytes([7; 16]);
    let record = IntentRecord::new(id, 0, at(5), 1, false, 6, Entries::new(alloc));
    Ok(Bytes::from_vec(record.encode(alloc)?))
}

/// Puts a point of a key of one byte behind the others. One that is not taken up fails the test as want of memory does.
fn put(
    batch: &mut BatchBuilder,
    alloc: Global,
    key: u8,
    wall: u64,
    value: Option<Bytes>,
) -> Result<(), OutOfMemory>
    requires { wall < 2 ^ 63 }
    ensures { OnOk result (batch.new ≡ with_point batch.old (op key wall value)) }
{
    let key = Bytes::from_vec(encode_key(alloc, &[key], at(wall))?);
    if batch.push_point(PointOp { key, value })? {
        Ok(())
    } else {
        Err(OutOfMemory)
    }
}

/// `a` at 3 and at 1, `b` at 2, `d` at 9.
fn first(alloc: Global) -> Result<Batch, OutOfMemory>
    ensures batch { IfOk result IsBatch }
    ensures same { IfOk result (λ b. b ≡ first_batch) }
{
    let mut batch = BatchBuilder::new(alloc);
    put(&mut batch, alloc, b'a', 3, Some(value(alloc, b'x', 3)?))?;
    put(&mut batch, alloc, b'a', 1, Some(value(alloc, b'y', 1)?))?;
    put(&mut batch, alloc, b'b', 2, Some(value(alloc, b'z', 2)?))?;
    put(&mut batch, alloc, b'd', 9, Some(value(alloc, b'w', 9)?))?;
    Ok(batch.into_batch())
}

/// `b` at 2 is cleared, and a tombstone covers the keys from `c` up to `e` at 4.
fn second(alloc: Global) -> Result<Batch, OutOfMemory>
    ensures batch { IfOk result IsBatch }
    ensures points { IfOk result (λ b. b.points ≡ cleared_points) }
    ensures ranges { IfOk result (λ b. range_ops_of b.ranges ≡ second_ranges) }
{
    let op = RangeOp {
        start: Key::copy(alloc, b"c")?,
        end: Key::copy(alloc, b"e")?,
        ts: at(4),
        set: Some(Bytes::new(alloc)),
    };
    let mut batch = BatchBuilder::new(alloc);
    put(&mut batch, alloc, b'b', 2, None)?;
    if batch.push_range(op)? {
        Ok(batch.into_batch())
    } else {
        Err(OutOfMemory)
    }
}

/// The intent of `a` at 5: its record and its provisional version.
fn third(alloc: Global) -> Result<Batch, OutOfMemory>
    ensures batch { IfOk result IsBatch }
    ensures same { IfOk result (λ b. b ≡ third_batch) }
{
    let mut batch = BatchBuilder::new(alloc);
    put(&mut batch, alloc, b'a', 0, Some(head(alloc)?))?;
    put(&mut batch, alloc, b'a', 5, Some(value(alloc, b'p', 5)?))?;
    Ok(batch.into_batch())
}

/// Writes a batch, and makes a part of it.
fn write(store: &mut Store, batch: Batch) -> Result<(), OutOfMemory>
    requires { IsBatch batch }
    ensures shown { OnOk result (shown store.new ≡ with_batch (points_of batch.points) (shown store.old)) }
    ensures fragments { OnOk result (fragments_in store.new ≡ fragments_after (fragments_in store.old) (range_ops_of batch.ranges)) }
{
    store.apply(batch)?;
    store.flush()
}

/// The store of the three batches, each in a part of its own.
pub(crate) fn filled(alloc: Global) -> Result<Store, OutOfMemory>
    ensures { IfOk result (λ s. IsWellFormed (history_in s) s) }
{
    let oldest = first(alloc)?;
    let middle = second(alloc)?;
    let newest = third(alloc)?;
    let mut store = Store::new(alloc);
    write(&mut store, oldest)?;
    write(&mut store, middle)?;
    write(&mut store, newest)?;
    Ok(store)
}
