//! A store for the test of time: in four parts a key with 10,000 versions, and in the oldest part one with two and one at each end
//! of the store. The names of all these keys have their first nine bytes in common.
ghost use Rattle.std.specs.Prelude.{◌≡◌, ◌+◌, ◌<◌, ◌^◌, IfOk, OnOk};
ghost use Rattle.mvcc_key.specs.Batches.{IsBatch};
ghost use Rattle.mvcc_key.specs.views.Building.{with_point};
ghost use Rattle.mvcc_cursor.specs.WellFormed.{IsWellFormed, history_in};
ghost use Rattle.mvcc_cursor.specs.views.Many.{HoldsMany, first_batch, set_version};

use crate::filled::{at, value};
use lsm_store::Store;
use mvcc_key::{Batch, BatchBuilder, Bytes, OutOfMemory, PointOp, encode_key};
use std::alloc::Global;

/// The key with two versions, at 1 and at 2.
pub(crate) const FEW: &[u8] = b"versions/b";

/// The key with versions from 1 to 10,000.
pub(crate) const MANY: &[u8] = b"versions/c";

/// How many versions of the key with many come in each part.
const EACH: u64 = 2_500;

/// Puts a version behind the other points. One that is not taken up fails the test as want of memory does.
fn put(batch: &mut BatchBuilder, alloc: Global, key: &[u8], wall: u64) -> Result<(), OutOfMemory>
    requires { wall < 2 ^ 63 }
    ensures { OnOk result (batch.new ≡ with_point batch.old (set_version key.now wall)) }
{
    let value = value(alloc, b'x', wall)?;
    let op = PointOp {
        key: Bytes::from_vec(encode_key(alloc, key, at(wall))?),
        value: Some(value),
    };
    if batch.push_point(op)? {
        Ok(())
    } else {
        Err(OutOfMemory)
    }
}

/// The versions of all other keys.
fn first(alloc: Global) -> Result<Batch, OutOfMemory>
    ensures batch { IfOk result IsBatch }
    ensures same { IfOk result (λ b. b ≡ first_batch) }
{
    let mut batch = BatchBuilder::new(alloc);
    put(&mut batch, alloc, b"versions/a", 1)?;
    put(&mut batch, alloc, FEW, 2)?;
    put(&mut batch, alloc, FEW, 1)?;
    put(&mut batch, alloc, b"versions/d", 1)?;
    Ok(batch.into_batch())
}

/// A store of the versions of all other keys.
fn store_of_first(alloc: Global) -> Result<Store, OutOfMemory>
    ensures { IfOk result (λ s. HoldsMany 0 s) }
{
    let mut store = Store::new(alloc);
    store.apply(first(alloc)?)?;
    Ok(store)
}

/// Sets the version that is one nanosecond above the newest of the key with many.
fn add(store: &mut Store, alloc: Global, newest: u64) -> Result<(), OutOfMemory>
    requires range { newest + 1 < 2 ^ 63 }
    requires holds { HoldsMany newest store.old }
    ensures { OnOk result (HoldsMany (newest + 1) store.new) }
{
    let mut batch = BatchBuilder::new(alloc);
    put(&mut batch, alloc, MANY, newest + 1)?;
    store.apply(batch.into_batch())?;
    Ok(())
}

/// Sets as many versions as come in a part.
fn add_each(store: &mut Store, alloc: Global, newest: u64) -> Result<(), OutOfMemory>
    requires range { newest + 2500 < 2 ^ 63 }
    requires holds { HoldsMany newest store.old }
    ensures { OnOk result (HoldsMany (newest + 2500) store.new) }
{
    for wall in newest..newest + EACH {
        add(store, alloc, wall)?;
    }
    Ok(())
}

/// Makes a part of what was written, and sets as many versions as come in a part.
fn add_part(store: &mut Store, alloc: Global, newest: u64) -> Result<(), OutOfMemory>
    requires range { newest + 2500 < 2 ^ 63 }
    requires holds { HoldsMany newest store.old }
    ensures { OnOk result (HoldsMany (newest + 2500) store.new) }
{
    store.flush()?;
    add_each(store, alloc, newest)?;
    Ok(())
}

/// The store with all versions, in a memory table and three runs.
pub(crate) fn many(alloc: Global) -> Result<Store, OutOfMemory>
    ensures { IfOk result (λ s. IsWellFormed (history_in s) s) }
{
    let mut store = store_of_first(alloc)?;
    add_each(&mut store, alloc, 0)?;
    add_part(&mut store, alloc, 2_500)?;
    add_part(&mut store, alloc, 5_000)?;
    add_part(&mut store, alloc, 7_500)?;
    Ok(store)
}
