//! Batches whose conditions are tested as they are made.
ghost use Rattle.std.specs.Prelude.{◌≡◌, ◌↔◌, IsTrue, IfOk, OnErr, if◌then◌else◌};
ghost use Rattle.mvcc_key.specs.Encoded.{IsName};
ghost use Rattle.mvcc_key.specs.Batches.{IsStorableRange, IsBatch};
ghost use Rattle.mvcc_key.specs.views.SeenPoint.{AreNamed, IsAboveLast};
ghost use Rattle.mvcc_key.specs.views.Building.{empty_batch, IsNextPoint, with_point, with_range};

use crate::{Batch, Elements, OutOfMemory, PointOp, RangeOp, cmp_encoded};
use std::alloc::Global;
use std::marker::Model;

/// A batch that is built of operations in their order, each tested as it comes. Contracts see it as the batch so far.
#[derive(Drop)]
pub struct BatchBuilder {
    held: Batch,
}

impl Model for BatchBuilder {
    ghost use Rattle.mvcc_key.specs.Batches.{IsBatch};
    ghost use Rattle.mvcc_key.specs.declared.batch.Batch.{Batch};

    ghost Value = { Batch };

    ghost view = { λ b. b.held };

    ghost invariant = { λ b. IsBatch b.held };
}

impl BatchBuilder {
    /// No operations. This takes no memory.
    pub fn new(alloc: Global) -> BatchBuilder
        ensures { result ≡ empty_batch }
    {
        BatchBuilder {
            held: Batch {
                points: Elements::new(alloc),
                ranges: Elements::new(alloc),
            },
        }
    }

    /// Takes a point up behind the others, and answers whether it did: exactly where it can be stored and its name is above the
    /// last one. Where it is not taken up, or memory is wanting, it is dropped and all is as before.
    pub fn push_point(&mut self, op: PointOp) -> Result<bool, OutOfMemory>
        ensures next { IfOk result (λ taken. IsTrue taken ↔ IsNextPoint self.old op) }
        ensures ok { IfOk result (λ taken. self.new ≡ (if taken then with_point self.old op else self.old)) }
        ensures ranges { self.new.ranges ≡ self.old.ranges }
        ensures err { OnErr result (self.new ≡ self.old) }
    {
        if !op.is_storable() || !is_above_last(self.held.points.as_slice(), op.key.as_slice()) {
            return Ok(false);
        }
        self.held.points.push(op)?;
        Ok(true)
    }

    /// Takes a range operation up, to be applied behind the others, and answers whether it did: exactly where it can be
    /// stored. Where it is not taken up, or memory is wanting, it is dropped and all is as before.
    pub fn push_range(&mut self, op: RangeOp) -> Result<bool, OutOfMemory>
        ensures storable { IfOk result (λ taken. IsTrue taken ↔ IsStorableRange op) }
        ensures ok { IfOk result (λ taken. self.new ≡ (if taken then with_range self.old op else self.old)) }
        ensures err { OnErr result (self.new ≡ self.old) }
    {
        if !op.is_storable() {
            return Ok(false);
        }
        self.held.ranges.push(op)?;
        Ok(true)
    }

    /// The batch.
    pub fn into_batch(self) -> Batch
        ensures same { result ≡ self }
        ensures batch { IsBatch result }
    {
        self.held
    }
}

/// Whether a name is above that of the last point.
fn is_above_last(held: &[PointOp], key: &[u8]) -> bool
    requires held { AreNamed held.now }
    requires key { IsName key.now }
    ensures { IsTrue result ↔ IsAboveLast held.now key.now }
{
    match held.last() {
        Some(last) => cmp_encoded(last.key.as_slice(), key).is_lt(),
        None => true,
    }
}
