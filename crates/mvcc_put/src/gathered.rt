//! What is gathered of the plans of several keys.
ghost use Rattle.std.specs.Prelude.{◌≡◌, ◌<◌, ◌^◌, ◌++◌, ◌+ℤ◌, pos, OnOk};
ghost use Rattle.mvcc_key.specs.Field.{Field};
ghost use Rattle.mvcc_key.specs.views.Building.{empty_batch};
ghost use Rattle.stat_core.specs.views.Counters.{IsWithin};
ghost use Rattle.stat_core.specs.views.Seen.{number};
ghost use Rattle.mvcc_put.specs.views.Gathered.{moment_with};

use key_top::{append_points, delta_sum};
use mvcc_key::{BatchBuilder, OutOfMemory, PointOp};
use stat_core::Group;
use stat_delta::Change;
use std::alloc::Global;

/// What is gathered of the plans of several keys: the operations, and by how much the statistics change at a moment that is the
/// same for all of them.
#[derive(Drop)]
pub(crate) struct Gathered {
    batch: BatchBuilder,
    delta: Group,
    ghost delta_within: { (f : Field) → IsWithin 121 (number f delta) },
}

impl Gathered {
    /// Of no key. This takes no memory.
    pub(crate) fn new(alloc: Global) -> Gathered
        ensures batch { result.batch ≡ empty_batch }
        ensures delta { (f : Field) → number f result.delta ≡ pos 0 }
    {
        Gathered {
            batch: BatchBuilder::new(alloc),
            delta: Group::zero(),
        }
    }

    /// Takes the plan of one more key up, which is above those before.
    pub(crate) fn add(&mut self, change: Change) -> Result<(), OutOfMemory>
        ensures points { OnOk result (self.new.batch.points ≡ self.old.batch.points ++ change.batch.points) }
        ensures ranges { self.new.batch.ranges ≡ self.old.batch.ranges }
        ensures delta { OnOk result ((f : Field) → number f self.new.delta ≡ number f self.old.delta +ℤ number f change.delta) }
    {
        let delta = delta_sum(&self.delta, &change.delta)?;
        let batch = change.batch;
        append_points(&mut self.batch, batch.points)?;
        self.delta = delta;
        Ok(())
    }

    /// The change of all of them, at the later moment, or at the last one where nothing is put.
    pub(crate) fn into_change(self, last: u64, later: u64) -> Change
        requires last { last < 2 ^ 63 }
        requires later { later < 2 ^ 63 }
        ensures batch { result.batch ≡ self.batch }
        ensures delta { result.delta ≡ self.delta }
        ensures moment { result.last ≡ moment_with last later self.batch.points }
    {
        let batch = self.batch.into_batch();
        let last = moment_with(last, later, batch.points.as_slice());
        Change {
            batch,
            delta: self.delta,
            last,
        }
    }
}

/// The later moment, and the last one where no point is put.
fn moment_with(last: u64, later: u64, points: &[PointOp]) -> u64
    ensures { result ≡ moment_with last later points.now }
{
    match points {
        [] => last,
        [_, ..] => later,
    }
}
