//! What a planned write hands to the store and to its statistics.
ghost use Rattle.std.specs.Prelude.{◌<◌, ◌^◌};
ghost use Rattle.mvcc_key.specs.Batches.{IsBatch};
ghost use Rattle.mvcc_key.specs.Field.{Field};
ghost use Rattle.stat_core.specs.views.Counters.{IsWithin};
ghost use Rattle.stat_core.specs.views.Seen.{number};

use mvcc_key::Batch;
use stat_core::Group;

/// What a write changes: the pairs and range tombstones that it sets and clears, by how much the statistics of everything
/// stored move, taken at a moment, and this moment, in nanoseconds of wall time, which is then that of the statistics.
#[derive(Debug, Drop)]
pub struct Change {
    pub batch: Batch,
    pub delta: Group,
    pub last: u64,
    ghost batch_is_taken: { IsBatch batch },
    ghost delta_within: { (f : Field) → IsWithin 121 (number f delta) },
    ghost last_range: { last < 2 ^ 63 },
}
