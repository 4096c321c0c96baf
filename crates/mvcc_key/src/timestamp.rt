//! Timestamps: nanoseconds of wall time, and a counter among the timestamps of one wall time.
ghost use Rattle.std.specs.Prelude.{◌≡◌, ◌↔◌, ◌<◌, ◌^◌, IsTrue, IsSome, IfSome};
ghost use Rattle.std.specs.Option.{option_map};
ghost use Rattle.mvcc_key.specs.Order.{is_in_range, next_time, previous_time, time_cmp};

use crate::{MAX_COUNT, MAX_WALL};
use std::cmp::Ordering;

/// A point of the hybrid logical clock (CockroachDB `pkg/util/hlc`): a wall time in nanoseconds, 0 to 2^63-1, and a
/// logical counter, 0 to 2^31-1. Timestamps are in the order of their wall times, and those of one wall time in the order of
/// their counters.
#[derive(Clone, Copy, Debug, PartialEq, Eq, PartialOrd, Ord)]
pub struct Timestamp {
    wall: u64,
    logical: u32,
    ghost wall_range: { wall < 2 ^ 63 },
    ghost logical_range: { logical < 2 ^ 31 },
}

impl Timestamp {
    ghost use Rattle.mvcc_key.specs.views.Seen.{time_of};

    /// The least timestamp, (0, 0), which stands for none: no version and no tombstone has it.
    pub const NONE: Timestamp = Timestamp {
        wall: 0,
        logical: 0,
    };

    /// The timestamp of these two numbers. `None` exactly where one of them is out of its range.
    pub fn new(wall: u64, logical: u32) -> Option<Timestamp>
        ensures some { IsSome result ↔ IsTrue (is_in_range (record { wall = wall; logical = logical })) }
        ensures parts { IfSome result (λ t. time_of t ≡ record { wall = wall; logical = logical }) }
    {
        if wall <= MAX_WALL && logical <= MAX_COUNT {
            Some(Timestamp { wall, logical })
        } else {
            None
        }
    }

    /// Nanoseconds of wall time.
    pub fn wall(self) -> u64
        ensures { result ≡ (time_of self).wall }
    {
        self.wall
    }

    /// The counter among the timestamps of this wall time.
    pub fn logical(self) -> u32
        ensures { result ≡ (time_of self).logical }
    {
        self.logical
    }

    /// How this timestamp stands to the other in the order of timestamps, as `cmp` says.
    pub fn compare(self, other: Timestamp) -> Ordering
        ensures { result ≡ time_cmp (time_of self) (time_of other) }
    {
        self.cmp(&other)
    }

    /// The timestamp after this one: the counter goes up by 1, and from its last value to 0 at the next wall time. `None`
    /// exactly at the last timestamp.
    pub fn next(self) -> Option<Timestamp>
        ensures { option_map time_of result ≡ next_time (time_of self) }
    {
        if self.logical < MAX_COUNT {
            return Some(Timestamp {
                wall: self.wall,
                logical: self.logical + 1,
            });
        }
        if self.wall < MAX_WALL {
            return Some(Timestamp {
                wall: self.wall + 1,
                logical: 0,
            });
        }
        None
    }

    /// The timestamp before this one, so that `next` and `prev` undo each other. `None` exactly at [`Timestamp::NONE`].
    pub fn prev(self) -> Option<Timestamp>
        ensures { option_map time_of result ≡ previous_time (time_of self) }
    {
        if self.logical > 0 {
            return Some(Timestamp {
                wall: self.wall,
                logical: self.logical - 1,
            });
        }
        if self.wall > 0 {
            return Some(Timestamp {
                wall: self.wall - 1,
                logical: MAX_COUNT,
            });
        }
        None
    }
}

impl Default for Timestamp {
    fn default() -> Timestamp {
        Timestamp::NONE
    }
}
