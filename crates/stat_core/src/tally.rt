//! Bytes of points, live or garbage since a moment.
ghost use Rattle.std.specs.Prelude.{◌≡◌, ◌≤◌, ◌<◌, ◌+◌, ◌*◌, ◌^◌, length, map, pos, None};
ghost use Rattle.std.specs.List.{AllByRecursion};
ghost use Rattle.std.specs.List.Sorted.{IsStrictlySortedBy};
ghost use Rattle.std.specs.Option.{option_map};
ghost use Rattle.mvcc_key.specs.Order.{newer_first};
ghost use Rattle.mvcc_key.specs.views.Seen.{time_of};
ghost use Rattle.stat_core.specs.ComputeStats.{age, live_or_garbage, versions_sums, live_key};
ghost use Rattle.stat_core.specs.views.Seen.{version_shape_of};
ghost use Rattle.stat_core.specs.views.Tallies.{Counts};

use crate::VersionShape;
use crate::garbage::dead_since;
use crate::seconds::seconds_between;
use mvcc_key::Timestamp;

/// The bytes of a version's timestamp.
pub(crate) const TIMESTAMP_BYTES: u64 = 12;

/// Bytes of values, live bytes, and the age in byte seconds of the bytes that are garbage.
#[derive(Clone, Copy, Debug)]
pub(crate) struct Tally {
    pub(crate) val_bytes: u128,
    pub(crate) live_bytes: u128,
    pub(crate) gc_bytes_age: u128,
}

/// The age of bytes that are garbage since a timestamp.
fn age_of(bytes: u64, since: Timestamp, now: u64) -> u128
    requires { bytes ≤ 2 ^ 27 }
    ensures value { result ≡ bytes * age now (time_of since).wall }
    ensures within { result ≤ bytes * 18446744073 }
{
    u128::from(bytes) * u128::from(seconds_between(since.wall(), now))
}

impl Tally {
    /// Counts bytes that are live, or garbage since a timestamp.
    pub(crate) fn count(&mut self, bytes: u64, dead: Option<Timestamp>, now: u64)
        requires bytes { bytes ≤ 2 ^ 27 }
        requires live { self.old.live_bytes ≤ 2 ^ 120 }
        requires age { self.old.gc_bytes_age ≤ 2 ^ 121 }
        ensures val_bytes { self.new.val_bytes ≡ self.old.val_bytes }
        ensures live_bytes { self.new.live_bytes ≡ self.old.live_bytes + (live_or_garbage now bytes (option_map time_of dead)).live_bytes }
        ensures gc_bytes_age { self.new.gc_bytes_age ≡ self.old.gc_bytes_age + (live_or_garbage now bytes (option_map time_of dead)).gc_bytes_age }
        ensures live_within { self.new.live_bytes ≤ self.old.live_bytes + bytes }
        ensures age_within { self.new.gc_bytes_age ≤ self.old.gc_bytes_age + bytes * 18446744073 }
    {
        match dead {
            None => self.live_bytes += u128::from(bytes),
            Some(since) => self.gc_bytes_age += age_of(bytes, since, now),
        }
    }

    /// The tally of versions, newest first, under a stack of range tombstones, newest first.
    pub(crate) fn of_versions(versions: &[VersionShape], stack: &[Timestamp], now: u64) -> Tally
        requires lengths { AllByRecursion (λ v. v.value_len ≤ 2 ^ 25) versions.now }
        requires versions { length versions.now ≤ 2 ^ 60 }
        requires stack { IsStrictlySortedBy newer_first (map time_of stack.now) }
        ensures value { Counts result (versions_sums now None (map time_of stack.now) (map version_shape_of versions.now)) }
        ensures val_within { result.val_bytes ≤ 2 ^ 25 * length versions.now }
        ensures live_within { result.live_bytes ≤ 33554444 * length versions.now }
        ensures age_within { result.gc_bytes_age ≤ 2 ^ 60 * length versions.now }
    {
        let mut tally = Tally {
            val_bytes: 0,
            live_bytes: 0,
            gc_bytes_age: 0,
        };
        let mut newer = None;
        for version in versions {
            tally.val_bytes += u128::from(version.value_len);
            let dead = dead_since(version, newer, stack);
            tally.count(TIMESTAMP_BYTES + version.value_len, dead, now);
            newer = Some(version.ts);
        }
        tally
    }
}

/// The signed number of a count.
pub(crate) fn signed(count: u128) -> i128
    requires { count < 2 ^ 127 }
    ensures { result ≡ pos count }
{
    count as i128
}

/// 1 for a key that is live.
pub(crate) fn live_keys(dead: Option<Timestamp>) -> i128
    ensures { result ≡ pos (live_key (option_map time_of dead)) }
{
    match dead {
        None => 1,
        Some(_) => 0,
    }
}
