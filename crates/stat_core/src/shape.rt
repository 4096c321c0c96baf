//! What the statistics see of a key and its pairs.
ghost use Rattle.std.specs.Prelude.{◌≡◌, ◌≤◌, ◌^◌, pos};
ghost use Rattle.std.specs.List.Sorted.{IsStrictlySortedBy};
ghost use Rattle.std.specs.Option.{option_map};
ghost use Rattle.mvcc_key.specs.Field.{Field};
ghost use Rattle.mvcc_key.specs.Order.{newer_first};
ghost use Rattle.mvcc_key.specs.views.Seen.{time_of};
ghost use Rattle.stat_core.specs.ComputeStats.{newest_dead, newest_length, intent_sums, key_sums, field};
ghost use Rattle.stat_core.specs.views.Limits.{IsInLimits};
ghost use Rattle.stat_core.specs.views.Seen.{number, key_shape_of, lent_shape_of};

use crate::Group;
use crate::garbage::dead_since;
use crate::seconds::seconds_between;
use crate::tally::{TIMESTAMP_BYTES, Tally, live_keys, signed};
use mvcc_key::{Elements, Timestamp};

/// A version without its bytes: its timestamp, the length of its encoded value, and whether it is a deletion.
#[derive(Clone, Copy, Debug)]
pub struct VersionShape {
    pub ts: Timestamp,
    pub value_len: u64,
    pub deletion: bool,
}

/// What the statistics see of a key: the length of the key and of its intent's encoded record (0 where there is none), the
/// timestamp of the intent, the versions newest first, the provisional one included, and the range tombstones over the
/// key newest first.
#[derive(Debug, Drop)]
pub struct GroupShape {
    pub key_len: u64,
    pub record_len: u64,
    pub intent: Option<Timestamp>,
    pub versions: Elements<VersionShape>,
    pub stack: Elements<Timestamp>,
}

/// A [`GroupShape`] whose lists are lent.
#[derive(Clone, Copy, Debug)]
pub struct GroupRef<'a> {
    pub key_len: u64,
    pub record_len: u64,
    pub intent: Option<Timestamp>,
    pub versions: &'a [VersionShape],
    pub stack: &'a [Timestamp],
}

impl GroupShape {
    /// The same shape, lent.
    pub fn lend(&self) -> GroupRef<'_>
        ensures { lent_shape_of result ≡ key_shape_of self.now }
    {
        GroupRef {
            key_len: self.key_len,
            record_len: self.record_len,
            intent: self.intent,
            versions: self.versions.as_slice(),
            stack: self.stack.as_slice(),
        }
    }
}

/// What an intent adds: how many there are, the bytes of its provisional version, and its age in seconds.
#[derive(Clone, Copy, Debug)]
struct IntentTally {
    count: u64,
    bytes: u64,
    age: u64,
}

impl GroupRef<'_> {
    /// Since when the newest version is garbage.
    fn newest_dead(&self) -> Option<Timestamp>
        requires { IsStrictlySortedBy newer_first (lent_shape_of self.now).stack }
        ensures { option_map time_of result ≡ newest_dead (lent_shape_of self.now) (lent_shape_of self.now).versions }
    {
        match self.versions.first() {
            Some(newest) => dead_since(newest, None, self.stack),
            None => None,
        }
    }

    /// The length of the newest version's value.
    fn newest_len(&self) -> u64
        ensures { result ≡ newest_length (lent_shape_of self.now).versions }
    {
        match self.versions.first() {
            Some(newest) => newest.value_len,
            None => 0,
        }
    }

    /// What the intent adds, where there is one.
    fn intent_tally(&self, now: u64) -> IntentTally
        requires { newest_length (lent_shape_of self.now).versions ≤ 2 ^ 25 }
        ensures count { result.count ≡ (intent_sums now (lent_shape_of self.now) (lent_shape_of self.now).intent).intent_count }
        ensures bytes { result.bytes ≡ (intent_sums now (lent_shape_of self.now) (lent_shape_of self.now).intent).intent_bytes }
        ensures age { result.age ≡ (intent_sums now (lent_shape_of self.now) (lent_shape_of self.now).intent).intent_age }
        ensures count_within { result.count ≤ 1 }
        ensures bytes_within { result.bytes ≤ 33554444 }
        ensures age_within { result.age ≤ 18446744073 }
    {
        match self.intent {
            Some(ts) => IntentTally {
                count: 1,
                bytes: TIMESTAMP_BYTES + self.newest_len(),
                age: seconds_between(ts.wall(), now),
            },
            None => IntentTally {
                count: 0,
                bytes: 0,
                age: 0,
            },
        }
    }

    /// What the key's pairs add to the statistics at a moment, in nanoseconds of wall time, as [`group_stats`] says. It takes no
    /// memory, so a put asks it for the new version with its older neighbour, and for the older neighbour alone.
    pub fn stats(&self, now: u64) -> Group
        requires { IsInLimits (lent_shape_of self.now) }
        ensures sums { (f : Field) → number f result ≡ pos (field f (key_sums now (lent_shape_of self.now))) }
        ensures within { (f : Field) → field f (key_sums now (lent_shape_of self.now)) ≤ 2 ^ 121 }
    {
        let dead = self.newest_dead();
        let mut tally = Tally::of_versions(self.versions, self.stack, now);
        tally.count(self.key_len + 1 + self.record_len, dead, now);
        let intent = self.intent_tally(now);
        let versions = self.versions.len() as u128;
        Group {
            key_count: 1,
            key_bytes: signed(u128::from(self.key_len) + 1 + 12 * versions),
            val_count: signed(versions),
            val_bytes: signed(u128::from(self.record_len) + tally.val_bytes),
            live_count: live_keys(dead),
            live_bytes: signed(tally.live_bytes),
            intent_count: signed(u128::from(intent.count)),
            intent_bytes: signed(u128::from(intent.bytes)),
            intent_age: signed(u128::from(intent.age)),
            gc_bytes_age: signed(tally.gc_bytes_age),
            range_key_count: 0,
            range_key_bytes: 0,
            range_val_count: 0,
            range_val_bytes: 0,
        }
    }
}

/// What a key's pairs add to the statistics at a moment, in nanoseconds of wall time (CockroachDB's `ComputeStats`,
/// `pkg/storage`, for one key). Lengths are at most 2^25 bytes and versions at most 2^60 in number, so that every sum is at
/// most 2^121. Each version costs a halving of the stack.
pub fn group_stats(shape: &GroupShape, now: u64) -> Group
    requires { IsInLimits (key_shape_of shape.now) }
    ensures sums { (f : Field) → number f result ≡ pos (field f (key_sums now (key_shape_of shape.now))) }
    ensures within { (f : Field) → field f (key_sums now (key_shape_of shape.now)) ≤ 2 ^ 121 }
{
    shape.lend().stats(now)
}
