//! Running statistics.
ghost use Rattle.std.specs.Prelude.{◌≡◌, ◌≤◌, ◌<◌, ◌^◌, OnOk, OnErr, None};
ghost use Rattle.mvcc_key.specs.Field as fields;
ghost use Rattle.stat_core.specs.ComputeStats.{no_sums, overflowing};
ghost use Rattle.stat_core.specs.views.Counters.{IsWithin, number_at, moved_number};
ghost use Rattle.stat_core.specs.views.Seen.{refused_field};
ghost use Rattle.stat_core.specs.Settling.{NoDebt, raised_number, lowered_number, aged_number, settled_number, whole_sums, with_numbers, raised, lowered, aged_to, settled_stats};

use crate::counters::{Sign, changed, gains};
use crate::seconds::seconds_between;
use crate::{CountOverflow, Field, Group};
use std::marker::Model;

/// The statistics of a store as they stand at a wall time, `last_update_nanos` (CockroachDB's `MVCCStats`,
/// `pkg/storage/enginepb`). No statistic but the moment itself passes `count_max`.
///
/// A key `a` that is put at 1 second with an encoded value of 8 bytes counts 1 key, 1 version and 22 live bytes: 2 of the
/// key (its length and 1), 12 of the version's timestamp, and the value. Deleted at 3 seconds it counts 2 versions and no live
/// bytes, and its 34 bytes are garbage from then on. Aged to 10 seconds, `gc_bytes_age` is 34 * 7 = 238.
#[derive(Clone, Copy, Debug)]
pub struct Stats {
    counts: [u64; 14],
    last: u64,
    count_max: u64,
}

impl Model for Stats {
    ghost use Rattle.stat_core.specs.Running.{Running, AreKept, sums_of, counts_of, counts_of-sums_of};

    ghost Value = { Running };

    ghost view = { λ s. record { sums = sums_of s.counts; last = s.last; count_max = s.count_max } };

    ghost invariant = { λ s. AreKept s.counts s.last s.count_max };

    ghost inverse = { λ r. record { counts = counts_of r.sums; last = r.last; count_max = r.count_max } };

    ghost inverse_ok = { λ a h. λ i. record { counts = counts_of-sums_of a.counts h.all i; last = a.last; count_max = a.count_max } };
}

/// No gain.
const NONE: [i128; 14] = [0; 14];

impl Stats {
    /// The statistics of nothing at the wall time 0, with this bound.
    pub fn new(count_max: u64) -> Stats
        requires some { 0 < count_max }
        requires range { count_max < 2 ^ 63 }
        ensures { result ≡ record { sums = no_sums; last = 0; count_max = count_max } }
    {
        Stats {
            counts: [0; 14],
            last: 0,
            count_max,
        }
    }

    /// Keys with at least one stored pair.
    pub fn key_count(&self) -> u64
        ensures { result ≡ self.now.sums.key_count }
    {
        self.counts[Field::KeyCount as usize]
    }

    /// Bytes of keys: of each key its length and 1, and of each version 12.
    pub fn key_bytes(&self) -> u64
        ensures { result ≡ self.now.sums.key_bytes }
    {
        self.counts[Field::KeyBytes as usize]
    }

    /// Versions, provisional ones included.
    pub fn val_count(&self) -> u64
        ensures { result ≡ self.now.sums.val_count }
    {
        self.counts[Field::ValCount as usize]
    }

    /// Bytes of encoded values and of intent records.
    pub fn val_bytes(&self) -> u64
        ensures { result ≡ self.now.sums.val_bytes }
    {
        self.counts[Field::ValBytes as usize]
    }

    /// Keys whose newest version is live.
    pub fn live_count(&self) -> u64
        ensures { result ≡ self.now.sums.live_count }
    {
        self.counts[Field::LiveCount as usize]
    }

    /// Bytes of live versions, with their keys and records.
    pub fn live_bytes(&self) -> u64
        ensures { result ≡ self.now.sums.live_bytes }
    {
        self.counts[Field::LiveBytes as usize]
    }

    /// Intents.
    pub fn intent_count(&self) -> u64
        ensures { result ≡ self.now.sums.intent_count }
    {
        self.counts[Field::IntentCount as usize]
    }

    /// Of each intent, 12 and the length of its provisional version.
    pub fn intent_bytes(&self) -> u64
        ensures { result ≡ self.now.sums.intent_bytes }
    {
        self.counts[Field::IntentBytes as usize]
    }

    /// Seconds since the timestamps of the intents.
    pub fn intent_age(&self) -> u64
        ensures { result ≡ self.now.sums.intent_age }
    {
        self.counts[Field::IntentAge as usize]
    }

    /// Byte seconds: each byte that is garbage counts the seconds since it became so.
    pub fn gc_bytes_age(&self) -> u64
        ensures { result ≡ self.now.sums.gc_bytes_age }
    {
        self.counts[Field::GcBytesAge as usize]
    }

    /// Fragments of range tombstones.
    pub fn range_key_count(&self) -> u64
        ensures { result ≡ self.now.sums.range_key_count }
    {
        self.counts[Field::RangeKeyCount as usize]
    }

    /// Bytes of the bounds of fragments and of the timestamps in their stacks.
    pub fn range_key_bytes(&self) -> u64
        ensures { result ≡ self.now.sums.range_key_bytes }
    {
        self.counts[Field::RangeKeyBytes as usize]
    }

    /// Range tombstones in the stacks of fragments.
    pub fn range_val_count(&self) -> u64
        ensures { result ≡ self.now.sums.range_val_count }
    {
        self.counts[Field::RangeValCount as usize]
    }

    /// Bytes of values of range tombstones.
    pub fn range_val_bytes(&self) -> u64
        ensures { result ≡ self.now.sums.range_val_bytes }
    {
        self.counts[Field::RangeValBytes as usize]
    }

    /// Nanoseconds of wall time of the moment at which the statistics stand.
    pub fn last_update_nanos(&self) -> u64
        ensures value { result ≡ self.now.last }
        ensures range { self.now.last < 2 ^ 63 }
    {
        self.last
    }

    /// The bound that no statistic passes.
    pub fn count_max(&self) -> u64
        ensures value { result ≡ self.now.count_max }
        ensures some { 0 < self.now.count_max }
        ensures range { self.now.count_max < 2 ^ 63 }
        ensures bounds { overflowing self.now.count_max self.now.sums ≡ None }
    {
        self.count_max
    }

    /// Ages the statistics by what they gain, and moves them by a group's numbers.
    fn change(
        &mut self,
        gained: &[i128; 14],
        numbers: &[i128; 14],
        sign: Sign,
        now: u64,
    ) -> Result<(), CountOverflow>
        requires gained { (f : fields.Field) → IsWithin 101 (number_at gained.now f) }
        requires range { now < 2 ^ 63 }
        requires no_debt { NoDebt (moved_number self.old gained.now numbers.now sign) }
        ensures ok { OnOk result (self.new ≡ with_numbers self.old now (moved_number self.old gained.now numbers.now sign)) }
        ensures err { OnErr result (self.new ≡ self.old) }
        ensures refused { refused_field result
            ≡ overflowing self.old.count_max (whole_sums (moved_number self.old gained.now numbers.now sign)) }
    {
        self.counts = changed(&self.counts, gained, numbers, sign, self.count_max)?;
        self.last = now;
        Ok(())
    }

    /// Adds a group, at the same moment. It is refused exactly where a result passes the bound, with the first such field, and
    /// leaves the statistics as they were.
    pub fn add(&mut self, group: &Group) -> Result<(), CountOverflow>
        requires { NoDebt (raised_number self.old group.now) }
        ensures ok { OnOk result (self.new ≡ raised self.old group.now) }
        ensures err { OnErr result (self.new ≡ self.old) }
        ensures refused { refused_field result ≡ overflowing self.old.count_max (raised self.old group.now).sums }
    {
        let last = self.last;
        self.change(&NONE, &group.numbers(), Sign::Plus, last)
    }

    /// Takes a group away, at the same moment. It is refused exactly where a result passes the bound, with the first such
    /// field, and leaves the statistics as they were.
    pub fn sub(&mut self, group: &Group) -> Result<(), CountOverflow>
        requires { NoDebt (lowered_number self.old group.now) }
        ensures ok { OnOk result (self.new ≡ lowered self.old group.now) }
        ensures err { OnErr result (self.new ≡ self.old) }
        ensures refused { refused_field result ≡ overflowing self.old.count_max (lowered self.old group.now).sums }
    {
        let last = self.last;
        self.change(&NONE, &group.numbers(), Sign::Minus, last)
    }

    /// Ages the statistics to a moment, in nanoseconds of wall time (CockroachDB's `MVCCStats.AgeTo`). Each byte that is not
    /// live, and each intent, gains the whole seconds of that moment less those of the last one. It is refused exactly where a
    /// result passes the bound, with the first such field, and leaves the statistics as they were.
    pub fn age_to(&mut self, now: u64) -> Result<(), CountOverflow>
        requires later { self.old.last ≤ now }
        requires range { now < 2 ^ 63 }
        requires no_debt { NoDebt (aged_number self.old now) }
        ensures ok { OnOk result (self.new ≡ aged_to self.old now) }
        ensures err { OnErr result (self.new ≡ self.old) }
        ensures refused { refused_field result ≡ overflowing self.old.count_max (aged_to self.old now).sums }
    {
        self.settle(&Group::zero(), now)
    }

    /// Ages the statistics to a moment, in nanoseconds of wall time, and adds what a change moves them by at that moment, as
    /// one step: only the results are compared with the bound. It is refused exactly where one passes it, with the first such field, and leaves the statistics
    /// as they were.
    pub fn settle(&mut self, delta: &Group, now: u64) -> Result<(), CountOverflow>
        requires later { self.old.last ≤ now }
        requires range { now < 2 ^ 63 }
        requires no_debt { NoDebt (settled_number self.old delta.now now) }
        ensures ok { OnOk result (self.new ≡ settled_stats self.old delta.now now) }
        ensures err { OnErr result (self.new ≡ self.old) }
        ensures refused { refused_field result ≡ overflowing self.old.count_max (settled_stats self.old delta.now now).sums }
    {
        let gained = gains(&self.counts, seconds_between(self.last, now));
        self.change(&gained, &delta.numbers(), Sign::Plus, now)
    }
}
