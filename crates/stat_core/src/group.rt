//! One signed number for each bounded statistic.
ghost use Rattle.std.specs.Prelude.{◌≡◌, ◌-ℤ◌, FitsSigned, slice_index_or, pos};
ghost use Rattle.std.specs.Int.{w128};
ghost use Rattle.mvcc_key.specs.Field.{Field};
ghost use Rattle.stat_core.specs.Running.{field_index};
ghost use Rattle.stat_core.specs.views.Seen.{number};

/// What some pairs add to the statistics, or by how much a change moves them: counts, bytes, and ages in byte seconds (of
/// intents in seconds).
#[derive(Clone, Copy, Debug, PartialEq, Eq)]
pub struct Group {
    pub key_count: i128,
    pub key_bytes: i128,
    pub val_count: i128,
    pub val_bytes: i128,
    pub live_count: i128,
    pub live_bytes: i128,
    pub intent_count: i128,
    pub intent_bytes: i128,
    pub intent_age: i128,
    pub gc_bytes_age: i128,
    pub range_key_count: i128,
    pub range_key_bytes: i128,
    pub range_val_count: i128,
    pub range_val_bytes: i128,
}

/// One number less another.
fn less(number: i128, other: i128) -> i128
    requires { FitsSigned w128 (number -ℤ other) }
    ensures { result ≡ number -ℤ other }
{
    number - other
}

impl Group {
    /// Nothing: what a key without pairs adds.
    pub fn zero() -> Group
        ensures { (f : Field) → number f result ≡ pos 0 }
    {
        Group {
            key_count: 0,
            key_bytes: 0,
            val_count: 0,
            val_bytes: 0,
            live_count: 0,
            live_bytes: 0,
            intent_count: 0,
            intent_bytes: 0,
            intent_age: 0,
            gc_bytes_age: 0,
            range_key_count: 0,
            range_key_bytes: 0,
            range_val_count: 0,
            range_val_bytes: 0,
        }
    }

    /// By how much this group is above the one before a change, number by number.
    pub fn difference(&self, before: &Group) -> Group
        requires { (f : Field) → FitsSigned w128 (number f self.now -ℤ number f before.now) }
        ensures { (f : Field) → number f result ≡ number f self.now -ℤ number f before.now }
    {
        Group {
            key_count: less(self.key_count, before.key_count),
            key_bytes: less(self.key_bytes, before.key_bytes),
            val_count: less(self.val_count, before.val_count),
            val_bytes: less(self.val_bytes, before.val_bytes),
            live_count: less(self.live_count, before.live_count),
            live_bytes: less(self.live_bytes, before.live_bytes),
            intent_count: less(self.intent_count, before.intent_count),
            intent_bytes: less(self.intent_bytes, before.intent_bytes),
            intent_age: less(self.intent_age, before.intent_age),
            gc_bytes_age: less(self.gc_bytes_age, before.gc_bytes_age),
            range_key_count: less(self.range_key_count, before.range_key_count),
            range_key_bytes: less(self.range_key_bytes, before.range_key_bytes),
            range_val_count: less(self.range_val_count, before.range_val_count),
            range_val_bytes: less(self.range_val_bytes, before.range_val_bytes),
        }
    }

    /// The numbers in the order of the fields.
    pub(crate) fn numbers(&self) -> [i128; 14]
        ensures { (f : Field) → slice_index_or result (field_index f) (pos 0) ≡ number f self.now }
    {
        [
            self.key_count,
            self.key_bytes,
            self.val_count,
            self.val_bytes,
            self.live_count,
            self.live_bytes,
            self.intent_count,
            self.intent_bytes,
            self.intent_age,
            self.gc_bytes_age,
            self.range_key_count,
            self.range_key_bytes,
            self.range_val_count,
            self.range_val_bytes,
        ]
    }
}
