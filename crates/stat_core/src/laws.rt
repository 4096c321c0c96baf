//! The laws of the statistics, each the contract of a function that does nothing.
ghost use Rattle.std.specs.Prelude.{◌≡◌, ℕ, ◌+◌, ◌≤◌, ◌<◌, List, None, Some};
ghost use Rattle.mvcc_key.specs.Field.{Field};
ghost use Rattle.mvcc_key.specs.Fragments.{Fragment};
ghost use Rattle.mvcc_key.specs.Order.{Pair};
ghost use Rattle.stat_core.specs.ComputeStats.{Sums, compute_stats, field, overflowing};
ghost use Rattle.stat_core.specs.Laws.{OneKeyChanges, OneKeyDiffers, KeyComes, OlderShapesStay, OlderVersionsStay, VersionComesOnTop, FirstVersionComes, SpanChanges, StatisticsAge, AgeingComputes, AgeingOwesNothing, SettlingComputes, SettlingOwesNothing, IsAtMost, SharesAreParts, SpansAddUp};

/// The statistics after a change of one key: before, less what the key added, plus what it adds.
pub fn one_key_changes()
    ensures sums { OneKeyChanges }
    ensures differences { OneKeyDiffers }
    ensures comes { KeyComes }
{}

/// The statistics after a change in front of an older version of a key: the versions behind it count the same.
pub fn older_versions_stay()
    ensures shapes { OlderShapesStay }
    ensures pairs { OlderVersionsStay }
{}

/// The statistics after a put: of a version on top of a key's others, and of a key's first version.
pub fn versions_come()
    ensures on_top { VersionComesOnTop }
    ensures first { FirstVersionComes }
{}

/// The statistics at a later moment.
pub fn statistics_age()
    ensures computed { StatisticsAge }
    ensures running { AgeingComputes }
    ensures no_debt { AgeingOwesNothing }
{}

/// Running statistics that are settled_stats with what a change moves the statistics by are those of what is stored after it.
pub fn settling_follows()
    ensures running { SettlingComputes }
    ensures no_debt { SettlingOwesNothing }
{}

/// The statistics after a change of a span.
pub fn span_changes()
    ensures { SpanChanges }
{}

/// Bounds that statistics keep.
pub fn statistics_are_in_bounds()
    ensures live_bytes { (now : ℕ) (pairs : List Pair) (fs : List Fragment)
        → (compute_stats now pairs fs).live_bytes ≤ (compute_stats now pairs fs).key_bytes + (compute_stats now pairs fs).val_bytes }
    ensures live_count { (now : ℕ) (pairs : List Pair) (fs : List Fragment)
        → (compute_stats now pairs fs).live_count ≤ (compute_stats now pairs fs).key_count }
    ensures intent_count { (now : ℕ) (pairs : List Pair) (fs : List Fragment)
        → (compute_stats now pairs fs).intent_count ≤ (compute_stats now pairs fs).key_count }
    ensures range_key_count { (now : ℕ) (pairs : List Pair) (fs : List Fragment)
        → (compute_stats now pairs fs).range_key_count ≤ (compute_stats now pairs fs).range_val_count }
    ensures parts { SharesAreParts }
{}

/// When statistics pass a bound.
pub fn overflow_is_exact()
    ensures none { (count_max : ℕ) (s : Sums) → overflowing count_max s ≡ None → (f : Field) → field f s ≤ count_max }
    ensures none_from { (count_max : ℕ) (s : Sums) → ((f : Field) → field f s ≤ count_max) → overflowing count_max s ≡ None }
    ensures some { (count_max : ℕ) (s : Sums) (f : Field) → overflowing count_max s ≡ Some f → count_max < field f s }
    ensures less { (count_max : ℕ) (s t : Sums) → IsAtMost s t → overflowing count_max t ≡ None → overflowing count_max s ≡ None }
{}

/// The statistics of a span and of its two parts.
pub fn spans_add_up()
    ensures { SpansAddUp }
{}
