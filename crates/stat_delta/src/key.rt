//! The difference that a change of one key makes.
ghost use Rattle.std.specs.Prelude.{◌≡◌, ◌≤◌, ◌^◌, pos};
ghost use Rattle.std.specs.Option.{option_map, ForSome};
ghost use Rattle.mvcc_key.specs.Field.{Field};
ghost use Rattle.stat_core.specs.ComputeStats.{field};
ghost use Rattle.stat_core.specs.views.Counters.{IsWithin};
ghost use Rattle.stat_core.specs.views.Limits.{IsInLimits};
ghost use Rattle.stat_core.specs.views.Seen.{number, lent_shape_of};
ghost use Rattle.stat_delta.specs.KeyDelta.{ChangesStored};
ghost use Rattle.stat_delta.specs.Shapes.{sums_of_shape, key_change};

use stat_core::{Group, GroupRef};

/// What a key adds to the statistics at a moment: a key without pairs adds nothing.
fn stats_of(group: Option<GroupRef<'_>>, now: u64) -> Group
    requires { ForSome group (λ g. IsInLimits (lent_shape_of g)) }
    ensures sums { (f : Field) → number f result ≡ pos (field f (sums_of_shape now (option_map lent_shape_of group.entry))) }
    ensures within { (f : Field) → field f (sums_of_shape now (option_map lent_shape_of group.entry)) ≤ 2 ^ 121 }
{
    match group {
        Some(group) => group.stats(now),
        None => Group::zero(),
    }
}

/// By how much the statistics of everything stored move at a moment, in nanoseconds of wall time, where one key changes from
/// the one shape to the other, or comes, or goes: the statistics after less those before (CockroachDB's
/// `updateStatsOnPut` and its like, `pkg/storage`). Both shapes need no more than the key's length, its record's length,
/// its intent's provisional version and its newest committed version, before and after: versions further down count the
/// same, and may be left out of both.
pub fn key_delta(before: Option<GroupRef<'_>>, after: Option<GroupRef<'_>>, now: u64) -> Group
    requires before { ForSome before (λ g. IsInLimits (lent_shape_of g)) }
    requires after { ForSome after (λ g. IsInLimits (lent_shape_of g)) }
    ensures exact { (f : Field) → number f result ≡ key_change now (option_map lent_shape_of before.entry) (option_map lent_shape_of after.entry) f }
    ensures stored { ChangesStored now (option_map lent_shape_of before.entry) (option_map lent_shape_of after.entry) result }
    ensures within { (f : Field) → IsWithin 121 (number f result) }
{
    let before = stats_of(before, now);
    stats_of(after, now).difference(&before)
}
