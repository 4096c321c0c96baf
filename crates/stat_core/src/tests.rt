#![tactic(auto, using(crate::proofs::GroupLaws::no_stack))]

ghost use Rattle.std.specs.Prelude.{◌≡◌, ◌<◌, ◌≤ℤ◌, ◌+ℤ◌, map, pos};
ghost use Rattle.std.specs.List.Sorted.{IsStrictlySortedBy};
ghost use Rattle.mvcc_key.specs.Field as fields;
ghost use Rattle.mvcc_key.specs.Order.{newer_first};
ghost use Rattle.mvcc_key.specs.views.Seen.{time_of};
ghost use Rattle.stat_core.specs.ComputeStats.{field};
ghost use Rattle.stat_core.specs.views.Limits.{IsInLimits};
ghost use Rattle.stat_core.specs.views.Seen.{number as fields_number, lent_shape_of};

use super::*;
use mvcc_key::{Elements, Timestamp};
use std::process::Abort;
use std::test::Fail;

const SECOND: u64 = 1_000_000_000;

const FIELDS: [Field; 14] = [
    Field::KeyCount,
    Field::KeyBytes,
    Field::ValCount,
    Field::ValBytes,
    Field::LiveCount,
    Field::LiveBytes,
    Field::IntentCount,
    Field::IntentBytes,
    Field::IntentAge,
    Field::GcBytesAge,
    Field::RangeKeyCount,
    Field::RangeKeyBytes,
    Field::RangeValCount,
    Field::RangeValBytes,
];

fn at(nanos: u64) -> Timestamp {
    Timestamp::new(nanos, 0).unwrap_or(Timestamp::NONE)
}

/// A version with a value of this length at a wall time.
fn version(nanos: u64, value_len: u64) -> VersionShape
    ensures { result.value_len ≡ value_len }
{
    VersionShape {
        ts: at(nanos),
        value_len,
        deletion: false,
    }
}

/// A deletion at a wall time.
fn deletion(nanos: u64) -> VersionShape
    ensures { result.value_len ≡ 0 }
{
    VersionShape {
        ts: at(nanos),
        value_len: 0,
        deletion: true,
    }
}

/// What a key with one live version of 8 bytes adds.
fn one_live() -> Group
    ensures { (f : fields.Field) → pos 0 ≤ℤ fields_number f result }
{
    Group {
        key_count: 1,
        key_bytes: 14,
        val_count: 1,
        val_bytes: 8,
        live_count: 1,
        live_bytes: 22,
        ..Group::zero()
    }
}

#[test]
fn a_key_adds_its_sums(rt: HostRuntime) -> Result<(), Fail> {
    let put = [version(SECOND, 8)];
    let mut shape = GroupRef {
        key_len: 1,
        record_len: 0,
        intent: None,
        versions: &put,
        stack: &[],
    };
    assert_eq!(rt; shape.stats(SECOND), one_live());

    let deleted = [deletion(3 * SECOND), version(SECOND, 8)];
    shape.versions = &deleted;
    let dead = Group {
        key_count: 1,
        key_bytes: 26,
        val_count: 2,
        val_bytes: 8,
        gc_bytes_age: 238,
        ..Group::zero()
    };
    assert_eq!(rt; shape.stats(10 * SECOND), dead);

    let twice = [version(1_900_000_000, 8), version(900_000_000, 8)];
    shape.versions = &twice;
    let covered = Group {
        key_bytes: 26,
        val_count: 2,
        val_bytes: 16,
        gc_bytes_age: 20,
        ..one_live()
    };
    assert_eq!(rt; shape.stats(2 * SECOND), covered);
    Ok(())
}

/// A stack of two timestamps, once it is seen to descend.
fn stack_of(rt: &impl Abort, newer: u64, older: u64) -> [Timestamp; 2]
    ensures { IsStrictlySortedBy newer_first (map time_of result) }
{
    let stack = [at(newer), at(older)];
    assert!(rt; stack[1].compare(stack[0]).is_lt());
    stack
}

/// What a key with values of 8 bytes at 3 and at 1 adds at 10, under tombstones at these two seconds.
fn two_puts_under(rt: &impl Abort, newer: u64, older: u64) -> Group
    requires newer { newer < 10 }
    requires older { older < 10 }
{
    let puts = [version(3 * SECOND, 8), version(SECOND, 8)];
    let stack = stack_of(rt, newer * SECOND, older * SECOND);
    let shape = GroupRef {
        key_len: 1,
        record_len: 0,
        intent: None,
        versions: &puts,
        stack: &stack,
    };
    shape.stats(10 * SECOND)
}

#[test]
fn a_tombstone_ends_what_is_older(rt: HostRuntime) -> Result<(), Fail> {
    let dead = Group {
        key_count: 1,
        key_bytes: 26,
        val_count: 2,
        val_bytes: 16,
        gc_bytes_age: 270,
        ..Group::zero()
    };
    assert_eq!(rt; two_puts_under(&rt, 5, 2), dead);

    let since_the_lower = Group {
        gc_bytes_age: 272,
        ..dead
    };
    assert_eq!(rt; two_puts_under(&rt, 5, 4), since_the_lower);

    let live = Group {
        live_count: 1,
        live_bytes: 22,
        gc_bytes_age: 160,
        ..dead
    };
    assert_eq!(rt; two_puts_under(&rt, 2, 1), live);
    Ok(())
}

#[test]
fn an_intent_counts_with_its_record(rt: HostRuntime) -> Result<(), Fail> {
    let provisional = vec![in rt.alloc(); version(2 * SECOND, 8)]?;
    let shape = GroupShape {
        key_len: 1,
        record_len: 45,
        intent: Some(at(2 * SECOND)),
        versions: Elements::from_vec(provisional),
        stack: Elements::new(rt.alloc()),
    };
    let written = Group {
        val_bytes: 53,
        live_bytes: 67,
        intent_count: 1,
        intent_bytes: 20,
        ..one_live()
    };
    assert_eq!(rt; group_stats(&shape, 2 * SECOND), written);
    let later = Group {
        intent_age: 3,
        ..written
    };
    assert_eq!(rt; group_stats(&shape, 5 * SECOND), later);
    Ok(())
}

/// The statistics, without their moment.
fn shown(stats: &Stats) -> Group {
    Group {
        key_count: i128::from(stats.key_count()),
        key_bytes: i128::from(stats.key_bytes()),
        val_count: i128::from(stats.val_count()),
        val_bytes: i128::from(stats.val_bytes()),
        live_count: i128::from(stats.live_count()),
        live_bytes: i128::from(stats.live_bytes()),
        intent_count: i128::from(stats.intent_count()),
        intent_bytes: i128::from(stats.intent_bytes()),
        intent_age: i128::from(stats.intent_age()),
        gc_bytes_age: i128::from(stats.gc_bytes_age()),
        range_key_count: i128::from(stats.range_key_count()),
        range_key_bytes: i128::from(stats.range_key_bytes()),
        range_val_count: i128::from(stats.range_val_count()),
        range_val_bytes: i128::from(stats.range_val_bytes()),
    }
}

/// Sees that a count with a number more is not negative.
fn covered(rt: &impl Abort, count: u64, number: i128)
    ensures { pos 0 ≤ℤ (pos count +ℤ number) }
{
    assert!(rt; number >= -i128::from(count));
}

/// Sees that no statistic with the group is negative.
fn all_covered(rt: &impl Abort, stats: &Stats, group: &Group)
    ensures { (f : fields.Field) → pos 0 ≤ℤ (pos (field f stats.now.sums) +ℤ fields_number f group.now) }
{
    covered(rt, stats.key_count(), group.key_count);
    covered(rt, stats.key_bytes(), group.key_bytes);
    covered(rt, stats.val_count(), group.val_count);
    covered(rt, stats.val_bytes(), group.val_bytes);
    covered(rt, stats.live_count(), group.live_count);
    covered(rt, stats.live_bytes(), group.live_bytes);
    covered(rt, stats.intent_count(), group.intent_count);
    covered(rt, stats.intent_bytes(), group.intent_bytes);
    covered(rt, stats.intent_age(), group.intent_age);
    covered(rt, stats.gc_bytes_age(), group.gc_bytes_age);
    covered(rt, stats.range_key_count(), group.range_key_count);
    covered(rt, stats.range_key_bytes(), group.range_key_bytes);
    covered(rt, stats.range_val_count(), group.range_val_count);
    covered(rt, stats.range_val_bytes(), group.range_val_bytes);
}

/// Settles, once the conditions are seen to hold.
fn settle(
    rt: &impl Abort,
    stats: &mut Stats,
    delta: &Group,
    now: u64,
) -> Result<(), CountOverflow> {
    assert!(rt; stats.last_update_nanos() <= now);
    assert!(rt; now < 1 << 63);
    all_covered(rt, stats, delta);
    let bytes = u128::from(stats.key_bytes()) + u128::from(stats.val_bytes());
    assert!(rt; u128::from(stats.live_bytes()) <= bytes);
    stats.settle(delta, now)
}

/// Ages, once the conditions are seen to hold.
fn age(rt: &impl Abort, stats: &mut Stats, now: u64) -> Result<(), CountOverflow> {
    assert!(rt; stats.last_update_nanos() <= now);
    assert!(rt; now < 1 << 63);
    let bytes = u128::from(stats.key_bytes()) + u128::from(stats.val_bytes());
    assert!(rt; u128::from(stats.live_bytes()) <= bytes);
    stats.age_to(now)
}

/// By how much a change of one key moves the statistics.
fn change(before: &GroupRef<'_>, after: &GroupRef<'_>, now: u64) -> Group
    requires before { IsInLimits (lent_shape_of before.now) }
    requires after { IsInLimits (lent_shape_of after.now) }
{
    after.stats(now).difference(&before.stats(now))
}

/// A put of a key's first version at 1, and a deletion above it at 3.
fn put_and_deleted(rt: &impl Abort, count_max: u64) -> Result<Stats, CountOverflow>
    requires { count_max ≡ 100 }
{
    let mut stats = Stats::new(count_max);
    let put = [version(SECOND, 8)];
    let before = GroupRef {
        key_len: 1,
        record_len: 0,
        intent: None,
        versions: &put,
        stack: &[],
    };
    settle(rt, &mut stats, &before.stats(SECOND), SECOND)?;
    let deleted = [deletion(3 * SECOND), version(SECOND, 8)];
    let after = GroupRef {
        versions: &deleted,
        ..before
    };
    let delta = change(&before, &after, 3 * SECOND);
    settle(rt, &mut stats, &delta, 3 * SECOND)?;
    Ok(stats)
}

#[test]
fn statistics_age_by_whole_seconds(rt: HostRuntime) -> Result<(), Fail> {
    let mut stats = put_and_deleted(&rt, 100)?;
    age(&rt, &mut stats, 5 * SECOND)?;
    let aged = Group {
        key_count: 1,
        key_bytes: 26,
        val_count: 2,
        val_bytes: 8,
        gc_bytes_age: 68,
        ..Group::zero()
    };
    assert_eq!(rt; shown(&stats), aged);
    let refused = CountOverflow {
        field: Field::GcBytesAge,
    };
    assert_eq!(rt; age(&rt, &mut stats, 6 * SECOND), Err(refused));
    assert_eq!(rt; shown(&stats), aged);
    assert_eq!(rt; stats.last_update_nanos(), 5 * SECOND);
    assert_eq!(rt; stats.count_max(), 100);
    Ok(())
}

#[test]
fn only_what_is_settled_is_compared(rt: HostRuntime) -> Result<(), Fail> {
    let mut stats = put_and_deleted(&rt, 100)?;
    let refused = CountOverflow {
        field: Field::GcBytesAge,
    };
    let one_too_little = Group {
        gc_bytes_age: -1,
        ..Group::zero()
    };
    age(&rt, &mut stats, 5 * SECOND)?;
    assert_eq!(rt;
        settle(&rt, &mut stats, &one_too_little, 6 * SECOND),
        Err(refused)
    );
    let enough = Group {
        gc_bytes_age: -2,
        ..Group::zero()
    };
    assert_eq!(rt; settle(&rt, &mut stats, &enough, 6 * SECOND), Ok(()));
    assert_eq!(rt; stats.gc_bytes_age(), 100);
    assert_eq!(rt; stats.last_update_nanos(), 6 * SECOND);
    Ok(())
}

/// The number where the place is among those from low up to high.
fn number_at(place: usize, low: usize, high: usize, number: i128) -> i128
    ensures up { pos 0 ≤ℤ number → pos 0 ≤ℤ result }
    ensures down { number ≤ℤ pos 0 → result ≤ℤ pos 0 }
{
    if low <= place && place < high {
        number
    } else {
        0
    }
}

/// The number in each field at these places, and 0 in the others.
fn between(low: usize, high: usize, number: i128) -> Group
    ensures up { pos 0 ≤ℤ number → (f : fields.Field) → pos 0 ≤ℤ fields_number f result }
    ensures down { number ≤ℤ pos 0 → (f : fields.Field) → fields_number f result ≤ℤ pos 0 }
{
    Group {
        key_count: number_at(0, low, high, number),
        key_bytes: number_at(1, low, high, number),
        val_count: number_at(2, low, high, number),
        val_bytes: number_at(3, low, high, number),
        live_count: number_at(4, low, high, number),
        live_bytes: number_at(5, low, high, number),
        intent_count: number_at(6, low, high, number),
        intent_bytes: number_at(7, low, high, number),
        intent_age: number_at(8, low, high, number),
        gc_bytes_age: number_at(9, low, high, number),
        range_key_count: number_at(10, low, high, number),
        range_key_bytes: number_at(11, low, high, number),
        range_val_count: number_at(12, low, high, number),
        range_val_bytes: number_at(13, low, high, number),
    }
}

/// Adds a group without negative numbers.
fn add(stats: &mut Stats, group: &Group) -> Result<(), CountOverflow>
    requires { (f : fields.Field) → pos 0 ≤ℤ fields_number f group.now }
{
    stats.add(group)
}

/// Takes a group without positive numbers away.
fn sub(stats: &mut Stats, group: &Group) -> Result<(), CountOverflow>
    requires { (f : fields.Field) → fields_number f group.now ≤ℤ pos 0 }
{
    stats.sub(group)
}

#[test]
fn the_first_field_above_the_bound_is_named(rt: HostRuntime) -> Result<(), Fail> {
    for place in 0..14 {
        let field = FIELDS[place];
        let overflow = Err(CountOverflow { field });
        let mut stats = Stats::new(100);
        let next = place + 1;
        assert_eq!(rt; add(&mut stats, &between(place, next, 101)), overflow);
        assert_eq!(rt; add(&mut stats, &between(place, 14, i128::MAX)), overflow);
        assert_eq!(rt; sub(&mut stats, &between(place, 14, -101)), overflow);
        assert_eq!(rt; sub(&mut stats, &between(place, next, i128::MIN)), overflow);
        assert_eq!(rt;
            settle(&rt, &mut stats, &between(place, 14, 101), SECOND),
            overflow
        );
        assert_eq!(rt; shown(&stats), Group::zero());
        assert_eq!(rt; stats.last_update_nanos(), 0);
        let full = between(place, next, 100);
        assert_eq!(rt; add(&mut stats, &full), Ok(()));
        assert_eq!(rt; shown(&stats), full);
    }
    Ok(())
}

#[test]
fn what_was_added_is_taken_away(rt: HostRuntime) -> Result<(), Fail> {
    let mut stats = Stats::new(100);
    let one = one_live();
    stats.add(&one)?;
    assert_eq!(rt; shown(&stats), one);
    stats.sub(&one)?;
    assert_eq!(rt; shown(&stats), Group::zero());
    Ok(())
}

#[test]
fn intents_age(rt: HostRuntime) -> Result<(), Fail> {
    let mut stats = Stats::new(100);
    add(&mut stats, &between(6, 7, 10))?;
    let overflow = CountOverflow {
        field: Field::IntentAge,
    };
    assert_eq!(rt; age(&rt, &mut stats, 11 * SECOND), Err(overflow));
    assert_eq!(rt; age(&rt, &mut stats, 10 * SECOND), Ok(()));
    assert_eq!(rt; stats.intent_age(), 100);
    let text = format!(in rt.alloc(); "{overflow}")?;
    assert_eq!(rt; text.as_str(), "intent_age would pass its bound");
    Ok(())
}

#[test]
fn the_laws_are_there() {
    one_key_changes();
    older_versions_stay();
    versions_come();
    statistics_age();
    settling_follows();
    span_changes();
    statistics_are_in_bounds();
    overflow_is_exact();
    spans_add_up();
}
