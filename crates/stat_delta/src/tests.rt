#![tactic(auto, using(stat_core::proofs::GroupLaws::no_stack))]

ghost use Rattle.std.specs.Prelude.{◌≡◌, ◌<◌, map};
ghost use Rattle.std.specs.List.Sorted.{IsStrictlySortedBy};
ghost use Rattle.mvcc_key.specs.Order.{newer_first};
ghost use Rattle.mvcc_key.specs.views.Seen.{time_of};

use super::*;
use mvcc_key::{Batch, Elements, Timestamp};
use stat_core::{Group, GroupRef, VersionShape};
use std::test::Fail;

const SECOND: u64 = 1_000_000_000;

fn at(seconds: u64) -> Timestamp
    requires { seconds < 100 }
{
    Timestamp::new(seconds * SECOND, 0).unwrap_or(Timestamp::NONE)
}

/// A version with a value of this length at a second.
fn version(seconds: u64, value_len: u64) -> VersionShape
    requires { seconds < 100 }
    ensures { result.value_len ≡ value_len }
{
    VersionShape {
        ts: at(seconds),
        value_len,
        deletion: false,
    }
}

/// The stack of one tombstone.
fn stack_of(seconds: u64) -> [Timestamp; 1]
    requires { seconds < 100 }
    ensures { IsStrictlySortedBy newer_first (map time_of result) }
{
    [at(seconds)]
}

#[test]
fn an_intent_comes_and_is_replaced(rt: HostRuntime) -> Result<(), Fail> {
    let first = [version(2, 8)];
    let written = GroupRef {
        key_len: 1,
        record_len: 45,
        intent: Some(at(2)),
        versions: &first,
        stack: &[],
    };
    let comes = Group {
        key_count: 1,
        key_bytes: 14,
        val_count: 1,
        val_bytes: 53,
        live_count: 1,
        live_bytes: 67,
        intent_count: 1,
        intent_bytes: 20,
        ..Group::zero()
    };
    assert_eq!(rt; key_delta(None, Some(written), 2 * SECOND), comes);

    let second = [version(2, 7)];
    let again = GroupRef {
        record_len: 61,
        versions: &second,
        ..written
    };
    let replaced = Group {
        val_bytes: 15,
        live_bytes: 15,
        intent_bytes: -1,
        ..Group::zero()
    };
    assert_eq!(rt; key_delta(Some(written), Some(again), 2 * SECOND), replaced);
    Ok(())
}

#[test]
fn an_intent_goes_or_becomes_a_version(rt: HostRuntime) -> Result<(), Fail> {
    let value = [version(2, 7)];
    let written = GroupRef {
        key_len: 1,
        record_len: 61,
        intent: Some(at(2)),
        versions: &value,
        stack: &[],
    };
    let goes = Group {
        key_count: -1,
        key_bytes: -14,
        val_count: -1,
        val_bytes: -68,
        live_count: -1,
        live_bytes: -82,
        intent_count: -1,
        intent_bytes: -19,
        intent_age: -3,
        ..Group::zero()
    };
    assert_eq!(rt; key_delta(Some(written), None, 5 * SECOND), goes);

    let committed = GroupRef {
        record_len: 0,
        intent: None,
        ..written
    };
    let becomes = Group {
        val_bytes: -61,
        live_bytes: -61,
        intent_count: -1,
        intent_bytes: -19,
        intent_age: -3,
        ..Group::zero()
    };
    assert_eq!(rt;
        key_delta(Some(written), Some(committed), 5 * SECOND),
        becomes
    );
    Ok(())
}

#[test]
fn a_version_comes_on_top(rt: HostRuntime) -> Result<(), Fail> {
    let new = [version(30, 5), version(10, 8), version(5, 6)];
    let older = GroupRef {
        key_len: 1,
        record_len: 0,
        intent: None,
        versions: &new[1..2],
        stack: &[],
    };
    let newer = GroupRef {
        versions: &new[..2],
        ..older
    };
    let comes = Group {
        key_bytes: 12,
        val_count: 1,
        val_bytes: 5,
        live_bytes: -3,
        gc_bytes_age: 200,
        ..Group::zero()
    };
    assert_eq!(rt; key_delta(Some(older), Some(newer), 40 * SECOND), comes);

    let more = GroupRef {
        versions: &new[1..],
        ..older
    };
    let all = GroupRef {
        versions: &new,
        ..older
    };
    assert_eq!(rt; key_delta(Some(more), Some(all), 40 * SECOND), comes);
    Ok(())
}

#[test]
fn a_version_comes_above_a_tombstone(rt: HostRuntime) -> Result<(), Fail> {
    let new = [version(30, 5), version(10, 8)];
    let stack = stack_of(20);
    let hidden = GroupRef {
        key_len: 1,
        record_len: 0,
        intent: None,
        versions: &new[1..],
        stack: &stack,
    };
    let shown = GroupRef {
        versions: &new,
        ..hidden
    };
    let change = Change {
        batch: Batch {
            points: Elements::new(rt.alloc()),
            ranges: Elements::new(rt.alloc()),
        },
        delta: key_delta(Some(hidden), Some(shown), 40 * SECOND),
        last: 40 * SECOND,
    };
    let revived = Group {
        key_bytes: 12,
        val_count: 1,
        val_bytes: 5,
        live_count: 1,
        live_bytes: 19,
        gc_bytes_age: -40,
        ..Group::zero()
    };
    assert_eq!(rt; change.delta, revived);
    Ok(())
}

#[test]
fn the_laws_are_there() {
    laws_of_stored_keys();
    laws_of_one_key();
    laws_of_shapes();
    laws_of_spans();
    laws_of_keys_within();
    laws_of_a_tombstone();
    laws_of_dying();
    laws_of_a_walk();
    laws_of_thinning();
    laws_of_collection();
    laws_of_windows();
    laws_of_bounds();
}
