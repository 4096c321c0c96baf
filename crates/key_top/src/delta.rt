//! By how much the statistics change where something comes in front of a key's newest committed version.
ghost use Rattle.std.specs.Prelude.{◌≡◌, ◌≤◌, ◌^◌, ◌++◌, map, option_to_list, IfSome};
ghost use Rattle.std.specs.Option.{ForSome, option_map};
ghost use Rattle.std.specs.List.Sorted.{IsStrictlySortedBy};
ghost use Rattle.mvcc_key.specs.Field.{Field};
ghost use Rattle.mvcc_key.specs.Order.{newer_first};
ghost use Rattle.mvcc_key.specs.views.Seen.{time_of};
ghost use Rattle.stat_core.specs.views.Counters.{IsWithin};
ghost use Rattle.stat_core.specs.views.Limits.{IsInLimits};
ghost use Rattle.stat_core.specs.views.Seen.{lent_shape_of, number, version_shape_of};
ghost use Rattle.stat_delta.specs.Shapes.{key_change, top_shape};
ghost use Rattle.key_top.specs.Top.{IsShortFront, IsShortTop, front_change, intent_in, moment_of, versions_in};
ghost use Rattle.key_top.specs.views.Groups.{AreShort, group_shape, record_length_of};
ghost use Rattle.key_top.specs.views.Seen.{intent_shape_of, seen_front, seen_top};

use crate::top::{Front, IntentShape, KeyTop};
use crate::version::version_delta;
use mvcc_key::Timestamp;
use stat_core::{Group, GroupRef, VersionShape};
use stat_delta::key_delta;
use std::cmp::max;

/// The moment of the statistics after this comes: the latest of the last one and of its own, in nanoseconds of wall time. It never
/// falls.
pub fn moment_after(last: u64, front: Front) -> u64
    ensures { result ≡ moment_of last (seen_front front) }
{
    match front {
        Front::Nothing => last,
        Front::Intent(intent) => max(last, intent.provisional.ts.wall()),
        Front::Version(version) => max(last, version.ts.wall()),
    }
}

/// By how much the statistics at a moment, in nanoseconds of wall time, change where this comes in front of the newest committed
/// version of a key, in the place of its intent or of nothing (CockroachDB's `updateStatsOnPut`, `updateStatsOnResolve` and
/// `updateStatsOnClear`, `pkg/storage`). Lengths are at most 2^25 bytes. It takes no memory.
pub fn front_delta(top: &KeyTop<'_>, front: Front, now: u64) -> Group
    requires top { IsShortTop (seen_top top.now) }
    requires front { IsShortFront (seen_front front) }
    ensures exact { (f : Field) → number f result ≡ front_change now (seen_top top.now) (seen_front front) f }
    ensures within { (f : Field) → IsWithin 121 (number f result) }
{
    let key_len = top.key_len;
    let stack = top.stack;
    match (top.intent, front) {
        (None, Front::Version(new)) if stack.is_empty() => version_delta(
            key_len, top.newest, new, now,
        ),
        _ => general_delta(top, front, now),
    }
}

/// The same for every top and front: the key is counted before and after.
fn general_delta(top: &KeyTop<'_>, front: Front, now: u64) -> Group
    requires top { IsShortTop (seen_top top.now) }
    requires front { IsShortFront (seen_front front) }
    ensures exact { (f : Field) → number f result ≡ front_change now (seen_top top.now) (seen_front front) f }
    ensures within { (f : Field) → IsWithin 121 (number f result) }
{
    let key_len = top.key_len;
    let stack = top.stack;
    match (top.intent, top.newest) {
        (None, None) => delta_from(top, None, front, now),
        (None, Some(newest)) => {
            delta_from(
                top,
                Some(group(key_len, stack, None, &[newest])),
                front,
                now,
            )
        }
        (Some(old), None) => {
            delta_from(
                top,
                Some(group(key_len, stack, Some(old), &[old.provisional])),
                front,
                now,
            )
        }
        (Some(old), Some(newest)) => delta_from(
            top,
            Some(group(key_len, stack, Some(old), &[old.provisional, newest])),
            front,
            now,
        ),
    }
}

/// The same where the key was this group before, or had no pairs.
fn delta_from(top: &KeyTop<'_>, before: Option<GroupRef<'_>>, front: Front, now: u64) -> Group
    requires top { IsShortTop (seen_top top.now) }
    requires before { ForSome before (λ g. IsInLimits (lent_shape_of g)) }
    requires front { IsShortFront (seen_front front) }
    ensures exact { (f : Field) → number f result ≡ key_change now (option_map lent_shape_of before.entry)
        (top_shape (seen_top top.now).key_length (seen_top top.now).stack (intent_in (seen_front front)) (versions_in (seen_front front) ++ option_to_list (seen_top top.now).newest)) f }
    ensures within { (f : Field) → IsWithin 121 (number f result) }
{
    let key_len = top.key_len;
    let stack = top.stack;
    match (front, top.newest) {
        (Front::Nothing, None) => key_delta(before, None, now),
        (Front::Nothing, Some(newest)) => {
            key_delta(before, Some(group(key_len, stack, None, &[newest])), now)
        }
        (Front::Intent(new), None) => {
            key_delta(
                before,
                Some(group(key_len, stack, Some(new), &[new.provisional])),
                now,
            )
        }
        (Front::Intent(new), Some(newest)) => key_delta(
            before,
            Some(group(key_len, stack, Some(new), &[new.provisional, newest])),
            now,
        ),
        (Front::Version(new), None) => {
            key_delta(before, Some(group(key_len, stack, None, &[new])), now)
        }
        (Front::Version(new), Some(newest)) => {
            key_delta(
                before,
                Some(group(key_len, stack, None, &[new, newest])),
                now,
            )
        }
    }
}

/// A key with this intent, or none, and these versions, of which the first is the intent's provisional one.
fn group<'g>(
    key_len: u64,
    stack: &'g [Timestamp],
    intent: Option<IntentShape>,
    versions: &'g [VersionShape],
) -> GroupRef<'g>
    requires key { key_len ≤ 2 ^ 25 }
    requires stack { IsStrictlySortedBy newer_first (map time_of stack.now) }
    requires short { AreShort (option_map intent_shape_of intent) (map version_shape_of versions.now) }
    ensures shape { lent_shape_of result ≡ group_shape key_len (map time_of stack.now) (option_map intent_shape_of intent) (map version_shape_of versions.now) }
    ensures within { IsInLimits (lent_shape_of result) }
{
    GroupRef {
        key_len,
        record_len: record_len(intent),
        intent: intent_time(intent),
        versions,
        stack,
    }
}

/// The length of an intent's record, and 0 where there is none.
fn record_len(intent: Option<IntentShape>) -> u64
    ensures { result ≡ record_length_of (option_map intent_shape_of intent) }
{
    match intent {
        Some(intent) => intent.record_len,
        None => 0,
    }
}

/// The timestamp of an intent.
fn intent_time(intent: Option<IntentShape>) -> Option<Timestamp>
    ensures { option_map time_of result ≡ option_map (λ i. (i.provisional).ts) (option_map intent_shape_of intent) }
{
    match intent {
        Some(intent) => Some(intent.provisional.ts),
        None => None,
    }
}
