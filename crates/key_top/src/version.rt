//! By how much the statistics change where a version comes in front of the newest one of a key that has no intent, and over which there
//! is no range tombstone: a few sums, where the general way counts the key before and after.
ghost use Rattle.std.specs.Prelude.{◌≡◌, ◌≤◌, ◌^◌, ◌*◌, ◌+◌, ◌-ℤ◌, ◌+ℤ◌, pos, [], IfSome};
ghost use Rattle.std.specs.Option.{option_map};
ghost use Rattle.mvcc_key.specs.Field.{Field};
ghost use Rattle.mvcc_key.specs.views.Seen.{time_of};
ghost use Rattle.stat_core.specs.ComputeStats.{age};
ghost use Rattle.stat_core.specs.views.Counters.{IsWithin};
ghost use Rattle.stat_core.specs.views.Seen.{number, version_shape_of};
ghost use Rattle.stat_delta.specs.Changes.{change_by_version};
ghost use Rattle.stat_delta.specs.Laws.{IsShortVersion};
ghost use Rattle.key_top.specs.views.Versions.{bytes_of, change_by_first, change_by_next, garbage_behind, garbage_of, live_bytes_of, live_count_of};

use mvcc_key::Timestamp;
use stat_core::{Group, VersionShape};

/// Nanoseconds in a second.
const BILLION: u64 = 1_000_000_000;

/// What a version changes in front of the newest one, or as a key's first.
pub(crate) fn version_delta(
    key_len: u64,
    newest: Option<VersionShape>,
    new: VersionShape,
    now: u64,
) -> Group
    requires key { key_len ≤ 2 ^ 25 }
    requires newest { IfSome (option_map version_shape_of newest) IsShortVersion }
    requires new { IsShortVersion (version_shape_of new) }
    ensures exact { (f : Field) → number f result ≡ change_by_version now key_len [] (version_shape_of new) (option_map version_shape_of newest) f }
    ensures within { (f : Field) → IsWithin 121 (number f result) }
{
    match newest {
        Some(old) => next_delta(key_len, old, new, now),
        None => first_delta(key_len, new, now),
    }
}

/// What the first version of a key changes.
fn first_delta(key_len: u64, version: VersionShape, now: u64) -> Group
    requires key { key_len ≤ 2 ^ 25 }
    requires version { IsShortVersion (version_shape_of version) }
    ensures exact { (f : Field) → number f result ≡ change_by_first now key_len (version_shape_of version) f }
    ensures within { (f : Field) → IsWithin 121 (number f result) }
{
    Group {
        key_count: 1,
        key_bytes: i128::from(key_len + 13),
        val_count: 1,
        val_bytes: i128::from(version.value_len),
        live_count: i128::from(live_count(version)),
        live_bytes: i128::from(live_bytes(key_len, version)),
        intent_count: 0,
        intent_bytes: 0,
        intent_age: 0,
        gc_bytes_age: i128::from(garbage(key_len, version, now)),
        range_key_count: 0,
        range_key_bytes: 0,
        range_val_count: 0,
        range_val_bytes: 0,
    }
}

/// What a version changes in front of the newest one.
fn next_delta(key_len: u64, old: VersionShape, new: VersionShape, now: u64) -> Group
    requires key { key_len ≤ 2 ^ 25 }
    requires old { IsShortVersion (version_shape_of old) }
    requires new { IsShortVersion (version_shape_of new) }
    ensures exact { (f : Field) → number f result ≡ change_by_next now key_len (version_shape_of old) (version_shape_of new) f }
    ensures within { (f : Field) → IsWithin 121 (number f result) }
{
    Group {
        key_count: 0,
        key_bytes: 12,
        val_count: 1,
        val_bytes: i128::from(new.value_len),
        live_count: less(live_count(new), live_count(old)),
        live_bytes: less(live_bytes(key_len, new), live_bytes(key_len, old)),
        intent_count: 0,
        intent_bytes: 0,
        intent_age: 0,
        gc_bytes_age: more(garbage(key_len, new, now), behind(key_len, old, new, now)),
        range_key_count: 0,
        range_key_bytes: 0,
        range_val_count: 0,
        range_val_bytes: 0,
    }
}

/// One number less another.
fn less(number: u64, other: u64) -> i128
    ensures value { result ≡ pos number -ℤ pos other }
    ensures within { IsWithin 64 result }
{
    i128::from(number) - i128::from(other)
}

/// A number with one more or less.
fn more(number: u64, change: i128) -> i128
    requires { IsWithin 62 change }
    ensures value { result ≡ pos number +ℤ change }
    ensures within { IsWithin 65 result }
{
    i128::from(number) + change
}

/// 1 for a key whose newest version this is, if it is no deletion.
fn live_count(version: VersionShape) -> u64
    ensures value { result ≡ live_count_of (version_shape_of version) }
    ensures within { result ≤ 1 }
{
    if version.deletion { 0 } else { 1 }
}

/// The live bytes of a key with this version alone.
fn live_bytes(key_len: u64, version: VersionShape) -> u64
    requires key { key_len ≤ 2 ^ 25 }
    requires version { IsShortVersion (version_shape_of version) }
    ensures value { result ≡ live_bytes_of key_len (version_shape_of version) }
    ensures within { result ≤ 2 ^ 27 }
{
    if version.deletion {
        0
    } else {
        key_len + 13 + version.value_len
    }
}

/// The age of what is garbage of a key with this version alone.
fn garbage(key_len: u64, version: VersionShape, now: u64) -> u64
    requires key { key_len ≤ 2 ^ 25 }
    requires version { IsShortVersion (version_shape_of version) }
    ensures value { result ≡ garbage_of now key_len (version_shape_of version) }
    ensures within { result ≤ 2 ^ 62 }
{
    if version.deletion {
        age_of(key_len + 13 + version.value_len, version.ts, now)
    } else {
        0
    }
}

/// By how much the age of garbage grows where the newest version comes behind a newer one.
fn behind(key_len: u64, old: VersionShape, new: VersionShape, now: u64) -> i128
    requires key { key_len ≤ 2 ^ 25 }
    requires old { IsShortVersion (version_shape_of old) }
    ensures value { result ≡ garbage_behind now key_len (version_shape_of old) (version_shape_of new) }
    ensures within { IsWithin 62 result }
{
    if old.deletion {
        -i128::from(age_of(key_len + 1, old.ts, now))
    } else {
        i128::from(age_of(12 + old.value_len, new.ts, now))
    }
}

/// The age of bytes that are garbage since a timestamp.
fn age_of(bytes: u64, since: Timestamp, now: u64) -> u64
    requires { bytes ≤ 2 ^ 27 }
    ensures value { result ≡ bytes * age now (time_of since).wall }
    ensures within { result ≤ 2 ^ 62 }
{
    let seconds = (now / BILLION).saturating_sub(since.wall() / BILLION);
    bytes * seconds
}
