//! Fourteen counters that change as one: each result is compared with the bound before any is written.
ghost use Rattle.std.specs.Prelude.{◌≡◌, ◌≤◌, ◌<◌, ◌^◌, ℤ, pos, ◌+ℤ◌, ◌-◌, ◌-ℤ◌, ◌*ℤ◌, ◌<ℤ◌, ◌≤ℤ◌, MatchBool, MatchOption, MatchResult, None, Some};
ghost use Rattle.mvcc_key.specs.Field as fields;
ghost use Rattle.stat_core.specs.views.Counters.{IsWithin, moved_by, number_at, changed_number, AreCounted, IsFirstAbove};
ghost use Rattle.stat_core.specs.Running.{sums_of};
ghost use Rattle.stat_core.specs.views.Seen.{field_of};
ghost use Rattle.stat_core.specs.Settling.{garbage, gain, NoDebt};

use crate::{CountOverflow, Field};

/// Whether numbers are added or taken away.
#[derive(Clone, Copy, Debug)]
pub(crate) enum Sign {
    Plus,
    Minus,
}

fn wide(count: u64) -> i128
    ensures { result ≡ pos count }
{
    count as i128
}

/// The bytes that are not live.
fn garbage_of(counts: &[u64; 14]) -> i128
    ensures value { result ≡ garbage (sums_of counts.now) }
    ensures within { IsWithin 66 result }
{
    let keys = wide(counts[Field::KeyBytes as usize]);
    let values = wide(counts[Field::ValBytes as usize]);
    let range_keys = wide(counts[Field::RangeKeyBytes as usize]);
    let range_values = wide(counts[Field::RangeValBytes as usize]);
    keys + values + range_keys + range_values - wide(counts[Field::LiveBytes as usize])
}

fn product(count: i128, seconds: u64) -> i128
    requires within { IsWithin 66 count }
    requires seconds { seconds < 2 ^ 35 }
    ensures value { result ≡ count *ℤ pos seconds }
    ensures within { IsWithin 101 result }
{
    count * wide(seconds)
}

/// What each counter gains in so many seconds.
pub(crate) fn gains(counts: &[u64; 14], seconds: u64) -> [i128; 14]
    requires { seconds < 2 ^ 35 }
    ensures value { (f : fields.Field) → number_at result f ≡ gain (sums_of counts.now) seconds f }
    ensures within { (f : fields.Field) → IsWithin 101 (number_at result f) }
{
    let intents = product(wide(counts[Field::IntentCount as usize]), seconds);
    let garbage = product(garbage_of(counts), seconds);
    let mut gained = [0; 14];
    gained[Field::IntentAge as usize] = intents;
    gained[Field::GcBytesAge as usize] = garbage;
    gained
}

fn sum_of(count: u64, gained: i128) -> i128
    requires { IsWithin 101 gained }
    ensures value { result ≡ pos count +ℤ gained }
    ensures within { IsWithin 102 result }
{
    wide(count) + gained
}

fn narrow(number: i128) -> u64
    requires no_debt { pos 0 ≤ℤ number }
    requires fits { number ≤ℤ pos (2 ^ 64 - 1) }
    ensures { pos result ≡ number }
{
    number as u64
}

/// How far the bound is above the base, or below it.
fn room(base: i128, bound: u64) -> i128
    requires { IsWithin 102 base }
    ensures { result ≡ pos bound -ℤ base }
{
    wide(bound) - base
}

/// The base with a number more. `None` exactly where it passes the bound.
fn raised(base: i128, number: i128, bound: u64) -> Option<u64>
    requires within { IsWithin 102 base }
    requires no_debt { pos 0 ≤ℤ (base +ℤ number) }
    ensures { MatchOption result (pos bound <ℤ (base +ℤ number)) (λ n. (pos n ≡ base +ℤ number) × (n ≤ bound)) }
{
    if number > room(base, bound) {
        None
    } else {
        Some(narrow(base + number))
    }
}

/// The base with a number less. `None` exactly where it passes the bound.
fn lowered(base: i128, number: i128, bound: u64) -> Option<u64>
    requires within { IsWithin 102 base }
    requires no_debt { pos 0 ≤ℤ (base -ℤ number) }
    ensures { MatchOption result (pos bound <ℤ (base -ℤ number)) (λ n. (pos n ≡ base -ℤ number) × (n ≤ bound)) }
{
    if number < -room(base, bound) {
        None
    } else {
        Some(narrow(base - number))
    }
}

/// The base with a number more or less. `None` exactly where it passes the bound.
fn moved(base: i128, number: i128, sign: Sign, bound: u64) -> Option<u64>
    requires within { IsWithin 102 base }
    requires no_debt { pos 0 ≤ℤ moved_by sign base number }
    ensures { MatchOption result (pos bound <ℤ moved_by sign base number)
        (λ n. (pos n ≡ moved_by sign base number) × (n ≤ bound)) }
{
    match sign {
        Sign::Plus => raised(base, number, bound),
        Sign::Minus => lowered(base, number, bound),
    }
}

/// The counters with what they gain, and with the numbers more or less; or the first that passes the bound.
pub(crate) fn changed(
    counts: &[u64; 14],
    gained: &[i128; 14],
    numbers: &[i128; 14],
    sign: Sign,
    bound: u64,
) -> Result<[u64; 14], CountOverflow>
    requires gained { (f : fields.Field) → IsWithin 101 (number_at gained.now f) }
    requires no_debt { NoDebt (changed_number counts.now gained.now numbers.now sign) }
    ensures { MatchResult result
        (AreCounted bound (changed_number counts.now gained.now numbers.now sign))
        (λ e. IsFirstAbove bound (changed_number counts.now gained.now numbers.now sign) (field_of e.field)) }
{
    let mut next = [0u64; 14];
    for place in 0..14 {
        let base = sum_of(counts[place], gained[place]);
        match moved(base, numbers[place], sign, bound) {
            Some(count) => next[place] = count,
            None => {
                return Err(CountOverflow {
                    field: Field::at(place),
                });
            }
        }
    }
    Ok(next)
}
