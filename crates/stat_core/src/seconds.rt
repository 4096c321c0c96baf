//! Whole seconds between moments.
ghost use Rattle.std.specs.Prelude.{◌≡◌, ◌≤◌};
ghost use Rattle.stat_core.specs.ComputeStats.{age};

/// Nanoseconds in a second.
const BILLION: u64 = 1_000_000_000;

/// The seconds from a moment to another, both in nanoseconds of wall time, and each cut to whole seconds by itself; none to an
/// earlier one.
pub(crate) fn seconds_between(from: u64, to: u64) -> u64
    ensures value { result ≡ age to from }
    ensures within { result ≤ 18446744073 }
{
    (to / BILLION).saturating_sub(from / BILLION)
}
