//! Since when a version is garbage.
ghost use Rattle.std.specs.Prelude.{◌≡◌, map};
ghost use Rattle.std.specs.List.Sorted.{IsStrictlySortedBy};
ghost use Rattle.std.specs.Option.{option_map};
ghost use Rattle.mvcc_key.specs.Order.{newer_first};
ghost use Rattle.mvcc_key.specs.views.Seen.{time_of};
ghost use Rattle.stat_core.specs.DeadSince.{earlier, least_above, dead_since};
ghost use Rattle.stat_core.specs.views.Seen.{version_shape_of};

use crate::VersionShape;
use mvcc_key::Timestamp;

/// The earlier of two moments, of which either may be absent.
fn earlier(first: Option<Timestamp>, second: Option<Timestamp>) -> Option<Timestamp>
    ensures { option_map time_of result ≡ earlier (option_map time_of first) (option_map time_of second) }
{
    match (first, second) {
        (Some(s), Some(t)) => Some(if t.compare(s).is_lt() { t } else { s }),
        (None, moment) | (moment, None) => moment,
    }
}

/// The least timestamp above this one in a stack that is newest first, found by halving.
fn least_above(ts: Timestamp, stack: &[Timestamp]) -> Option<Timestamp>
    requires { IsStrictlySortedBy newer_first (map time_of stack.now) }
    ensures { option_map time_of result ≡ least_above (time_of ts) (map time_of stack.now) }
{
    let above = stack.partition_point(|time| ts.compare(*time).is_lt());
    stack[..above].last().copied()
}

/// Since when a version behind this newer one is garbage, under a stack of range tombstones that is newest first.
pub(crate) fn dead_since(
    version: &VersionShape,
    newer: Option<Timestamp>,
    stack: &[Timestamp],
) -> Option<Timestamp>
    requires { IsStrictlySortedBy newer_first (map time_of stack.now) }
    ensures { option_map time_of result ≡ dead_since (option_map time_of newer) (map time_of stack.now) (version_shape_of version.now) }
{
    if version.deletion {
        Some(version.ts)
    } else {
        earlier(newer, least_above(version.ts, stack))
    }
}
