//! The timestamps of what a run holds.
ghost use Rattle.std.specs.Prelude.{◌≡◌, IsOk};
ghost use Rattle.std.specs.Option.{option_map};
ghost use Rattle.mvcc_key.specs.KeyFormat.{name_of};
ghost use Rattle.mvcc_key.specs.Encoded.{IsName, name_in};
ghost use Rattle.mvcc_key.specs.views.Seen.{time_of};
ghost use Rattle.run_block.specs.TimeSpan.{set_time, point_time, widened};
ghost use Rattle.run_block.specs.views.Places.{point_in, IsPlaced, span_seen};

use crate::place::PointPlace;
use intent_meta::record_time;
use mvcc_key::{Timestamp, read_key};

/// The timestamp of what is set under an encoded key.
fn time_of_set(key: &[u8], value: &[u8]) -> Option<Timestamp>
    requires { IsName key.now }
    ensures { option_map time_of result ≡ set_time (name_in key.now).ts value.now }
{
    let name = read_key(key);
    if name.ts == Timestamp::NONE {
        record_time(value)
    } else {
        Some(name.ts)
    }
}

/// The timestamp of a point, where it is a set version or a set intent record.
pub(crate) fn time_of_point(bytes: &[u8], point: PointPlace) -> Option<Timestamp>
    requires { IsPlaced bytes.now point }
    ensures { option_map time_of result ≡ point_time (point_in bytes.now point) }
{
    match point.value {
        Some(value) => time_of_set(point.key.slice(bytes), value.slice(bytes)),
        None => None,
    }
}

/// The span with a timestamp in it.
pub(crate) fn widen(
    span: Option<(Timestamp, Timestamp)>,
    ts: Timestamp,
) -> Option<(Timestamp, Timestamp)>
    ensures { span_seen result ≡ widened (span_seen span) (time_of ts) }
{
    match span {
        None => Some((ts, ts)),
        Some((least, greatest)) => Some((
            if ts.compare(least).is_lt() { ts } else { least },
            if greatest.compare(ts).is_lt() {
                ts
            } else {
                greatest
            },
        )),
    }
}
