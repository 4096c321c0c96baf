//! The timestamp of a record, read alone.
ghost use Rattle.std.specs.Prelude.{◌≡◌, Ok, Some};
ghost use Rattle.std.specs.Option.{option_map};
ghost use Rattle.mvcc_key.specs.views.Seen.{time_of};
ghost use Rattle.intent_meta.specs.Record.{IntentRecord, record_of};
ghost use Rattle.intent_meta.specs.RecordTime.{time_in};

use crate::layout::{DELETED, LOGICAL, WALL};
use mvcc_key::Timestamp;
use mvcc_key::numbers::{read_u32, read_u64};

/// The timestamp in the bytes of an intent record, which are not judged otherwise: that of the record, where they are one.
/// `None` exactly where they are too short for a timestamp, or what stands in its place is out of range.
pub fn record_time(bytes: &[u8]) -> Option<Timestamp>
    ensures time { option_map time_of result ≡ time_in bytes.now }
    ensures record { (r : IntentRecord) → record_of bytes.now ≡ Ok r → time_in bytes.now ≡ Some r.ts }
{
    if bytes.len() < DELETED {
        return None;
    }
    let wall = read_u64(bytes.split_at(WALL).1);
    let logical = read_u32(bytes.split_at(LOGICAL).1);
    Timestamp::new(wall, logical)
}
