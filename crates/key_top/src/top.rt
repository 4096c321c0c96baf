//! The top of a key, as the statistics see it: what a change in front of its newest committed version is counted by.
ghost use Rattle.std.specs.Prelude.{◌≡◌, length};
ghost use Rattle.mvcc_key.specs.views.Seen.{time_of};
ghost use Rattle.mvcc_value.specs.Encoding.{is_deletion_value};
ghost use Rattle.stat_core.specs.views.Seen.{version_shape_of};

use mvcc_key::Timestamp;
use mvcc_value::is_deletion_value;
use stat_core::VersionShape;

/// An intent without its bytes: the length of its encoded record, and its provisional version.
#[derive(Clone, Copy, Debug)]
pub struct IntentShape {
    pub record_len: u64,
    pub provisional: VersionShape,
}

/// The length of a key in bytes, its intent, the newest of its committed versions, and the range tombstones over it, newest first.
#[derive(Clone, Copy, Debug)]
pub struct KeyTop<'a> {
    pub key_len: u64,
    pub intent: Option<IntentShape>,
    pub newest: Option<VersionShape>,
    pub stack: &'a [Timestamp],
}

/// What a change leaves in front of the newest committed version, in the place of the intent that was there or of nothing: nothing,
/// an intent, or one more committed version.
///
/// A key `k` with the version 10 and no intent has nothing in front of it. A transaction's write at 20 puts an intent there; a
/// second one at 25 puts another in its place; its abort leaves nothing again, and its commit the version 25, which is then the
/// newest one.
#[derive(Clone, Copy, Debug)]
pub enum Front {
    Nothing,
    Intent(IntentShape),
    Version(VersionShape),
}

/// What the statistics see of the version at this timestamp whose encoded value this is.
pub fn version_shape(ts: Timestamp, value: &[u8]) -> VersionShape
    ensures { version_shape_of result ≡ record { ts = time_of ts; value_length = length value.now; deletion = is_deletion_value value.now } }
{
    VersionShape {
        ts,
        value_len: value.len() as u64,
        deletion: is_deletion_value(value),
    }
}
