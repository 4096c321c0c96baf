//! Versions that are lent.
ghost use Rattle.std.specs.Prelude.{◌≡◌};
ghost use Rattle.mvcc_key.specs.views.Seen.{time_of};
ghost use Rattle.mvcc_value.specs.Encoding.{value_of};
ghost use Rattle.intent_meta.specs.views.Listed.{known_value};

use intent_meta::ItemRef;
use mvcc_key::Timestamp;
use mvcc_value::decode;

/// A version of a key as it is stored: its timestamp, and its encoded value.
#[derive(Clone, Copy, Debug)]
pub struct VersionRef<'a> {
    pub ts: Timestamp,
    pub value: &'a [u8],
}

impl<'a> VersionRef<'a> {
    ghost use Rattle.intent_meta.specs.views.Lent.{seen_item};
    ghost use Rattle.mvcc_cursor.specs.views.Lent.{item_in, seen_version};

    /// The version as an item of its key, with the local timestamp that is kept in its bytes.
    pub(crate) fn item(self) -> ItemRef<'a>
        ensures { seen_item result ≡ item_in (seen_version self.entry) }
    {
        ItemRef {
            ts: self.ts,
            local: local_in(self.value, self.ts),
            value: Some(self.value),
        }
    }
}

/// The local timestamp that is kept in the bytes of a version's value, and none where there is none.
fn local_in(bytes: &[u8], ts: Timestamp) -> Timestamp
    ensures { time_of result ≡ (known_value (value_of (time_of ts) bytes.now)).local }
{
    match decode(bytes, ts) {
        Ok(value) => value.local,
        Err(_) => Timestamp::NONE,
    }
}
