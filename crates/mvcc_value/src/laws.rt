//! Laws of the encoding, each as the contract of a function that does nothing.
ghost use Rattle.std.specs.Prelude.{◌≡◌, IsTrue, Ok};
ghost use Rattle.mvcc_key.specs.History as history;
ghost use Rattle.mvcc_key.specs.Order as order;
ghost use Rattle.mvcc_key.specs.views.Seen.{time_of};
ghost use Rattle.mvcc_value.specs.Encoding as words;

use mvcc_key::Timestamp;

/// A value has one spelling: what was encoded is read again as it was kept, and what is read was encoded. So `decode` takes
/// no other bytes than those of `encode`, and the local timestamp that it gives is none or below the version's.
pub fn one_spelling(bytes: &[u8], ts: Timestamp)
    ensures again { (body : history.Body) (local : order.Timestamp) → words.IsEncodable body → IsTrue (order.is_in_range local)
        → words.value_of (time_of ts) (words.value_bytes body local (time_of ts))
        ≡ Ok (record { local = history.kept_local local (time_of ts); body = body }) }
    ensures back { (v : words.Value) → words.value_of (time_of ts) bytes.now ≡ Ok v → words.IsValueOf (time_of ts) bytes.now v }
{}

/// Whether a value is a deletion is told by its bytes, and their number is one that they may have.
pub fn deletions_are_told()
    ensures bytes { words.BytesTellDeletion }
    ensures length { words.LengthIsOne }
{}
