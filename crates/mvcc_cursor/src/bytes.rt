//! The encoded name that is sought, in a buffer with room for each.
ghost use Rattle.std.specs.Prelude.{◌≡◌, ◌≤◌, ◌+◌, ◌++◌, [], ◌∷◌, length, vec_len, vec_capacity};
ghost use Rattle.std.specs.Int.{w32, to_be_bytes};
ghost use Rattle.mvcc_key.specs.KeyFormat.{encoded_name, encoded_time};
ghost use Rattle.mvcc_key.specs.Encoded.{IsName};
ghost use Rattle.mvcc_key.specs.views.Seen.{time_of};
ghost use Rattle.mvcc_cursor.specs.KeyPoints.{record_name};
ghost use Rattle.mvcc_cursor.specs.Standing.{sought_key};
ghost use Rattle.mvcc_cursor.specs.views.Under.{key_under};

use mvcc_key::numbers::{put_u32, put_u64};
use mvcc_key::{MAX_BOUND_LEN, Timestamp, read_key};

/// What stands behind a key.
const SENTINEL: u8 = 0x00;

/// The last byte of a timestamp whose counter is 0.
const WALL: u8 = 0x09;

/// The last byte of a timestamp whose counter is not 0.
const WALL_AND_COUNTER: u8 = 0x0d;

/// The key, or so many bytes of it as the longest key and the longest bound have.
pub(crate) fn cut_key(key: &[u8]) -> &[u8]
    ensures value { result.now ≡ sought_key key.now }
    ensures short { length result.now ≤ 4097 }
{
    if key.len() <= MAX_BOUND_LEN {
        key
    } else {
        key.split_at(MAX_BOUND_LEN).0
    }
}

/// Makes the bytes the name of the key's record.
#[tactic(auto, unfolding(mvcc_key::specs::KeyFormat::encoded_name))]
pub(crate) fn name_record(sought: &mut Vec<u8>, key: &[u8])
    requires { length key.now + 1 ≤ vec_capacity sought.old }
    ensures items { sought.new.items ≡ encoded_name (record_name key.now) }
    ensures room { vec_capacity sought.old ≤ vec_capacity sought.new }
{
    sought.clear();
    sought.extend_from_slice(key).unwrap();
    sought.push(SENTINEL).unwrap();
}

/// Puts a byte 00 at the end.
pub(crate) fn put_zero(sought: &mut Vec<u8>)
    requires { vec_len sought.old + 1 ≤ vec_capacity sought.old }
    ensures items { sought.new.items ≡ sought.old.items ++ 0 ∷ [] }
    ensures room { vec_capacity sought.old ≤ vec_capacity sought.new }
{
    sought.push(SENTINEL).unwrap();
}

/// Puts the bytes of a timestamp at the end.
pub(crate) fn put_time(sought: &mut Vec<u8>, ts: Timestamp)
    requires { vec_len sought.old + 13 ≤ vec_capacity sought.old }
    ensures items { sought.new.items ≡ sought.old.items ++ encoded_time (time_of ts) }
    ensures room { vec_capacity sought.old ≤ vec_capacity sought.new }
{
    put_u64(sought, ts.wall());
    if ts.logical() == 0 {
        sought.push(WALL).unwrap();
    } else {
        put_counter(sought, ts.logical());
    }
}

/// Puts a counter and the byte behind it at the end.
fn put_counter(sought: &mut Vec<u8>, logical: u32)
    requires { vec_len sought.old + 5 ≤ vec_capacity sought.old }
    ensures items { sought.new.items ≡ sought.old.items ++ (to_be_bytes w32 logical ++ 0x0d ∷ []) }
    ensures room { vec_capacity sought.old ≤ vec_capacity sought.new }
{
    put_u32(sought, logical);
    sought.push(WALL_AND_COUNTER).unwrap();
}

/// The key of an encoded name.
pub(crate) fn key_of(name: &[u8]) -> &[u8]
    requires { IsName name.now }
    ensures { result.now ≡ key_under name.now }
{
    read_key(name).key
}
