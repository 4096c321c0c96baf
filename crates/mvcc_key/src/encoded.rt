//! Encoded keys: the bytes under which the record of a key, or a version of it, is stored.
ghost use Rattle.std.specs.Prelude.{◌≡◌, ◌≢◌, ◌↔◌, ◌<◌, ◌≤◌, ◌+◌, ◌++◌, [], ◌∷◌, length, vec_len, vec_capacity, if◌then◌else◌, Ok, IfOk, OnOk, IsNone, IfSome};
ghost use Rattle.std.specs.Int.{w32, to_be_bytes};
ghost use Rattle.mvcc_key.specs.Order.{no_time, is_no_time, name_cmp};
ghost use Rattle.mvcc_key.specs.KeyFormat.{encoded_name, encoded_time, name_of, with_wall, with_counter, last_bytes, without_last, byte_before};
ghost use Rattle.mvcc_key.specs.Encoded.{name_in, rank_of, IsName};
ghost use Rattle.mvcc_key.specs.views.Seen.{time_of};
ghost use Rattle.mvcc_key.specs.views.SeenKey.{reading_of, seen_name};

use crate::abbreviated::{abbreviated_key, cmp_past_abbreviated};
use crate::numbers::{put_u32, put_u64, read_u32, read_u64};
use crate::{OutOfMemory, Timestamp};
use std::alloc::Global;
use std::cmp::Ordering;
use thiserror::Error;

/// What stands behind a key without a timestamp, and between a key and its timestamp.
const SENTINEL: u8 = 0x00;

/// The last byte of a timestamp whose counter is 0: how many bytes the timestamp has, with this one.
const WALL: u8 = 0x09;

/// The last byte of a timestamp whose counter is not 0.
const WALL_AND_COUNTER: u8 = 0x0d;

/// Why bytes are no encoded key. Of several reasons the first of this list is told.
#[derive(Clone, Copy, Debug, PartialEq, Eq, Error)]
pub enum KeyFault {
    /// There are no bytes.
    #[error("an encoded key has at least one byte")]
    Empty,
    /// The last byte is none of 00, 09 and 0d.
    #[error("the last byte of an encoded key is 00, 09 or 0d")]
    BadSuffix,
    /// There are fewer than 10 bytes before and with a last byte 09, or fewer than 14 with a last byte 0d.
    #[error("too few bytes for a timestamp")]
    Short,
    /// The byte before the timestamp is not 00.
    #[error("no byte 00 stands before the timestamp")]
    NoSentinel,
    /// The wall time is above 2^63-1, or the logical counter above 2^31-1.
    #[error("the timestamp is out of range")]
    OutOfRange,
    /// The last byte is 0d and the logical counter is 0.
    #[error("a logical counter of 0 is not written")]
    ZeroLogical,
    /// The last byte is 09 and the wall time is 0.
    #[error("the timestamp is zero")]
    ZeroTime,
}

/// A key and a timestamp, as they lie in encoded bytes. The timestamp is [`Timestamp::NONE`] for the key's record.
#[derive(Clone, Copy, Debug)]
pub struct KeyRef<'a> {
    pub key: &'a [u8],
    pub ts: Timestamp,
}

/// The bytes under which the version of the key at this timestamp is stored, or the key's record where the timestamp is
/// [`Timestamp::NONE`] (CockroachDB `pkg/storage` `EncodeMVCCKey`): the key, a byte 00, and where there is a timestamp its
/// wall time in 8 bytes, its counter in 4 where that is not 0, and a byte 09 or 0d. All memory is taken at once.
pub fn encode_key(alloc: Global, key: &[u8], ts: Timestamp) -> Result<Vec<u8>, OutOfMemory>
    ensures bytes { IfOk result (λ v. v.items ≡ encoded_name (record { key = key.now; ts = time_of ts })) }
    ensures read { IfOk result (λ v. name_of v.items ≡ Ok (record { key = key.now; ts = time_of ts })) }
    ensures name { IfOk result (λ v. IsName v.items) }
{
    let mut bytes = Vec::with_capacity(alloc, key.len() + encoded_len(ts))?;
    put_name(&mut bytes, key, ts);
    Ok(bytes)
}

/// How many bytes stand behind the key.
fn encoded_len(ts: Timestamp) -> usize
    ensures { result ≡ (if is_no_time (time_of ts) then 1 else 1 + length (encoded_time (time_of ts))) }
{
    if ts == Timestamp::NONE {
        1
    } else if ts.logical() == 0 {
        10
    } else {
        14
    }
}

/// Puts an encoded key at the end, where there is room.
#[tactic(auto, unfolding(crate::specs::KeyFormat::encoded_name))]
fn put_name(bytes: &mut Vec<u8>, key: &[u8], ts: Timestamp)
    requires { vec_len bytes.old + (length key.now + (if is_no_time (time_of ts) then 1 else 1 + length (encoded_time (time_of ts)))) ≤ vec_capacity bytes.old }
    ensures { bytes.new.items ≡ bytes.old.items ++ encoded_name (record { key = key.now; ts = time_of ts }) }
{
    bytes.extend_from_slice(key).unwrap();
    bytes.push(SENTINEL).unwrap();
    if ts != Timestamp::NONE {
        put_time(bytes, ts);
    }
}

/// Puts the bytes of a timestamp at the end, where there is room.
fn put_time(bytes: &mut Vec<u8>, ts: Timestamp)
    requires { vec_len bytes.old + length (encoded_time (time_of ts)) ≤ vec_capacity bytes.old }
    ensures { bytes.new.items ≡ bytes.old.items ++ encoded_time (time_of ts) }
{
    put_u64(bytes, ts.wall());
    if ts.logical() == 0 {
        bytes.push(WALL).unwrap();
    } else {
        put_counter(bytes, ts.logical());
    }
}

/// Puts a counter and the byte behind it at the end, where there is room.
fn put_counter(bytes: &mut Vec<u8>, logical: u32)
    requires { vec_len bytes.old + 5 ≤ vec_capacity bytes.old }
    ensures { bytes.new.items ≡ bytes.old.items ++ (to_be_bytes w32 logical ++ 0x0d ∷ []) }
{
    put_u32(bytes, logical);
    bytes.push(WALL_AND_COUNTER).unwrap();
}

/// The key and the timestamp that the bytes encode, or the first reason why they encode none. This takes no memory, and the
/// key is not copied. It may be empty here.
pub fn decode_key(bytes: &[u8]) -> Result<KeyRef<'_>, KeyFault>
    ensures reading { reading_of result ≡ name_of bytes.now }
    ensures name { OnOk result (IsName bytes.now) }
{
    decode(bytes)
}

/// The key and the timestamp of bytes that are known to encode some, as those of a part are. This takes no memory, and the key
/// is not copied.
pub fn read_key(bytes: &[u8]) -> KeyRef<'_>
    requires { IsName bytes.now }
    ensures { seen_name result ≡ name_in bytes.now }
{
    decode(bytes).unwrap()
}

/// The encoded key of the record of an encoded key's key. It stands at the front of the bytes, so that a key which was encoded
/// with a timestamp need not be encoded again without one.
pub fn record_key(bytes: &[u8]) -> &[u8]
    requires { IsName bytes.now }
    ensures named { IsName result.now }
    ensures record_of { name_of result.now ≡ Ok (record { key = (name_in bytes.now).key; ts = no_time }) }
{
    bytes.split_at(key_in(bytes).len() + 1).0
}

/// The reading of bytes, by the last of them.
#[tactic(auto, unfolding(crate::specs::KeyFormat::name_of))]
fn decode(bytes: &[u8]) -> Result<KeyRef<'_>, KeyFault>
    ensures { reading_of result ≡ name_of bytes.now }
{
    match bytes {
        [] => Err(KeyFault::Empty),
        [key @ .., SENTINEL] => Ok(KeyRef {
            key,
            ts: Timestamp::NONE,
        }),
        [.., WALL] => decode_wall(bytes),
        [.., WALL_AND_COUNTER] => decode_counter(bytes),
        [..] => Err(KeyFault::BadSuffix),
    }
}

/// The last bytes, so many of them.
fn tail(bytes: &[u8], count: usize) -> &[u8]
    requires { count ≤ length bytes.now }
    ensures { result.now ≡ last_bytes count bytes.now }
{
    bytes.split_at(bytes.len() - count).1
}

/// The key before the last bytes and one byte more, which must be the sentinel.
fn key_before(bytes: &[u8], count: usize) -> Option<&[u8]>
    requires { count < length bytes.now }
    ensures none { IsNone result ↔ (byte_before count bytes.now ≢ 0) }
    ensures key { IfSome result (λ k. k.now ≡ without_last (count + 1) bytes.now) }
{
    let (key, rest) = bytes.split_at(bytes.len() - (count + 1));
    if rest[0] == SENTINEL { Some(key) } else { None }
}

/// The reading of bytes that end with a timestamp whose counter is 0.
fn decode_wall(bytes: &[u8]) -> Result<KeyRef<'_>, KeyFault>
    ensures { reading_of result ≡ with_wall bytes.now }
{
    if bytes.len() < 10 {
        return Err(KeyFault::Short);
    }
    let Some(key) = key_before(bytes, 9) else {
        return Err(KeyFault::NoSentinel);
    };
    let wall = read_u64(tail(bytes, 9));
    let Some(ts) = Timestamp::new(wall, 0) else {
        return Err(KeyFault::OutOfRange);
    };
    if wall == 0 {
        return Err(KeyFault::ZeroTime);
    }
    Ok(KeyRef { key, ts })
}

/// The reading of bytes that end with a timestamp whose counter is not 0.
fn decode_counter(bytes: &[u8]) -> Result<KeyRef<'_>, KeyFault>
    ensures { reading_of result ≡ with_counter bytes.now }
{
    if bytes.len() < 14 {
        return Err(KeyFault::Short);
    }
    let Some(key) = key_before(bytes, 13) else {
        return Err(KeyFault::NoSentinel);
    };
    let wall = read_u64(tail(bytes, 13));
    let logical = read_u32(tail(bytes, 5));
    let Some(ts) = Timestamp::new(wall, logical) else {
        return Err(KeyFault::OutOfRange);
    };
    if logical == 0 {
        return Err(KeyFault::ZeroLogical);
    }
    Ok(KeyRef { key, ts })
}

/// How the names that two encoded keys stand for are ordered: by the bytes of the key, then the key's record, then its
/// versions from the newest to the oldest (CockroachDB `pkg/storage` `EngineKeyCompare`). This is not the order of the encoded
/// bytes. They are compared where they lie.
pub fn cmp_encoded(a: &[u8], b: &[u8]) -> Ordering
    requires left { IsName a.now }
    requires right { IsName b.now }
    ensures { result ≡ name_cmp (name_in a.now) (name_in b.now) }
{
    match abbreviated_key(a).cmp(&abbreviated_key(b)) {
        Ordering::Equal => cmp_past_abbreviated(a, b),
        unequal => unequal,
    }
}

/// The last byte of an encoded key, which tells how many bytes stand behind the key and its sentinel.
fn last_byte(bytes: &[u8]) -> u8
    requires { IsName bytes.now }
    ensures value { result ≡ byte_before 0 bytes.now }
    ensures within { result + 1 ≤ length bytes.now }
{
    bytes[bytes.len() - 1]
}

/// The key of an encoded key.
pub(crate) fn key_in(bytes: &[u8]) -> &[u8]
    requires { IsName bytes.now }
    ensures { result.now ≡ (name_in bytes.now).key }
{
    let behind = usize::from(last_byte(bytes)) + 1;
    bytes.split_at(bytes.len() - behind).0
}

/// Where an encoded key stands among those of its key: the wall time and the counter, and for the record more than any of
/// these. The greater ones come first.
pub(crate) fn rank_in(bytes: &[u8]) -> (u64, u32)
    requires { IsName bytes.now }
    ensures wall { result.0 ≡ rank_of (name_in bytes.now).ts }
    ensures logical { result.1 ≡ (name_in bytes.now).ts.logical }
{
    match last_byte(bytes) {
        WALL => (read_u64(tail(bytes, 9)), 0),
        WALL_AND_COUNTER => (read_u64(tail(bytes, 13)), read_u32(tail(bytes, 5))),
        _ => (u64::MAX, 0),
    }
}
