//! From bytes to a value.
ghost use Rattle.std.specs.Prelude.{◌≡◌, ◌≤◌, Ok, Err, false, true, length, IsOk, MatchOption, MatchResult, nat_le, slice_index, ◌==◌, ◌&&◌};
ghost use Rattle.mvcc_key.specs.History as history;
ghost use Rattle.mvcc_key.specs.Order as order;
ghost use Rattle.mvcc_key.specs.views.Seen.{time_of};
ghost use Rattle.mvcc_value.specs.Encoding as words;
ghost use Rattle.mvcc_value.specs.views.Seen.{seen_body, seen_value};

use crate::fault::ValueFault;
use crate::layout::{
    BYTES_TAG, CHECKSUM, HEADER_LEN, HEADER_LOGICAL, HEADER_MARK, HEADER_START, HEADER_WALL,
    INT_TAG, PLAIN_LEN, is_kept,
};
use crate::value::{Body, ValueRef};
use crate::varint::{read_varint, to_signed};
use mvcc_key::Timestamp;
use mvcc_key::numbers::{read_u32, read_u64};

/// The value of a version at `ts` that these bytes are, with its bytes lent out of them (CockroachDB `DecodeMVCCValue`), or
/// their first fault. No bytes are a deletion, and fewer than 5 are [`ValueFault::Short`]. Bytes with the mark of a header
/// are tested for its beginning, its length and its local timestamp, in this order; what follows it is nothing or a plain
/// value. A plain value is tested for its length, its checksum, its tag and, where it is a number, its data.
pub fn decode(bytes: &[u8], ts: Timestamp) -> Result<ValueRef<'_>, ValueFault>
    ensures { MatchResult result
        (λ v. words.value_of (time_of ts) bytes.now ≡ Ok (seen_value v))
        (λ e. words.value_of (time_of ts) bytes.now ≡ Err e) }
{
    if is_headed(bytes) {
        return decode_headed(bytes, ts);
    }
    let body = decode_body(bytes)?;
    let local = Timestamp::NONE;
    Ok(ValueRef { local, body })
}

/// The value of a version at `ts` that these bytes are known to be, as those of a part are, with its bytes lent out of them.
pub fn read(bytes: &[u8], ts: Timestamp) -> ValueRef<'_>
    requires { IsOk (words.value_of (time_of ts) bytes.now) }
    ensures { words.value_of (time_of ts) bytes.now ≡ Ok (seen_value result) }
{
    decode(bytes, ts).unwrap()
}

/// The plain value in the bytes of a version's value: what is behind the header, where there is one, and nothing for a deletion.
/// No number is read (CockroachDB `EncodedMVCCValueIsTombstone`). Of bytes that are no value it says nothing.
pub fn plain_value(bytes: &[u8]) -> &[u8]
    ensures { (body : history.Body) (local ts : order.Timestamp) → bytes.now ≡ words.value_bytes body local ts → result.now ≡ words.plain_bytes body }
{
    if is_headed(bytes) && bytes.len() >= HEADER_LEN {
        bytes.split_at(HEADER_LEN).1
    } else {
        bytes
    }
}

/// The mark of a header stands where a plain value has its tag.
fn is_headed(bytes: &[u8]) -> bool
    ensures { result ≡ (nat_le 5 (length bytes.now) && (slice_index bytes.now 4 == 0x7f)) }
{
    bytes.len() >= PLAIN_LEN && bytes[4] == HEADER_MARK
}

/// A value that begins with a header, by its mark.
fn decode_headed(bytes: &[u8], ts: Timestamp) -> Result<ValueRef<'_>, ValueFault>
    requires { 5 ≤ length bytes.now }
    ensures { MatchResult result
        (λ v. words.headed_value (time_of ts) bytes.now ≡ Ok (seen_value v))
        (λ e. words.headed_value (time_of ts) bytes.now ≡ Err e) }
{
    if bytes[..4] != HEADER_START[..4] {
        return Err(ValueFault::Header);
    }
    if bytes.len() < HEADER_LEN {
        return Err(ValueFault::Short);
    }
    let (header, plain) = bytes.split_at(HEADER_LEN);
    let Some(local) = local_in(header, ts) else {
        return Err(ValueFault::LocalRange);
    };
    let body = decode_body(plain)?;
    Ok(ValueRef { local, body })
}

/// The local timestamp in a header, where a value at `ts` may have it.
fn local_in(header: &[u8], ts: Timestamp) -> Option<Timestamp>
    requires { 17 ≤ length header.now }
    ensures { MatchOption result
        (words.is_local (time_of ts) (words.header_time header.now) ≡ false)
        (λ t. (words.header_time header.now ≡ time_of t) × (words.is_local (time_of ts) (time_of t) ≡ true)) }
{
    let wall = read_u64(header.split_at(HEADER_WALL).1);
    let logical = read_u32(header.split_at(HEADER_LOGICAL).1);
    let local = Timestamp::new(wall, logical)?;
    if is_kept(local, ts) {
        Some(local)
    } else {
        None
    }
}

/// Nothing, which is a deletion, or a plain value.
fn decode_body(bytes: &[u8]) -> Result<Body<'_>, ValueFault>
    ensures { MatchResult result
        (λ b. words.body_of bytes.now ≡ Ok (seen_body b))
        (λ e. words.body_of bytes.now ≡ Err e) }
{
    if bytes.is_empty() {
        return Ok(Body::Deletion);
    }
    decode_plain(bytes)
}

/// A plain value.
#[tactic(auto, unfolding(crate::specs::Encoding::plain_body))]
fn decode_plain(bytes: &[u8]) -> Result<Body<'_>, ValueFault>
    ensures { MatchResult result
        (λ b. words.plain_body bytes.now ≡ Ok (seen_body b))
        (λ e. words.plain_body bytes.now ≡ Err e) }
{
    if bytes.len() < PLAIN_LEN {
        return Err(ValueFault::Short);
    }
    if bytes[..4] != CHECKSUM[..] {
        return Err(ValueFault::Checksum);
    }
    let (front, data) = bytes.split_at(PLAIN_LEN);
    match front[4] {
        BYTES_TAG => Ok(Body::Bytes(data)),
        INT_TAG => decode_int(data),
        _ => Err(ValueFault::Tag),
    }
}

/// The data of a number.
fn decode_int(groups: &[u8]) -> Result<Body<'_>, ValueFault>
    ensures { MatchResult result
        (λ b. words.int_body groups.now ≡ Ok (seen_body b))
        (λ e. words.int_body groups.now ≡ Err e) }
{
    match read_varint(groups) {
        Some(number) => Ok(Body::Int(to_signed(number))),
        None => Err(ValueFault::IntForm),
    }
}
