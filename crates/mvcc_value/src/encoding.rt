//! From a value to its bytes.
ghost use Rattle.std.specs.Prelude.{◌≡◌, ◌+◌, ◌^◌, ◌<◌, ◌≤◌, ◌++◌, Ok, IfOk, length, vec_len, vec_capacity};
ghost use Rattle.mvcc_key.specs.History as history;
ghost use Rattle.mvcc_key.specs.views.Seen.{time_of};
ghost use Rattle.mvcc_value.specs.Encoding as words;
ghost use Rattle.mvcc_value.specs.views.Seen.{seen_body};

use crate::layout::{BYTES_TAG, HEADER_LEN, HEADER_START, INT_TAG, PLAIN_LEN, is_kept};
use crate::value::Body;
use crate::varint::{put_varint, to_unsigned, varint_len};
use mvcc_key::numbers::{put_bytes, put_u32, put_u64};
use mvcc_key::{OutOfMemory, Timestamp};
use std::alloc::Global;

/// The bytes of a version's value (CockroachDB `EncodeMVCCValue`): a header with the local timestamp where it is kept, and the
/// plain value. A local timestamp that is [`Timestamp::NONE`] or not below the version's timestamp `ts` is left out. The
/// bytes are at most 22 more than those of the data.
#[tactic(auto, unfolding(crate::specs::Encoding::value_bytes))]
pub fn encode(
    alloc: Global,
    body: Body<'_>,
    local: Timestamp,
    ts: Timestamp,
) -> Result<Vec<u8>, OutOfMemory>
    ensures bytes { IfOk result (λ v. v.items ≡ words.value_bytes (seen_body body.entry) (time_of local) (time_of ts)) }
    ensures read { IfOk result (λ v. words.value_of (time_of ts) v.items
        ≡ Ok (record { local = history.kept_local (time_of local) (time_of ts); body = seen_body body.entry })) }
{
    let mut out = Vec::with_capacity(alloc, encoded_len(body, local, ts) as usize)?;
    put_header(&mut out, kept_local(local, ts));
    put_plain(&mut out, body);
    Ok(out)
}

/// How many bytes [`encode`] gives.
#[tactic(auto, unfolding(crate::specs::Encoding::value_bytes))]
pub fn encoded_len(body: Body<'_>, local: Timestamp, ts: Timestamp) -> u64
    ensures { result ≡ length (words.value_bytes (seen_body body.entry) (time_of local) (time_of ts)) }
{
    header_len(kept_local(local, ts)) + plain_len(body)
}

/// The local timestamp that a version at `ts` keeps: the given one where it is below `ts`, and otherwise [`Timestamp::NONE`].
pub fn kept_local(local: Timestamp, ts: Timestamp) -> Timestamp
    ensures { time_of result ≡ history.kept_local (time_of local) (time_of ts) }
{
    if is_kept(local, ts) {
        local
    } else {
        Timestamp::NONE
    }
}

/// How many bytes the header of a local timestamp has.
fn header_len(local: Timestamp) -> u64
    ensures { result ≡ length (words.header_of (time_of local)) }
{
    if local == Timestamp::NONE {
        0
    } else {
        HEADER_LEN as u64
    }
}

/// How many bytes the plain value has.
fn plain_len(body: Body<'_>) -> u64
    ensures value { result ≡ length (words.plain_bytes (seen_body body.entry)) }
    ensures fits { result < 2 ^ 63 + 15 }
{
    match body {
        Body::Deletion => 0,
        Body::Bytes(bytes) => PLAIN_LEN as u64 + bytes.len() as u64,
        Body::Int(number) => PLAIN_LEN as u64 + varint_len(to_unsigned(number)),
    }
}

/// Appends the header of a local timestamp, where it is one.
fn put_header(out: &mut Vec<u8>, local: Timestamp)
    requires { vec_len out.old + length (words.header_of (time_of local)) ≤ vec_capacity out.old }
    ensures items { out.new.items ≡ out.old.items ++ words.header_of (time_of local) }
    ensures len { vec_len out.new ≡ vec_len out.old + length (words.header_of (time_of local)) }
    ensures room { vec_capacity out.old ≤ vec_capacity out.new }
{
    if local == Timestamp::NONE {
        return;
    }
    put_bytes(out, &HEADER_START);
    put_u64(out, local.wall());
    put_u32(out, local.logical());
}

/// Appends the plain value.
fn put_plain(out: &mut Vec<u8>, body: Body<'_>)
    requires { vec_len out.old + length (words.plain_bytes (seen_body body)) ≤ vec_capacity out.old }
    ensures items { out.new.items ≡ out.old.items ++ words.plain_bytes (seen_body body.entry) }
    ensures encodable { words.IsEncodable (seen_body body.entry) }
{
    match body {
        Body::Deletion => {}
        Body::Bytes(bytes) => {
            put_bytes(out, &[0, 0, 0, 0, BYTES_TAG]);
            put_bytes(out, bytes);
        }
        Body::Int(number) => {
            put_bytes(out, &[0, 0, 0, 0, INT_TAG]);
            put_varint(out, to_unsigned(number));
        }
    }
}
