//! What a decision comes to, with bytes of its own.
ghost use Rattle.std.specs.Prelude.{◌≡◌, Ok, IfOk, IsOk};
ghost use Rattle.mvcc_key.specs.History.{Body as Stored};
ghost use Rattle.mvcc_key.specs.Order.{Timestamp as Time};
ghost use Rattle.mvcc_key.specs.views.Seen.{time_of};
ghost use Rattle.mvcc_value.specs.Encoding.{value_of};
ghost use Rattle.intent_meta.specs.KeyHistory.{KeyHistory};
ghost use Rattle.read_rule.specs.Read.{ReadRequest};
ghost use Rattle.read_rule.specs.views.Decided.{IsDecision};
ghost use Rattle.mvcc_scan.specs.views.Kept.{IsKept, IsLength, IsReadable, IsValueKept, stored_len};

use crate::met::Met;
use mvcc_key::{Key, OutOfMemory, Timestamp};
use mvcc_value::{Body, OwnedValue, read};
use read_rule::Decision;
use std::alloc::Global;

/// The decision of a read, which borrows nothing.
#[derive(Drop)]
pub(crate) enum Kept {
    /// A value, its timestamp, and how many bytes it has as it is stored.
    Row(OwnedValue, Timestamp, u64),
    Nothing,
    Conflict(Met),
    Uncertain(Timestamp, Timestamp),
    TooOld(Timestamp),
    EpochFault(u32, u32),
}

/// What a decision comes to. `len` is the length of the provisional version's value, where the reader sees that entry of its own
/// intent.
pub(crate) fn keep(
    alloc: Global,
    decision: Decision<'_>,
    len: Option<u32>,
) -> Result<Kept, OutOfMemory>
    requires { IsReadable decision }
    ensures { (r : ReadRequest) (k : KeyHistory) → IsDecision r k decision.entry → IsLength r k len → IfOk result (IsKept r k) }
{
    match decision {
        Decision::Value(bytes, ts) => keep_value(alloc, bytes, ts, len_of(bytes, len)),
        Decision::Nothing => Ok(Kept::Nothing),
        Decision::Conflict(id, ts) => Ok(Kept::Conflict(Met { id, ts })),
        Decision::Uncertain(ts, local) => Ok(Kept::Uncertain(ts, local)),
        Decision::TooOld(ts) => Ok(Kept::TooOld(ts)),
        Decision::EpochFault(own, other) => Ok(Kept::EpochFault(own, other)),
    }
}

/// How many bytes the value has as it is stored.
fn len_of(bytes: &[u8], len: Option<u32>) -> u64
    ensures { result ≡ stored_len len bytes.now }
{
    match len {
        Some(len) => u64::from(len),
        None => bytes.len() as u64,
    }
}

/// A copy of the value that the bytes are.
fn keep_value(alloc: Global, bytes: &[u8], ts: Timestamp, stored: u64) -> Result<Kept, OutOfMemory>
    requires { IsOk (value_of (time_of ts) bytes.now) }
    ensures { (local : Time) (body : Stored) → value_of (time_of ts) bytes.now ≡ Ok (record { local = local; body = body })
        → IfOk result (IsValueKept body ts stored) }
{
    let value = match read(bytes, ts).body {
        Body::Deletion => return Ok(Kept::Nothing),
        Body::Bytes(bytes) => OwnedValue::Bytes(Key::copy(alloc, bytes)?),
        Body::Int(number) => OwnedValue::Int(number),
    };
    Ok(Kept::Row(value, ts, stored))
}
