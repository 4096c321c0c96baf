//! What is asked of every write: a key and a value of no more than their lengths, and a timestamp.
ghost use Rattle.std.specs.Prelude.{◌≡◌, ◌↔◌, ◌<◌, ◌≤◌, true, Ok, Err, OnOk, IfErr, IsErrOf, length};
ghost use Rattle.mvcc_key.specs.Limits.{max_bytes_length, max_key_length};
ghost use Rattle.mvcc_key.specs.Order.{is_no_time};
ghost use Rattle.intent_meta.specs.Valid.{IsStoredKey};
ghost use Rattle.txn_state.specs.Transaction.{write_time};
ghost use Rattle.txn_state.specs.views.Seen.{actor_of};
ghost use Rattle.write_rule.specs.Write.{checked, given_length};
ghost use Rattle.write_rule.specs.views.Seen.{Tells, kind_of, refusal_of, request_of};

use crate::{WriteFault, WriteKind, WriteRequest};
use mvcc_key::{MAX_BYTES_LEN, MAX_KEY_LEN, Timestamp};
use mvcc_value::PlainValue;

/// Whether key, value and timestamp are what they must be.
pub(crate) fn check(key: &[u8], request: &WriteRequest<'_>) -> Result<(), WriteFault>
    ensures ok { OnOk result (checked key.now (request_of request.now) ≡ Ok (request_of request.now)) }
    ensures err { IfErr result (λ why. Tells (refusal_of why) (checked key.now (request_of request.now))) }
    ensures empty { IsErrOf result WriteFault.EmptyKey ↔ (length key.now ≡ 0) }
    ensures long { IsErrOf result (WriteFault.KeyTooLong (length key.now)) ↔ (max_key_length < length key.now) }
    ensures large { IsErrOf result (WriteFault.ValueTooLong (given_length (kind_of request.now.kind)))
        ↔ (IsStoredKey key.now × (max_bytes_length < given_length (kind_of request.now.kind))) }
    ensures untimed { IsErrOf result WriteFault.BadTimestamp
        ↔ (IsStoredKey key.now × (given_length (kind_of request.now.kind) ≤ max_bytes_length) × (is_no_time (write_time (actor_of request.now.who)) ≡ true)) }
{
    let data = data_len(request.kind);
    if key.is_empty() {
        Err(WriteFault::EmptyKey)
    } else if key.len() > MAX_KEY_LEN {
        Err(WriteFault::KeyTooLong(key.len() as u64))
    } else if data > MAX_BYTES_LEN {
        Err(WriteFault::ValueTooLong(data as u64))
    } else if request.who.write_time() == Timestamp::NONE {
        Err(WriteFault::BadTimestamp)
    } else {
        Ok(())
    }
}

/// How many bytes of data are to be written, where the value is bytes.
fn data_len(kind: WriteKind<'_>) -> usize
    ensures { result ≡ given_length (kind_of kind.entry) }
{
    match kind {
        WriteKind::Put(PlainValue::Bytes(bytes))
        | WriteKind::ConditionalPut(PlainValue::Bytes(bytes), _)
        | WriteKind::InitPut(PlainValue::Bytes(bytes)) => bytes.len(),
        _ => 0,
    }
}
