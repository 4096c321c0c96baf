//! The types of values.
ghost use Rattle.std.specs.Prelude.{◌≡◌, IfOk};
ghost use Rattle.mvcc_key.specs.History as history;
ghost use Rattle.mvcc_value.specs.Encoding.{IsEncodable};
ghost use Rattle.mvcc_value.specs.views.Seen.{int_of, owned_body, plain_body, seen_body};

use mvcc_key::{Key, OutOfMemory, Timestamp};
use std::alloc::Global;

/// A value that is no deletion: bytes, or a signed number of 64 bits.
#[derive(Clone, Copy, Debug, PartialEq, Eq)]
pub enum PlainValue<'a> {
    Bytes(&'a [u8]),
    Int(i64),
}

/// A value or a deletion.
#[derive(Clone, Copy, Debug, PartialEq, Eq)]
pub enum Body<'a> {
    Deletion,
    Bytes(&'a [u8]),
    Int(i64),
}

/// A value as a version has it: with the local timestamp at which it was written, or [`Timestamp::NONE`] where that is the
/// version's own timestamp (CockroachDB `MVCCValueHeader`).
#[derive(Clone, Copy, Debug, PartialEq, Eq)]
pub struct ValueRef<'a> {
    pub local: Timestamp,
    pub body: Body<'a>,
}

/// A value that is no deletion, with bytes of its own.
#[derive(Debug, Drop)]
pub enum OwnedValue {
    Bytes(Key),
    Int(i64),
}

/// A key with its value and the value's timestamp, as reads answer it.
#[derive(Debug, Drop)]
pub struct Found {
    pub key: Key,
    pub value: OwnedValue,
    pub ts: Timestamp,
}

impl<'a> From<PlainValue<'a>> for Body<'a> {
    ghost from_gives = { λ v b. seen_body b ≡ plain_body v };

    fn from(value: PlainValue<'a>) -> Body<'a> {
        match value {
            PlainValue::Bytes(bytes) => Body::Bytes(bytes),
            PlainValue::Int(number) => Body::Int(number),
        }
    }
}

impl OwnedValue {
    /// The value with bytes of its own.
    pub fn copy(alloc: Global, value: PlainValue<'_>) -> Result<OwnedValue, OutOfMemory>
        ensures { IfOk result (λ v. owned_body v ≡ plain_body value.entry) }
    {
        Ok(match value {
            PlainValue::Bytes(bytes) => OwnedValue::Bytes(Key::copy(alloc, bytes)?),
            PlainValue::Int(number) => OwnedValue::Int(number),
        })
    }

    /// The value, with its bytes lent.
    pub fn as_plain(&self) -> PlainValue<'_>
        ensures { plain_body result ≡ owned_body self.now }
    {
        match self {
            OwnedValue::Bytes(bytes) => PlainValue::Bytes(bytes.bytes()),
            OwnedValue::Int(number) => PlainValue::Int(*number),
        }
    }
}

/// Each value has bytes: a number has 64 signed bits. This does nothing.
pub fn has_bytes(body: Body<'_>)
    ensures { IsEncodable (seen_body body.entry) }
{
    match body {
        Body::Deletion | Body::Bytes(_) | Body::Int(_) => {}
    }
}

/// The value is a deletion.
pub fn is_deletion(value: &ValueRef<'_>) -> bool
    ensures { result ≡ history.is_deletion (seen_body value.now.body) }
{
    matches!(value.body, Body::Deletion)
}

/// The number that the value is. `None` exactly where it is a deletion or bytes.
pub fn as_int(value: &ValueRef<'_>) -> Option<i64>
    ensures { result ≡ int_of (seen_body value.now.body) }
{
    match value.body {
        Body::Int(number) => Some(number),
        _ => None,
    }
}
