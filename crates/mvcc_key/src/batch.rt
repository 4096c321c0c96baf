//! What one write changes: pairs by their encoded keys, and range tombstones.
ghost use Rattle.std.specs.Prelude.{◌≡◌, ◌≤◌, ◌↔◌, [], length, IsTrue};
ghost use Rattle.std.specs.Option.{ForSome};
ghost use Rattle.mvcc_key.specs.Batches.{IsStorable, IsStorableRange};
ghost use Rattle.mvcc_key.specs.Limits.{max_stored_length};

use crate::{
    Bytes, Elements, Key, MAX_KEY_LEN, MAX_STORED_LEN, Timestamp, decode_key, is_bad_span,
};

/// A stored pair that is set, or cleared where there is no value.
#[derive(Debug, Drop)]
pub struct PointOp {
    /// The encoded key.
    pub key: Bytes,
    pub value: Option<Bytes>,
}

impl PointOp {
    /// Whether it can be stored: its key is the encoding of a name whose key has 1 to 4,096 bytes, and its value has at most
    /// 16,777,216 bytes.
    pub fn is_storable(&self) -> bool
        ensures { IsTrue result ↔ IsStorable self.now }
    {
        match decode_key(self.key.as_slice()) {
            Ok(name) => {
                !name.key.is_empty() && name.key.len() <= MAX_KEY_LEN && is_short_value(&self.value)
            }
            Err(_) => false,
        }
    }
}

/// Whether a value, where there is one, is short enough to be stored.
fn is_short_value(value: &Option<Bytes>) -> bool
    ensures { IsTrue result ↔ ForSome value.now (λ v. length v ≤ max_stored_length) }
{
    match value {
        Some(value) => value.as_slice().len() <= MAX_STORED_LEN,
        None => true,
    }
}

/// A range tombstone over the keys from `start` up to, and without, `end`: set where there is a value, which has no bytes
/// today, and else removed.
#[derive(Debug, Drop)]
pub struct RangeOp {
    pub start: Key,
    pub end: Key,
    pub ts: Timestamp,
    pub set: Option<Bytes>,
}

impl RangeOp {
    /// Whether it can be stored: its bounds have at most 4,097 bytes, its start is below its end, it has a timestamp, and
    /// where it sets its value has no bytes.
    pub fn is_storable(&self) -> bool
        ensures { IsTrue result ↔ IsStorableRange self.now }
    {
        !is_bad_span(self.start.bytes(), self.end.bytes())
            && self.ts != Timestamp::NONE
            && is_empty_value(&self.set)
    }
}

/// Whether a value, where there is one, has no bytes.
fn is_empty_value(value: &Option<Bytes>) -> bool
    ensures { IsTrue result ↔ ForSome value.now (λ v. v ≡ []) }
{
    match value {
        Some(value) => value.as_slice().is_empty(),
        None => true,
    }
}

/// What one write changes. The range operations are applied in their order.
#[derive(Debug, Drop)]
pub struct Batch {
    pub points: Elements<PointOp>,
    pub ranges: Elements<RangeOp>,
}
