//! Range operations that are lent.
use mvcc_key::Timestamp;

/// A range operation of a run, as it lies in its bytes: over the keys from `start` up to, and without, `end`; set where there
/// is a value, which has no bytes today, and else removed.
#[derive(Clone, Copy, Debug)]
pub struct RangeOpRef<'a> {
    pub start: &'a [u8],
    pub end: &'a [u8],
    pub ts: Timestamp,
    pub set: Option<&'a [u8]>,
}
