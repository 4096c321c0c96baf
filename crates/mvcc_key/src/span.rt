//! Spans of keys, and ranges of sequences.
ghost use Rattle.std.specs.Prelude.{◌≡◌};
ghost use Rattle.mvcc_key.specs.Spans.{is_bad_span};

use crate::{Key, MAX_BOUND_LEN};
use std::cmp::Ordering;

/// The keys from `start` up to, and without, `end`. There is no condition on the bounds here: a call that takes a span says
/// which it refuses.
#[derive(Debug, Drop)]
pub struct Span {
    pub start: Key,
    pub end: Key,
}

/// The sequences from `first` to `last`, both included (CockroachDB `enginepb.IgnoredSeqNumRange`).
#[derive(Clone, Copy, Debug, Default, PartialEq, Eq)]
pub struct SeqRange {
    pub first: u32,
    pub last: u32,
}

/// Whether these bounds are no span, or one of them is longer than 4,097 bytes.
pub fn is_bad_span(start: &[u8], end: &[u8]) -> bool
    ensures { result ≡ is_bad_span start.now end.now }
{
    match start.cmp(end) {
        Ordering::Less => start.len() > MAX_BOUND_LEN || end.len() > MAX_BOUND_LEN,
        Ordering::Equal | Ordering::Greater => true,
    }
}
