//! Values that a transaction wrote, with their sequences.
use mvcc_key::{Bytes, Elements};
use std::marker::Model;

/// A value that a transaction wrote at a sequence (CockroachDB `enginepb.MVCCMetadata_SequencedIntent`).
#[derive(Debug, Drop)]
pub struct Entry {
    /// The transaction's sequence, at most 2^31-1.
    pub sequence: u32,
    /// A plain value, or nothing for a deletion.
    pub value: Bytes,
}

impl Model for Entry {
    ghost use Rattle.std.specs.Prelude.{List, ℕ};
    ghost use Rattle.mvcc_key.specs.History.{Entry};

    ghost Value = { Entry (List ℕ) };

    ghost view = { λ e. record { sequence = e.sequence; value = e.value } };
}

/// Entries of one intent, with rising sequences.
pub type Entries = Elements<Entry>;
