//! What can be wrong with the bytes of a run.
use mvcc_key::OutOfMemory;
use thiserror::Error;

/// What is wrong with a run or a file. A run is read from left to right, and the first fault is told.
#[derive(Clone, Copy, Debug, PartialEq, Eq, Error)]
pub enum FileKind {
    /// A field is not whole; its place is the field's first byte.
    #[error("a field is not whole")]
    Short,
    /// The first 8 bytes are not `MVCCRUN1`; the place is 0.
    #[error("the bytes do not begin as those of a run")]
    Magic,
    /// A point's kind is neither 00 nor 01, its key cannot be read, or is empty or longer than 4,096 bytes. The place of this
    /// and of what follows is the first byte of the entry.
    #[error("a point has no key that can be stored")]
    Key,
    /// A point is not above the one before it.
    #[error("a point is not above the one before it")]
    Order,
    /// A value is longer than 16,777,216 bytes.
    #[error("a value cannot be stored")]
    Value,
    /// A range operation's kind is neither 00 nor 01, a bound is longer than 4,097 bytes, the start is not below the end, or
    /// the timestamp is none or out of range.
    #[error("a range operation is not one")]
    RangeOrder,
    /// Bytes are left behind the last entry; the place is the first of them.
    #[error("bytes are left behind the last entry")]
    Trailing,
    /// A file clears or removes. No reading of a run answers this or what follows.
    #[error("a file clears a point or removes a range")]
    Clear,
    /// A file has an intent record.
    #[error("a file has an intent record")]
    Record,
    /// A file has a version at the timestamp of a range tombstone over its key.
    #[error("a file has a version at the timestamp of a range tombstone over it")]
    Tie,
}

/// What is wrong, and the place of the byte where it begins, counted from 0.
#[derive(Clone, Copy, Debug, PartialEq, Eq, Error)]
#[error("{kind}, at byte {place}")]
pub struct RunFault {
    pub kind: FileKind,
    pub place: u64,
}

/// Why bytes are not taken as a run.
#[derive(Clone, Copy, Debug, PartialEq, Eq, Error)]
pub enum ParseFault {
    /// Memory was wanting. This says nothing of the bytes.
    #[error("out of memory")]
    OutOfMemory,
    /// The bytes are those of no run.
    #[error("{0}")]
    Fault(RunFault),
}

impl From<OutOfMemory> for ParseFault {
    ghost use Rattle.std.specs.Prelude.{◌≡◌};
    ghost use Rattle.run_block.specs.declared.fault.ParseFault.TheVariants as parsing;

    ghost from_gives = { λ _ e. e ≡ parsing.OutOfMemory };

    fn from(_: OutOfMemory) -> ParseFault {
        ParseFault::OutOfMemory
    }
}

impl From<RunFault> for ParseFault {
    ghost use Rattle.std.specs.Prelude.{◌≡◌};
    ghost use Rattle.run_block.specs.declared.fault.ParseFault.TheVariants as parsing;

    ghost from_gives = { λ f e. e ≡ parsing.Fault f };

    fn from(fault: RunFault) -> ParseFault {
        ParseFault::Fault(fault)
    }
}
