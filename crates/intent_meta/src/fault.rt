//! Why bytes are no intent record.
use thiserror::Error;

/// The first fault of bytes that are no intent record, as they are read from left to right. Each field is judged once it is
/// whole.
#[derive(Clone, Copy, Debug, PartialEq, Eq, Error)]
pub enum IntentFault {
    /// A field is not whole.
    #[error("the intent record is too short")]
    Short,
    /// The epoch or a sequence is above 2^31-1, or the timestamp is none or out of range.
    #[error("a number of the intent record is out of range")]
    Range,
    /// The deletion flag is neither 0 nor 1, the value's length is none of a deletion or of a value, or a history value is
    /// neither nothing nor a plain value.
    #[error("a value of the intent record has no such length")]
    Length,
    /// A history sequence is not above the one before it, or not below the record's.
    #[error("the sequences of the intent record do not rise")]
    Order,
    /// Bytes are left behind the last history entry.
    #[error("bytes are left behind the intent record")]
    Trailing,
}
