//! Why bytes are no value.
use thiserror::Error;

/// The first fault of bytes that are no value (the order of the tests is that of [`crate::decode`]).
#[derive(Clone, Copy, Debug, PartialEq, Eq, Error)]
pub enum ValueFault {
    /// There are some bytes, but fewer than a header or a plain value has.
    #[error("the value is too short")]
    Short,
    /// The mark of a header is there, and the header's first bytes are not.
    #[error("the value's header has a wrong beginning")]
    Header,
    /// The local timestamp of the header is none, out of range, or not below the version's timestamp.
    #[error("the value's local timestamp is out of range")]
    LocalRange,
    /// A checksum byte is not 0.
    #[error("the value's checksum is not 0")]
    Checksum,
    /// The tag is neither that of bytes nor that of a number.
    #[error("the value's tag is unknown")]
    Tag,
    /// The data of a number is not the shortest form of one of 64 bits.
    #[error("the value's number is not in its shortest form")]
    IntForm,
}
