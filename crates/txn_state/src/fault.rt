//! Why a change of a transaction is refused.
ghost use Rattle.std.specs.Prelude.{◌≡◌};
ghost use Rattle.txn_state.specs.declared.fault.IgnoreFault.TheVariants.{OutOfMemory};

use std::alloc::AllocError;
use std::error::Error;
use std::fmt;

/// A number of the transaction is at its limit, 2^31-1. Each fault has the number as it stands.
#[derive(Clone, Copy, Debug, PartialEq, Eq)]
pub enum TxnFault {
    /// The sequence would pass its limit.
    SequenceLimit(u32),
    /// The epoch is at its limit.
    EpochLimit(u32),
}

impl fmt::Display for TxnFault {
    ghost use Rattle.std.specs.Prelude.{Some};
    ghost use Rattle.txn_state.specs.views.Texts.{limit_text};

    ghost output = { λ fault. Some (limit_text fault) };

    fn fmt<W: fmt::Write>(&self, f: &mut fmt::Formatter<W>) -> fmt::Result {
        match self {
            TxnFault::SequenceLimit(sequence) => write!(
                f,
                "a step from sequence {sequence} would pass 2147483647"
            ),
            TxnFault::EpochLimit(epoch) => write!(f, "epoch {epoch} is the last"),
        }
    }
}

impl Error for TxnFault {}

/// Why ranges of sequences are not ignored.
#[derive(Clone, Copy, Debug, PartialEq, Eq)]
pub enum IgnoreFault {
    /// Memory for the ranges was wanting.
    OutOfMemory,
    /// A range ends before it begins, begins at or below the end of the one before it, or has a number above 2^31-1.
    BadRanges,
}

impl fmt::Display for IgnoreFault {
    ghost use Rattle.std.specs.Prelude.{Some};
    ghost use Rattle.txn_state.specs.views.Texts.{ignore_text};

    ghost output = { λ fault. Some (ignore_text fault) };

    fn fmt<W: fmt::Write>(&self, f: &mut fmt::Formatter<W>) -> fmt::Result {
        match self {
            IgnoreFault::OutOfMemory => f.write_str("out of memory"),
            IgnoreFault::BadRanges => f.write_str("the ignored ranges do not rise"),
        }
    }
}

impl Error for IgnoreFault {}

impl From<AllocError> for IgnoreFault {
    ghost from_gives = { λ _ fault. fault ≡ OutOfMemory };

    fn from(_: AllocError) -> Self {
        IgnoreFault::OutOfMemory
    }
}
