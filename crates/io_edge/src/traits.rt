//! The two ends of a run: what bytes come from, and what bytes go to.
ghost use Rattle.std.specs.Prelude.{◌≡◌, ◌≤◌, ◌<◌, ℕ, List, length, IfOk, is_some};
ghost use Rattle.std.specs.declared.option.Option.{Option};
ghost use Rattle.std.specs.Io.{ReadsAtMost, WritesAtMost};
ghost use Rattle.std.specs.Io.KnownBytes.{ReadConsumes, WriteAppends};
ghost use Rattle.io_edge.specs.Causes.{HasCause};

use std::error::Error;
use std::fmt;

/// A read or a write failed. It comes only where the count of faults of that source or sink rose in the same call, or
/// stands at its last value, 2^64-1.
#[derive(Clone, Copy, Debug, PartialEq, Eq)]
pub struct Failed;

impl fmt::Display for Failed {
    fn fmt<W: fmt::Write>(&self, f: &mut fmt::Formatter<W>) -> fmt::Result {
        write!(f, "a read or a write failed")
    }
}

impl Error for Failed {}

/// Where bytes come from.
///
/// A source may tell the bytes that it has left, as those over memory do, or not, as one over a file. No call changes
/// whether it tells them.
pub trait Source {
    /// The bytes that are left, where told.
    ghost left: { Self → Option (List ℕ) };

    /// How many reads failed. It never falls.
    ghost faults: { Self → ℕ };

    /// Puts the next bytes at the front of the buffer, and says how many: at most the buffer's length.
    ///
    /// `Ok(0)` for a buffer that is not empty is the end, and where the bytes left are told, none is left then. `Failed`
    /// gives no byte.
    fn read(&mut self, into: &mut [u8]) -> Result<usize, Failed>
        ensures bound { ReadsAtMost result into.new }
        ensures bytes { ReadConsumes (left self.old) (left self.new) result into.new }
        ensures told { is_some (left self.new) ≡ is_some (left self.old) }
        ensures cause { HasCause (faults self.old) (faults self.new) result };
}

/// Where bytes go.
///
/// A sink may tell the bytes that were written to it, or not. No call changes whether it tells them.
pub trait Sink {
    /// The bytes that were written, where told.
    ghost held: { Self → Option (List ℕ) };

    /// How many writes failed. It never falls.
    ghost faults: { Self → ℕ };

    /// Takes the first bytes of the piece, and says how many: at most the piece's length, and at least 1 where the piece
    /// is not empty. A write that would take none of such a piece is `Failed`, which takes no byte.
    fn write(&mut self, piece: &[u8]) -> Result<usize, Failed>
        ensures bound { WritesAtMost result piece.now }
        ensures some { IfOk result (λ n. 0 < length piece.now → 0 < n) }
        ensures bytes { WriteAppends (held self.old) (held self.new) result piece.now }
        ensures told { is_some (held self.new) ≡ is_some (held self.old) }
        ensures cause { HasCause (faults self.old) (faults self.new) result };
}
