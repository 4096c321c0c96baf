//! Pieces of bytes.
ghost use Rattle.std.specs.Prelude.{◌≡◌, ◌≤◌, length, slice_range};

/// A piece of bytes, from `start` up to, and without, `end`.
#[derive(Clone, Copy, Debug)]
pub(crate) struct Piece {
    pub(crate) start: usize,
    pub(crate) end: usize,
    ghost ordered: { start ≤ end },
}

impl Piece {
    /// The piece of these bytes.
    pub(crate) fn slice(self, bytes: &[u8]) -> &[u8]
        requires { self.end ≤ length bytes.now }
        ensures { result.now ≡ slice_range bytes.now self.start self.end }
    {
        &bytes[self.start..self.end]
    }
}
