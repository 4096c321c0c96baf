//! Where the entries of a run lie in its bytes.
use crate::piece::Piece;
use mvcc_key::Timestamp;

/// Where a point lies: its encoded key, and its value where it is set. The abbreviated key lies beside them, so that a seek mostly
/// reads places alone.
#[derive(Clone, Copy, Debug)]
pub(crate) struct PointPlace {
    pub(crate) key: Piece,
    pub(crate) value: Option<Piece>,
    pub(crate) abbreviated_key: u64,
}

/// Where a range operation lies: its bounds. It sets, or removes.
#[derive(Clone, Copy, Debug)]
pub(crate) struct RangePlace {
    pub(crate) start: Piece,
    pub(crate) end: Piece,
    pub(crate) ts: Timestamp,
    pub(crate) set: bool,
}
