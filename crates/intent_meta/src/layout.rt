//! Where the fields of an intent record lie in its bytes, behind the id of 16.

/// Where the epoch begins, behind the id.
pub(crate) const EPOCH: usize = 16;

/// Where the sequence begins.
pub(crate) const SEQUENCE: usize = 20;

/// Where the wall time of the timestamp begins.
pub(crate) const WALL: usize = 24;

/// Where the logical counter of the timestamp begins.
pub(crate) const LOGICAL: usize = 32;

/// Where the deletion flag stands, behind the timestamp.
pub(crate) const DELETED: usize = 36;

/// Where the length of the provisional version's value begins.
pub(crate) const VALUE_LEN: usize = 37;

/// Where the history entries begin, behind the value's length and their number.
pub(crate) const HISTORY: usize = 45;
