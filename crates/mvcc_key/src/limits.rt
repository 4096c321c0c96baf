//! How large things may be.

/// How many bytes a key has at most; it has at least one where it is stored.
pub const MAX_KEY_LEN: usize = 4096;

/// How many bytes a bound of a span has at most.
pub const MAX_BOUND_LEN: usize = 4097;

/// How many bytes a value that is bytes has at most.
pub const MAX_BYTES_LEN: usize = 1_048_576;

/// How many bytes an intent record, and any other stored value, has at most.
pub const MAX_STORED_LEN: usize = 16_777_216;

/// The greatest epoch, the greatest sequence, and the greatest logical counter.
pub const MAX_COUNT: u32 = (1 << 31) - 1;

/// The greatest wall time, in nanoseconds.
pub const MAX_WALL: u64 = (1 << 63) - 1;
