//! Keys, timestamps and the words that every layer of the store shares.
#![tactic(auto)]

mod abbreviated;
mod batch;
mod builder;
mod cursor;
mod encoded;
mod key;
mod laws;
mod limits;
mod list;
mod looks;
mod memory;
pub mod numbers;
mod pairs;
mod span;
mod timestamp;

pub use abbreviated::abbreviated_key;
pub use batch::{Batch, PointOp, RangeOp};
pub use builder::BatchBuilder;
pub use cursor::{Cursor, next, seek_ge};
pub use encoded::{KeyFault, KeyRef, cmp_encoded, decode_key, encode_key, read_key, record_key};
pub use key::Key;
pub use laws::{
    laws_of_changes, laws_of_cuts, laws_of_fragments, laws_of_middles, laws_of_names,
    laws_of_timestamps,
};
pub use limits::{MAX_BOUND_LEN, MAX_BYTES_LEN, MAX_COUNT, MAX_KEY_LEN, MAX_STORED_LEN, MAX_WALL};
pub use list::{Bytes, Elements};
pub use looks::Looks;
pub use memory::OutOfMemory;
pub use pairs::{PairsCursor, SortedPairs};
pub use span::{SeqRange, Span, is_bad_span};
pub use timestamp::Timestamp;

#[cfg(test)]
mod tests;
