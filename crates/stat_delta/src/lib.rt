//! By how much a change moves the statistics of everything stored.
#![tactic(auto)]

mod change;
mod key;
mod laws;

pub use change::Change;
pub use key::key_delta;
pub use laws::{
    laws_of_a_tombstone, laws_of_a_walk, laws_of_bounds, laws_of_collection, laws_of_dying,
    laws_of_keys_within, laws_of_moments, laws_of_one_key, laws_of_shapes, laws_of_spans,
    laws_of_stored_keys, laws_of_thinning, laws_of_windows,
};

#[cfg(test)]
mod tests;
