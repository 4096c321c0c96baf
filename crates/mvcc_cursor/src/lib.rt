//! One ordered view over the pairs and the fragments of a store, key by key.
#![tactic(auto)]

mod bytes;
mod cursor;
mod here;
mod items;
mod laws;
mod places;
mod stack;
mod stand;
mod version_ref;

pub use cursor::MvccCursor;
pub use laws::laws_of_keys;
pub use version_ref::VersionRef;

#[cfg(test)]
mod filled;
#[cfg(test)]
mod many;
#[cfg(test)]
mod tests;
#[cfg(test)]
mod time_tests;
