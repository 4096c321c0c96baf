//! Values of keys, as they are handed to the store and as it keeps them.
#![tactic(auto)]

mod decoding;
mod encoding;
mod fault;
mod laws;
mod layout;
#[cfg(test)]
mod tests;
mod value;
mod varint;

pub use decoding::{decode, plain_value, read};
pub use encoding::{encode, encoded_len, kept_local};
pub use fault::ValueFault;
pub use laws::{deletions_are_told, one_spelling};
pub use layout::{is_deletion_value, is_value_len};
pub use value::{Body, Found, OwnedValue, PlainValue, ValueRef, as_int, has_bytes, is_deletion};
