//! Intents of transactions: the record that stands before a provisional version, and what its entries show.
#![tactic(auto)]

mod decoding;
mod encoding;
mod entries;
mod entry;
mod fault;
mod fields;
mod intent_record;
mod intent_ref;
mod key_items;
mod laws;
mod layout;
mod listed;
mod listed_items;
#[cfg(test)]
mod listed_tests;
mod seen;
#[cfg(test)]
mod tests;
mod time;

pub use decoding::decode;
pub use entry::{Entries, Entry};
pub use fault::IntentFault;
pub use intent_record::IntentRecord;
pub use intent_ref::IntentRef;
pub use key_items::{IntentAt, ItemRef, KeyItems};
pub use laws::{keys_are_whole, one_spelling, stored_is_read_back};
pub use listed::{ListedIntent, ListedItem};
pub use listed_items::ListedItems;
pub use seen::IntentSeen;
pub use time::record_time;
