//! What a read of one key answers.
#![tactic(auto)]

mod by_intent;
mod deciding;
mod decision;
mod laws;
mod request;

pub use deciding::decide;
pub use decision::Decision;
pub use laws::alike_read_alike;
pub use request::{ReadOptions, ReadRequest};

#[cfg(test)]
mod tests;
