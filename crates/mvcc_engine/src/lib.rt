//! The engine: every version and every intent of every key, and statistics that are a recount of what is stored.
#![tactic(auto)]

mod answer;
mod engine;
mod reading;
mod refusal;
#[cfg(test)]
mod tests;

pub use engine::Engine;
pub use lsm_store::PartShape;
pub use refusal::{AgeFault, Refusal};
