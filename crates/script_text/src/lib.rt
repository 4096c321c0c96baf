//! The texts of answers and refusals.
#![tactic(auto)]

mod answer;
mod pieces;
mod refusals;
mod statistics;
mod text;
mod values;

pub use answer::{Answer, Reason, Refusal, TxnRefusal};
pub use text::show;

#[cfg(test)]
mod tests;
