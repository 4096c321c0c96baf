//! The top call: a script of commands is read, carried out and answered.
#![tactic(auto)]

mod answers;
mod change;
mod program;
mod script;
mod session;
mod stop;
mod txns;
mod update;

pub use program::{Status, run};

#[cfg(test)]
mod tests;
