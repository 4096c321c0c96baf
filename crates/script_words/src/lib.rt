//! The words of a line and of a command line, and the forms in which they write names, values, times, numbers and ids.
#![tactic(auto)]

mod cutting;
mod fault;
pub mod forms;
mod unescape;
mod words;

pub use fault::LineFault;
pub use forms::{RunCount, WallTime};
pub use words::{Word, next_word, read_named, read_values, read_words};

#[cfg(test)]
mod tests;
