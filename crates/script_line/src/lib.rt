//! What the lines of a script and the words of a command line say.
#![tactic(auto)]

mod command_line;
mod grammar;
mod line;
mod options;
mod txn_commands;

pub use command_line::{Options, read_command_line};
pub use grammar::parse_line;
pub use line::{Line, Status, Value, Who};

#[cfg(test)]
mod tests;
