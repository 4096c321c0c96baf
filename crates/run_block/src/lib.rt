//! Sorted runs: points and range operations in the bytes of a file, which are not changed.
#![tactic(auto)]

mod adding;
mod building;
mod collecting;
mod entry;
mod fault;
mod index;
mod laws;
mod parsing;
mod piece;
mod place;
mod points;
mod range;
mod reader;
mod run;
mod time;
mod write;

pub use building::build;
pub use collecting::{Room, collect};
pub use fault::{FileKind, ParseFault, RunFault};
pub use laws::laws_of_runs;
pub use parsing::parse;
pub use points::RunPoints;
pub use range::RangeOpRef;
pub use run::{Run, RunCursor};

#[cfg(test)]
mod tests;
