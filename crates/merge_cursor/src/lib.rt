//! One ordered view over many parts, the newest part winning.
#![tactic(auto)]

mod leading;
mod merge;
mod moves;
mod pass;
mod step;
mod visible;

pub use merge::MergeCursor;
pub use visible::VisibleCursor;

#[cfg(test)]
mod tests;
