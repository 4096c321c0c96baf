//! Reads of a store: of one key, and of the keys of a span.
#![tactic(auto)]

mod answer;
mod fault;
mod get;
mod kept;
mod limits;
mod look;
mod met;
mod scan;
mod taken;
mod walk;

pub use answer::{GetAnswer, ScanAnswer};
pub use fault::ScanFault;
pub use get::{plan_get, plan_get_with};
pub use limits::ScanLimits;
pub use scan::plan_scan;

#[cfg(test)]
mod tests;
