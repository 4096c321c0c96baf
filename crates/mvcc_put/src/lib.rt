//! The plan of a write of one key, and of the deletes of several: what they change of what is stored, and of the statistics.
#![tactic(auto)]

mod change;
mod deletes;
mod gathered;
mod plan;
mod planned;
mod written;

pub use deletes::plan_deletes;
pub use plan::{plan_put, plan_put_with};
pub use write_rule::WriteFault as PutFault;

#[cfg(test)]
mod tests;
