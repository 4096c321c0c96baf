//! The plan of a resolution: what becomes of the intents of a transaction that is known to have ended, or to have moved.
#![tactic(auto)]

mod change;
mod fault;
mod gathered;
mod here;
mod key_plan;
mod laws;
mod own_intent;
mod plan;
mod plan_range;
mod points;
mod ranged;
mod resolution;
mod update;
mod walk;

pub use fault::ResolveFault;
pub use laws::{laws_of_one_key, laws_of_several, laws_of_spans};
pub use plan::plan_resolve;
pub use plan_range::plan_resolve_range;
pub use ranged::Ranged;
pub use update::{TxnStatus, Update};

#[cfg(test)]
mod hidden;
#[cfg(test)]
mod tests;
