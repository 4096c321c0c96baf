//! The state of a transaction: where it stands, what it may see, and which of its own writes it ignores.
#![tactic(auto)]

mod actor;
mod fault;
mod id;
mod ranges;
mod txn;

pub use actor::Actor;
pub use fault::{IgnoreFault, TxnFault};
pub use id::TxnId;
pub use txn::{FEW_RANGES, Txn};
