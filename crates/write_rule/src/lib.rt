//! The rule of writing one key: which write is refused, what it answers, and what it changes of what is stored.
#![tactic(auto)]

mod change;
mod check;
mod fault;
mod forming;
mod laws;
mod meeting;
mod newest;
mod ops;
mod own_intent;
mod plan;
mod points;
mod record;
mod replay;
mod request;
mod writable;

pub use change::{KeyChange, WriteAnswer};
pub use fault::WriteFault;
pub use laws::{laws_of_points, laws_of_writes};
pub use plan::plan_write;
pub use request::{WriteKind, WriteRequest};

#[cfg(test)]
mod tests;
