//! The store of parts: a memory table, and under it sorted runs from the newest to the oldest.
//!
//! ```text
//! apply a=1        mem: a=1
//! flush            mem: -      run: a=1
//! apply a cleared  mem: a -    run: a=1
//! flush            mem: -      run: a -     run: a=1
//! compact(1)       mem: -
//! ```
//!
//! Range operations stand in the parts in the same way, and the fragments that all of them give are kept beside the parts:
//!
//! ```text
//! apply a-e@5 set      mem: a-e@5 set                                  a-e [5]
//! flush                mem: -    run: a-e@5 set                        a-e [5]
//! apply b-d@5 removed  mem: b-d@5 removed    run: a-e@5 set            a-b [5]  d-e [5]
//! flush                mem: -    run: b-d@5 removed    run: a-e@5 set  a-b [5]  d-e [5]
//! compact(1)           mem: -    run: a-b@5 set, d-e@5 set             a-b [5]  d-e [5]
//! ```
#![tactic(auto)]

mod changing;
mod closing;
mod counting;
mod part;
mod ranges;
mod shape;
mod store;
mod uniting;

pub use part::{PartCursor, StoreCursor};
pub use shape::PartShape;
pub use store::Store;

#[cfg(test)]
mod range_tests;
#[cfg(test)]
mod tests;
