//! The memory table: what was written since the last run, in order.
#![tactic(auto)]

mod cursor;
mod entries;
mod halve;
mod leaf;
mod leaves;
mod ops;
mod place;
mod search;
mod sorted;
mod table;

pub use cursor::MemCursor;
pub use place::MemPlace;
pub use sorted::SortedOps;
pub use table::MemTable;

#[cfg(test)]
mod tests;
