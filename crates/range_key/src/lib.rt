//! Range tombstones as fragments: maximal spans of keys with one stack of timestamps each.
#![tactic(auto)]

mod change;
mod cut;
mod fragment;
mod laws;
mod lent;
mod list;
mod ops;
mod pieces;
mod place;
mod planned;
mod stack;
mod staged;
mod taken;

pub use fragment::Fragment;
pub use laws::laws_of_operations;
pub use lent::FragmentsRef;
pub use list::FragmentList;
pub use stack::Stack;
pub use staged::StagedFragments;

#[cfg(test)]
mod tests;
