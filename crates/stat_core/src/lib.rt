//! Statistics of a store (CockroachDB's `MVCCStats`): as definitions, as running sums, and the sums of one key's group.
#![tactic(auto)]

mod counters;
mod field;
mod garbage;
mod group;
mod laws;
mod seconds;
mod shape;
mod stats;
mod tally;

pub use field::{CountOverflow, Field};
pub use group::Group;
pub use laws::{
    older_versions_stay, one_key_changes, overflow_is_exact, settling_follows, span_changes,
    spans_add_up, statistics_age, statistics_are_in_bounds, versions_come,
};
pub use shape::{GroupRef, GroupShape, VersionShape, group_stats};
pub use stats::Stats;

#[cfg(test)]
mod tests;
