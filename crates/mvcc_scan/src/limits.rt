//! Where a scan stops.

/// The limits of a scan (CockroachDB `MVCCScanOptions`). Once one is reached, the walk stops at the next stored key, which begins
/// the resume span.
#[derive(Clone, Copy, Debug, Default, PartialEq, Eq)]
pub struct ScanLimits {
    /// The keys are walked downwards.
    pub reverse: bool,
    /// How many rows there may be. `None` is no limit.
    pub max: Option<u64>,
    /// A bound on the sum of the rows' sizes, each the length of the key, 12, and the length of the value as it is stored, in bytes
    /// (CockroachDB `TargetBytes`). 0 is no limit. A row that would pass it is not taken, unless it is the first.
    pub target: u64,
    /// The first row too is not taken where it would pass `target` (CockroachDB `AllowEmpty`).
    pub allow_empty: bool,
}
