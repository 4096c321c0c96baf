//! What reads answer.
use intent_meta::IntentSeen;
use mvcc_key::{Elements, Span};
use mvcc_value::Found;

/// The answer of a read of one key (CockroachDB `pkg/storage` `MVCCGetResult`).
#[derive(Debug, Drop)]
pub struct GetAnswer {
    /// The value at the read timestamp. `None` for a deletion, a tombstone or nothing at all.
    pub found: Option<Found>,
    /// The intent that an inconsistent read passed over: at most one.
    pub intents: Elements<IntentSeen>,
}

/// The answer of a read of a span (CockroachDB `pkg/storage` `MVCCScanResult`).
#[derive(Debug, Drop)]
pub struct ScanAnswer {
    /// The rows, in the order of the walk: ascending by key, or descending in a reverse scan.
    pub rows: Elements<Found>,
    /// The intents that an inconsistent scan passed over, ascending by key.
    pub intents: Elements<IntentSeen>,
    /// What is left of the span where a limit ended the walk before its end.
    pub resume: Option<Span>,
}
