//! What the resolution of a span answers.
use mvcc_key::Span;

/// What the resolution of a span answers (CockroachDB `roachpb.ResolveIntentRangeResponse`).
#[derive(Debug, Drop)]
pub struct Ranged {
    /// How many intents were handled.
    pub count: u64,
    /// The span from the key of the transaction's next intent on, where one in the span was not handled.
    pub resume: Option<Span>,
}
