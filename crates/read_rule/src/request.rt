//! What is asked of a read.
use mvcc_key::Timestamp;
use txn_state::Actor;

/// How a read is made (CockroachDB `MVCCGetOptions`). As it stands by default it has no local limit, is consistent, and does not
/// fail on more recent items.
#[derive(Clone, Copy, Debug, Default, PartialEq, Eq)]
pub struct ReadOptions {
    /// A value that was written after this local timestamp is not uncertain (CockroachDB `LocalUncertaintyLimit`);
    /// [`Timestamp::NONE`] is no limit. Without a transaction it has no effect.
    pub local_limit: Timestamp,
    /// Another transaction's intents are passed over, and those up to the read timestamp are listed.
    pub inconsistent: bool,
    /// An item at or above the read timestamp refuses, and so does another's intent at any timestamp.
    pub fail_more_recent: bool,
}

/// Who reads, and how.
#[derive(Clone, Copy, Debug)]
pub struct ReadRequest<'a> {
    pub who: Actor<'a>,
    pub options: ReadOptions,
}
