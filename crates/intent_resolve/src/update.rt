//! What is known of a transaction.
use mvcc_key::{Elements, SeqRange, Timestamp};
use uuid::Uuid;

/// How a transaction ended, or that it goes on (CockroachDB `roachpb.TransactionStatus`).
#[derive(Clone, Copy, Debug, PartialEq, Eq)]
pub enum TxnStatus {
    /// Its writes of its last epoch count, at the timestamp of its commit.
    Committed,
    /// None of its writes counts.
    Aborted,
    /// It goes on, and its writes move to its timestamp.
    Pending,
}

/// What is known of a transaction, by which its intents are resolved (CockroachDB `roachpb.LockUpdate`).
#[derive(Debug, Drop)]
pub struct Update {
    /// The transaction's id.
    pub id: Uuid,
    /// Its epoch: what it wrote in an earlier one never counts.
    pub epoch: u32,
    /// How it ended, or that it goes on.
    pub status: TxnStatus,
    /// The timestamp of its commit, or the one up to which its intents are moved.
    pub ts: Timestamp,
    /// The sequences of its epoch whose writes do not count.
    pub ignored: Elements<SeqRange>,
}
