//! What a read of one key answers.
use mvcc_key::Timestamp;
use txn_state::TxnId;

/// What a read of one key answers, with the value where it lies.
#[derive(Clone, Copy, Debug, PartialEq, Eq)]
pub enum Decision<'k> {
    /// A value and its timestamp. The bytes are the version's encoded value, or the plain value of an entry of the own intent;
    /// [`mvcc_value::decode`] reads both.
    Value(&'k [u8], Timestamp),
    /// No data: a deletion, a tombstone, or nothing at all.
    Nothing,
    /// Another transaction's intent is in the way (CockroachDB `kvpb.LockConflictError`): its id and its timestamp.
    Conflict(TxnId, Timestamp),
    /// An item may have been written before the read began (CockroachDB `kvpb.ReadWithinUncertaintyIntervalError`): its timestamp, and
    /// its effective local one.
    Uncertain(Timestamp, Timestamp),
    /// An item is at or above the read timestamp, and the read fails on those (CockroachDB `kvpb.WriteTooOldError`): the newest
    /// one's timestamp.
    TooOld(Timestamp),
    /// The own intent is of a later epoch: the reader's epoch, and the intent's.
    EpochFault(u32, u32),
}
