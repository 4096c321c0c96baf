//! Why a write is refused.
use intent_meta::IntentSeen;
use mvcc_key::{Elements, OutOfMemory, Timestamp};
use mvcc_value::OwnedValue;

/// Why a write of a key is refused: want of memory, or the first of the others, in this order, that applies.
#[derive(Debug, Drop)]
pub enum WriteFault {
    /// Memory was wanting.
    OutOfMemory,
    /// The key has no bytes.
    EmptyKey,
    /// The key is longer than 4,096 bytes: its length.
    KeyTooLong(u64),
    /// The data of a value of bytes is longer than 1,048,576 bytes: its length.
    ValueTooLong(u64),
    /// The timestamp of the write is [`Timestamp::NONE`].
    BadTimestamp,
    /// The key has another's intent, at any timestamp (CockroachDB `WriteIntentError`): this one.
    Conflict(Elements<IntentSeen>),
    /// The transaction's own intent is of a later epoch: the writer's epoch, and the intent's.
    EpochFault(u32, u32),
    /// The write was made before, by the intent's last sequence, and no entry has its sequence, which this is.
    ReplayMissing(u32),
    /// The write was made before, and it wrote another value: this one, or none for a deletion.
    ReplayMismatch(Option<OwnedValue>),
    /// The newest item of the key is at or above the timestamp at which the writer reads (CockroachDB `WriteTooOldError`): its
    /// timestamp.
    TooOld(Timestamp),
    /// The value before is not the one on which the write depends (CockroachDB `ConditionFailedError`): the value that is
    /// there, or none.
    ConditionFailed(Option<OwnedValue>),
    /// The value before an increment is bytes, which these are.
    NotInteger(OwnedValue),
    /// The sum leaves 64 signed bits (CockroachDB `IntegerOverflowError`): the number before, and what was to be added.
    IntegerOverflow(i64, i64),
    /// The record of the new intent is longer than 16,777,216 bytes: its length.
    IntentTooLong(u64),
}

impl From<OutOfMemory> for WriteFault {
    ghost use Rattle.std.specs.Prelude.{◌≡◌};
    ghost use Rattle.write_rule.specs.declared.fault.WriteFault.TheVariants as fault;

    ghost from_gives = { λ _ e. e ≡ fault.OutOfMemory };

    fn from(_: OutOfMemory) -> Self {
        WriteFault::OutOfMemory
    }
}
