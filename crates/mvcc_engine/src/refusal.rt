//! Why a call is refused.
ghost use Rattle.std.specs.Prelude.{◌≡◌};

use intent_meta::IntentSeen;
use intent_resolve::ResolveFault;
use mvcc_key::{Elements, OutOfMemory, Timestamp};
use mvcc_put::PutFault;
use mvcc_value::OwnedValue;
use stat_core::{CountOverflow, Field};

/// Why a call is refused. A refused call leaves everything as it was.
#[derive(Debug, Drop)]
pub enum Refusal {
    /// Memory was wanting.
    OutOfMemory,
    /// The key has no bytes.
    EmptyKey,
    /// The key is longer than 4,096 bytes: its length.
    KeyTooLong(u64),
    /// The data of a value of bytes is longer than 1,048,576 bytes: its length.
    ValueTooLong(u64),
    /// The timestamp is [`Timestamp::NONE`].
    BadTimestamp,
    /// The bounds are no span, or one of them is longer than 4,097 bytes.
    BadSpan,
    /// Another's intent is in the way (CockroachDB `WriteIntentError`): this one.
    Conflict(Elements<IntentSeen>),
    /// The transaction's own intent is of a later epoch: its own epoch, and the intent's.
    EpochFault(u32, u32),
    /// The write was made before, by the intent's last sequence, and no entry has its sequence, which this is.
    ReplayMissing(u32),
    /// The write was made before, and it wrote another value: this one, or none for a deletion.
    ReplayMismatch(Option<OwnedValue>),
    /// The newest item of the key is at or above the timestamp at which the writer reads (CockroachDB `WriteTooOldError`): its
    /// timestamp.
    TooOld(Timestamp),
    /// The value before is not the one on which the write depends (CockroachDB `ConditionFailedError`): the value that is
    /// there, or none.
    ConditionFailed(Option<OwnedValue>),
    /// The value before an increment is bytes, which these are.
    NotInteger(OwnedValue),
    /// The sum leaves 64 signed bits (CockroachDB `IntegerOverflowError`): the number before, and what was to be added.
    IntegerOverflow(i64, i64),
    /// The record of the new intent is longer than 16,777,216 bytes: its length.
    IntentTooLong(u64),
    /// A commit is below the timestamp of the transaction's intent, which this is: of a span, of the first such intent that is
    /// handled.
    CommitBelowIntent(Timestamp),
    /// The moment is before the latest one, which is this, in nanoseconds of wall time.
    MomentTooEarly(u64),
    /// This statistic would pass the bound, and those before it would not.
    CountOverflow(Field),
}

/// Why the statistics are not aged. They stay as they were.
#[derive(Clone, Copy, Debug, PartialEq, Eq)]
pub enum AgeFault {
    /// The moment is before the latest one, which is this, in nanoseconds of wall time.
    MomentTooEarly(u64),
    /// This statistic would pass the bound, and those before it would not.
    CountOverflow(Field),
}

impl From<OutOfMemory> for Refusal {
    ghost use Rattle.std.specs.Prelude.{◌≡◌};
    ghost use Rattle.mvcc_engine.specs.declared.refusal.Refusal.TheVariants as refusal;

    ghost from_gives = { λ _ e. e ≡ refusal.OutOfMemory };

    fn from(_: OutOfMemory) -> Self {
        Refusal::OutOfMemory
    }
}

impl From<PutFault> for Refusal {
    ghost use Rattle.std.specs.Prelude.{◌≡◌};
    ghost use Rattle.mvcc_engine.specs.views.Seen.{as_put_refusal};

    ghost from_gives = { λ fault e. e ≡ as_put_refusal fault };

    fn from(fault: PutFault) -> Self {
        match fault {
            PutFault::OutOfMemory => Refusal::OutOfMemory,
            PutFault::EmptyKey => Refusal::EmptyKey,
            PutFault::KeyTooLong(len) => Refusal::KeyTooLong(len),
            PutFault::ValueTooLong(len) => Refusal::ValueTooLong(len),
            PutFault::BadTimestamp => Refusal::BadTimestamp,
            PutFault::Conflict(intents) => Refusal::Conflict(intents),
            PutFault::EpochFault(own, other) => Refusal::EpochFault(own, other),
            PutFault::ReplayMissing(sequence) => Refusal::ReplayMissing(sequence),
            PutFault::ReplayMismatch(stored) => Refusal::ReplayMismatch(stored),
            PutFault::TooOld(existing) => Refusal::TooOld(existing),
            PutFault::ConditionFailed(actual) => Refusal::ConditionFailed(actual),
            PutFault::NotInteger(actual) => Refusal::NotInteger(actual),
            PutFault::IntegerOverflow(old, by) => Refusal::IntegerOverflow(old, by),
            PutFault::IntentTooLong(len) => Refusal::IntentTooLong(len),
        }
    }
}

impl From<ResolveFault> for Refusal {
    ghost use Rattle.std.specs.Prelude.{◌≡◌};
    ghost use Rattle.mvcc_engine.specs.views.Seen.{as_resolve_refusal};

    ghost from_gives = { λ fault e. e ≡ as_resolve_refusal fault };

    fn from(fault: ResolveFault) -> Self {
        match fault {
            ResolveFault::OutOfMemory => Refusal::OutOfMemory,
            ResolveFault::BadSpan => Refusal::BadSpan,
            ResolveFault::CommitBelowIntent(ts) => Refusal::CommitBelowIntent(ts),
        }
    }
}

impl From<CountOverflow> for Refusal {
    ghost use Rattle.std.specs.Prelude.{◌≡◌};
    ghost use Rattle.mvcc_engine.specs.declared.refusal.Refusal.TheVariants as refusal;

    ghost from_gives = { λ o e. e ≡ refusal.CountOverflow o.field };

    fn from(overflow: CountOverflow) -> Self {
        Refusal::CountOverflow(overflow.field)
    }
}

impl From<CountOverflow> for AgeFault {
    ghost use Rattle.std.specs.Prelude.{◌≡◌};
    ghost use Rattle.mvcc_engine.specs.declared.refusal.AgeFault.TheVariants as fault;

    ghost from_gives = { λ o e. e ≡ fault.CountOverflow o.field };

    fn from(overflow: CountOverflow) -> Self {
        AgeFault::CountOverflow(overflow.field)
    }
}

impl From<AgeFault> for Refusal {
    ghost use Rattle.std.specs.Prelude.{◌≡◌};
    ghost use Rattle.mvcc_engine.specs.views.Seen.{as_refusal};

    ghost from_gives = { λ fault e. e ≡ as_refusal fault };

    fn from(fault: AgeFault) -> Self {
        match fault {
            AgeFault::MomentTooEarly(latest) => Refusal::MomentTooEarly(latest),
            AgeFault::CountOverflow(field) => Refusal::CountOverflow(field),
        }
    }
}
