//! What is shown of a line that was carried out.
ghost use Rattle.std.specs.Prelude.{◌≡◌};
ghost use Rattle.std.specs.Option.{option_map};
ghost use Rattle.mvcc_value.specs.views.Seen.{found_of};
ghost use Rattle.script_text.specs.Text.{Got};
ghost use Rattle.script_text.specs.views.Seen.{answer_of};

use intent_meta::IntentSeen;
use mvcc_key::{Span, Timestamp};
use mvcc_value::{Found, OwnedValue};
use stat_core::{Field, Stats};
use txn_state::Txn;

/// Why the engine refuses a command. It lends what it prints.
#[derive(Clone, Copy, Debug)]
pub enum Refusal<'a> {
    /// The key has no bytes.
    EmptyKey,
    /// The key has this many bytes, more than it may have.
    KeyTooLong(u64),
    /// The value has this many bytes of data, more than it may have.
    ValueTooLong(u64),
    /// The timestamp is none.
    BadTimestamp,
    /// The bounds are no span, or one of them is too long.
    BadSpan,
    /// These intents of other transactions are in the way.
    Conflict(&'a [IntentSeen]),
    /// The transaction's own intent is of a later epoch: the transaction's epoch, and the intent's.
    EpochFault(u32, u32),
    /// The write was made before, and no entry of the intent has its sequence, which this is.
    ReplayMissing(u32),
    /// The write was made before, and it wrote another value: this one, or a deletion where there is none.
    ReplayMismatch(Option<&'a OwnedValue>),
    /// A version of the key has this timestamp, and it is not older than the one that was to be put.
    TooOld(Timestamp),
    /// Not the value that was expected is there, but this one, or none.
    ConditionFailed(Option<&'a OwnedValue>),
    /// What was to be incremented is no number, but this.
    NotInteger(&'a OwnedValue),
    /// The sum leaves 64 signed bits: the number that is there, and what was to be added.
    IntegerOverflow(i64, i64),
    /// The record of the new intent would have this many bytes, more than it may have.
    IntentTooLong(u64),
    /// The transaction commits below its intent, which is at this timestamp.
    CommitBelowIntent(Timestamp),
    /// Statistics are of this wall time already, in nanoseconds.
    MomentTooEarly(u64),
    /// This statistic would pass its bound, and none before it.
    CountOverflow(Field),
}

/// Why a transaction's rules refuse a change of it.
#[derive(Clone, Copy, Debug)]
pub enum TxnRefusal {
    /// The sequence, which is this, would pass 2^31-1.
    SequenceLimit(u32),
    /// The epoch, which is this, is 2^31-1.
    EpochLimit(u32),
    /// The ranges of sequences do not rise, or a number of theirs is above 2^31-1.
    BadRanges,
}

/// Why a line is refused. It lends what it prints.
#[derive(Clone, Copy, Debug)]
pub enum Reason<'a> {
    /// The line, counted from 1, has no reading.
    BadLine(u64),
    /// A transaction has the name already.
    TxnExists,
    /// No transaction has the name.
    NoTxn,
    /// The transaction's rules refuse what it says.
    ByTxn(TxnRefusal),
    /// The engine refuses what it says.
    ByEngine(Refusal<'a>),
}

/// What is shown of a line. It lends what it prints.
#[derive(Clone, Copy, Debug)]
pub enum Answer<'a> {
    Accepted,
    /// A transaction as it stands.
    TxnLine {
        name: &'a str,
        txn: &'a Txn,
    },
    Got {
        key: &'a [u8],
        found: Option<&'a Found>,
    },
    Deleted {
        /// Whether a value was there.
        found: bool,
    },
    /// The number that is there after an increment.
    Incremented(i64),
    Resolved {
        /// Whether the transaction had an intent there.
        found: bool,
    },
    ResolvedRange {
        /// How many intents are resolved.
        count: u64,
        /// What is left of the span, from the next key on.
        resume: Option<&'a Span>,
    },
    Statistics(&'a Stats),
    /// One part of the store.
    LayoutLine {
        /// Its place, from 0 for the memory table.
        index: u64,
        /// How many names it has, and how many of them it clears.
        keys: u64,
        clears: u64,
        /// Whether it holds range operations.
        ranges: bool,
    },
    Refused(Reason<'a>),
}

impl<'a> Answer<'a> {
    /// What a read of the key found.
    pub fn of_read(key: &'a [u8], found: Option<&'a Found>) -> Answer<'a>
        ensures { answer_of result ≡ Got key.now (option_map (λ f. found_of f.now) found.entry) }
    {
        Answer::Got { key, found }
    }
}
