//! What a line of a script says.
ghost use Rattle.std.specs.Prelude.{◌≡◌};
ghost use Rattle.mvcc_value.specs.views.Seen.{plain_body};
ghost use Rattle.script_line.specs.views.SeenLine.{body_of, is_blank, line_of};

use mvcc_key::{SeqRange, Timestamp};
use mvcc_value::PlainValue;
use script_words::{RunCount, WallTime};
use smallvec::SmallVec;
use std::borrow::CowSlice;
use txn_state::FEW_RANGES;
use uuid::Uuid;

/// Who writes: `ts=TIME` or `t=NAME`.
#[derive(Clone, Copy, Debug)]
pub enum Who<'a> {
    /// No transaction, at this timestamp.
    AtTime(Timestamp),
    /// The transaction of this name.
    InTxn(&'a str),
}

/// A value: `v=TEXT` or `int=INT`. Bytes are lent from the line where no escape stands in them.
#[derive(Debug, Drop)]
pub enum Value<'a> {
    Bytes(CowSlice<'a, u8>),
    Int(i64),
}

impl Value<'_> {
    /// The value, with its bytes lent.
    pub fn as_plain(&self) -> PlainValue<'_>
        ensures { plain_body result ≡ body_of self.now }
    {
        match self {
            Value::Bytes(bytes) => PlainValue::Bytes(bytes.as_slice()),
            Value::Int(number) => PlainValue::Int(*number),
        }
    }
}

/// How a transaction ended, or that it goes on: `status=STATUS`.
#[derive(Clone, Copy, Debug)]
pub enum Status {
    Committed,
    Aborted,
    Pending,
}

/// What a line says. A time that is left out is [`Timestamp::NONE`]; a name is 1 to 64 letters, digits, underscores and dashes.
#[derive(Debug, Drop)]
pub enum Line<'a> {
    /// No command: no words, or a comment.
    Blank,
    TxnBegin {
        name: &'a str,
        ts: Timestamp,
        /// Up to where a value may have been written before the transaction began, or [`Timestamp::NONE`].
        limit: Timestamp,
        id: Option<Uuid>,
    },
    TxnStep {
        name: &'a str,
        /// How many sequences the transaction goes on, at most 2^31-1; 1 where it is left out.
        n: u32,
    },
    TxnAdvance {
        name: &'a str,
        ts: Timestamp,
    },
    TxnRestart {
        name: &'a str,
        ts: Timestamp,
    },
    TxnRefresh {
        name: &'a str,
    },
    TxnIgnoreSeqs {
        name: &'a str,
        /// As the line has them: they need not rise, and their numbers may be above every sequence.
        ranges: SmallVec<SeqRange, FEW_RANGES>,
    },
    TxnRemove {
        name: &'a str,
    },
    Put {
        key: CowSlice<'a, u8>,
        value: Value<'a>,
        who: Who<'a>,
        /// The time that the writer's own clock showed, or [`Timestamp::NONE`].
        local: Timestamp,
    },
    Del {
        key: CowSlice<'a, u8>,
        who: Who<'a>,
        /// As with `Put`.
        local: Timestamp,
    },
    ConditionalPut {
        key: CowSlice<'a, u8>,
        value: Value<'a>,
        who: Who<'a>,
        /// The value that is to be there; `None` where none is.
        expected: Option<Value<'a>>,
        /// As with `Put`.
        local: Timestamp,
    },
    InitPut {
        key: CowSlice<'a, u8>,
        value: Value<'a>,
        who: Who<'a>,
        /// As with `Put`.
        local: Timestamp,
    },
    Increment {
        key: CowSlice<'a, u8>,
        who: Who<'a>,
        /// What is added; 1 where it is left out.
        by: i64,
        /// As with `Put`.
        local: Timestamp,
    },
    Resolve {
        name: &'a str,
        key: CowSlice<'a, u8>,
        status: Status,
        /// At which the transaction ended or goes on; `None` for where it writes.
        ts: Option<Timestamp>,
    },
    /// Of the keys from `start` on and below `end`.
    ResolveRange {
        name: &'a str,
        start: CowSlice<'a, u8>,
        end: CowSlice<'a, u8>,
        status: Status,
        /// As with `Resolve`.
        ts: Option<Timestamp>,
        /// At most so many intents, below 2^63; all of them where it is left out.
        max: Option<u64>,
    },
    Get {
        key: CowSlice<'a, u8>,
        ts: Timestamp,
    },
    Age {
        now: WallTime,
    },
    Stats,
    Flush,
    Compact {
        /// At most so many runs are left.
        keep: RunCount,
    },
    Layout,
}

impl Line<'_> {
    /// Whether it is no command.
    pub fn is_blank(&self) -> bool
        ensures { result ≡ is_blank (line_of self.now) }
    {
        matches!(self, Line::Blank)
    }
}
