//! What is asked of a write.
use mvcc_key::Timestamp;
use mvcc_value::PlainValue;
use txn_state::Actor;

/// What is written, and under which condition.
#[derive(Clone, Copy, Debug)]
pub enum WriteKind<'a> {
    /// The value (CockroachDB `MVCCPut`).
    Put(PlainValue<'a>),
    /// A deletion, also where no value is there (CockroachDB `MVCCDelete`).
    Delete,
    /// The first value, where the value before is the second, or none is there and none is given (CockroachDB
    /// `MVCCConditionalPut`). A local timestamp is not compared.
    ConditionalPut(PlainValue<'a>, Option<PlainValue<'a>>),
    /// The value, where none is there or this one is (CockroachDB `MVCCInitPut`).
    InitPut(PlainValue<'a>),
    /// The number that is the value before and this one together; where none is there, it is this one (CockroachDB
    /// `MVCCIncrement`).
    Increment(i64),
}

/// A write of one key: who writes what, with which local timestamp. The local timestamp is kept only where it is below that of
/// the value that is written; [`Timestamp::NONE`] is none.
#[derive(Clone, Copy, Debug)]
pub struct WriteRequest<'a> {
    pub who: Actor<'a>,
    pub kind: WriteKind<'a>,
    pub local: Timestamp,
}
