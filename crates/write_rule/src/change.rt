//! What a write comes to.
use mvcc_key::{Elements, PointOp};

/// What a write answers.
#[derive(Clone, Copy, Debug, PartialEq, Eq)]
pub enum WriteAnswer {
    /// The value was put.
    Done,
    /// Whether there was a value before the deletion.
    Found(bool),
    /// The number that was written.
    Number(i64),
}

/// What a write that is not refused changes of what is stored, in the order of a batch, and what it answers. A replay changes
/// nothing.
#[derive(Debug, Drop)]
pub struct KeyChange {
    pub points: Elements<PointOp>,
    pub answer: WriteAnswer,
}
