//! Changes of a transaction that has begun.
ghost use Rattle.script_run.specs.Output.{by_rule};
ghost use Rattle.script_run.specs.views.Changed.{Changes, rule_of};

use crate::stop::CommandStop;
use mvcc_key::{SeqRange, Timestamp};
use txn_state::Txn;

/// What a line changes of a transaction that has begun.
#[derive(Clone, Copy, Debug)]
pub enum TxnChange<'a> {
    Step(u32),
    Advance(Timestamp),
    Restart(Timestamp),
    Refresh,
    IgnoreSeqs(&'a [SeqRange]),
}

impl TxnChange<'_> {
    /// Changes the transaction, by the rule of its call. Where the rule refuses it, or memory is wanting, the transaction stays as it was.
    pub fn make(self, txn: &mut Txn) -> Result<(), CommandStop>
        ensures { Changes result (by_rule (rule_of self.entry txn.old)) txn.old txn.new }
    {
        match self {
            TxnChange::Step(n) => txn.step(n)?,
            TxnChange::Advance(ts) => txn.advance(ts),
            TxnChange::Restart(ts) => txn.restart(ts)?,
            TxnChange::Refresh => txn.refresh(),
            TxnChange::IgnoreSeqs(ranges) => txn.ignore(ranges)?,
        }
        Ok(())
    }
}
