//! Who reads or writes.
ghost use Rattle.std.specs.Prelude.{◌≡◌};
ghost use Rattle.std.specs.Option.{option_copied};
ghost use Rattle.mvcc_key.specs.views.Seen.{time_of};
ghost use Rattle.txn_state.specs.views.Seen.{actor_of};
ghost use Rattle.txn_state.specs.views.SeenId.{id_of};
ghost use Rattle.txn_state.specs.Transaction.{read_time, write_time, uncertainty_limit, own_txn};

use crate::{Txn, TxnId};
use mvcc_key::Timestamp;

/// Who reads or writes: no transaction, at a timestamp, or a transaction.
#[derive(Clone, Copy, Debug)]
pub enum Actor<'a> {
    At(Timestamp),
    In(&'a Txn),
}

impl<'a> Actor<'a> {
    /// The timestamp at which it reads.
    pub fn read_time(self) -> Timestamp
        ensures { time_of result ≡ read_time (actor_of self.entry) }
    {
        match self {
            Actor::At(ts) => ts,
            Actor::In(txn) => txn.read_ts(),
        }
    }

    /// The timestamp at which it writes.
    pub fn write_time(self) -> Timestamp
        ensures { time_of result ≡ write_time (actor_of self.entry) }
    {
        match self {
            Actor::At(ts) => ts,
            Actor::In(txn) => txn.write_ts(),
        }
    }

    /// Up to where a value may have been written before it began: the transaction's limit, or [`Timestamp::NONE`].
    pub fn uncertainty_limit(self) -> Timestamp
        ensures { time_of result ≡ uncertainty_limit (actor_of self.entry) }
    {
        match self {
            Actor::At(_) => Timestamp::NONE,
            Actor::In(txn) => txn.global_limit(),
        }
    }

    /// Its own transaction, where that has this id.
    pub fn own_txn(self, id: TxnId) -> Option<&'a Txn>
        ensures { option_copied result ≡ own_txn (id_of id) (actor_of self.entry) }
    {
        match self {
            Actor::In(txn) if txn.has_id(id) => Some(txn),
            _ => None,
        }
    }
}
