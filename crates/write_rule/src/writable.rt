//! That what a request writes may be stored: its numbers are in the ranges of their types.
ghost use Rattle.std.specs.Prelude.{IsTrue};
ghost use Rattle.mvcc_key.specs.Order.{is_in_range};
ghost use Rattle.mvcc_key.specs.views.Seen.{time_of};
ghost use Rattle.txn_state.specs.views.Seen.{actor_of};
ghost use Rattle.write_rule.specs.Writable.{FitsKind, IsWritable, IsWriter, MayWrite};
ghost use Rattle.write_rule.specs.views.Seen.{kind_of, request_of};

use crate::{WriteKind, WriteRequest};
use mvcc_key::Timestamp;
use txn_state::{Actor, Txn};

/// It holds of every request.
pub(crate) fn is_writable(request: &WriteRequest<'_>)
    ensures { IsWritable (request_of request.now) }
{
    is_writer(request.who);
    fits_time(request.who.write_time());
    fits_kind(request.kind);
    fits_time(request.local);
}

/// The numbers of a transaction are in their ranges, and it reads no later than it writes.
fn is_writer(who: Actor<'_>)
    ensures { MayWrite (actor_of who.entry) }
{
    if let Actor::In(txn) = who {
        fits_txn(txn);
    }
}

/// Its numbers are in their ranges, and it reads no later than it writes.
fn fits_txn(txn: &Txn)
    ensures { IsWriter txn.now }
{
    let _ = (txn.id(), txn.epoch(), txn.sequence(), txn.read_ts());
}

/// A number has 64 bits.
fn fits_kind(kind: WriteKind<'_>)
    ensures { FitsKind (kind_of kind.entry) }
{}

/// A timestamp is in its range.
fn fits_time(ts: Timestamp)
    ensures { IsTrue (is_in_range (time_of ts)) }
{}
