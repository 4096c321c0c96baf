//! What a line says of a transaction.
ghost use Rattle.std.specs.Prelude.{◌≡◌, IfOk};
ghost use Rattle.std.specs.Option.{option_map, unwrap_or};
ghost use Rattle.mvcc_key.specs.views.Seen.{time_of};
ghost use Rattle.intent_resolve.specs.views.Seen as resolved;
ghost use Rattle.intent_resolve.specs.views.Seen.{update_of};
ghost use Rattle.script_line.specs.views.SeenLine as line;
ghost use Rattle.script_run.specs.Output.{status_of, update};

use intent_resolve::{TxnStatus, Update};
use mvcc_key::{Elements, OutOfMemory, Timestamp};
use script_line::Status;
use std::alloc::Global;
use txn_state::Txn;

/// What is known of the transaction where it has this status, at the timestamp or else at its write timestamp.
pub fn update_by(
    alloc: Global,
    txn: &Txn,
    status: Status,
    ts: Option<Timestamp>,
) -> Result<Update, OutOfMemory>
    ensures { IfOk result (λ u. update_of u ≡ update txn.now (line.status_of status) (option_map time_of ts)) }
{
    let ignored = Vec::from_slice(alloc, txn.ignored())?;
    Ok(Update {
        id: txn.id(),
        epoch: txn.epoch(),
        status: txn_status(status),
        ts: given_or(ts, txn.write_ts()),
        ignored: Elements::from_vec(ignored),
    })
}

/// The status that a line names.
fn txn_status(status: Status) -> TxnStatus
    ensures { resolved.status_of result ≡ status_of (line.status_of status) }
{
    match status {
        Status::Committed => TxnStatus::Committed,
        Status::Aborted => TxnStatus::Aborted,
        Status::Pending => TxnStatus::Pending,
    }
}

/// The timestamp that is given, or else the other.
fn given_or(given: Option<Timestamp>, other: Timestamp) -> Timestamp
    ensures { time_of result ≡ unwrap_or (option_map time_of given) (time_of other) }
{
    match given {
        Some(ts) => ts,
        None => other,
    }
}
