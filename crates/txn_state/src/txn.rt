//! Transactions.
ghost use Rattle.std.specs.Prelude.{◌≡◌, ◌↔◌, ◌+◌, ◌<◌, ◌≤◌, ◌≢◌, bytes_eq, length, IsTrue, IsErrOf, OnErr, false, Err};
ghost use Rattle.mvcc_key.specs.Limits.{max_count};
ghost use Rattle.mvcc_key.specs.Order.{is_up_to};
ghost use Rattle.mvcc_key.specs.views.Seen.{time_of};
ghost use Rattle.txn_state.specs.views.Seen.{ranges_of, outcome_of, Answers};
ghost use Rattle.txn_state.specs.views.SeenId.{id_of};
ghost use Rattle.txn_state.specs.Transaction.{begun, stepped, advanced, refreshed, restarted, are_ranges, ignoring};

use crate::ranges::are_rising;
use crate::{IgnoreFault, TxnFault, TxnId};
use mvcc_key::{MAX_COUNT, SeqRange, Timestamp};
use smallvec::SmallVec;
use std::alloc::Global;
use std::marker::Model;
use uuid::Uuid;

/// Up to how many ignored ranges a transaction takes no memory for them.
pub const FEW_RANGES: usize = 4;

/// A transaction as its reads and writes see it (CockroachDB `roachpb.Transaction`).
///
/// It reads at its read timestamp, which is never later than its write timestamp, at which its intents are written. Each write
/// has a sequence within the transaction's epoch, and writes at ignored sequences count as never made: so a transaction goes
/// back to a savepoint. A refused call leaves the transaction as it was.
///
/// | call | epoch | sequence | reads at | writes at | ignores |
/// |---|---|---|---|---|---|
/// | `begin` at 5 | 0 | 0 | 5 | 5 | nothing |
/// | `step(3)` | 0 | 3 | 5 | 5 | nothing |
/// | `ignore` 1 to 2 | 0 | 3 | 5 | 5 | 1 to 2 |
/// | `advance` to 8 | 0 | 3 | 5 | 8 | 1 to 2 |
/// | `refresh` | 0 | 3 | 8 | 8 | 1 to 2 |
/// | `restart` at 7 | 1 | 0 | 8 | 8 | nothing |
#[derive(Debug, Drop)]
pub struct Txn {
    id: TxnId,
    epoch: u32,
    sequence: u32,
    read_ts: Timestamp,
    write_ts: Timestamp,
    global_limit: Timestamp,
    ignored: SmallVec<SeqRange, FEW_RANGES>,
}

impl Model for Txn {
    ghost use Rattle.txn_state.specs.Transaction.{Txn as Transaction};

    ghost Value = { Transaction };

    ghost use Rattle.txn_state.specs.views.SeenTxn.{txn_of};
    ghost use Rattle.txn_state.specs.Transaction.{IsWhole};

    ghost view = { txn_of };

    ghost invariant = { λ t. IsWhole (txn_of t) };
}

impl Txn {
    /// A transaction of this id that reads and writes at `ts`, with epoch 0 and sequence 0, which ignores nothing. A value up to
    /// `limit` may have been written before it began (CockroachDB `GlobalUncertaintyLimit`); [`Timestamp::NONE`] is no
    /// limit above its read timestamp. This takes no memory.
    pub fn begin(alloc: Global, id: Uuid, ts: Timestamp, limit: Timestamp) -> Txn
        ensures { result ≡ begun id (time_of ts) (time_of limit) }
    {
        Txn {
            id: TxnId::from(id),
            epoch: 0,
            sequence: 0,
            read_ts: ts,
            write_ts: ts,
            global_limit: limit,
            ignored: SmallVec::new(alloc),
        }
    }

    /// The id.
    pub fn id(&self) -> Uuid
        ensures { result ≡ self.now.id }
    {
        Uuid::from(self.id)
    }

    /// How often it was restarted, at most 2^31-1.
    pub fn epoch(&self) -> u32
        ensures value { result ≡ self.now.epoch }
        ensures limit { self.now.epoch ≤ max_count }
    {
        self.epoch
    }

    /// The timestamp at which it reads.
    pub fn read_ts(&self) -> Timestamp
        ensures value { time_of result ≡ self.now.read_ts }
        ensures by_write { IsTrue (is_up_to self.now.read_ts self.now.write_ts) }
    {
        self.read_ts
    }

    /// The timestamp at which it writes.
    pub fn write_ts(&self) -> Timestamp
        ensures { time_of result ≡ self.now.write_ts }
    {
        self.write_ts
    }

    /// The sequence of its next read or write, at most 2^31-1.
    pub fn sequence(&self) -> u32
        ensures value { result ≡ self.now.sequence }
        ensures limit { self.now.sequence ≤ max_count }
    {
        self.sequence
    }

    /// The ranges of sequences that it ignores, which rise.
    pub fn ignored(&self) -> &[SeqRange]
        ensures value { ranges_of result.now ≡ self.now.ignored }
        ensures rise { IsTrue (are_ranges self.now.ignored) }
    {
        self.ignored.as_slice()
    }

    /// Up to where a value may have been written before the transaction began.
    pub fn global_limit(&self) -> Timestamp
        ensures { time_of result ≡ self.now.global_limit }
    {
        self.global_limit
    }

    /// Goes `n` sequences on. `SequenceLimit`, with the sequence as it stands, comes exactly where the sum passes 2^31-1.
    pub fn step(&mut self, n: u32) -> Result<(), TxnFault>
        ensures outcome { outcome_of result self.new ≡ stepped n self.old }
        ensures limit { IsErrOf result (TxnFault.SequenceLimit self.old.sequence) ↔ (max_count < self.old.sequence + n) }
        ensures err { OnErr result (self.new ≡ self.old) }
    {
        if MAX_COUNT - self.sequence < n {
            return Err(TxnFault::SequenceLimit(self.sequence));
        }
        self.sequence += n;
        Ok(())
    }

    /// Writes at `ts` or later from now on (CockroachDB `WriteTimestamp.Forward`).
    pub fn advance(&mut self, ts: Timestamp)
        ensures { self.new ≡ advanced (time_of ts) self.old }
    {
        if self.write_ts < ts {
            self.write_ts = ts;
        }
    }

    /// Begins a new epoch at sequence 0, which ignores nothing and writes at `ts` or later, and reads where it writes (CockroachDB
    /// `Transaction.Restart`). `EpochLimit`, with the epoch as it stands, comes exactly at epoch 2^31-1.
    pub fn restart(&mut self, ts: Timestamp) -> Result<(), TxnFault>
        ensures outcome { outcome_of result self.new ≡ restarted (time_of ts) self.old }
        ensures limit { IsErrOf result (TxnFault.EpochLimit self.old.epoch) ↔ (self.old.epoch ≡ max_count) }
        ensures err { OnErr result (self.new ≡ self.old) }
    {
        if self.epoch == MAX_COUNT {
            return Err(TxnFault::EpochLimit(self.epoch));
        }
        self.epoch += 1;
        self.sequence = 0;
        self.ignored.clear();
        self.advance(ts);
        self.refresh();
        Ok(())
    }

    /// Reads at the write timestamp from now on (CockroachDB `Transaction.BumpReadTimestamp`).
    pub fn refresh(&mut self)
        ensures { self.new ≡ refreshed self.old }
    {
        self.read_ts = self.write_ts;
    }

    /// Answers the sequences of these ranges, in place of those that it ignored before (CockroachDB `IgnoredSeqNums`). `BadRanges`
    /// comes exactly where a range ends before it begins, begins at or below the end of the one before it, or has a number
    /// above 2^31-1. Up to [`FEW_RANGES`] ranges take no memory.
    pub fn ignore(&mut self, ranges: &[SeqRange]) -> Result<(), IgnoreFault>
        ensures outcome { Answers result self.new (ignoring (ranges_of ranges.now) self.old) }
        ensures bad { IsErrOf result IgnoreFault.BadRanges ↔ (are_ranges (ranges_of ranges.now) ≡ false) }
        ensures few { length ranges.now ≤ FEW_RANGES → result ≢ Err IgnoreFault.OutOfMemory }
        ensures err { OnErr result (self.new ≡ self.old) }
    {
        if !are_rising(ranges) {
            return Err(IgnoreFault::BadRanges);
        }
        self.ignored = SmallVec::from_slice(*self.ignored.allocator(), ranges)?;
        Ok(())
    }

    /// Whether it has this id.
    pub(crate) fn has_id(&self, id: TxnId) -> bool
        ensures { result ≡ bytes_eq self.now.id (id_of id) }
    {
        self.id.is_same(id)
    }
}

#[cfg(test)]
mod tests;
