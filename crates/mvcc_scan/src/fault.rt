//! Why a read is refused.
ghost use Rattle.std.specs.Prelude.{◌≡◌};

use intent_meta::IntentSeen;
use mvcc_key::{Elements, OutOfMemory, Timestamp};

/// Why a read is refused. The first of these that applies is the answer, but want of memory, which may come at any time.
#[derive(Debug, Drop)]
pub enum ScanFault {
    /// Memory was wanting.
    OutOfMemory,
    /// The read is inconsistent, and in a transaction or failing on more recent items.
    BadOptions,
    /// The start is not below the end, or a bound is longer than 4,097 bytes.
    BadSpan,
    /// A key's own intent is of a later epoch: the reader's epoch, and the intent's. It ends a scan at that key.
    EpochFault(u32, u32),
    /// An item of a key may have been written before the read began (CockroachDB `kvpb.ReadWithinUncertaintyIntervalError`): its
    /// timestamp, and its effective local one. It ends a scan at that key.
    Uncertain(Timestamp, Timestamp),
    /// An item is at or above the read timestamp, and the read fails on those (CockroachDB `kvpb.WriteTooOldError`): the
    /// greatest such timestamp of the walked keys, of each its newest item's.
    TooOld(Timestamp),
    /// Intents of other transactions are in the way (CockroachDB `kvpb.LockConflictError`): those of all walked keys, ascending
    /// by key.
    Conflict(Elements<IntentSeen>),
}

impl From<OutOfMemory> for ScanFault {
    ghost use Rattle.std.specs.Prelude.{◌≡◌};
    ghost use Rattle.mvcc_scan.specs.declared.fault.ScanFault.TheVariants as fault;

    ghost from_gives = { λ _ e. e ≡ fault.OutOfMemory };

    fn from(_: OutOfMemory) -> Self {
        ScanFault::OutOfMemory
    }
}
