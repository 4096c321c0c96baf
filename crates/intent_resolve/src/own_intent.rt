//! An intent of the transaction, as it lies in bytes.
ghost use Rattle.std.specs.Prelude.{◌≡◌, ◌==◌, nat_lt};
ghost use Rattle.mvcc_key.specs.History.{Intent};
ghost use Rattle.mvcc_key.specs.Order as order;
ghost use Rattle.mvcc_key.specs.views.Seen.{time_of};
ghost use Rattle.intent_resolve.specs.views.Own.{local_after};

use intent_meta::IntentRef;
use mvcc_key::Timestamp;

/// An intent of the transaction where it lies.
#[derive(Clone, Copy)]
pub(crate) struct OwnIntent<'a> {
    /// The intent's record.
    pub head: IntentRef<'a>,
    /// The plain provisional value, and nothing for a deletion.
    pub provisional: &'a [u8],
    /// The local timestamp that its provisional version keeps, or none.
    pub local: Timestamp,
}

impl OwnIntent<'_> {
    ghost use Rattle.intent_resolve.specs.Resolve.{moved_local};
    ghost use Rattle.intent_resolve.specs.views.Own.{IsLentOf, seen_own};

    /// The timestamp of its provisional version.
    pub(crate) fn ts(self) -> Timestamp
        ensures { time_of result ≡ (seen_own self.entry).head.ts }
    {
        self.head.ts()
    }

    /// It is of this epoch.
    pub(crate) fn is_of_epoch(self, epoch: u32) -> bool
        ensures { (i : Intent) → IsLentOf self.entry i → result ≡ (epoch == i.epoch) }
    {
        epoch == self.head.epoch()
    }

    /// It is of an epoch before this one.
    pub(crate) fn is_before_epoch(self, epoch: u32) -> bool
        ensures { (i : Intent) → IsLentOf self.entry i → result ≡ nat_lt i.epoch epoch }
    {
        self.head.epoch() < epoch
    }

    /// Its local timestamp once it is moved: where its timestamp grows, the earlier local timestamp, or else the earlier timestamp.
    pub(crate) fn moved_local(self, ts: Timestamp) -> Timestamp
        ensures { (i : Intent) → IsLentOf self.entry i → time_of result ≡ moved_local i (time_of ts) }
    {
        moved_time(self.ts(), self.local, ts)
    }
}

/// The local timestamp of what is moved from one timestamp to another.
fn moved_time(old: Timestamp, local: Timestamp, ts: Timestamp) -> Timestamp
    ensures { time_of result ≡ local_after (time_of old) (time_of local) (time_of ts) }
{
    if local == Timestamp::NONE && old.compare(ts).is_lt() {
        old
    } else {
        local
    }
}

/// The later of two timestamps.
pub(crate) fn later(a: Timestamp, b: Timestamp) -> Timestamp
    ensures { time_of result ≡ order.later (time_of a) (time_of b) }
{
    if a.compare(b).is_lt() { b } else { a }
}
