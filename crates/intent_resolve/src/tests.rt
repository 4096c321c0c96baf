//! Resolutions in a store that holds nothing, and an abort under a tombstone.
ghost use Rattle.std.specs.Prelude.{◌≡◌, ◌<◌};
ghost use Rattle.lsm_store.specs.Shown.{first_runs};
ghost use Rattle.stat_delta.specs.Moments.{IsStoredBy};
ghost use Rattle.mvcc_cursor.specs.WellFormed.{IsWellFormed, history_in};
ghost use Rattle.intent_resolve.specs.views.Hidden.{five_seconds};

use super::*;
use crate::hidden::hidden;
use lsm_store::Store;
use mvcc_key::{Elements, Looks, Timestamp};
use stat_core::Group;
use stat_delta::Change;
use std::alloc::Global;
use std::marker::Brand;
use std::sync::ledger::{Blank, Ledger};
use std::test::Fail;
use uuid::Uuid;

/// What is known of a transaction of this status.
fn ended(alloc: Global, status: TxnStatus) -> Update {
    Update {
        id: Uuid::from_bytes([7; 16]),
        epoch: 0,
        status,
        ts: Timestamp::NONE,
        ignored: Elements::new(alloc),
    }
}

/// Whether the change from the moment 5 on is none.
fn is_nothing(change: &Change) -> bool {
    change.batch.points.is_empty()
        && change.batch.ranges.is_empty()
        && change.delta == Group::zero()
        && change.last == 5
}

/// Whether the resolution of the key finds no intent where nothing is stored, and changes nothing.
fn finds_nothing<L: Ledger>(
    alloc: Global,
    store: &Store,
    key: &[u8],
    status: TxnStatus,
    blank: Blank,
) -> bool
    requires empty { store.now ≡ first_runs }
    requires name { blank.name ≡ L.name }
    requires parts { blank.parts ≡ L.parts }
    requires some { 0 < blank.parts }
{
    let mut looks = Looks::<L>::new(blank);
    match plan_resolve(alloc, store, 5, key, &ended(alloc, status), &mut looks) {
        Ok((change, found)) => !found && is_nothing(&change),
        Err(_) => false,
    }
}

/// Whatever the status and the key, no intent is found.
#[test]
fn an_empty_store_has_no_intent(rt: HostRuntime) -> Result<(), Fail> {
    let rows = [
        (&b"k"[..], TxnStatus::Committed),
        (&b"k"[..], TxnStatus::Aborted),
        (&b"k"[..], TxnStatus::Pending),
        (&b""[..], TxnStatus::Committed),
        (&[0x6b; 4098][..], TxnStatus::Aborted),
    ];
    for (key, status) in rows {
        let store = Store::new(rt.alloc());
        let blank = Blank::new(1);
        assert!(rt; finds_nothing::<Brand>(rt.alloc(), &store, key, status, blank));
    }
    Ok(())
}

/// Whether an abort of the intent of `a` changes the statistics so, and leaves their moment.
fn aborts<L: Ledger>(alloc: Global, store: &Store, want: Group, blank: Blank) -> bool
    requires formed { IsWellFormed (history_in store.now) store.now }
    requires by { IsStoredBy five_seconds (history_in store.now) }
    requires name { blank.name ≡ L.name }
    requires parts { blank.parts ≡ L.parts }
    requires some { 0 < blank.parts }
{
    let mut looks = Looks::<L>::new(blank);
    let update = Update {
        id: Uuid::from_bytes([7; 16]),
        epoch: 0,
        status: TxnStatus::Aborted,
        ts: Timestamp::NONE,
        ignored: Elements::new(alloc),
    };
    match plan_resolve(alloc, store, 5_000_000_000, b"a", &update, &mut looks) {
        Ok((change, found)) => { found && change.delta == want && change.last == 5_000_000_000 }
        Err(_) => false,
    }
}

/// An aborted intent over a version that a tombstone hides: the version is not live again. The key's two bytes are garbage since
/// the tombstone, as the version is, for two seconds.
#[test]
fn an_abort_revives_no_hidden_version(rt: HostRuntime) -> Result<(), Fail> {
    let want = Group {
        key_bytes: -12,
        val_count: -1,
        val_bytes: -53,
        live_count: -1,
        live_bytes: -67,
        intent_count: -1,
        intent_bytes: -20,
        gc_bytes_age: 4,
        ..Group::zero()
    };
    let store = hidden(rt.alloc())?;
    assert!(rt; aborts::<Brand>(rt.alloc(), &store, want, Blank::new(1)));
    Ok(())
}

/// Whether the resolution of the span changes nothing, handles none and leaves none, or refuses a bad span.
fn finds_nothing_within(
    alloc: Global,
    store: &Store,
    span: (&[u8], &[u8]),
    status: TxnStatus,
    max: Option<u64>,
    is_bad: bool,
) -> bool
    requires empty { store.now ≡ first_runs }
{
    let (start, end) = span;
    match plan_resolve_range(alloc, store, 5, start, end, &ended(alloc, status), max) {
        Ok((change, ranged)) => {
            !is_bad && is_nothing(&change) && ranged.count == 0 && ranged.resume.is_none()
        }
        Err(ResolveFault::BadSpan) => is_bad,
        Err(_) => false,
    }
}

/// Whatever the status and the most that may be handled, a span has no intent; a bad one is refused.
#[test]
fn an_empty_store_has_no_intent_in_a_span(rt: HostRuntime) -> Result<(), Fail> {
    let longest = &[0x6b; 4097][..];
    let longer = &[0x6b; 4098][..];
    let rows = [
        (&b"a"[..], &b"b"[..], TxnStatus::Committed, None, false),
        (&b"a"[..], &b"b"[..], TxnStatus::Aborted, Some(1), false),
        (&b"a"[..], &b"b"[..], TxnStatus::Pending, Some(0), false),
        (&b""[..], longest, TxnStatus::Committed, None, false),
        (&b""[..], longer, TxnStatus::Committed, None, true),
        (longer, &b"l"[..], TxnStatus::Committed, None, true),
        (&b"a"[..], &b"a"[..], TxnStatus::Aborted, None, true),
        (&b"b"[..], &b"a"[..], TxnStatus::Pending, Some(1), true),
        (&b""[..], &b""[..], TxnStatus::Committed, Some(0), true),
    ];
    for (start, end, status, max, is_bad) in rows {
        let store = Store::new(rt.alloc());
        let span = (start, end);
        assert!(rt; finds_nothing_within(rt.alloc(), &store, span, status, max, is_bad));
    }
    Ok(())
}
