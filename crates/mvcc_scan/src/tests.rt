//! Reads of a store that holds nothing.
ghost use Rattle.std.specs.Prelude.{◌≡◌};
ghost use Rattle.lsm_store.specs.Shown.{first_runs};

use super::*;
use lsm_store::Store;
use mvcc_key::Timestamp;
use read_rule::ReadOptions;
use std::alloc::Global;
use std::test::Fail;
use txn_state::{Actor, Txn};
use uuid::Uuid;

fn at(wall: u64) -> Timestamp {
    Timestamp::new(wall, 0).unwrap_or(Timestamp::NONE)
}

/// Whether a read of the key answers no data and lists nothing, or is refused for its options.
fn is_answered(
    alloc: Global,
    store: &Store,
    who: Actor<'_>,
    key: &[u8],
    options: ReadOptions,
    is_bad: bool,
) -> bool
    requires { store.now ≡ first_runs }
{
    match plan_get(alloc, store, who, key, options) {
        Ok(answer) => !is_bad && answer.found.is_none() && answer.intents.is_empty(),
        Err(ScanFault::BadOptions) => is_bad,
        Err(_) => false,
    }
}

/// Keys of any length have no data, outside transactions and in one; the options are judged first.
#[test]
fn an_empty_store_has_no_data(rt: HostRuntime) -> Result<(), Fail> {
    let txn = Txn::begin(rt.alloc(), Uuid::from_u128(1), at(5), at(9));
    let rows = [
        (&b""[..], false, false, false, false),
        (&b"k"[..], false, true, false, false),
        (&[0x6b; 4097][..], true, false, false, true),
        (&[0x6b; 4098][..], true, true, true, true),
    ];
    for (key, inconsistent, fail_more_recent, outside, inside) in rows {
        let store = Store::new(rt.alloc());
        let options = ReadOptions {
            local_limit: at(3),
            inconsistent,
            fail_more_recent,
        };
        let alone = Actor::At(at(5));
        assert!(rt; is_answered(rt.alloc(), &store, alone, key, options, outside));
        let within = Actor::In(&txn);
        assert!(rt; is_answered(rt.alloc(), &store, within, key, options, inside));
    }
    Ok(())
}

/// What a scan of the span answers of a store that holds nothing.
fn scanned(
    alloc: Global,
    store: &Store,
    who: Actor<'_>,
    span: (&[u8], &[u8]),
    options: ReadOptions,
    limits: ScanLimits,
) -> &'static str
    requires { store.now ≡ first_runs }
{
    match plan_scan(alloc, store, who, span.0, span.1, options, limits) {
        Ok(answer) => {
            if answer.rows.is_empty() && answer.intents.is_empty() && answer.resume.is_none() {
                "nothing"
            } else {
                "something"
            }
        }
        Err(ScanFault::BadOptions) => "bad options",
        Err(ScanFault::BadSpan) => "bad span",
        Err(_) => "another fault",
    }
}

/// Spans have no rows and leave nothing, whatever the limits; the options are judged first, and then the span.
#[test]
fn an_empty_store_has_no_rows(rt: HostRuntime) -> Result<(), Fail> {
    let rows = [
        (&b"a"[..], &b"z"[..], false, None, "nothing"),
        (&b"a"[..], &b"z"[..], false, Some(0), "nothing"),
        (&b""[..], &[0x6b; 4097][..], false, Some(1), "nothing"),
        (&b""[..], &[0x6b; 4098][..], false, None, "bad span"),
        (&b"z"[..], &b"a"[..], false, None, "bad span"),
        (&b"a"[..], &b"a"[..], false, None, "bad span"),
        (&b"z"[..], &b"a"[..], true, None, "bad options"),
    ];
    for (start, end, is_bad, max, answer) in rows {
        for reverse in [false, true] {
            let store = Store::new(rt.alloc());
            let options = ReadOptions {
                local_limit: at(3),
                inconsistent: is_bad,
                fail_more_recent: is_bad,
            };
            let limits = ScanLimits {
                reverse,
                max,
                target: 20,
                allow_empty: true,
            };
            let who = Actor::At(at(5));
            let found = scanned(rt.alloc(), &store, who, (start, end), options, limits);
            assert!(rt; found == answer);
        }
    }
    Ok(())
}
