//! How long the calls at a key with many versions take.
ghost use Rattle.std.specs.Prelude.{◌≡◌, ◌<◌};
ghost use Rattle.mvcc_cursor.specs.WellFormed.{IsWellFormed, history_in};

use super::*;
use crate::filled::at;
use crate::many::{FEW, MANY, many};
use lsm_store::Store;
use mvcc_key::Looks;
use std::alloc::Global;
use std::marker::Brand;
use std::process::Abort;
use std::sync::ledger::{Blank, Ledger};
use std::test::Fail;
use std::time::{CpuClock, Duration};

/// How many calls of each kind are timed together.
const CALLS: u64 = 10_000;

/// How often they are timed; the shortest time counts.
const ROUNDS: u64 = 20;

/// The wall time that a call seeks, of those from 1 to the number of versions. Every other call seeks the newest version, at each
/// key, since that one is told without a seek of its own. The others go from one older version to another that is far from it, and
/// come to each of 9,999 in two rounds.
fn sought(round: u64, call: u64, versions: u64) -> u64
    requires round { round < 20 }
    requires call { call < 10000 }
    requires some { 1 < versions }
{
    if call % 2 == 0 {
        versions
    } else {
        (round * CALLS + call) * 7_919 % (versions - 1) + 1
    }
}

/// Seeks the key and one of its versions, again and again, and asserts that each call finds what it seeks.
fn find_each<L: Ledger>(
    rt: &impl Abort,
    cursor: &mut MvccCursor<'_>,
    key: &[u8],
    versions: u64,
    round: u64,
    looks: &mut Looks<L>,
)
    requires some { 1 < versions }
    requires round { round < 20 }
{
    for call in 0..CALLS {
        let ts = at(sought(round, call, versions));
        let is_stored = cursor.seek_exact(key, looks);
        let is_found = match cursor.version_at_or_below(ts, looks) {
            Some(item) => item.ts == ts,
            None => false,
        };
        assert!(rt; is_stored && is_found, "call {call} at {versions} versions");
    }
}

/// The processor time that the calls of a round take at a key of so many versions.
fn time_at<R: Abort + CpuClock, L: Ledger>(
    rt: &R,
    cursor: &mut MvccCursor<'_>,
    key: &[u8],
    versions: u64,
    round: u64,
    looks: &mut Looks<L>,
) -> Result<Duration, Fail>
    requires some { 1 < versions }
    requires round { round < 20 }
{
    let start = rt.thread_cpu_time()?;
    find_each(rt, cursor, key, versions, round, looks);
    Ok(rt.thread_cpu_time()?.saturating_sub(start))
}

/// The least times of the rounds: at the key of 10,000 versions, and at the one of two in the same store.
fn least_times<R: Abort + CpuClock, L: Ledger>(
    rt: &R,
    alloc: Global,
    store: &Store,
    blank: Blank,
) -> Result<(Duration, Duration), Fail>
    requires well_formed { IsWellFormed (history_in store.now) store.now }
    requires name { blank.name ≡ L.name }
    requires parts { blank.parts ≡ L.parts }
    requires some { 0 < blank.parts }
{
    let mut looks = Looks::<L>::new(blank);
    let mut cursor = MvccCursor::over(alloc, store)?;
    let mut least = (Duration::MAX, Duration::MAX);
    for round in 0..ROUNDS {
        let many = time_at(rt, &mut cursor, MANY, 10_000, round, &mut looks)?;
        let few = time_at(rt, &mut cursor, FEW, 2, round, &mut looks)?;
        least = (least.0.min(many), least.1.min(few));
    }
    Ok(least)
}

/// 10,000 calls of `seek_exact` and of `version_at_or_below` take at most twice the time at a key of 10,000 versions in four parts
/// that they take at a key of two. No look can be counted when a test runs, since contracts alone see them, so this is processor
/// time, and the parts are asserted to hold what they should.
#[test]
fn versions_cost_no_time(rt: HostRuntime) -> Result<(), Fail> {
    let store = many(rt.alloc())?;
    let parts = store.layout()?;
    assert_eq!(rt; parts.len(), 4);
    for (part, keys) in parts.iter().zip([2_500, 2_500, 2_500, 2_504].iter()) {
        assert_eq!(rt; part.keys, *keys);
    }
    let (many, few) = least_times::<_, Brand>(&rt, rt.alloc(), &store, Blank::new(1))?;
    assert!(rt; Duration::ZERO < few);
    assert!(rt; many <= few.saturating_mul(2), "{many:?} and {few:?}");
    Ok(())
}
