//! Puts into large stores, and a resolution over a span of one.
ghost use Rattle.std.specs.Prelude.{◌≡◌, ◌<◌};

use super::*;
use std::time::{CpuClock, Duration};

/// The last digit of a number.
fn digit(number: u32) -> u8 {
    b'0' + (number % 10) as u8
}

/// The key `k` and six digits.
fn numbered(number: u32) -> [u8; 7] {
    [
        b'k',
        digit(number / 100_000),
        digit(number / 10_000),
        digit(number / 1_000),
        digit(number / 100),
        digit(number / 10),
        digit(number),
    ]
}

/// Puts `abc` at a wall time under rising keys.
fn put_rising<L: Ledger>(
    engine: &mut Engine,
    count: u32,
    wall: u64,
    looks: &mut Looks<L>,
) -> Result<(), Refusal> {
    let who = Actor::At(at(wall));
    for number in 0..count {
        engine.put(who, &numbered(number), ABC, Timestamp::NONE, looks)?;
    }
    Ok(())
}

fn filled<L: Ledger>(alloc: Global, count: u32, blank: Blank) -> Result<Engine, Refusal>
    requires name { blank.name ≡ L.name }
    requires parts { blank.parts ≡ L.parts }
    requires some { 0 < blank.parts }
{
    let mut looks = Looks::<L>::new(blank);
    let mut engine = bounded(alloc, LARGEST);
    put_rising(&mut engine, count, SECOND, &mut looks)?;
    Ok(engine)
}

/// A put costs no look at the whole store: with 150,000 keys in the memory table this ends within a test's time.
#[test]
fn rising_keys_are_put(rt: HostRuntime) -> Result<(), Fail> {
    let engine = filled::<Brand>(rt.alloc(), 150_000, Blank::new(1))?;
    let keys = [150_000, 3_000_000, 150_000, 1_200_000, 150_000, 4_200_000];
    assert_eq!(rt; numbers(&engine.stats()), of_keys(keys, [0; 3], 0, SECOND));
    Ok(())
}

/// Calls with what they are to answer, and the statistics after them.
type Row<'a> = (&'a [(Call<'a>, Answer)], [u64; 15]);

/// The first row that is answered otherwise, over two versions of each of 100,000 keys, the older ones in a run.
fn first_wrong_row<L: Ledger>(
    alloc: Global,
    rows: &[Row<'_>],
    blank: Blank,
) -> Result<Option<usize>, Fail>
    requires name { blank.name ≡ L.name }
    requires parts { blank.parts ≡ L.parts }
    requires some { 0 < blank.parts }
{
    let mut looks = Looks::<L>::new(blank);
    let mut engine = bounded(alloc, LARGEST);
    put_rising(&mut engine, 100_000, SECOND, &mut looks)?;
    engine.flush()?;
    put_rising(&mut engine, 100_000, 2 * SECOND, &mut looks)?;
    for (i, (calls, want)) in rows.iter().enumerate() {
        let wrong = first_wrong(alloc, &mut engine, calls, &mut looks)?;
        if wrong.is_some() || numbers(&engine.stats()) != *want {
            return Ok(Some(i));
        }
    }
    Ok(None)
}

/// Three intents among 100,000 keys of two versions are resolved within a test's time, and one of another transaction stays. Where
/// the last of the three refuses, nothing is changed.
#[test]
fn a_span_of_a_large_store_is_resolved(rt: HostRuntime) -> Result<(), Fail> {
    let put = |id, seconds, key| {
        let who = Writer::In(id, SECOND.saturating_mul(seconds), 0);
        (Call::Write(who, key, Write::Put(DE)), Answer::Done)
    };
    let commit = |seconds, answer| {
        let known = Known {
            id: 1,
            epoch: 0,
            status: TxnStatus::Committed,
            wall: SECOND.saturating_mul(seconds),
            ignored: None,
        };
        (Call::ResolveRange(b"k", b"z", known, None), answer)
    };
    let puts = [
        put(1, 5, b"k000000"),
        put(1, 5, b"k050000"),
        put(2, 5, b"k050001"),
        put(1, 7, b"k099999"),
    ];
    let below = [commit(6, Answer::Refused(Why::Below(7 * SECOND)))];
    let taken = [commit(9, Answer::Took(3, None))];
    let keys = [100_000, 3_200_048, 200_004, 1_600_208, 100_000, 2_800_176];
    let stays = of_keys(keys, [4, 76, 6], 10_000_120, 7 * SECOND);
    let keys = [100_000, 3_200_048, 200_004, 1_600_124, 100_000, 2_800_092];
    let after = of_keys(keys, [1, 19, 4], 14_000_080, 9 * SECOND);
    let rows: [Row<'_>; 3] = [(&puts, stays), (&below, stays), (&taken, after)];
    let wrong = first_wrong_row::<Brand>(rt.alloc(), &rows, Blank::new(1))?;
    assert_eq!(rt; wrong, None);
    Ok(())
}

/// Puts versions of the key at all wall times from one up to, and without, another.
fn put_versions<L: Ledger>(
    engine: &mut Engine,
    key: &[u8],
    walls: (u64, u64),
    looks: &mut Looks<L>,
) -> Result<(), Refusal> {
    for wall in walls.0..walls.1 {
        engine.put(Actor::At(at(wall)), key, ABC, Timestamp::NONE, looks)?;
    }
    Ok(())
}

/// The processor time that these puts take.
fn time_of<C: CpuClock, L: Ledger>(
    clock: &C,
    engine: &mut Engine,
    key: &[u8],
    walls: (u64, u64),
    looks: &mut Looks<L>,
) -> Result<Duration, Fail> {
    let start = clock.thread_cpu_time()?;
    put_versions(engine, key, walls, looks)?;
    Ok(clock.thread_cpu_time()?.saturating_sub(start))
}

/// The least times of five rounds of 200 puts each: under a key of 10,000 versions, and under one of two in the same engine.
fn least_times<C: CpuClock, L: Ledger>(
    clock: &C,
    alloc: Global,
    blank: Blank,
) -> Result<(Duration, Duration), Fail>
    requires name { blank.name ≡ L.name }
    requires parts { blank.parts ≡ L.parts }
    requires some { 0 < blank.parts }
{
    let mut looks = Looks::<L>::new(blank);
    let mut engine = bounded(alloc, LARGEST);
    put_versions(&mut engine, b"a", (1, 10_001), &mut looks)?;
    put_versions(&mut engine, b"b", (1, 3), &mut looks)?;
    let mut least = (Duration::MAX, Duration::MAX);
    for walls in [
        (10_001, 10_201),
        (10_201, 10_401),
        (10_401, 10_601),
        (10_601, 10_801),
        (10_801, 11_001),
    ] {
        let many = time_of(clock, &mut engine, b"a", walls, &mut looks)?;
        let few = time_of(clock, &mut engine, b"b", walls, &mut looks)?;
        least = (least.0.min(many), least.1.min(few));
    }
    Ok(least)
}

/// A thousand puts under a key of 10,000 versions take at most twice the time of as many under one of two. No look can be counted
/// when a test runs, since contracts alone see them, so this is processor time.
#[test]
fn versions_cost_no_time(rt: HostRuntime) -> Result<(), Fail> {
    let (many, few) = least_times::<_, Brand>(&rt, rt.alloc(), Blank::new(1))?;
    assert!(rt; many <= few.saturating_mul(2), "{many:?} and {few:?}");
    Ok(())
}
