//! Resolutions of the intents of transactions that ended, or moved.
use super::*;

/// What is known of the transaction of number 1: its epoch, its status and a wall time in seconds.
fn known(epoch: u32, status: TxnStatus, seconds: u64) -> Known {
    Known {
        id: 1,
        epoch,
        status,
        wall: seconds.saturating_mul(SECOND),
        ignored: None,
    }
}

/// The same, where these sequences are ignored.
fn ignoring(status: TxnStatus, seconds: u64, first: u32, last: u32) -> Known {
    let mut known = known(0, status, seconds);
    known.ignored = Some((first, last));
    known
}

fn put<'a>(who: Writer, key: &'a [u8], value: PlainValue<'static>) -> (Call<'a>, Answer) {
    (Call::Write(who, key, Write::Put(value)), Answer::Done)
}

/// What becomes of an intent of two writes over an older version, for each status, by the epoch, the ignored sequences and the
/// timestamp; a refused resolution and one of another transaction leave the statistics.
#[test]
fn an_intent_is_resolved(rt: HostRuntime) -> Result<(), Fail> {
    let first = put(Writer::At(SECOND), b"a", X);
    let second = put(Writer::In(1, 5 * SECOND, 0), b"a", ABC);
    let third = put(Writer::In(1, 5 * SECOND, 1), b"a", DE);
    let found = Answer::Resolved(true);
    let below = Answer::Refused(Why::Below(5 * SECOND));
    let stays = of_keys([1, 26, 2, 74, 1, 82], [1, 19, 0], 0, 5 * SECOND);
    let gone = of_keys([1, 14, 1, 6, 1, 20], [0; 3], 0, 5 * SECOND);
    let commit = TxnStatus::Committed;
    let pending = TxnStatus::Pending;
    let mut other = known(0, TxnStatus::Aborted, 5);
    other.id = 2;
    for (known, answer, want) in [
        (
            known(0, commit, 5),
            found,
            of_keys([1, 26, 2, 13, 1, 21], [0; 3], 0, 5 * SECOND),
        ),
        (
            known(0, commit, 9),
            found,
            of_keys([1, 26, 2, 30, 1, 38], [0; 3], 0, 9 * SECOND),
        ),
        (known(0, commit, 4), below, stays),
        (known(1, commit, 4), found, gone),
        (known(0, TxnStatus::Aborted, 9), found, gone),
        (
            known(0, pending, 9),
            found,
            of_keys([1, 26, 2, 91, 1, 99], [1, 36, 0], 0, 9 * SECOND),
        ),
        (known(0, pending, 4), found, stays),
        (known(1, pending, 9), found, gone),
        (
            ignoring(pending, 5, 1, 1),
            found,
            of_keys([1, 26, 2, 59, 1, 67], [1, 20, 0], 0, 5 * SECOND),
        ),
        (
            ignoring(commit, 9, 1, 1),
            found,
            of_keys([1, 26, 2, 31, 1, 39], [0; 3], 0, 9 * SECOND),
        ),
        (ignoring(pending, 9, 0, 1), found, gone),
        (ignoring(commit, 4, 0, 1), found, gone),
        (other, Answer::Resolved(false), stays),
    ] {
        let calls = [first, second, third, (Call::Resolve(b"a", known), answer)];
        let (wrong, engine) = course(rt.alloc(), LARGEST, &calls)?;
        assert_eq!(rt; wrong, None);
        assert_eq!(rt; numbers(&engine.stats()), want);
    }
    Ok(())
}

/// A moved intent keeps its first timestamp as the local one, through a second move and the commit, and is read where it ends.
#[test]
fn an_intent_moves_before_its_commit(rt: HostRuntime) -> Result<(), Fail> {
    let resolve = |status, seconds| Call::Resolve(b"a", known(0, status, seconds));
    let found = Answer::Resolved(true);
    let calls = [
        put(Writer::At(SECOND), b"a", X),
        put(Writer::In(1, 5 * SECOND, 0), b"a", ABC),
        put(Writer::In(1, 5 * SECOND, 1), b"a", DE),
        (resolve(TxnStatus::Pending, 9), found),
        (Call::Get(b"a", 8 * SECOND), Answer::Shown(X, SECOND)),
        (
            Call::Get(b"a", 9 * SECOND),
            Answer::Refused(Why::Conflict(1, 9 * SECOND)),
        ),
        (Call::Flush, Answer::Done),
        (
            resolve(TxnStatus::Committed, 8),
            Answer::Refused(Why::Below(9 * SECOND)),
        ),
        (resolve(TxnStatus::Committed, 12), found),
        (resolve(TxnStatus::Committed, 12), Answer::Resolved(false)),
        (Call::Get(b"a", 11 * SECOND), Answer::Shown(X, SECOND)),
        (Call::Get(b"a", 12 * SECOND), Answer::Shown(DE, 12 * SECOND)),
    ];
    let want = of_keys([1, 26, 2, 30, 1, 38], [0; 3], 0, 12 * SECOND);
    let (wrong, engine) = course(rt.alloc(), LARGEST, &calls)?;
    assert_eq!(rt; wrong, None);
    assert_eq!(rt; numbers(&engine.stats()), want);
    Ok(())
}

/// A resolution of the intents from `a` up to `z`.
fn all(status: TxnStatus, seconds: u64, max: Option<u64>) -> Call<'static> {
    Call::ResolveRange(b"a", b"z", known(0, status, seconds), max)
}

/// A commit of the intents of a span.
fn part<'a>(start: &'a [u8], end: &'a [u8], seconds: u64, max: Option<u64>) -> Call<'a> {
    Call::ResolveRange(start, end, known(0, TxnStatus::Committed, seconds), max)
}

/// Resolutions of spans with three intents of one transaction and one of another: what is left behind a limit, and that nothing
/// changes where the bounds are no span, or the last of the intents refuses.
#[test]
fn a_span_is_resolved(rt: HostRuntime) -> Result<(), Fail> {
    let commit = TxnStatus::Committed;
    let stays = of_keys([4, 56, 4, 209, 4, 265], [4, 77, 9], 0, 5 * SECOND);
    for (call, answer, want) in [
        (
            all(TxnStatus::Aborted, 5, Some(1)),
            Answer::Took(1, Some(b"c")),
            of_keys([3, 42, 3, 156, 3, 198], [3, 57, 6], 0, 5 * SECOND),
        ),
        (
            all(commit, 3, None),
            Answer::Refused(Why::Below(5 * SECOND)),
            stays,
        ),
        (
            all(commit, 3, Some(2)),
            Answer::Took(2, Some(b"d")),
            of_keys([4, 56, 4, 153, 4, 209], [2, 37, 3], 0, 5 * SECOND),
        ),
        (all(commit, 3, Some(0)), Answer::Took(0, Some(b"a")), stays),
        (
            part(b"b", b"b", 3, None),
            Answer::Refused(Why::NoSpan),
            stays,
        ),
        (
            all(commit, 5, Some(3)),
            Answer::Took(3, None),
            of_keys([4, 56, 4, 108, 4, 164], [1, 18, 3], 0, 5 * SECOND),
        ),
        (
            part(b"b", b"d", 2, Some(7)),
            Answer::Took(1, None),
            of_keys([4, 56, 4, 164, 4, 220], [3, 57, 6], 0, 5 * SECOND),
        ),
        (
            all(TxnStatus::Pending, 9, None),
            Answer::Took(3, None),
            of_keys([4, 56, 4, 260, 4, 316], [4, 128, 7], 0, 9 * SECOND),
        ),
    ] {
        let calls = [
            put(Writer::In(1, 2 * SECOND, 0), b"a", ABC),
            put(Writer::In(2, 2 * SECOND, 0), b"b", X),
            put(Writer::In(1, 2 * SECOND, 0), b"c", ABC),
            put(Writer::In(1, 5 * SECOND, 0), b"d", DE),
            (call, answer),
        ];
        let (wrong, engine) = course(rt.alloc(), LARGEST, &calls)?;
        assert_eq!(rt; wrong, None);
        assert_eq!(rt; numbers(&engine.stats()), want);
    }
    Ok(())
}

/// A commit at a moment to which the statistics before it could not be aged: the older version is garbage only from there on.
#[test]
fn a_commit_passes_no_bound(rt: HostRuntime) -> Result<(), Fail> {
    let aged = Answer::Refused(Why::Count(Field::GcBytesAge));
    let calls = [
        put(Writer::At(SECOND), b"a", ABC),
        put(Writer::In(1, 2 * SECOND, 0), b"a", ABC),
        (Call::Age(10 * SECOND), aged),
        (
            Call::Resolve(b"a", known(0, TxnStatus::Committed, 10)),
            Answer::Resolved(true),
        ),
    ];
    let want = of_keys([1, 26, 2, 33, 1, 39], [0; 3], 0, 10 * SECOND);
    let (wrong, engine) = course(rt.alloc(), 100, &calls)?;
    assert_eq!(rt; wrong, None);
    assert_eq!(rt; numbers(&engine.stats()), want);
    Ok(())
}
