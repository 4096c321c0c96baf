//! Writes and reads beside transactions.
use super::*;

const BY_ONE: Writer = Writer::In(1, 2 * SECOND, 0);

const ONE_MORE: Writer = Writer::In(1, 2 * SECOND, 1);

const TWO_MORE: Writer = Writer::In(1, 2 * SECOND, 2);

/// A put that is made twice changes nothing the second time; one with another value, and one whose sequence no entry has, are
/// refused, and so is another's.
#[test]
fn a_put_is_replayed(rt: HostRuntime) -> Result<(), Fail> {
    let put = |who, value| Call::Write(who, b"a", Write::Put(value));
    let first = of_keys([1, 14, 1, 53, 1, 67], [1, 20, 0], 0, 2 * SECOND);
    let second = of_keys([1, 14, 1, 68, 1, 82], [1, 19, 0], 0, 2 * SECOND);
    let other = Why::Conflict(1, 2 * SECOND);
    let calls = [
        (put(BY_ONE, ABC), Answer::Done),
        (put(BY_ONE, ABC), Answer::Done),
        (put(BY_ONE, X), Answer::Refused(Why::Mismatch(Some(ABC)))),
        (put(TWO_MORE, DE), Answer::Done),
        (put(ONE_MORE, DE), Answer::Refused(Why::Missing(1))),
        (put(Writer::At(9 * SECOND), X), Answer::Refused(other)),
        (put(Writer::In(2, 9 * SECOND, 0), X), Answer::Refused(other)),
    ];
    for (made, want) in [(1, first), (2, first), (3, first), (4, second), (7, second)] {
        let calls = calls.get(..made).unwrap_or(&[]);
        let (wrong, engine) = course(rt.alloc(), LARGEST, calls)?;
        assert_eq!(rt; wrong, None);
        assert_eq!(rt; numbers(&engine.stats()), want);
    }
    Ok(())
}

/// A read meets an intent at or below its timestamp, and passes one above it.
#[test]
fn a_read_meets_an_intent(rt: HostRuntime) -> Result<(), Fail> {
    let met = Answer::Refused(Why::Conflict(1, 2 * SECOND));
    let calls = [
        (
            Call::Write(Writer::At(SECOND), b"a", Write::Put(X)),
            Answer::Done,
        ),
        (Call::Write(BY_ONE, b"a", Write::Put(ABC)), Answer::Done),
        (Call::Write(BY_ONE, b"b", Write::Put(ABC)), Answer::Done),
        (Call::Get(b"a", 3 * SECOND), met),
        (Call::Get(b"a", 2 * SECOND), met),
        (Call::Get(b"a", 2 * SECOND - 1), Answer::Shown(X, SECOND)),
        (Call::Get(b"a", SECOND - 1), Answer::Nothing),
        (Call::Get(b"b", 2 * SECOND), met),
        (Call::Get(b"b", SECOND), Answer::Nothing),
        (Call::Flush, Answer::Done),
        (Call::Get(b"a", 2 * SECOND), met),
        (Call::Get(b"a", SECOND), Answer::Shown(X, SECOND)),
    ];
    let (wrong, _) = course(rt.alloc(), LARGEST, &calls)?;
    assert_eq!(rt; wrong, None);
    Ok(())
}
