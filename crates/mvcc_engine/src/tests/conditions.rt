//! Increments, and writes that depend on the value before.
use super::*;

/// Sums, one that leaves 64 bits, and a replay in a transaction.
#[test]
fn increments(rt: HostRuntime) -> Result<(), Fail> {
    let add = |who, key, by| Call::Write(who, key, Write::Increment(by));
    let first = Writer::At(SECOND);
    let second = Writer::At(2 * SECOND);
    let third = Writer::In(1, 3 * SECOND, 0);
    let stored = Why::Mismatch(Some(PlainValue::Int(5)));
    let calls = [
        (add(first, b"a", i64::MAX), Answer::Number(i64::MAX)),
        (
            add(second, b"a", 1),
            Answer::Refused(Why::Overflow(i64::MAX, 1)),
        ),
        (add(third, b"b", 5), Answer::Number(5)),
        (add(third, b"b", 5), Answer::Number(5)),
        (
            Call::Write(third, b"b", Write::Put(X)),
            Answer::Refused(stored),
        ),
    ];
    let want = of_keys([2, 28, 2, 66, 2, 94], [1, 18, 0], 0, 3 * SECOND);
    let (wrong, engine) = course(rt.alloc(), LARGEST, &calls)?;
    assert_eq!(rt; wrong, None);
    assert_eq!(rt; numbers(&engine.stats()), want);
    Ok(())
}

/// By 0, on nothing and on a deletion, and below 0.
#[test]
fn increments_of_nothing(rt: HostRuntime) -> Result<(), Fail> {
    let add = |wall, by| Call::Write(Writer::At(wall), b"a", Write::Increment(by));
    let calls = [
        (add(SECOND, 0), Answer::Number(0)),
        (
            Call::Get(b"a", SECOND),
            Answer::Shown(PlainValue::Int(0), SECOND),
        ),
        (add(2 * SECOND, 0), Answer::Number(0)),
        (
            Call::Write(Writer::At(3 * SECOND), b"a", Write::Delete),
            Answer::WasThere(true),
        ),
        (add(4 * SECOND, -7), Answer::Number(-7)),
        (
            add(5 * SECOND, i64::MIN),
            Answer::Refused(Why::Overflow(-7, i64::MIN)),
        ),
        (add(4 * SECOND, 1), Answer::Refused(Why::TooOld(4 * SECOND))),
    ];
    let (wrong, _) = course(rt.alloc(), LARGEST, &calls)?;
    assert_eq!(rt; wrong, None);
    Ok(())
}

/// Conditional and initial puts, taken and refused, and an increment of bytes.
#[test]
fn conditions(rt: HostRuntime) -> Result<(), Fail> {
    let write = |wall, kind| Call::Write(Writer::At(wall), b"a", kind);
    let actual = |value| Answer::Refused(Why::Condition(value));
    let calls = [
        (write(SECOND, Write::PutIf(ABC, Some(X))), actual(None)),
        (write(SECOND, Write::PutIf(ABC, None)), Answer::Done),
        (write(2 * SECOND, Write::PutIf(X, None)), actual(Some(ABC))),
        (write(2 * SECOND, Write::PutIf(X, Some(ABC))), Answer::Done),
        (write(3 * SECOND, Write::InitPut(X)), Answer::Done),
        (write(4 * SECOND, Write::InitPut(DE)), actual(Some(X))),
        (
            write(4 * SECOND, Write::Increment(1)),
            Answer::Refused(Why::NotInteger(X)),
        ),
    ];
    let want = of_keys([1, 38, 3, 20, 1, 20], [0, 0, 0], 20, 3 * SECOND);
    let (wrong, engine) = course(rt.alloc(), LARGEST, &calls)?;
    assert_eq!(rt; wrong, None);
    assert_eq!(rt; numbers(&engine.stats()), want);
    Ok(())
}
