//! Puts, deletions and reads outside transactions, and their statistics.
use super::*;

fn put(wall: u64, value: PlainValue<'static>) -> Call<'static> {
    Call::Write(Writer::At(wall), b"a", Write::Put(value))
}

fn delete(wall: u64) -> Call<'static> {
    Call::Write(Writer::At(wall), b"a", Write::Delete)
}

/// Statistics after puts, deletions and ageing; what is refused, by a bound on a statistic too, leaves them.
#[test]
fn statistics_are_a_recount(rt: HostRuntime) -> Result<(), Fail> {
    let one = of_keys([1, 14, 1, 8, 1, 22], [0; 3], 0, SECOND);
    let aged = Why::Count(Field::GcBytesAge);
    let longer = Why::Count(Field::KeyBytes);
    let first = (put(SECOND, ABC), Answer::Done);
    let gone = (delete(3 * SECOND), Answer::WasThere(true));
    let cases = [
        (LARGEST, &[first][..], one),
        (
            LARGEST,
            &[first, gone, (Call::Age(10 * SECOND), Answer::Done)][..],
            of_keys([1, 26, 2, 8, 0, 0], [0; 3], 238, 10 * SECOND),
        ),
        (
            LARGEST,
            &[
                first,
                (put(SECOND, X), Answer::Refused(Why::TooOld(SECOND))),
            ][..],
            one,
        ),
        (
            LARGEST,
            &[
                (put(900_000_000, ABC), Answer::Done),
                (put(1_900_000_000, ABC), Answer::Done),
                (Call::Age(2 * SECOND), Answer::Done),
            ][..],
            of_keys([1, 26, 2, 16, 1, 22], [0; 3], 20, 2 * SECOND),
        ),
        (
            100,
            &[
                first,
                gone,
                (Call::Age(5 * SECOND), Answer::Done),
                (Call::Age(6 * SECOND), Answer::Refused(aged)),
                (
                    Call::Age(4 * SECOND),
                    Answer::Refused(Why::TooEarly(5 * SECOND)),
                ),
            ][..],
            of_keys([1, 26, 2, 8, 0, 0], [0; 3], 68, 5 * SECOND),
        ),
        (
            25,
            &[
                first,
                (put(2 * SECOND, X), Answer::Refused(longer)),
                (delete(2 * SECOND), Answer::Refused(longer)),
                (Call::Get(b"a", 2 * SECOND), Answer::Shown(ABC, SECOND)),
            ][..],
            one,
        ),
    ];
    for (count_max, calls, want) in cases {
        let (wrong, engine) = course(rt.alloc(), count_max, calls)?;
        assert_eq!(rt; wrong, None);
        assert_eq!(rt; numbers(&engine.stats()), want);
    }
    Ok(())
}

/// Where several refusals apply the first is given.
#[test]
fn refusals_come_in_their_order(rt: HostRuntime) -> Result<(), Fail> {
    let long_value = vec![in rt.alloc(); b'v'; 1_048_577]?;
    let long = Write::Put(PlainValue::Bytes(&long_value));
    let small = Write::Put(X);
    let none = Writer::At(0);
    let old = Answer::Refused(Why::TooOld(3));
    let calls = [
        (Call::Write(Writer::At(3), b"a", small), Answer::Done),
        (Call::Write(none, b"", long), Answer::Refused(Why::Empty)),
        (
            Call::Write(none, &[0x61; 4097][..], long),
            Answer::Refused(Why::KeyOf(4_097)),
        ),
        (
            Call::Write(none, b"a", long),
            Answer::Refused(Why::ValueOf(1_048_577)),
        ),
        (Call::Write(none, b"a", small), Answer::Refused(Why::NoTime)),
        (Call::Write(Writer::At(3), b"a", small), old),
        (Call::Write(Writer::At(2), b"a", small), old),
        (
            Call::Write(Writer::At(1), &[0x61; 4096][..], small),
            Answer::Done,
        ),
    ];
    let (wrong, _) = course(rt.alloc(), LARGEST, &calls)?;
    assert_eq!(rt; wrong, None);
    Ok(())
}
