//! Conditions, and sums.
use super::*;

const OLD: PlainValue<'static> = PlainValue::Bytes(b"abc");

const NEW: PlainValue<'static> = PlainValue::Bytes(b"de");

const SEVEN_THERE: Option<PlainValue<'static>> = Some(PlainValue::Int(7));

const NOTHING: Given = (None, NO_ITEMS);

/// A deletion over a number.
fn deletion() -> Given {
    (None, over((5, Some(Body::Deletion)), 4, Body::Int(7)))
}

/// A tombstone over a number.
fn tombstone() -> Given {
    (None, over((5, None), 4, Body::Int(7)))
}

fn there(body: Body<'static>) -> Given {
    (None, version(5, body))
}

fn abc() -> Given {
    there(Body::Bytes(b"abc"))
}

/// A version with `de`.
const PUT: Want = Want::Adds(DE, WriteAnswer::Done);

/// The value that is there is not the one on which the write depends.
fn failed(actual: Option<PlainValue<'static>>) -> Want {
    Want::Refuses(Fault::Condition(actual))
}

#[test]
fn a_conditional_put_compares_the_value_before(rt: HostRuntime) -> Result<(), Fail> {
    let seven = there(Body::Int(7));
    let rows = [
        (NOTHING, None, PUT),
        (NOTHING, Some(OLD), failed(None)),
        (deletion(), None, PUT),
        (deletion(), SEVEN_THERE, failed(None)),
        (tombstone(), None, PUT),
        (abc(), Some(OLD), PUT),
        (abc(), None, failed(Some(OLD))),
        (abc(), Some(NEW), failed(Some(OLD))),
        (seven, Some(PlainValue::Int(8)), failed(SEVEN_THERE)),
    ];
    for (given, expected, want) in rows {
        let made = (WriteKind::ConditionalPut(NEW, expected), 0);
        assert!(rt; comes_to(rt.alloc(), given, Writer::At(6), made, want)?);
    }
    Ok(())
}

#[test]
fn an_initial_put_takes_absence_and_itself(rt: HostRuntime) -> Result<(), Fail> {
    let rows = [
        (NOTHING, NEW, Writer::At(6), PUT),
        (deletion(), NEW, Writer::At(6), PUT),
        (tombstone(), NEW, Writer::At(6), PUT),
        (abc(), NEW, Writer::At(6), failed(Some(OLD))),
        (
            abc(),
            OLD,
            Writer::At(6),
            Want::Adds(ABC, WriteAnswer::Done),
        ),
        (abc(), NEW, Writer::At(5), Want::Refuses(Fault::TooOld(5))),
    ];
    for (given, value, writer, want) in rows {
        assert!(rt;
            comes_to(
                rt.alloc(),
                given,
                writer,
                (WriteKind::InitPut(value), 0),
                want
            )?
        );
    }
    Ok(())
}

#[test]
fn a_condition_sees_own_entries(rt: HostRuntime) -> Result<(), Fail> {
    let old = own_at(7, &[(1, b"")], (2, SEVEN));
    let given: Given = (Some(old), version(5, Body::Bytes(b"abc")));
    let left = own_at(7, &[(1, b""), (2, SEVEN)], (3, DE));
    let rows = [
        (SEVEN_THERE, Want::Leaves(left, 0, WriteAnswer::Done)),
        (Some(OLD), failed(SEVEN_THERE)),
        (None, failed(SEVEN_THERE)),
    ];
    for (expected, want) in rows {
        let made = (WriteKind::ConditionalPut(NEW, expected), 0);
        assert!(rt; comes_to(rt.alloc(), given, txn(3), made, want)?);
    }
    Ok(())
}

#[test]
fn a_sum_counts_from_the_number_before(rt: HostRuntime) -> Result<(), Fail> {
    let nine = there(Body::Int(9));
    let rows = [
        (NOTHING, 7, Want::Adds(SEVEN, WriteAnswer::Number(7))),
        (deletion(), 8, Want::Adds(EIGHT, WriteAnswer::Number(8))),
        (tombstone(), 7, Want::Adds(SEVEN, WriteAnswer::Number(7))),
        (nine, -1, Want::Adds(EIGHT, WriteAnswer::Number(8))),
        (abc(), 1, Want::Refuses(Fault::NotInteger(OLD))),
    ];
    for (given, by, want) in rows {
        let made = (WriteKind::Increment(by), 0);
        assert!(rt;
            comes_to(rt.alloc(), given, Writer::At(6), made, want)?,
            "{by}"
        );
    }
    Ok(())
}

#[test]
fn a_sum_stays_within_64_bits(rt: HostRuntime) -> Result<(), Fail> {
    let greatest = there(Body::Int(i64::MAX));
    let least = there(Body::Int(i64::MIN));
    let minus_one = Want::Adds(b"\0\0\0\0\x01\x01", WriteAnswer::Number(-1));
    let rows = [
        (greatest, i64::MIN, minus_one),
        (least, i64::MAX, minus_one),
        (greatest, 1, Want::Refuses(Fault::Overflow(i64::MAX, 1))),
        (least, -1, Want::Refuses(Fault::Overflow(i64::MIN, -1))),
        (
            least,
            i64::MIN,
            Want::Refuses(Fault::Overflow(i64::MIN, i64::MIN)),
        ),
    ];
    for (given, by, want) in rows {
        let made = (WriteKind::Increment(by), 0);
        assert!(rt;
            comes_to(rt.alloc(), given, Writer::At(6), made, want)?,
            "{by}"
        );
    }
    Ok(())
}
