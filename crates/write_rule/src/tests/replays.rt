//! Writes that were made before.
use super::*;

const ONE: &[SeqRange] = &[SeqRange { first: 1, last: 1 }];

const TWO: &[SeqRange] = &[SeqRange { first: 2, last: 2 }];

const OLD: PlainValue<'static> = PlainValue::Bytes(b"abc");

const NEW: PlainValue<'static> = PlainValue::Bytes(b"de");

const DONE: Want = Want::Answers(WriteAnswer::Done);

/// The transaction 1 at a sequence, which reads and writes at 7.
fn ignoring(sequence: u32, ignored: &'static [SeqRange]) -> Writer {
    Writer::In(0, sequence, 7, 7, ignored)
}

#[test]
fn a_value_that_is_there_is_put_again(rt: HostRuntime) -> Result<(), Fail> {
    let given: Given = (Some(own_at(7, &[(1, DE)], (2, ABC))), [(9, None), NO_ITEM]);
    let mismatch = Want::Refuses(Fault::Mismatch(Some(OLD)));
    let rows = [
        (WriteKind::Put(OLD), txn(2), DONE),
        (WriteKind::ConditionalPut(OLD, None), txn(2), DONE),
        (WriteKind::ConditionalPut(OLD, Some(OLD)), txn(2), DONE),
        (WriteKind::InitPut(OLD), txn(2), DONE),
        (WriteKind::Put(NEW), txn(1), DONE),
        (WriteKind::Put(OLD), ignoring(2, TWO), DONE),
        (WriteKind::Put(NEW), ignoring(2, TWO), mismatch),
        (WriteKind::Put(NEW), ignoring(1, ONE), DONE),
    ];
    for (kind, writer, want) in rows {
        assert!(rt; comes_to(rt.alloc(), given, writer, (kind, 0), want)?);
    }
    Ok(())
}

#[test]
fn an_earlier_write_answers_again(rt: HostRuntime) -> Result<(), Fail> {
    let old = own_at(7, &[(1, b""), (2, SEVEN)], (4, EIGHT));
    let given: Given = (Some(old), version(5, Body::Int(7)));
    let rows = [
        (WriteKind::Delete, txn(1), WriteAnswer::Found(true)),
        (WriteKind::Increment(7), txn(2), WriteAnswer::Number(7)),
        (WriteKind::Increment(1), txn(4), WriteAnswer::Number(8)),
        (
            WriteKind::Increment(0),
            ignoring(2, ONE),
            WriteAnswer::Number(7),
        ),
    ];
    for (kind, writer, answer) in rows {
        let want = Want::Answers(answer);
        assert!(rt; comes_to(rt.alloc(), given, writer, (kind, 0), want)?);
    }
    Ok(())
}

#[test]
fn a_sequence_that_was_skipped_is_missing(rt: HostRuntime) -> Result<(), Fail> {
    let given: Given = (Some(own_at(7, &[(1, DE)], (4, ABC))), NO_ITEMS);
    let rows = [
        (0, WriteKind::Put(OLD)),
        (2, WriteKind::Put(NEW)),
        (3, WriteKind::Delete),
        (3, WriteKind::Increment(1)),
    ];
    for (sequence, kind) in rows {
        let want = Want::Refuses(Fault::Missing(sequence));
        assert!(rt;
            comes_to(rt.alloc(), given, txn(sequence), (kind, 0), want)?,
            "{sequence}"
        );
    }
    Ok(())
}

#[test]
fn another_value_than_the_first_is_refused(rt: HostRuntime) -> Result<(), Fail> {
    let old = own_at(7, &[(1, b"")], (2, ABC));
    let given: Given = (Some(old), version(5, Body::Bytes(b"abc")));
    let rows = [
        (1, WriteKind::Put(OLD), None),
        (1, WriteKind::Increment(1), None),
        (2, WriteKind::Put(NEW), Some(OLD)),
        (2, WriteKind::Delete, Some(OLD)),
        (2, WriteKind::ConditionalPut(NEW, None), Some(OLD)),
        (2, WriteKind::InitPut(PlainValue::Int(1)), Some(OLD)),
        (2, WriteKind::Increment(1), Some(OLD)),
    ];
    for (sequence, kind, stored) in rows {
        let want = Want::Refuses(Fault::Mismatch(stored));
        assert!(rt;
            comes_to(rt.alloc(), given, txn(sequence), (kind, 0), want)?,
            "{sequence}"
        );
    }
    Ok(())
}
