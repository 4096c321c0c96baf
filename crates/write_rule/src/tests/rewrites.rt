//! Writes over an own intent, and intents that are in the way.
use super::*;

const PUT: WriteKind<'static> = WriteKind::Put(PlainValue::Bytes(b"de"));

const NONE: &[SeqRange] = &[];

const TWO: &[SeqRange] = &[SeqRange { first: 2, last: 2 }];

const THREE: &[SeqRange] = &[SeqRange { first: 3, last: 3 }];

const ALL: &[SeqRange] = &[SeqRange { first: 0, last: 3 }];

/// The transaction 1 at sequence 4, which reads and writes at 7.
fn ignoring(ignored: &'static [SeqRange]) -> Writer {
    Writer::In(0, 4, 7, 7, ignored)
}

/// An intent in the place of one at the same wall time, 7.
fn rewritten(earlier: &'static [Entry], value: &'static [u8], answer: WriteAnswer) -> Want {
    Want::Leaves(own_at(7, earlier, (4, value)), 0, answer)
}

#[test]
fn the_entries_that_count_are_kept(rt: HostRuntime) -> Result<(), Fail> {
    let old = own_at(7, &[(1, ABC), (2, b"")], (3, SEVEN));
    let given: Given = (Some(old), version(5, Body::Int(1)));
    let all: &'static [Entry] = &[(1, ABC), (2, b""), (3, SEVEN)];
    let done = WriteAnswer::Done;
    let rows = [
        (NONE, PUT, rewritten(all, DE, done)),
        (TWO, PUT, rewritten(&[(1, ABC), (3, SEVEN)], DE, done)),
        (ALL, PUT, rewritten(&[], DE, done)),
        (
            NONE,
            WriteKind::Increment(1),
            rewritten(all, EIGHT, WriteAnswer::Number(8)),
        ),
        (
            TWO,
            WriteKind::Delete,
            rewritten(&[(1, ABC), (3, SEVEN)], b"", WriteAnswer::Found(true)),
        ),
        (
            THREE,
            WriteKind::Delete,
            rewritten(&[(1, ABC), (2, b"")], b"", WriteAnswer::Found(false)),
        ),
        (
            ALL,
            WriteKind::Increment(6),
            rewritten(&[], SEVEN, WriteAnswer::Number(7)),
        ),
    ];
    for (ignored, kind, want) in rows {
        assert!(rt; comes_to(rt.alloc(), given, ignoring(ignored), (kind, 0), want)?);
    }
    Ok(())
}

/// The transaction 1 at an epoch, which writes at a wall time and reads at 6.
fn of_epoch(epoch: u32, write: u64) -> Writer {
    Writer::In(epoch, 2, 6, write, &[])
}

#[test]
fn an_intent_that_moves_leaves_no_old_version(rt: HostRuntime) -> Result<(), Fail> {
    let given: Given = (Some(own_at(7, &[], (1, ABC))), NO_ITEMS);
    let here = own_at(7, &[(1, ABC)], (2, DE));
    let moved = Laid { wall: 9, ..here };
    let anew = Laid {
        epoch: 1,
        ..own_at(8, &[], (2, DE))
    };
    let rows = [
        (of_epoch(0, 6), here, 0),
        (of_epoch(0, 7), here, 0),
        (of_epoch(0, 9), moved, 7),
        (of_epoch(1, 8), anew, 7),
        (of_epoch(1, 7), Laid { wall: 7, ..anew }, 0),
    ];
    for (writer, laid, old) in rows {
        let want = Want::Leaves(laid, old, WriteAnswer::Done);
        assert!(rt; comes_to(rt.alloc(), given, writer, (PUT, 0), want)?);
    }
    Ok(())
}

#[test]
fn intents_are_in_the_way(rt: HostRuntime) -> Result<(), Fail> {
    let intent = own_at(7, &[], (1, ABC));
    let foreign: Given = (Some(Laid { id: 2, ..intent }), NO_ITEMS);
    let later: Given = (Some(Laid { epoch: 2, ..intent }), NO_ITEMS);
    let conflict = Want::Refuses(Fault::Conflict(2, 7));
    let rows = [
        (foreign, Writer::At(3), conflict),
        (foreign, Writer::At(9), conflict),
        (foreign, of_epoch(0, 6), conflict),
        (foreign, of_epoch(3, 9), conflict),
        (later, Writer::At(9), Want::Refuses(Fault::Conflict(1, 7))),
        (later, of_epoch(0, 6), Want::Refuses(Fault::Epoch(0, 2))),
        (later, of_epoch(1, 9), Want::Refuses(Fault::Epoch(1, 2))),
    ];
    for (given, writer, want) in rows {
        assert!(rt; comes_to(rt.alloc(), given, writer, (PUT, 0), want)?);
    }
    Ok(())
}
