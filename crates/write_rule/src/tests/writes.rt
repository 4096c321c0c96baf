//! First writes: outside transactions, and in one.
use super::*;

const PUT: WriteKind<'static> = WriteKind::Put(PlainValue::Bytes(b"de"));

const DONE: WriteAnswer = WriteAnswer::Done;

#[test]
fn outside_transactions_a_version_is_added(rt: HostRuntime) -> Result<(), Fail> {
    let given: Given = (None, version(5, Body::Bytes(b"abc")));
    let rows = [
        (PUT, 0, DE, DONE),
        (WriteKind::Put(PlainValue::Int(7)), 0, SEVEN, DONE),
        (WriteKind::Delete, 0, b"", WriteAnswer::Found(true)),
        (PUT, 7, DE_AT_7, DONE),
        (PUT, 8, DE, DONE),
        (PUT, 9, DE, DONE),
    ];
    for (kind, local, value, answer) in rows {
        let want = Want::Adds(value, answer);
        assert!(rt;
            comes_to(rt.alloc(), given, Writer::At(8), (kind, local), want)?,
            "{local}"
        );
    }
    Ok(())
}

#[test]
fn a_deletion_tells_whether_a_value_was_there(rt: HostRuntime) -> Result<(), Fail> {
    let rows = [
        (NO_ITEMS, false),
        (version(5, Body::Bytes(b"")), true),
        (version(5, Body::Int(0)), true),
        (over((5, Some(Body::Deletion)), 4, Body::Int(0)), false),
        (over((5, None), 4, Body::Int(0)), false),
    ];
    for (stored, there) in rows {
        let want = Want::Adds(b"", WriteAnswer::Found(there));
        let made = (WriteKind::Delete, 0);
        assert!(rt; comes_to(rt.alloc(), (None, stored), Writer::At(6), made, want)?);
    }
    Ok(())
}

/// The intent that a put of `de` leaves.
fn put_at(epoch: u32, wall: u64, sequence: u32) -> Want {
    let laid = Laid {
        epoch,
        ..own_at(wall, &[], (sequence, DE))
    };
    Want::Leaves(laid, 0, DONE)
}

#[test]
fn a_transaction_leaves_an_intent(rt: HostRuntime) -> Result<(), Fail> {
    let given: Given = (None, version(5, Body::Int(7)));
    let deleted = Want::Leaves(own_at(7, &[], (3, b"")), 0, WriteAnswer::Found(true));
    let eight = Want::Leaves(own_at(7, &[], (3, EIGHT)), 0, WriteAnswer::Number(8));
    let local = Want::Leaves(own_at(8, &[], (3, DE_AT_7)), 0, DONE);
    let rows = [
        (txn(3), PUT, 0, put_at(0, 7, 3)),
        (txn(0), PUT, 0, put_at(0, 7, 0)),
        (txn(3), WriteKind::Delete, 0, deleted),
        (txn(3), WriteKind::Increment(1), 0, eight),
        (Writer::In(2, 3, 6, 9, &[]), PUT, 0, put_at(2, 9, 3)),
        (Writer::In(0, 3, 8, 8, &[]), PUT, 7, local),
        (Writer::In(0, 3, 8, 8, &[]), PUT, 8, put_at(0, 8, 3)),
    ];
    for (writer, kind, local, want) in rows {
        assert!(rt;
            comes_to(rt.alloc(), given, writer, (kind, local), want)?,
            "{local}"
        );
    }
    Ok(())
}

#[test]
fn a_newer_item_is_in_the_way(rt: HostRuntime) -> Result<(), Fail> {
    let version: Given = (None, version(5, Body::Int(7)));
    let deletion: Given = (None, over((5, Some(Body::Deletion)), 3, Body::Int(1)));
    let tombstone: Given = (None, over((5, None), 3, Body::Int(1)));
    let old = Want::Refuses(Fault::TooOld(5));
    let rows = [
        (version, Writer::At(5), old),
        (deletion, Writer::At(4), old),
        (tombstone, Writer::At(5), old),
        (tombstone, Writer::At(6), Want::Adds(DE, DONE)),
        (version, Writer::In(0, 1, 5, 9, &[]), old),
        (tombstone, Writer::In(0, 1, 5, 9, &[]), old),
        (tombstone, Writer::In(0, 1, 6, 9, &[]), put_at(0, 9, 1)),
    ];
    for (given, writer, want) in rows {
        assert!(rt; comes_to(rt.alloc(), given, writer, (PUT, 0), want)?);
    }
    Ok(())
}
