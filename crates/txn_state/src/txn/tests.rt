use super::*;
use crate::Actor;
use std::test::Fail;

const LIMIT: u32 = 2_147_483_647;

fn at(wall: u64) -> Timestamp {
    Timestamp::new(wall, 0).unwrap_or(Timestamp::NONE)
}

fn id_of(number: u128) -> Uuid {
    Uuid::from_u128(number)
}

fn range(first: u32, last: u32) -> SeqRange {
    SeqRange { first, last }
}

/// Epoch, sequence, and the wall times at which it reads and writes.
fn numbers(txn: &Txn) -> (u32, u32, u64, u64) {
    (
        txn.epoch(),
        txn.sequence(),
        txn.read_ts().wall(),
        txn.write_ts().wall(),
    )
}

fn keeps(txn: &Txn, id: Uuid, limit: Timestamp) -> bool {
    txn.id() == id && txn.global_limit() == limit
}

#[test]
fn each_call_changes_its_fields(rt: HostRuntime) -> Result<(), Fail> {
    let id = id_of(0x0123_4567_89ab_cdef_0011_2233_4455_6677);
    let mut txn = Txn::begin(rt.alloc(), id, at(5), at(9));
    assert_eq!(rt; numbers(&txn), (0, 0, 5, 5));
    assert!(rt; txn.ignored().is_empty());
    txn.step(3)?;
    assert_eq!(rt; numbers(&txn), (0, 3, 5, 5));
    txn.ignore(&[range(1, 2)])?;
    assert!(rt; txn.ignored() == [range(1, 2)].as_slice());
    txn.advance(at(8));
    assert_eq!(rt; numbers(&txn), (0, 3, 5, 8));
    txn.advance(at(7));
    assert_eq!(rt; numbers(&txn), (0, 3, 5, 8));
    txn.refresh();
    assert_eq!(rt; numbers(&txn), (0, 3, 8, 8));
    assert!(rt; txn.ignored() == [range(1, 2)].as_slice());
    txn.restart(at(7))?;
    assert_eq!(rt; numbers(&txn), (1, 0, 8, 8));
    assert!(rt; txn.ignored().is_empty());
    txn.restart(at(12))?;
    assert_eq!(rt; numbers(&txn), (2, 0, 12, 12));
    assert!(rt; keeps(&txn, id, at(9)));
    Ok(())
}

#[test]
fn a_step_stops_at_the_limit(rt: HostRuntime) -> Result<(), Fail> {
    let mut txn = Txn::begin(rt.alloc(), id_of(1), at(1), Timestamp::NONE);
    assert_eq!(rt; txn.step(LIMIT + 1), Err(TxnFault::SequenceLimit(0)));
    txn.step(LIMIT)?;
    assert_eq!(rt; numbers(&txn), (0, LIMIT, 1, 1));
    for n in [1, LIMIT, u32::MAX] {
        assert_eq!(rt; txn.step(n), Err(TxnFault::SequenceLimit(LIMIT)));
    }
    txn.step(0)?;
    assert_eq!(rt; numbers(&txn), (0, LIMIT, 1, 1));
    Ok(())
}

#[test]
fn a_restart_stops_at_the_limit(rt: HostRuntime) -> Result<(), Fail> {
    let mut txn = Txn::begin(rt.alloc(), id_of(1), at(2), at(3));
    txn.epoch = LIMIT - 1;
    txn.restart(at(1))?;
    assert_eq!(rt; numbers(&txn), (LIMIT, 0, 2, 2));
    txn.step(6)?;
    txn.advance(at(4));
    txn.ignore(&[range(0, 3)])?;
    assert_eq!(rt; txn.restart(at(9)), Err(TxnFault::EpochLimit(LIMIT)));
    assert_eq!(rt; numbers(&txn), (LIMIT, 6, 2, 4));
    assert!(rt; txn.ignored() == [range(0, 3)].as_slice());
    assert!(rt; keeps(&txn, id_of(1), at(3)));
    Ok(())
}

#[test]
fn ranges_rise(rt: HostRuntime) -> Result<(), Fail> {
    let mut txn = Txn::begin(rt.alloc(), id_of(1), at(1), Timestamp::NONE);
    let good: [&[SeqRange]; 6] = [
        &[],
        &[range(0, 0)],
        &[range(0, LIMIT)],
        &[range(1, 1), range(2, 2), range(3, LIMIT)],
        &[range(0, 3), range(5, 5), range(LIMIT, LIMIT)],
        &[range(0, 0), range(2, 2), range(4, 4), range(6, 6)],
    ];
    for ranges in good {
        assert_eq!(rt; txn.ignore(ranges), Ok(()));
        assert!(rt; txn.ignored() == ranges);
    }
    let kept = [range(2, 4)];
    txn.ignore(&kept)?;
    let bad: [&[SeqRange]; 9] = [
        &[range(3, 2)],
        &[range(1, 0), range(3, 4)],
        &[range(1, 3), range(3, 5)],
        &[range(1, 3), range(2, 5)],
        &[range(4, 5), range(1, 2)],
        &[range(1, 2), range(1, 2)],
        &[range(0, LIMIT + 1)],
        &[range(LIMIT + 1, LIMIT + 1)],
        &[range(0, 1), range(2, u32::MAX)],
    ];
    for ranges in bad {
        assert_eq!(rt; txn.ignore(ranges), Err(IgnoreFault::BadRanges));
        assert!(rt; txn.ignored() == kept.as_slice());
    }
    Ok(())
}

#[test]
fn many_ranges_take_memory(rt: HostRuntime) -> Result<(), Fail> {
    let mut txn = Txn::begin(rt.alloc(), id_of(1), at(1), Timestamp::NONE);
    let few = [range(7, 9)];
    let many = [
        range(0, 0),
        range(2, 2),
        range(4, 4),
        range(6, 6),
        range(8, 8),
    ];
    txn.step(9)?;
    txn.ignore(&few)?;
    if let Err(fault) = txn.ignore(&many) {
        assert_eq!(rt; fault, IgnoreFault::OutOfMemory);
        assert!(rt; txn.ignored() == few.as_slice());
        txn.ignore(&many)?;
    }
    assert!(rt; txn.ignored() == many.as_slice());
    assert_eq!(rt; numbers(&txn), (0, 9, 1, 1));
    txn.restart(at(1))?;
    assert!(rt; txn.ignored().is_empty());
    Ok(())
}

#[test]
fn an_actor_has_its_times(rt: HostRuntime) -> Result<(), Fail> {
    let mut txn = Txn::begin(rt.alloc(), id_of(7), at(5), at(9));
    txn.advance(at(6));
    let inside = Actor::In(&txn);
    assert_eq!(rt; inside.read_time().wall(), 5);
    assert_eq!(rt; inside.write_time().wall(), 6);
    assert_eq!(rt; inside.uncertainty_limit().wall(), 9);
    assert!(rt; inside.own_txn(TxnId::from(id_of(7))).is_some());
    assert!(rt; inside.own_txn(TxnId::from(id_of(8))).is_none());
    let outside = Actor::At(at(4));
    assert_eq!(rt; outside.read_time().wall(), 4);
    assert_eq!(rt; outside.write_time().wall(), 4);
    assert!(rt; outside.uncertainty_limit() == Timestamp::NONE);
    assert!(rt; outside.own_txn(TxnId::from(id_of(7))).is_none());
    Ok(())
}

#[test]
fn an_id_is_its_bits(rt: HostRuntime) -> Result<(), Fail> {
    let text = "67e55044-10b1-426f-9247-bb680e5fe0c8";
    let uuid = Uuid::parse_str(text)?;
    let id = TxnId::from(uuid);
    assert!(rt; Uuid::from(id) == uuid);
    assert!(rt; id.is_same(TxnId::from(id_of(0x67e5_5044_10b1_426f_9247_bb68_0e5f_e0c8))));
    assert!(rt; !id.is_same(TxnId::from(id_of(0))));
    Ok(())
}

#[test]
fn faults_have_texts(rt: HostRuntime) -> Result<(), Fail> {
    let alloc = rt.alloc();
    let sequence = format!(in alloc; "{}", TxnFault::SequenceLimit(7))?;
    assert_eq!(rt;
        sequence.as_str(),
        "a step from sequence 7 would pass 2147483647"
    );
    let epoch = format!(in alloc; "{}", TxnFault::EpochLimit(LIMIT))?;
    assert_eq!(rt; epoch.as_str(), "epoch 2147483647 is the last");
    let bad = format!(in alloc; "{}", IgnoreFault::BadRanges)?;
    assert_eq!(rt; bad.as_str(), "the ignored ranges do not rise");
    let wanting = format!(in alloc; "{}", IgnoreFault::OutOfMemory)?;
    assert_eq!(rt; wanting.as_str(), "out of memory");
    Ok(())
}
