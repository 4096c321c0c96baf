use super::*;
use intent_meta::IntentSeen;
use mvcc_key::{Key, OutOfMemory, SeqRange, Span, Timestamp};
use mvcc_value::OwnedValue;
use std::alloc::Global;
use std::test::Fail;
use txn_state::{IgnoreFault, Txn};
use uuid::Uuid;

/// A transaction that ignores these sequences.
fn ignoring(alloc: Global, ts: Timestamp, ignored: &[SeqRange]) -> Result<Txn, IgnoreFault> {
    let mut txn = Txn::begin(alloc, Uuid::from_u128(1), ts, Timestamp::NONE);
    txn.ignore(ignored)?;
    Ok(txn)
}

/// The texts of answers of each kind, one behind another.
fn texts<'a>(
    alloc: Global,
    txn: &'a Txn,
    seen: &'a [IntentSeen],
    stored: &'a OwnedValue,
) -> Result<Vec<u8>, OutOfMemory> {
    let (key, found) = (b"a\"".as_slice(), None);
    let (index, keys, clears, ranges) = (1, 3, 2, true);
    let answers = [
        Answer::Accepted,
        Answer::Got { key, found },
        Answer::Deleted { found: true },
        Answer::TxnLine { name: "A", txn },
        Answer::Incremented(-5),
        Answer::LayoutLine {
            index,
            keys,
            clears,
            ranges,
        },
        Answer::Refused(Reason::BadLine(7)),
        Answer::Refused(Reason::TxnExists),
        Answer::Refused(Reason::NoTxn),
        Answer::Refused(Reason::ByTxn(TxnRefusal::EpochLimit(2_147_483_647))),
        Answer::Refused(Reason::ByEngine(Refusal::KeyTooLong(4097))),
        Answer::Refused(Reason::ByEngine(Refusal::Conflict(seen))),
        Answer::Refused(Reason::ByEngine(Refusal::ReplayMismatch(None))),
        Answer::Refused(Reason::ByEngine(Refusal::ConditionFailed(Some(stored)))),
        Answer::Refused(Reason::ByEngine(Refusal::ConditionFailed(None))),
    ];
    let mut text = Vec::new(alloc);
    for answer in &answers {
        show(alloc, answer, &mut text)?;
    }
    Ok(text)
}

/// The texts of resolutions, one behind another.
fn resolutions(alloc: Global, left: &Span, ts: Timestamp) -> Result<Vec<u8>, OutOfMemory> {
    let answers = [
        Answer::Resolved { found: true },
        Answer::Resolved { found: false },
        Answer::ResolvedRange {
            count: 0,
            resume: None,
        },
        Answer::ResolvedRange {
            count: 12,
            resume: Some(left),
        },
        Answer::Refused(Reason::ByEngine(Refusal::BadSpan)),
        Answer::Refused(Reason::ByEngine(Refusal::CommitBelowIntent(ts))),
    ];
    let mut text = Vec::new(alloc);
    for answer in &answers {
        show(alloc, answer, &mut text)?;
    }
    Ok(text)
}

#[test]
fn resolutions_are_appended(rt: HostRuntime) -> Result<(), Fail> {
    let ts = Timestamp::new(2_500_000_000, 3).unwrap_or(Timestamp::NONE);
    let start = Key::copy(rt.alloc(), b"c")?;
    let end = Key::copy(rt.alloc(), b"z\"\0")?;
    let text = resolutions(rt.alloc(), &Span { start, end }, ts)?;
    assert_eq!(rt;
        text.as_slice(),
        b"resolve: found=true\nresolve: found=false\nresolve_range: resolved=0\nresolve_range: resolved=12\nresume: \"c\"-\"z\\x22\\x00\"\nerror: BadSpan\nerror: CommitBelowIntent ts=2.500000000,3\n".as_slice()
    );
    Ok(())
}

#[test]
fn answers_are_appended(rt: HostRuntime) -> Result<(), Fail> {
    let ts = Timestamp::new(2_000_000_000, 0).unwrap_or(Timestamp::NONE);
    let ignored = [
        SeqRange { first: 1, last: 1 },
        SeqRange { first: 4, last: 9 },
    ];
    let txn = ignoring(rt.alloc(), ts, &ignored)?;
    let key = Key::copy(rt.alloc(), b"/a")?;
    let id = Uuid::from_u128(1);
    let seen = [IntentSeen { key, id, ts }];
    let text = texts(rt.alloc(), &txn, &seen, &OwnedValue::Int(-5))?;
    assert_eq!(rt;
        text.as_slice(),
        b"ok\nget: \"a\\x22\" -> <no data>\ndel: found=true\ntxn: \"A\" id=00000000-0000-0000-0000-000000000001 epoch=0 seq=0 read=2.000000000,0 write=2.000000000,0 limit=0.000000000,0 ignored=1-1,4-9\nincrement: -5\npart 1: run keys=3 clears=2 ranges=yes\nerror: BadLine line=7\nerror: TxnExists\nerror: NoTxn\nerror: EpochLimit epoch=2147483647\nerror: KeyTooLong length=4097\nerror: Conflict \"/a\"/00000000-0000-0000-0000-000000000001@2.000000000,0\nerror: ReplayMismatch stored=/<empty>\nerror: ConditionFailed actual=/INT/-5\nerror: ConditionFailed actual=<none>\n".as_slice()
    );
    Ok(())
}
