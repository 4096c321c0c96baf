ghost use Rattle.std.specs.Prelude.{◌≡◌, ◌<◌, ◌+◌, ◌^◌, length, All, IfOk};
ghost use Rattle.mvcc_key.specs.Encoded.{name_in, IsName};
ghost use Rattle.mvcc_key.specs.Points.{count_below};

mod listed;

use super::*;
use listed::Listed;
use mvcc_key::{
    Bytes, Cursor, Looks, OutOfMemory, PairsCursor, PointOp, decode_key, next, seek_ge,
};
use std::alloc::Global;
use std::marker::Brand;
use std::sync::ledger::{Blank, Ledger};
use std::test::Fail;

/// An encoded key, and a value where it is set.
type State = (&'static [u8], Option<&'static [u8]>);

#[derive(Clone, Copy)]
enum Step {
    Next,
    Prev,
    SeekGe(&'static [u8]),
    SeekLt(&'static [u8]),
}

/// The states of some parts, the newest part first, and moves, each with the state to which it leads.
type Case = (
    &'static [&'static [State]],
    &'static [(Step, Option<State>)],
);

/// The states, but for those that are out of order.
fn listed_of(alloc: Global, states: &[State]) -> Result<Listed, OutOfMemory> {
    let mut listed = Listed::new(alloc);
    for (key, value) in states {
        let value = match *value {
            Some(bytes) => Some(Bytes::copy(alloc, bytes)?),
            None => None,
        };
        let key = Bytes::copy(alloc, key)?;
        let _ = listed.push(PointOp { key, value })?;
    }
    Ok(listed)
}

fn lists_of(alloc: Global, parts: &[&[State]]) -> Result<Vec<Listed>, OutOfMemory> {
    let mut lists = Vec::new(alloc);
    for states in parts {
        lists.push(listed_of(alloc, states)?)?;
    }
    Ok(lists)
}

fn cursors_over<'a>(
    alloc: Global,
    lists: &'a [Listed],
) -> Result<Vec<PairsCursor<'a, Listed>>, OutOfMemory>
    ensures { IfOk result (λ v. All (λ c. ⟦<PairsCursor<'a, Listed> as Cursor>⟧.place c ≡ 0) v.items) }
{
    let mut cursors = Vec::new(alloc);
    for list in lists {
        cursors.push(PairsCursor::over(list))?;
    }
    Ok(cursors)
}

fn make<C: Cursor, L: Ledger>(cursor: &mut C, step: Step, looks: &mut Looks<L>) {
    match step {
        Step::Next => cursor.next(looks),
        Step::Prev => cursor.prev(looks),
        Step::SeekGe(key) => {
            if decode_key(key).is_ok() {
                cursor.seek_ge(key, looks);
            }
        }
        Step::SeekLt(key) => {
            if decode_key(key).is_ok() {
                cursor.seek_lt(key, looks);
            }
        }
    }
}

fn is_at<C: Cursor>(cursor: &C, state: Option<State>) -> bool {
    match state {
        Some((key, value)) => cursor.key() == Some(key) && cursor.value() == value,
        None => cursor.key().is_none() && cursor.value().is_none(),
    }
}

/// Whether a cursor stands before the first state, and each move leads to the state that is told.
fn walks<C: Cursor, L: Ledger>(
    cursor: &mut C,
    moves: &[(Step, Option<State>)],
    looks: &mut Looks<L>,
) -> bool {
    if !is_at(cursor, None) {
        return false;
    }
    for (step, state) in moves {
        make(cursor, *step, looks);
        if !is_at(cursor, *state) {
            return false;
        }
    }
    true
}

fn walks_merged<L: Ledger>(alloc: Global, case: Case, blank: Blank) -> Result<bool, OutOfMemory>
    requires name { blank.name ≡ L.name }
    requires parts { blank.parts ≡ L.parts }
    requires some { 0 < blank.parts }
{
    let mut looks = Looks::<L>::new(blank);
    let lists = lists_of(alloc, case.0)?;
    let mut cursor = MergeCursor::over(cursors_over(alloc, lists.as_slice())?);
    Ok(walks(&mut cursor, case.1, &mut looks))
}

fn walks_visible<L: Ledger>(alloc: Global, case: Case, blank: Blank) -> Result<bool, OutOfMemory>
    requires name { blank.name ≡ L.name }
    requires parts { blank.parts ≡ L.parts }
    requires some { 0 < blank.parts }
{
    let mut looks = Looks::<L>::new(blank);
    let lists = lists_of(alloc, case.0)?;
    let merged = MergeCursor::over(cursors_over(alloc, lists.as_slice())?);
    let mut cursor = VisibleCursor::over(merged);
    Ok(walks(&mut cursor, case.1, &mut looks))
}

const A_AT_1: &[u8] = b"a\x00\x00\x00\x00\x00\x00\x00\x00\x01\x09";

const A_AT_2: &[u8] = b"a\x00\x00\x00\x00\x00\x00\x00\x00\x02\x09";

const A: State = (b"a\x00", Some(b"1"));

const B: State = (b"b\x00", Some(b"2"));

const C_CLEARED: State = (b"c\x00", None);

const D: State = (b"d\x00", Some(b"4"));

/// Four parts, one of them empty: `a` and `c` stand in several of them.
const FOUR: [&[State]; 4] = [
    &[A, C_CLEARED],
    &[(b"a\x00", Some(b"0")), B, (b"c\x00", Some(b"3"))],
    &[],
    &[(b"a\x00", None), (b"c\x00", Some(b"9")), D],
];

const MERGED: [Case; 6] = [
    (
        &[],
        &[
            (Step::Next, None),
            (Step::Prev, None),
            (Step::SeekGe(b"a\x00"), None),
            (Step::SeekLt(b"a\x00"), None),
        ],
    ),
    (
        &[&[], &[]],
        &[
            (Step::SeekLt(b"a\x00"), None),
            (Step::Next, None),
            (Step::SeekGe(b"a\x00"), None),
            (Step::Prev, None),
        ],
    ),
    (
        &FOUR,
        &[
            (Step::Prev, None),
            (Step::Next, Some(A)),
            (Step::Next, Some(B)),
            (Step::Next, Some(C_CLEARED)),
            (Step::Next, Some(D)),
            (Step::Next, None),
            (Step::Next, None),
            (Step::Prev, Some(D)),
            (Step::Prev, Some(C_CLEARED)),
            (Step::Prev, Some(B)),
            (Step::Prev, Some(A)),
            (Step::Prev, None),
        ],
    ),
    (
        &FOUR,
        &[
            (Step::SeekGe(b"b\x00"), Some(B)),
            (Step::Prev, Some(A)),
            (Step::Next, Some(B)),
            (Step::Next, Some(C_CLEARED)),
            (Step::Prev, Some(B)),
            (Step::Next, Some(C_CLEARED)),
            (Step::Next, Some(D)),
            (Step::Prev, Some(C_CLEARED)),
            (Step::SeekLt(b"c\x00"), Some(B)),
            (Step::Next, Some(C_CLEARED)),
        ],
    ),
    (
        &FOUR,
        &[
            (Step::SeekGe(b"bb\x00"), Some(C_CLEARED)),
            (Step::Prev, Some(B)),
            (Step::SeekLt(b"bb\x00"), Some(B)),
            (Step::Next, Some(C_CLEARED)),
            (Step::SeekLt(b"a\x00"), None),
            (Step::Next, Some(A)),
            (Step::SeekGe(b"e\x00"), None),
            (Step::Prev, Some(D)),
        ],
    ),
    (
        &[
            &[(A_AT_2, Some(b"new"))],
            &[A, (A_AT_2, Some(b"old")), (A_AT_1, None)],
        ],
        &[
            (Step::Next, Some(A)),
            (Step::Next, Some((A_AT_2, Some(b"new")))),
            (Step::Next, Some((A_AT_1, None))),
            (Step::Prev, Some((A_AT_2, Some(b"new")))),
        ],
    ),
];

#[test]
fn parts_are_one_list(rt: HostRuntime) -> Result<(), Fail> {
    for case in MERGED {
        assert!(rt; walks_merged::<Brand>(rt.alloc(), case, Blank::new(1))?);
    }
    Ok(())
}

/// Names are cleared at either end: `c` and `d` are left.
const ENDS: [&[State]; 2] = [
    &[
        (b"a\x00", None),
        (b"b\x00", None),
        (b"e\x00", None),
        (b"f\x00", None),
    ],
    &[
        (b"a\x00", Some(b"1")),
        (b"c\x00", Some(b"3")),
        D,
        (b"f\x00", Some(b"6")),
    ],
];

const VISIBLE: [Case; 5] = [
    (
        &FOUR,
        &[
            (Step::Next, Some(A)),
            (Step::Next, Some(B)),
            (Step::Next, Some(D)),
            (Step::Prev, Some(B)),
            (Step::Next, Some(D)),
            (Step::Next, None),
            (Step::Prev, Some(D)),
            (Step::SeekGe(b"c\x00"), Some(D)),
            (Step::Prev, Some(B)),
            (Step::Prev, Some(A)),
            (Step::Prev, None),
        ],
    ),
    (
        &ENDS,
        &[
            (Step::Next, Some((b"c\x00", Some(b"3")))),
            (Step::Next, Some(D)),
            (Step::Next, None),
            (Step::Prev, Some(D)),
            (Step::Prev, Some((b"c\x00", Some(b"3")))),
            (Step::Prev, None),
            (Step::Next, Some((b"c\x00", Some(b"3")))),
        ],
    ),
    (
        &ENDS,
        &[
            (Step::SeekGe(b"a\x00"), Some((b"c\x00", Some(b"3")))),
            (Step::Prev, None),
            (Step::SeekLt(b"g\x00"), Some(D)),
            (Step::Next, None),
            (Step::SeekLt(b"c\x00"), None),
            (Step::Next, Some((b"c\x00", Some(b"3")))),
            (Step::SeekGe(b"e\x00"), None),
            (Step::Prev, Some(D)),
        ],
    ),
    (
        &[&[(b"a\x00", None)], &[A]],
        &[
            (Step::Next, None),
            (Step::Prev, None),
            (Step::SeekGe(b"a\x00"), None),
            (Step::SeekLt(b"b\x00"), None),
        ],
    ),
    (
        &[
            &[A],
            &[(b"a\x00", None), (b"b\x00", None)],
            &[(b"b\x00", Some(b"0")), D],
        ],
        &[
            (Step::Next, Some(A)),
            (Step::Next, Some(D)),
            (Step::Prev, Some(A)),
        ],
    ),
];

#[test]
fn cleared_names_are_left_out(rt: HostRuntime) -> Result<(), Fail> {
    for case in VISIBLE {
        assert!(rt; walks_visible::<Brand>(rt.alloc(), case, Blank::new(1))?);
    }
    Ok(())
}

/// How many pairs stand at or above the encoded key.
fn count_from<C: Cursor>(cursor: &mut C, key: &[u8]) -> u64
    requires key { IsName key.now }
    requires few { length (C.points cursor.old) < 2 ^ 63 }
    ensures { count_below (name_in key.now) (C.points cursor.old) + result ≡ length (C.points cursor.old) }
{
    let mut count = 0;
    seek_ge(cursor, key);
    while cursor.key().is_some() {
        count += 1;
        next(cursor);
    }
    count
}

fn counted(pairs: &Listed, key: &[u8]) -> Option<u64> {
    if decode_key(key).is_err() {
        return None;
    }
    Some(count_from(&mut PairsCursor::over(pairs), key))
}

#[test]
fn moves_need_no_counter(rt: HostRuntime) -> Result<(), Fail> {
    let states = [A, (A_AT_2, Some(b"new".as_slice())), (A_AT_1, None), D];
    let pairs = listed_of(rt.alloc(), &states)?;
    let cases: [(&[u8], u64); 6] = [
        (b"\x00", 4),
        (b"a\x00", 4),
        (A_AT_2, 3),
        (A_AT_1, 2),
        (b"b\x00", 1),
        (b"e\x00", 0),
    ];
    for (key, count) in cases {
        assert_eq!(rt; counted(&pairs, key), Some(count));
    }
    Ok(())
}
