ghost use Rattle.std.specs.Prelude.{◌≡◌, ◌<◌, IfOk};
ghost use Rattle.mvcc_key.specs.Batches.{IsBatch};

use super::*;
use mvcc_key::{
    Batch, BatchBuilder, Bytes, Cursor, Key, Looks, OutOfMemory, PointOp, RangeOp, Timestamp,
    encode_key,
};
use std::alloc::Global;
use std::marker::Brand;
use std::sync::ledger::{Blank, Ledger};
use std::test::Fail;

/// A key, a wall time (0 for the key's record), and a value where it is set.
pub(crate) type State = (&'static [u8], u64, Option<&'static [u8]>);

/// How many names a part holds, and how many of them it clears.
type Shape = (u64, u64);

#[derive(Clone, Copy)]
enum Step {
    Apply(&'static [State]),
    Flush,
    Compact(u64),
}

/// Looks, each with the shapes of the parts after it, and what is seen at the end.
type Case = (&'static [(Step, &'static [Shape])], &'static [State]);

fn key_of(alloc: Global, key: &[u8], wall: u64) -> Result<Vec<u8>, OutOfMemory> {
    encode_key(
        alloc,
        key,
        Timestamp::new(wall, 0).unwrap_or(Timestamp::NONE),
    )
}

fn op_of(alloc: Global, state: State) -> Result<PointOp, OutOfMemory> {
    let value = match state.2 {
        Some(bytes) => Some(Bytes::copy(alloc, bytes)?),
        None => None,
    };
    let key = Bytes::from_vec(key_of(alloc, state.0, state.1)?);
    Ok(PointOp { key, value })
}

/// A start, an end, a wall time, and whether a tombstone is set over them, or removed.
pub(crate) type Range = (&'static [u8], &'static [u8], u64, bool);

fn range_of(alloc: Global, range: Range) -> Result<RangeOp, OutOfMemory> {
    let (start, end, wall, is_set) = range;
    Ok(RangeOp {
        start: Key::copy(alloc, start)?,
        end: Key::copy(alloc, end)?,
        ts: Timestamp::new(wall, 0).unwrap_or(Timestamp::NONE),
        set: if is_set {
            Some(Bytes::new(alloc))
        } else {
            None
        },
    })
}

/// The states and the range operations, but for those that are out of order or cannot be stored.
pub(crate) fn batch_of(
    alloc: Global,
    states: &[State],
    ranges: &[Range],
) -> Result<Batch, OutOfMemory>
    ensures { IfOk result IsBatch }
{
    let mut batch = BatchBuilder::new(alloc);
    for state in states {
        let _ = batch.push_point(op_of(alloc, *state)?)?;
    }
    for range in ranges {
        let _ = batch.push_range(range_of(alloc, *range)?)?;
    }
    Ok(batch.into_batch())
}

fn make(alloc: Global, store: &mut Store, step: Step) -> Result<(), OutOfMemory> {
    match step {
        Step::Apply(states) => store.apply(batch_of(alloc, states, &[])?),
        Step::Flush => store.flush(),
        Step::Compact(keep) => store.compact(keep.max(1)),
    }
}

fn has_shapes(store: &Store, shapes: &[Shape]) -> Result<bool, OutOfMemory> {
    let found = store.layout()?;
    let mut same = found.len() == shapes.len();
    for (part, (keys, clears)) in found.iter().zip(shapes.iter()) {
        same = part.keys == *keys && part.clears == *clears && !part.ranges && same;
    }
    Ok(same)
}

fn is_at<C: Cursor>(alloc: Global, cursor: &C, state: Option<State>) -> Result<bool, OutOfMemory> {
    match state {
        Some((key, wall, value)) => {
            let key = key_of(alloc, key, wall)?;
            Ok(cursor.key() == Some(key.as_slice()) && cursor.value() == value)
        }
        None => Ok(cursor.key().is_none() && cursor.value().is_none()),
    }
}

/// Whether a cursor comes to these states on its way to the end, and back.
pub(crate) fn shows<L: Ledger>(
    alloc: Global,
    store: &Store,
    states: &[State],
    blank: Blank,
) -> Result<bool, OutOfMemory>
    requires name { blank.name ≡ L.name }
    requires parts { blank.parts ≡ L.parts }
    requires some { 0 < blank.parts }
{
    let mut looks = Looks::<L>::new(blank);
    let mut cursor = store.cursor()?;
    let mut same = is_at(alloc, &cursor, None)?;
    for state in states {
        cursor.next(&mut looks);
        same = is_at(alloc, &cursor, Some(*state))? && same;
    }
    cursor.next(&mut looks);
    same = is_at(alloc, &cursor, None)? && same;
    for state in states.iter().rev() {
        cursor.prev(&mut looks);
        same = is_at(alloc, &cursor, Some(*state))? && same;
    }
    cursor.prev(&mut looks);
    Ok(is_at(alloc, &cursor, None)? && same)
}

const A: State = (b"a", 1, Some(b"1"));

const NO_A: State = (b"a", 1, None);

const B: State = (b"b", 1, Some(b"2"));

const NO_B: State = (b"b", 1, None);

const C: State = (b"c", 1, Some(b"3"));

/// `a` is set in a run and cleared in a newer one: united they hold nothing.
const CLEARED: Case = (
    &[
        (Step::Apply(&[A]), &[(1, 0)]),
        (Step::Flush, &[(0, 0), (1, 0)]),
        (Step::Apply(&[NO_A]), &[(1, 1), (1, 0)]),
        (Step::Flush, &[(0, 0), (1, 1), (1, 0)]),
        (Step::Compact(1), &[(0, 0)]),
    ],
    &[],
);

/// The two oldest of three runs are united. The newest keeps its clear, since an older one sets the name.
const OLDEST: Case = (
    &[
        (Step::Apply(&[A, B]), &[(2, 0)]),
        (Step::Flush, &[(0, 0), (2, 0)]),
        (Step::Apply(&[NO_A, C]), &[(2, 1), (2, 0)]),
        (Step::Flush, &[(0, 0), (2, 1), (2, 0)]),
        (
            Step::Apply(&[(b"a", 2, Some(b"new")), NO_B]),
            &[(2, 1), (2, 1), (2, 0)],
        ),
        (Step::Flush, &[(0, 0), (2, 1), (2, 1), (2, 0)]),
        (Step::Compact(3), &[(0, 0), (2, 1), (2, 1), (2, 0)]),
        (Step::Compact(2), &[(0, 0), (2, 1), (2, 0)]),
    ],
    &[(b"a", 2, Some(b"new")), C],
);

/// An empty table is left, and what is seen already is not taken up.
const UNCHANGED: Case = (
    &[
        (Step::Flush, &[(0, 0)]),
        (Step::Compact(1), &[(0, 0)]),
        (Step::Apply(&[NO_A]), &[(0, 0)]),
        (Step::Apply(&[A]), &[(1, 0)]),
        (Step::Flush, &[(0, 0), (1, 0)]),
        (Step::Apply(&[A]), &[(0, 0), (1, 0)]),
        (Step::Flush, &[(0, 0), (1, 0)]),
        (Step::Compact(1), &[(0, 0), (1, 0)]),
    ],
    &[A],
);

/// The newer run's value is seen, before and after the two are one, and the table's over both.
const REPLACED: Case = (
    &[
        (Step::Apply(&[A, B]), &[(2, 0)]),
        (Step::Flush, &[(0, 0), (2, 0)]),
        (Step::Apply(&[(b"a", 1, Some(b"new"))]), &[(1, 0), (2, 0)]),
        (Step::Flush, &[(0, 0), (1, 0), (2, 0)]),
        (Step::Apply(&[NO_B, C]), &[(2, 1), (1, 0), (2, 0)]),
        (Step::Compact(1), &[(2, 1), (2, 0)]),
    ],
    &[(b"a", 1, Some(b"new")), C],
);

/// One name at a time: where the table knows it, its state there decides, set or cleared, and else that of the run.
const ONE_BY_ONE: Case = (
    &[
        (Step::Apply(&[B]), &[(1, 0)]),
        (Step::Apply(&[A]), &[(2, 0)]),
        (Step::Apply(&[A]), &[(2, 0)]),
        (Step::Apply(&[NO_A]), &[(2, 1)]),
        (Step::Apply(&[NO_A]), &[(2, 1)]),
        (Step::Flush, &[(0, 0), (2, 1)]),
        (Step::Apply(&[NO_A]), &[(0, 0), (2, 1)]),
        (Step::Apply(&[A]), &[(1, 0), (2, 1)]),
        (Step::Apply(&[NO_B]), &[(2, 1), (2, 1)]),
        (Step::Apply(&[B]), &[(2, 0), (2, 1)]),
    ],
    &[A, B],
);

#[test]
fn parts_come_and_go(rt: HostRuntime) -> Result<(), Fail> {
    for (looks, states) in [CLEARED, OLDEST, UNCHANGED, REPLACED, ONE_BY_ONE] {
        let mut store = Store::new(rt.alloc());
        for (step, shapes) in looks {
            make(rt.alloc(), &mut store, *step)?;
            assert!(rt; has_shapes(&store, shapes)?);
        }
        assert!(rt; shows::<Brand>(rt.alloc(), &store, states, Blank::new(1))?);
    }
    Ok(())
}
