ghost use Rattle.std.specs.Prelude.{◌≡◌, ◌<◌};

use super::*;
use crate::tests::{Range, State, batch_of, shows};
use mvcc_key::{OutOfMemory, Timestamp};
use range_key::Fragment;
use run_block::parse;
use std::alloc::Global;
use std::marker::Brand;
use std::sync::ledger::Blank;
use std::test::Fail;

/// A start, an end, and wall times newest first.
type Shown = (&'static [u8], &'static [u8], &'static [u64]);

/// How many names a part holds, how many of them it clears, and whether it has range operations.
type Shape = (u64, u64, bool);

#[derive(Clone, Copy)]
enum Step {
    Apply(&'static [State], &'static [Range]),
    Flush,
    Compact(u64),
    AddRun(&'static [u8]),
}

/// A step, with the shapes of the parts and the fragments after it.
type Stage = (Step, &'static [Shape], &'static [Shown]);

fn add_run(alloc: Global, store: &mut Store, bytes: &[u8]) -> Result<(), OutOfMemory> {
    match parse(alloc, bytes) {
        Ok(run) => {
            if run.is_empty() {
                Ok(())
            } else {
                store.add_run(run)
            }
        }
        Err(_) => Err(OutOfMemory),
    }
}

fn make(alloc: Global, store: &mut Store, step: Step) -> Result<(), OutOfMemory> {
    match step {
        Step::Apply(states, ranges) => store.apply(batch_of(alloc, states, ranges)?),
        Step::Flush => store.flush(),
        Step::Compact(keep) => store.compact(keep.max(1)),
        Step::AddRun(bytes) => add_run(alloc, store, bytes),
    }
}

fn has_shapes(store: &Store, shapes: &[Shape]) -> Result<bool, OutOfMemory> {
    let found = store.layout()?;
    let mut same = found.len() == shapes.len();
    for (part, (keys, clears, ranges)) in found.iter().zip(shapes.iter()) {
        same = part.keys == *keys && part.clears == *clears && part.ranges == *ranges && same;
    }
    Ok(same)
}

fn has_walls(times: &[Timestamp], walls: &[u64]) -> bool {
    let mut same = times.len() == walls.len();
    for (time, wall) in times.iter().zip(walls.iter()) {
        same = time.wall() == *wall && same;
    }
    same
}

fn is_fragment(fragment: &Fragment, shown: Shown) -> bool {
    fragment.start.bytes() == shown.0
        && fragment.end.bytes() == shown.1
        && has_walls(fragment.stack.times(), shown.2)
}

fn has_fragments(store: &Store, shown: &[Shown]) -> bool {
    let found = store.fragments();
    let mut same = found.len() == shown.len();
    for (fragment, one) in found.as_slice().iter().zip(shown.iter()) {
        same = is_fragment(fragment, *one) && same;
    }
    same
}

/// Whether a store passes through these stages.
fn passes(alloc: Global, stages: &[Stage]) -> Result<bool, OutOfMemory> {
    let mut store = Store::new(alloc);
    let mut same = has_fragments(&store, &[]);
    for (step, shapes, shown) in stages {
        make(alloc, &mut store, *step)?;
        same = has_shapes(&store, shapes)? && has_fragments(&store, shown) && same;
    }
    Ok(same)
}

const A: State = (b"a", 1, Some(b"1"));

const C: State = (b"c", 1, Some(b"3"));

const LOWER: Range = (b"a", b"e", 5, true);

const UPPER: Range = (b"b", b"d", 6, true);

const ONE: &[Shown] = &[(b"a", b"e", &[5])];

const THREE: &[Shown] = &[
    (b"a", b"b", &[5]),
    (b"b", b"d", &[6, 5]),
    (b"d", b"e", &[5]),
];

const GAP: &[Shown] = &[(b"a", b"b", &[5]), (b"d", b"e", &[5])];

/// Two points and two spans, each in a run of its own, and then in one.
const TWO_SPANS: &[Stage] = &[
    (Step::Apply(&[A], &[]), &[(1, 0, false)], &[]),
    (Step::Flush, &[(0, 0, false), (1, 0, false)], &[]),
    (
        Step::Apply(&[C], &[LOWER]),
        &[(1, 0, true), (1, 0, false)],
        ONE,
    ),
    (
        Step::Flush,
        &[(0, 0, false), (1, 0, true), (1, 0, false)],
        ONE,
    ),
    (
        Step::Apply(&[], &[UPPER]),
        &[(0, 0, true), (1, 0, true), (1, 0, false)],
        THREE,
    ),
    (
        Step::Flush,
        &[(0, 0, false), (0, 0, true), (1, 0, true), (1, 0, false)],
        THREE,
    ),
    (
        Step::Compact(2),
        &[(0, 0, false), (0, 0, true), (2, 0, true)],
        THREE,
    ),
    (Step::Compact(1), &[(0, 0, false), (2, 0, true)], THREE),
];

/// Two spans at one time that abut, in two parts, are one fragment.
const ABUTTING: &[Stage] = &[
    (
        Step::Apply(&[], &[(b"a", b"c", 5, true)]),
        &[(0, 0, true)],
        &[(b"a", b"c", &[5])],
    ),
    (
        Step::Flush,
        &[(0, 0, false), (0, 0, true)],
        &[(b"a", b"c", &[5])],
    ),
    (
        Step::Apply(&[], &[(b"c", b"e", 5, true)]),
        &[(0, 0, true), (0, 0, true)],
        ONE,
    ),
    (
        Step::Flush,
        &[(0, 0, false), (0, 0, true), (0, 0, true)],
        ONE,
    ),
    (Step::Compact(1), &[(0, 0, false), (0, 0, true)], ONE),
];

/// A span is removed from the middle of another in a later part, and then all of it, after which nothing is left to unite.
const REMOVED: &[Stage] = &[
    (Step::Apply(&[], &[LOWER]), &[(0, 0, true)], ONE),
    (Step::Flush, &[(0, 0, false), (0, 0, true)], ONE),
    (
        Step::Apply(&[], &[(b"b", b"d", 5, false)]),
        &[(0, 0, true), (0, 0, true)],
        GAP,
    ),
    (
        Step::Flush,
        &[(0, 0, false), (0, 0, true), (0, 0, true)],
        GAP,
    ),
    (Step::Compact(1), &[(0, 0, false), (0, 0, true)], GAP),
    (
        Step::Apply(&[], &[(b"a", b"z", 5, false)]),
        &[(0, 0, true), (0, 0, true)],
        &[],
    ),
    (
        Step::Flush,
        &[(0, 0, false), (0, 0, true), (0, 0, true)],
        &[],
    ),
    (Step::Compact(1), &[(0, 0, false)], &[]),
];

/// Operations that together leave the fragments are dropped, and the points beside them are not.
const LEFT: &[Stage] = &[
    (
        Step::Apply(&[A], &[(b"a", b"e", 5, false)]),
        &[(1, 0, false)],
        &[],
    ),
    (Step::Apply(&[], &[LOWER]), &[(1, 0, true)], ONE),
    (Step::Flush, &[(0, 0, false), (1, 0, true)], ONE),
    (
        Step::Apply(&[], &[(b"b", b"d", 5, true)]),
        &[(0, 0, false), (1, 0, true)],
        ONE,
    ),
    (
        Step::Apply(&[C], &[UPPER, (b"b", b"d", 6, false)]),
        &[(1, 0, false), (1, 0, true)],
        ONE,
    ),
    (
        Step::Apply(&[C], &[(b"b", b"c", 4, false)]),
        &[(1, 0, false), (1, 0, true)],
        ONE,
    ),
];

/// The fragments over which the newest of the united runs closes are its own, whether it has operations of its own or not.
const CLOSING: &[Stage] = &[
    (Step::Apply(&[], &[LOWER]), &[(0, 0, true)], ONE),
    (Step::Flush, &[(0, 0, false), (0, 0, true)], ONE),
    (Step::Apply(&[A], &[]), &[(1, 0, false), (0, 0, true)], ONE),
    (
        Step::Flush,
        &[(0, 0, false), (1, 0, false), (0, 0, true)],
        ONE,
    ),
    (
        Step::Apply(&[], &[(b"a", b"e", 5, false)]),
        &[(0, 0, true), (1, 0, false), (0, 0, true)],
        &[],
    ),
    (
        Step::Flush,
        &[(0, 0, false), (0, 0, true), (1, 0, false), (0, 0, true)],
        &[],
    ),
    (
        Step::Compact(2),
        &[(0, 0, false), (0, 0, true), (1, 0, true)],
        &[],
    ),
    (Step::Compact(1), &[(0, 0, false), (1, 0, false)], &[]),
];

/// The file of `a` at a wall time of one second.
const POINT_FILE: &[u8] =
    b"MVCCRUN1\x00\x00\x00\x00\x00\x00\x00\x01\x00\x00\x00\x00\x00\x00\x00\x00\x01\x00\x00\x00\x0ba\x00\x00\x00\x00\x00\x3b\x9a\xca\x00\x09\x00\x00\x00\x08\x00\x00\x00\x00\x03abc";

/// The file of a tombstone over a to e at a wall time of five seconds.
const RANGE_FILE: &[u8] =
    b"MVCCRUN1\x00\x00\x00\x00\x00\x00\x00\x00\x00\x00\x00\x00\x00\x00\x00\x01\x01\x00\x00\x00\x01a\x00\x00\x00\x01e\x00\x00\x00\x01\x2a\x05\xf2\x00\x00\x00\x00\x00";

/// A run of one point onto a table that holds something, and one of a range operation onto an empty one.
const ADDED: &[Stage] = &[
    (
        Step::Apply(&[C], &[(b"d", b"f", 6, true)]),
        &[(1, 0, true)],
        &[(b"d", b"f", &[6])],
    ),
    (
        Step::AddRun(POINT_FILE),
        &[(0, 0, false), (1, 0, false), (1, 0, true)],
        &[(b"d", b"f", &[6])],
    ),
    (
        Step::AddRun(RANGE_FILE),
        &[(0, 0, false), (0, 0, true), (1, 0, false), (1, 0, true)],
        &[
            (b"a", b"d", &[5_000_000_000]),
            (b"d", b"e", &[5_000_000_000, 6]),
            (b"e", b"f", &[6]),
        ],
    ),
    (
        Step::Compact(1),
        &[(0, 0, false), (2, 0, true)],
        &[
            (b"a", b"d", &[5_000_000_000]),
            (b"d", b"e", &[5_000_000_000, 6]),
            (b"e", b"f", &[6]),
        ],
    ),
];

#[test]
fn fragments_come_and_go(rt: HostRuntime) -> Result<(), Fail> {
    for stages in [TWO_SPANS, ABUTTING, REMOVED, LEFT, CLOSING, ADDED] {
        assert!(rt; passes(rt.alloc(), stages)?);
    }
    Ok(())
}

#[test]
fn an_added_run_is_the_newest(rt: HostRuntime) -> Result<(), Fail> {
    let alloc = rt.alloc();
    let mut store = Store::new(alloc);
    let older: &[State] = &[(b"a", 1_000_000_000, Some(b"old")), C];
    let newer: &[State] = &[(b"a", 1_000_000_000, Some(b"\x00\x00\x00\x00\x03abc")), C];
    store.apply(batch_of(alloc, older, &[])?)?;
    add_run(alloc, &mut store, POINT_FILE)?;
    assert!(rt; shows::<Brand>(alloc, &store, newer, Blank::new(1))?);
    Ok(())
}

/// Whether a step that is refused leaves as many fragments, and is made when it comes again.
fn makes_or_leaves(alloc: Global, store: &mut Store, step: Step) -> Result<bool, OutOfMemory> {
    let before = store.fragments().len();
    if make(alloc, store, step).is_ok() {
        return Ok(true);
    }
    let left = store.fragments().len() == before;
    make(alloc, store, step)?;
    Ok(left)
}

/// Whether a store passes through these stages, and each step that is refused leaves it.
fn passes_or_leaves(alloc: Global, stages: &[Stage]) -> Result<bool, OutOfMemory> {
    let mut store = Store::new(alloc);
    let mut same = true;
    for (step, shapes, shown) in stages {
        same = makes_or_leaves(alloc, &mut store, *step)? && same;
        same = has_shapes(&store, shapes)? && has_fragments(&store, shown) && same;
    }
    Ok(same)
}

/// Meant to be tried with each allocation failing in turn, too.
#[test]
fn a_refused_step_leaves_the_store(rt: HostRuntime) -> Result<(), Fail> {
    for stages in [TWO_SPANS, LEFT, ADDED] {
        assert!(rt; passes_or_leaves(rt.alloc(), stages)?);
    }
    Ok(())
}
