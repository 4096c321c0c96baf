ghost use Rattle.std.specs.Prelude.{◌≡◌, ◌<◌};

use super::*;
use mvcc_key::{Bytes, Key, Looks, OutOfMemory, RangeOp, Timestamp};
use std::alloc::Global;
use std::marker::Brand;
use std::sync::ledger::{Blank, Ledger};
use std::test::Fail;

/// A start, an end, and wall times newest first.
type Shown = (&'static [u8], &'static [u8], &'static [u64]);

#[derive(Clone, Copy)]
enum Change {
    Add(&'static [u8], &'static [u8], u64),
    Remove(&'static [u8], &'static [u8], u64, u64),
}

fn at_wall(wall: u64) -> Timestamp {
    Timestamp::new(wall, 0).unwrap_or(Timestamp::NONE)
}

fn changed(alloc: Global, changes: &[Change]) -> Result<FragmentList, OutOfMemory> {
    let mut list = FragmentList::new(alloc);
    for change in changes {
        match *change {
            Change::Add(start, end, wall) => {
                if start.cmp(end).is_lt() {
                    list.add(start, end, at_wall(wall))?;
                }
            }
            Change::Remove(start, end, from, to) => {
                if start.cmp(end).is_lt() {
                    list.remove(start, end, at_wall(from), at_wall(to))?;
                }
            }
        }
    }
    Ok(list)
}

fn has_walls(times: &[Timestamp], walls: &[u64]) -> bool {
    if times.len() != walls.len() {
        return false;
    }
    for (time, wall) in times.iter().zip(walls) {
        if time.wall() != *wall {
            return false;
        }
    }
    true
}

fn is_shown(fragment: Option<&Fragment>, shown: Shown) -> bool {
    match fragment {
        Some(fragment) => {
            fragment.start.bytes() == shown.0
                && fragment.end.bytes() == shown.1
                && has_walls(fragment.stack.times(), shown.2)
        }
        None => false,
    }
}

fn shows(list: &FragmentList, shown: &[Shown]) -> bool {
    if list.len() != shown.len() || list.is_empty() != shown.is_empty() {
        return false;
    }
    for (place, one) in shown.iter().enumerate() {
        if !is_shown(list.get(place), *one) {
            return false;
        }
    }
    list.get(shown.len()).is_none()
}

fn has_staged(staged: &StagedFragments, shown: &[Shown]) -> bool {
    let list = staged.lend();
    if list.len() != shown.len() {
        return false;
    }
    for (place, one) in shown.iter().enumerate() {
        if !is_shown(list.get(place), *one) {
            return false;
        }
    }
    true
}

const OVER: [Change; 2] = [Change::Add(b"a", b"e", 5), Change::Add(b"b", b"d", 6)];

#[test]
fn changes_split_and_join_fragments(rt: HostRuntime) -> Result<(), Fail> {
    use Change::{Add, Remove};
    let cases: [(&[Change], &[Shown]); 14] = [
        (&[], &[]),
        (
            &OVER,
            &[
                (b"a", b"b", &[5]),
                (b"b", b"d", &[6, 5]),
                (b"d", b"e", &[5]),
            ],
        ),
        (
            &[Add(b"a", b"c", 5), Add(b"c", b"e", 5)],
            &[(b"a", b"e", &[5])],
        ),
        (
            &[Add(b"a", b"b", 5), Add(b"c", b"d", 5), Add(b"b", b"c", 5)],
            &[(b"a", b"d", &[5])],
        ),
        (
            &[Add(b"a", b"e", 5), Add(b"b", b"d", 5)],
            &[(b"a", b"e", &[5])],
        ),
        (
            &[Add(b"c", b"e", 5), Add(b"a", b"c", 5)],
            &[(b"a", b"e", &[5])],
        ),
        (
            &[Add(b"a", b"c", 5), Add(b"b", b"d", 4), Add(b"b", b"d", 6)],
            &[
                (b"a", b"b", &[5]),
                (b"b", b"c", &[6, 5, 4]),
                (b"c", b"d", &[6, 4]),
            ],
        ),
        (
            &[
                Add(b"a", b"b", 1),
                Add(b"c", b"d", 2),
                Add(b"e", b"f", 3),
                Add(b"", b"g", 2),
            ],
            &[
                (b"", b"a", &[2]),
                (b"a", b"b", &[2, 1]),
                (b"b", b"e", &[2]),
                (b"e", b"f", &[3, 2]),
                (b"f", b"g", &[2]),
            ],
        ),
        (
            &[OVER[0], Remove(b"b", b"d", 4, 5)],
            &[(b"a", b"b", &[5]), (b"d", b"e", &[5])],
        ),
        (
            &[OVER[0], OVER[1], Remove(b"b", b"d", 5, 6)],
            &[(b"a", b"e", &[5])],
        ),
        (
            &[OVER[0], OVER[1], Remove(b"b", b"c", 5, 6)],
            &[
                (b"a", b"c", &[5]),
                (b"c", b"d", &[6, 5]),
                (b"d", b"e", &[5]),
            ],
        ),
        (
            &[OVER[0], OVER[1], Remove(b"c", b"z", 0, 5)],
            &[
                (b"a", b"b", &[5]),
                (b"b", b"c", &[6, 5]),
                (b"c", b"d", &[6]),
            ],
        ),
        (&[OVER[0], OVER[1], Remove(b"", b"z", 0, 6)], &[]),
        (
            &[
                OVER[0],
                OVER[1],
                Remove(b"e", b"z", 0, 6),
                Remove(b"a", b"e", 6, 5),
            ],
            &[
                (b"a", b"b", &[5]),
                (b"b", b"d", &[6, 5]),
                (b"d", b"e", &[5]),
            ],
        ),
    ];
    for (changes, shown) in cases {
        let list = changed(rt.alloc(), changes)?;
        assert!(rt; shows(&list, shown));
    }
    Ok(())
}

#[test]
fn lists_are_cut_to_spans(rt: HostRuntime) -> Result<(), Fail> {
    let list = changed(rt.alloc(), &OVER)?;
    let cases: [(&[u8], &[u8], &[Shown]); 6] = [
        (
            b"",
            b"z",
            &[
                (b"a", b"b", &[5]),
                (b"b", b"d", &[6, 5]),
                (b"d", b"e", &[5]),
            ],
        ),
        (b"aa", b"c", &[(b"aa", b"b", &[5]), (b"b", b"c", &[6, 5])]),
        (b"b", b"d", &[(b"b", b"d", &[6, 5])]),
        (b"bb", b"cc", &[(b"bb", b"cc", &[6, 5])]),
        (b"e", b"z", &[]),
        (b"", b"a", &[]),
    ];
    for (start, end, shown) in cases {
        assert!(rt; shows(&list.truncate(start, end)?, shown));
    }
    Ok(())
}

fn operation(
    alloc: Global,
    start: &[u8],
    end: &[u8],
    wall: u64,
    sets: bool,
) -> Result<RangeOp, OutOfMemory> {
    Ok(RangeOp {
        start: Key::copy(alloc, start)?,
        end: Key::copy(alloc, end)?,
        ts: at_wall(wall),
        set: if sets { Some(Bytes::new(alloc)) } else { None },
    })
}

#[test]
fn operations_are_carried_out_in_turn(rt: HostRuntime) -> Result<(), Fail> {
    let mut ops = Vec::new(rt.alloc());
    ops.push(operation(rt.alloc(), b"a", b"e", 5, true)?)?;
    ops.push(operation(rt.alloc(), b"b", b"d", 6, true)?)?;
    ops.push(operation(rt.alloc(), b"c", b"d", 6, false)?)?;
    ops.push(operation(rt.alloc(), b"c", b"d", 4, false)?)?;
    if ops
        .iter()
        .all(|op| op.start.bytes().cmp(op.end.bytes()).is_lt())
    {
        let list = FragmentList::of_ops(rt.alloc(), &ops)?;
        assert!(rt;
            shows(
                &list,
                &[
                    (b"a", b"b", &[5]),
                    (b"b", b"c", &[6, 5]),
                    (b"c", b"e", &[5])
                ]
            )
        );
        return Ok(());
    }
    assert!(rt; false);
    Ok(())
}

fn is_at<L: Ledger>(list: &FragmentList, key: &[u8], shown: Option<Shown>, blank: Blank) -> bool
    requires name { blank.name ≡ L.name }
    requires parts { blank.parts ≡ L.parts }
    requires some { 0 < blank.parts }
{
    let mut looks = Looks::<L>::new(blank);
    let fragment = list.at(key, &mut looks);
    match shown {
        Some(shown) => is_shown(fragment, shown),
        None => fragment.is_none(),
    }
}

#[test]
fn a_key_has_its_fragment(rt: HostRuntime) -> Result<(), Fail> {
    let list = changed(rt.alloc(), &[OVER[0], OVER[1], Change::Add(b"x", b"y", 7)])?;
    let first: Shown = (b"a", b"b", &[5]);
    let second: Shown = (b"b", b"d", &[6, 5]);
    let third: Shown = (b"d", b"e", &[5]);
    let cases: [(&[u8], Option<Shown>); 9] = [
        (b"", None),
        (b"a", Some(first)),
        (b"aa", Some(first)),
        (b"b", Some(second)),
        (b"c\xff", Some(second)),
        (b"d", Some(third)),
        (b"e", None),
        (b"x", Some((b"x", b"y", &[7]))),
        (b"z", None),
    ];
    for (key, shown) in cases {
        assert!(rt; is_at::<Brand>(&list, key, shown, Blank::new(1)));
    }
    Ok(())
}

fn is_shared<T: Sync>(_: &T) -> bool {
    true
}

fn is_lent_at<L: Ledger>(list: &FragmentsRef<'_>, key: &[u8], shown: Shown, blank: Blank) -> bool
    requires name { blank.name ≡ L.name }
    requires parts { blank.parts ≡ L.parts }
    requires some { 0 < blank.parts }
{
    let mut looks = Looks::<L>::new(blank);
    is_shown(list.at(key, &mut looks), shown)
}

#[test]
fn a_list_is_lent(rt: HostRuntime) -> Result<(), Fail> {
    let list = changed(rt.alloc(), &OVER)?;
    let second: Shown = (b"b", b"d", &[6, 5]);
    let lent = list.lend();
    assert_eq!(rt; lent.len(), 3);
    assert!(rt; !lent.is_empty());
    assert!(rt; is_shown(lent.get(1), second));
    assert!(rt; is_lent_at::<Brand>(&lent, b"c", second, Blank::new(1)));
    assert!(rt; shows(&lent.truncate(b"b", b"d")?, &[second]));
    assert!(rt; is_shared(&list) && is_shared(&lent));
    Ok(())
}

/// A start, an end, a wall time, and whether the operation sets.
type Op = (&'static [u8], &'static [u8], u64, bool);

fn stage_each(staged: &mut StagedFragments, ops: &[Op]) -> Result<(), OutOfMemory> {
    for &(start, end, wall, sets) in ops {
        if start.cmp(end).is_lt() {
            if sets {
                staged.stage_add(start, end, at_wall(wall))?;
            } else {
                staged.stage_remove_at(start, end, at_wall(wall))?;
            }
        }
    }
    Ok(())
}

fn committed(alloc: Global, batches: &[&[Op]]) -> Result<StagedFragments, OutOfMemory> {
    let mut staged = StagedFragments::new(alloc);
    for ops in batches {
        stage_each(&mut staged, ops)?;
        staged.commit();
    }
    Ok(staged)
}

#[test]
fn staged_operations_are_put_in_place(rt: HostRuntime) -> Result<(), Fail> {
    let cases: [(&[&[Op]], &[Shown]); 8] = [
        (
            &[&[(b"a", b"e", 5, true)], &[(b"b", b"d", 6, true)]],
            &[
                (b"a", b"b", &[5]),
                (b"b", b"d", &[6, 5]),
                (b"d", b"e", &[5]),
            ],
        ),
        (
            &[&[(b"a", b"e", 5, true), (b"b", b"d", 6, true)]],
            &[
                (b"a", b"b", &[5]),
                (b"b", b"d", &[6, 5]),
                (b"d", b"e", &[5]),
            ],
        ),
        (
            &[&[(b"a", b"c", 5, true)], &[(b"c", b"e", 5, true)]],
            &[(b"a", b"e", &[5])],
        ),
        (
            &[&[(b"c", b"e", 5, true), (b"a", b"c", 5, true)]],
            &[(b"a", b"e", &[5])],
        ),
        (
            &[&[(b"a", b"e", 5, true)], &[(b"b", b"d", 5, false)]],
            &[(b"a", b"b", &[5]), (b"d", b"e", &[5])],
        ),
        (
            &[
                &[(b"a", b"b", 5, true), (b"c", b"e", 5, true)],
                &[(b"x", b"y", 7, true)],
                &[(b"b", b"c", 5, true)],
                &[(b"x", b"y", 6, false)],
            ],
            &[(b"a", b"e", &[5]), (b"x", b"y", &[7])],
        ),
        (
            &[&[
                (b"a", b"e", 5, true),
                (b"b", b"d", 5, false),
                (b"c", b"d", 4, true),
            ]],
            &[(b"a", b"b", &[5]), (b"c", b"d", &[4]), (b"d", b"e", &[5])],
        ),
        (&[&[(b"a", b"e", 5, true)], &[(b"", b"z", 5, false)]], &[]),
    ];
    for (batches, shown) in cases {
        assert!(rt; has_staged(&committed(rt.alloc(), batches)?, shown));
    }
    Ok(())
}

#[test]
fn what_is_staged_waits(rt: HostRuntime) -> Result<(), Fail> {
    let cases: [(&[Op], bool, &[Shown]); 4] = [
        (&[(b"b", b"d", 5, true)], false, &[(b"a", b"e", &[5])]),
        (&[(b"d", b"g", 5, true)], true, &[(b"a", b"g", &[5])]),
        (
            &[(b"b", b"d", 6, true), (b"b", b"d", 6, false)],
            false,
            &[(b"a", b"e", &[5])],
        ),
        (
            &[(b"b", b"d", 6, true), (b"b", b"d", 5, false)],
            true,
            &[(b"a", b"b", &[5]), (b"b", b"d", &[6]), (b"d", b"e", &[5])],
        ),
    ];
    for (ops, changes, shown) in cases {
        let mut staged = committed(rt.alloc(), &[&[(b"a", b"e", 5, true)]])?;
        stage_each(&mut staged, ops)?;
        assert!(rt; staged.is_changed() == changes);
        assert!(rt; has_staged(&staged, &[(b"a", b"e", &[5])]));
        staged.commit();
        assert!(rt; !staged.is_changed() && has_staged(&staged, shown));
    }
    Ok(())
}

#[test]
fn what_is_discarded_is_gone(rt: HostRuntime) -> Result<(), Fail> {
    let mut staged = committed(rt.alloc(), &[&[(b"a", b"e", 5, true)]])?;
    stage_each(&mut staged, &[(b"b", b"d", 6, true)])?;
    staged.discard();
    staged.commit();
    assert!(rt; has_staged(&staged, &[(b"a", b"e", &[5])]));
    Ok(())
}

fn is_setting(op: &RangeOp, start: &[u8], end: &[u8], wall: u64) -> bool {
    op.start.bytes() == start
        && op.end.bytes() == end
        && op.ts.wall() == wall
        && matches!(&op.set, Some(value) if value.as_slice().is_empty())
}

#[test]
fn fragments_are_operations_again(rt: HostRuntime) -> Result<(), Fail> {
    let list = changed(rt.alloc(), &OVER)?;
    let ops = list.to_ops()?;
    let expected: [(&[u8], &[u8], u64); 4] = [
        (b"a", b"b", 5),
        (b"b", b"d", 6),
        (b"b", b"d", 5),
        (b"d", b"e", 5),
    ];
    assert_eq!(rt; ops.len(), expected.len());
    for (op, (start, end, wall)) in ops.iter().zip(&expected) {
        assert!(rt; is_setting(op, start, end, *wall));
    }
    let mut staged = StagedFragments::new(rt.alloc());
    for op in &ops {
        if op.start.bytes().cmp(op.end.bytes()).is_lt() {
            staged.stage(op)?;
        }
    }
    staged.commit();
    assert!(rt;
        has_staged(
            &staged,
            &[
                (b"a", b"b", &[5]),
                (b"b", b"d", &[6, 5]),
                (b"d", b"e", &[5])
            ]
        )
    );
    Ok(())
}
