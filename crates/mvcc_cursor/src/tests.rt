ghost use Rattle.std.specs.Prelude.{◌≡◌, ◌<◌, ◌^◌};
ghost use Rattle.lsm_store.specs.Shown.{first_runs};
ghost use Rattle.mvcc_cursor.specs.WellFormed.{IsWellFormed, history_in};

use super::*;
use crate::filled::{at, filled};
use intent_meta::{ItemRef, KeyItems};
use lsm_store::Store;
use mvcc_key::{Looks, OutOfMemory};
use std::alloc::Global;
use std::marker::Brand;
use std::sync::ledger::{Blank, Ledger};
use std::test::Fail;

/// Whether nothing is told of a key that is stored nowhere, nor of the keys beside it.
fn tells_nothing<L: Ledger>(
    alloc: Global,
    store: &Store,
    key: &[u8],
    blank: Blank,
) -> Result<bool, OutOfMemory>
    requires empty { store.now ≡ first_runs }
    requires name { blank.name ≡ L.name }
    requires parts { blank.parts ≡ L.parts }
    requires some { 0 < blank.parts }
{
    let mut looks = Looks::<L>::new(blank);
    let mut cursor = MvccCursor::over(alloc, store)?;
    let is_stored = cursor.seek_exact(key, &mut looks);
    let is_told = cursor.key().is_some()
        || cursor.meta().is_some()
        || cursor.intent().is_some()
        || cursor.newest().is_some()
        || !cursor.stack_here().is_empty();
    cursor.next_key(&mut looks);
    let is_next = cursor.key().is_some();
    cursor.prev_key(&mut looks);
    let is_before = cursor.key().is_some();
    cursor.seek_key(key, &mut looks);
    let is_from = cursor.key().is_some() || !cursor.fragments().is_empty();
    Ok(!is_stored && !is_told && !is_next && !is_before && !is_from)
}

/// An empty store tells nothing of any key, of any length.
#[test]
fn an_empty_store_tells_nothing(rt: HostRuntime) -> Result<(), Fail> {
    for key in [
        &b""[..],
        &[0x63; 1][..],
        &[0x63; 4097][..],
        &[0x63; 4098][..],
    ] {
        let store = Store::new(rt.alloc());
        assert!(rt; tells_nothing::<Brand>(rt.alloc(), &store, key, Blank::new(1))?);
    }
    Ok(())
}

/// Whether the key is the one that is wanted; no bytes stand for no key.
fn is_at(key: Option<&[u8]>, want: &[u8]) -> bool {
    match key {
        Some(key) => key == want,
        None => want.is_empty(),
    }
}

/// The wall time of an item, and 0 for none.
fn wall_of(item: Option<ItemRef<'_>>) -> u64 {
    match item {
        Some(item) => item.ts.wall(),
        None => 0,
    }
}

/// Goes up and down, with a turn at each place: before `a`, at `a`, at `d` and past it.
fn moves<L: Ledger>(cursor: &mut MvccCursor<'_>, looks: &mut Looks<L>) -> bool {
    cursor.seek_key(b"a", looks);
    let mut is_right = is_at(cursor.key(), b"a");
    for (is_next, want) in [
        (false, &b""[..]),
        (false, &b""[..]),
        (true, &b"a"[..]),
        (false, &b""[..]),
        (true, &b"a"[..]),
        (true, &b"d"[..]),
        (false, &b"a"[..]),
        (true, &b"d"[..]),
        (true, &b""[..]),
        (true, &b""[..]),
        (false, &b"d"[..]),
        (true, &b""[..]),
        (false, &b"d"[..]),
        (false, &b"a"[..]),
    ] {
        if is_next {
            cursor.next_key(looks);
        } else {
            cursor.prev_key(looks);
        }
        is_right = is_right && is_at(cursor.key(), want);
    }
    is_right
}

/// Seeks keys that are stored, keys between, a cleared one, and keys longer than any: whether each is stored, and the stored keys
/// before it, from it on, and behind it.
fn seeks<L: Ledger>(cursor: &mut MvccCursor<'_>, looks: &mut Looks<L>) -> bool {
    let mut is_right = true;
    for (key, is_stored, before, from, behind) in [
        (&b""[..], false, &b""[..], &b"a"[..], &b"a"[..]),
        (&b"a"[..], true, &b""[..], &b"a"[..], &b"d"[..]),
        (&b"aa"[..], false, &b"a"[..], &b"d"[..], &b"d"[..]),
        (&b"b"[..], false, &b"a"[..], &b"d"[..], &b"d"[..]),
        (&b"c"[..], false, &b"a"[..], &b"d"[..], &b"d"[..]),
        (&[0x63; 4097][..], false, &b"a"[..], &b"d"[..], &b"d"[..]),
        (&[0x63; 4098][..], false, &b"a"[..], &b"d"[..], &b"d"[..]),
        (&b"d"[..], true, &b"a"[..], &b"d"[..], &b""[..]),
        (&b"da"[..], false, &b"d"[..], &b""[..], &b""[..]),
    ] {
        is_right = is_right && cursor.seek_exact(key, looks) == is_stored;
        is_right = is_right && cursor.key().is_some() == is_stored;
        cursor.prev_key(looks);
        is_right = is_right && is_at(cursor.key(), before);
        cursor.seek_key(key, looks);
        is_right = is_right && is_at(cursor.key(), from);
        let _ = cursor.seek_exact(key, looks);
        cursor.next_key(looks);
        is_right = is_right && is_at(cursor.key(), behind);
    }
    is_right
}

/// Reads what stands at a key: the wall times of its intent, of its newest item, and of the only tombstone over it.
fn tells<L: Ledger>(cursor: &mut MvccCursor<'_>, looks: &mut Looks<L>) -> bool {
    let mut is_right = true;
    for (key, intent, newest, tombstone) in [
        (&b""[..], 0, 0, 0),
        (&b"a"[..], 5, 3, 0),
        (&b"aa"[..], 0, 0, 0),
        (&b"b"[..], 0, 0, 0),
        (&b"c"[..], 0, 4, 4),
        (&[0x63; 4098][..], 0, 4, 4),
        (&b"d"[..], 0, 9, 4),
        (&b"da"[..], 0, 4, 4),
        (&b"e"[..], 0, 0, 0),
    ] {
        let _ = cursor.seek_exact(key, looks);
        let provisional = match cursor.intent() {
            Some(i) if i.provisional.last() == Some(&b'p') => i.head.ts().wall(),
            _ => 0,
        };
        let covering = match cursor.stack_here() {
            [ts] => ts.wall(),
            _ => 0,
        };
        is_right = is_right
            && provisional == intent
            && cursor.meta().is_some() == (intent != 0)
            && wall_of(cursor.newest()) == newest
            && covering == tombstone;
    }
    is_right
}

/// Reads the newest item at or below a time: its wall time, and whether it is a version.
fn reads<L: Ledger>(cursor: &mut MvccCursor<'_>, looks: &mut Looks<L>) -> bool {
    let mut is_right = true;
    for (key, limit, wall, is_version) in [
        (&b"a"[..], 8, 3, true),
        (&b"a"[..], 3, 3, true),
        (&b"a"[..], 2, 1, true),
        (&b"b"[..], 9, 0, false),
        (&b"c"[..], 9, 4, false),
        (&b"c"[..], 4, 4, false),
        (&b"c"[..], 3, 0, false),
        (&b"d"[..], 9, 9, true),
        (&b"d"[..], 8, 4, false),
        (&b"d"[..], 3, 0, false),
        (&b"da"[..], 8, 4, false),
    ] {
        let _ = cursor.seek_exact(key, looks);
        let item = cursor.at_or_below(at(limit), looks);
        is_right = is_right && wall_of(item) == wall;
        let has_value = match item {
            Some(item) => item.value.is_some(),
            None => false,
        };
        is_right = is_right && has_value == is_version;
        let version = wall_of(cursor.version_at_or_below(at(limit), looks));
        is_right = is_right && (version == wall) == (is_version || wall == 0);
    }
    is_right
}

/// Seeks items above a time, up to another, and by their local times up to a third, where that is not 0.
fn doubts<L: Ledger>(cursor: &mut MvccCursor<'_>, looks: &mut Looks<L>) -> bool {
    let mut is_right = true;
    for (key, above, limit, local_limit, wall) in [
        (&b"a"[..], 1, 10, 0, 3),
        (&b"a"[..], 0, 10, 2, 1),
        (&b"a"[..], 3, 10, 0, 0),
        (&b"b"[..], 0, 10, 0, 0),
        (&b"c"[..], 3, 10, 0, 4),
        (&b"c"[..], 4, 10, 0, 0),
        (&b"d"[..], 3, 10, 0, 9),
        (&b"d"[..], 3, 8, 0, 4),
        (&b"d"[..], 3, 10, 8, 4),
    ] {
        let _ = cursor.seek_exact(key, looks);
        let found = match cursor.uncertain(at(above), at(limit), at(local_limit), looks) {
            Some((ts, local)) => { if ts == local { ts.wall() } else { 99 } }
            None => 0,
        };
        is_right = is_right && found == wall;
    }
    is_right
}

/// Gives the versions of `a` one by one, and anew after a version was sought: 0 for the end, and 2 for a seek at 2.
fn gives<L: Ledger>(cursor: &mut MvccCursor<'_>, looks: &mut Looks<L>) -> bool {
    let mut is_right = cursor.seek_exact(b"a", looks);
    for (sought, want) in [
        (0, 5),
        (0, 3),
        (0, 1),
        (0, 0),
        (0, 0),
        (2, 5),
        (0, 3),
        (8, 5),
        (1, 5),
        (0, 3),
        (0, 1),
    ] {
        if sought != 0 {
            let _ = cursor.at_or_below(at(sought), looks);
        }
        let wall = match cursor.next_version(looks) {
            Some(version) => version.ts.wall(),
            None => 0,
        };
        is_right = is_right && wall == want;
    }
    let _ = cursor.seek_exact(b"c", looks);
    is_right && cursor.next_version(looks).is_none()
}

/// The first check that fails of those of the filled store.
fn first_failure<L: Ledger>(
    alloc: Global,
    store: &Store,
    blank: Blank,
) -> Result<&'static str, OutOfMemory>
    requires well_formed { IsWellFormed (history_in store.now) store.now }
    requires name { blank.name ≡ L.name }
    requires parts { blank.parts ≡ L.parts }
    requires some { 0 < blank.parts }
{
    let mut looks = Looks::<L>::new(blank);
    let mut cursor = MvccCursor::over(alloc, store)?;
    for (is_right, name) in [
        (cursor.key().is_none() && cursor.newest().is_none(), "over"),
        (moves(&mut cursor, &mut looks), "moves"),
        (seeks(&mut cursor, &mut looks), "seeks"),
        (tells(&mut cursor, &mut looks), "tells"),
        (reads(&mut cursor, &mut looks), "reads"),
        (doubts(&mut cursor, &mut looks), "doubts"),
        (gives(&mut cursor, &mut looks), "gives"),
    ] {
        if !is_right {
            return Ok(name);
        }
    }
    Ok("")
}

/// Over a store of three parts each call tells what the points and the range operations make.
#[test]
fn a_filled_store_is_told(rt: HostRuntime) -> Result<(), Fail> {
    let store = filled(rt.alloc())?;
    let failure = first_failure::<Brand>(rt.alloc(), &store, Blank::new(1))?;
    assert!(rt; failure.is_empty());
    Ok(())
}
