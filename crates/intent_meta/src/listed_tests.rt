//! A key whose items are held in a list, against what its list says.
ghost use Rattle.std.specs.Prelude.{◌≡◌, ◌<◌};

use super::*;
use mvcc_key::{Bytes, Key, Looks, Timestamp};
use mvcc_value::Body;
use std::alloc::Global;
use std::marker::Brand;
use std::sync::ledger::{Blank, Ledger};
use std::test::Fail;

/// A put of `abc` at two seconds, of the transaction 1 at sequence 0.
const HEAD: &[u8] =
    b"\0\0\0\0\0\0\0\0\0\0\0\0\0\0\0\x01\0\0\0\0\0\0\0\0\0\0\0\0\x77\x35\x94\0\0\0\0\0\0\0\0\0\x08\0\0\0\0";

/// The plain value `abc`.
const ABC: &[u8] = b"\0\0\0\0\x03abc";

fn at(wall: u64) -> Timestamp {
    Timestamp::new(wall, 0).unwrap_or(Timestamp::NONE)
}

fn read(alloc: Global, head: &[u8], value: &[u8]) -> Result<Option<ListedIntent>, Fail> {
    Ok(ListedIntent::read(Bytes::copy(alloc, head)?, Bytes::copy(alloc, value)?))
}

#[test]
fn an_intent_is_its_record_and_its_value(rt: HostRuntime) -> Result<(), Fail> {
    let headed = b"\0\0\0\x0c\x7f\0\0\0\0\0\0\0\x01\0\0\0\0".as_slice();
    let rows = [
        (HEAD, ABC, true),
        (HEAD, b"\0\0\0\0\x03abd", true),
        (HEAD, b"\0\0\0\0\x03ab", false),
        (HEAD, b"\0\0\0\0\x02abc", false),
        (HEAD, b"", false),
        (HEAD, headed, false),
        (b"", ABC, false),
    ];
    for (head, value, fits) in rows {
        assert_eq!(rt; read(rt.alloc(), head, value)?.is_some(), fits, "{value:?}");
    }
    let items = ListedItems::new(
        rt.alloc(),
        Key::copy(rt.alloc(), b"k")?,
        read(rt.alloc(), HEAD, ABC)?,
    );
    let intent = items.intent().ok_or("the intent")?;
    assert_eq!(rt; intent.head.bytes(), HEAD);
    assert_eq!(rt; intent.head.value_len(), 8);
    assert_eq!(rt; intent.provisional, ABC);
    keys_are_whole();
    Ok(())
}

/// Whether these are the wall times of the newest item up to one wall time, and of the newest uncertain one from there up to 9.
fn tells<L: Ledger>(
    items: &mut ListedItems,
    wall: u64,
    below: Option<u64>,
    uncertain: Option<(u64, u64)>,
    blank: Blank,
) -> bool
    requires name { blank.name ≡ L.name }
    requires parts { blank.parts ≡ L.parts }
    requires some { 0 < blank.parts }
{
    let mut looks = Looks::<L>::new(blank);
    let found = items
        .at_or_below(at(wall), &mut looks)
        .map(|item| item.ts.wall());
    let unsure = items.uncertain(at(wall), at(9), at(8), &mut looks);
    found == below && unsure.map(|(ts, local)| (ts.wall(), local.wall())) == uncertain
}

#[test]
fn items_descend(rt: HostRuntime) -> Result<(), Fail> {
    let mut items = ListedItems::new(rt.alloc(), Key::copy(rt.alloc(), b"k")?, None);
    assert!(rt; items.newest().is_none());
    let body = Body::Bytes(b"abc");
    assert!(rt; items.push(ListedItem::version(rt.alloc(), at(9), at(7), body)?)?);
    assert!(rt; !items.push(ListedItem::tombstone(at(9)))?);
    assert!(rt; items.push(ListedItem::tombstone(at(5)))?);
    let newest = items.newest().ok_or("the newest item")?;
    assert_eq!(rt; (newest.ts, newest.local), (at(9), at(7)));
    let rows = [
        (4, None, Some((9, 7))),
        (5, Some(5), Some((9, 7))),
        (8, Some(5), Some((9, 7))),
        (9, Some(9), None),
    ];
    for (wall, below, uncertain) in rows {
        assert!(rt;
            tells::<Brand>(&mut items, wall, below, uncertain, Blank::new(1)),
            "{wall}"
        );
    }
    Ok(())
}
