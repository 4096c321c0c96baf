//! Reads of one key, each case of the decision at least once, against what the definition says of them.
ghost use Rattle.std.specs.Prelude.{◌≡◌, ◌<◌};

use super::*;
use intent_meta::{IntentAt, ItemRef, KeyItems, ListedIntent, ListedItem, ListedItems};
use mvcc_key::{Bytes, Key, Looks, SeqRange, Timestamp};
use mvcc_value::Body;
use std::alloc::Global;
use std::marker::Brand;
use std::sync::ledger::{Blank, Ledger};
use std::test::Fail;
use txn_state::{Actor, Txn, TxnId};
use uuid::Uuid;

/// The plain values `abc`, `de` and `old`.
const ABC: &[u8] = b"\0\0\0\0\x03abc";

const DE: &[u8] = b"\0\0\0\0\x03de";

const OLD: &[u8] = b"\0\0\0\0\x03old";

/// The value `de`, written at 7.
const DE_AT_7: &[u8] = b"\0\0\0\x0c\x7f\0\0\0\0\0\0\0\x07\0\0\0\0\0\0\0\0\x03de";

fn at(wall: u64) -> Timestamp {
    Timestamp::new(wall, 0).unwrap_or(Timestamp::NONE)
}

/// The transaction 1, with its epoch and sequence, which reads at a wall time and is uncertain up to another.
#[derive(Clone, Copy)]
struct Reader {
    epoch: u32,
    sequence: u32,
    read: u64,
    limit: u64,
    ignored: &'static [SeqRange],
}

/// The transaction 1, at epoch 0 and sequence 0.
fn up_to(read: u64, limit: u64) -> Reader {
    Reader {
        epoch: 0,
        sequence: 0,
        read,
        limit,
        ignored: &[],
    }
}

/// The transaction 1, at epoch 1 and a sequence, which reads at 7.
fn seeing(sequence: u32, ignored: &'static [SeqRange]) -> Reader {
    Reader {
        epoch: 1,
        sequence,
        read: 7,
        limit: 7,
        ignored,
    }
}

impl Reader {
    fn begin(self, alloc: Global) -> Result<Txn, Fail> {
        let mut txn = Txn::begin(alloc, Uuid::from_u128(1), at(self.read), at(self.limit));
        for _ in 0..self.epoch {
            txn.restart(at(self.read))?;
        }
        txn.step(self.sequence)?;
        txn.ignore(self.ignored)?;
        Ok(txn)
    }
}

/// How a read is made: a local limit, whether it is inconsistent, and whether it fails on more recent items.
fn options(local_limit: u64, inconsistent: bool, fail_more_recent: bool) -> ReadOptions {
    ReadOptions {
        local_limit: at(local_limit),
        inconsistent,
        fail_more_recent,
    }
}

fn plainly() -> ReadOptions {
    options(0, false, false)
}

fn inconsistently() -> ReadOptions {
    options(0, true, false)
}

fn failing() -> ReadOptions {
    options(0, false, true)
}

/// An item: its wall time, its local one, and its value, or a tombstone.
type Stored = (u64, u64, Option<Body<'static>>);

/// A key with this intent and these items.
fn key_of(
    alloc: Global,
    intent: Option<ListedIntent>,
    stored: &[Stored],
) -> Result<ListedItems, Fail> {
    let mut items = ListedItems::new(alloc, Key::copy(alloc, b"k")?, intent);
    for (wall, local, body) in stored {
        let item = match body {
            Some(body) => ListedItem::version(alloc, at(*wall), at(*local), *body)?,
            None => ListedItem::tombstone(at(*wall)),
        };
        if !items.push(item)? {
            return Err("the items do not descend".into());
        }
    }
    Ok(items)
}

fn len_of(bytes: &[u8]) -> u32 {
    u32::try_from(bytes.len()).unwrap_or(u32::MAX)
}

/// An entry of an intent: its sequence, and its plain value.
type Entry = (u32, &'static [u8]);

/// The intent of a transaction at a wall time, with an earlier entry and its provisional one.
fn intent_of(
    alloc: Global,
    (id, epoch): (u128, u32),
    wall: u64,
    earlier: &[Entry],
    (sequence, value): Entry,
) -> Result<Option<ListedIntent>, Fail> {
    let mut head = Vec::from_slice(alloc, &id.to_be_bytes())?;
    head.extend_from_slice(&epoch.to_be_bytes())?;
    head.extend_from_slice(&sequence.to_be_bytes())?;
    head.extend_from_slice(&wall.to_be_bytes())?;
    head.extend_from_slice(&[0, 0, 0, 0, u8::from(value.is_empty())])?;
    head.extend_from_slice(&len_of(value).to_be_bytes())?;
    head.extend_from_slice(&u32::try_from(earlier.len())?.to_be_bytes())?;
    for (sequence, value) in earlier {
        head.extend_from_slice(&sequence.to_be_bytes())?;
        head.extend_from_slice(&len_of(value).to_be_bytes())?;
        head.extend_from_slice(value)?;
    }
    let intent = ListedIntent::read(Bytes::from_vec(head), Bytes::copy(alloc, value)?);
    if intent.is_none() {
        return Err("no intent has these bytes".into());
    }
    Ok(intent)
}

/// What a read is to answer, and whether it lists the intent.
type Answer = (Decision<'static>, bool);

/// The conflict with the transaction 2.
fn conflict(wall: u64) -> Answer {
    (
        Decision::Conflict(TxnId::from(Uuid::from_u128(2)), at(wall)),
        false,
    )
}

fn found(value: &'static [u8], wall: u64) -> Answer {
    (Decision::Value(value, at(wall)), false)
}

fn nothing() -> Answer {
    (Decision::Nothing, false)
}

fn uncertain(wall: u64, local: u64) -> Answer {
    (Decision::Uncertain(at(wall), at(local)), false)
}

fn too_old(wall: u64) -> Answer {
    (Decision::TooOld(at(wall)), false)
}

/// Whether the read answers so.
fn decides<L: Ledger>(
    items: &mut ListedItems,
    who: Actor<'_>,
    options: ReadOptions,
    answer: Answer,
    blank: Blank,
) -> bool
    requires name { blank.name ≡ L.name }
    requires parts { blank.parts ≡ L.parts }
    requires some { 0 < blank.parts }
{
    let mut looks = Looks::<L>::new(blank);
    let (decision, listed) = decide(items, &ReadRequest { who, options }, &mut looks);
    decision == answer.0 && listed == answer.1
}

/// Whether a read at a wall time, outside transactions, answers so.
fn at_time(items: &mut ListedItems, wall: u64, options: ReadOptions, answer: Answer) -> bool {
    decides::<Brand>(items, Actor::At(at(wall)), options, answer, Blank::new(1))
}

/// Whether a read in the transaction 1 answers so.
fn in_txn(
    alloc: Global,
    items: &mut ListedItems,
    reader: Reader,
    options: ReadOptions,
    answer: Answer,
) -> Result<bool, Fail> {
    let txn = reader.begin(alloc)?;
    Ok(decides::<Brand>(items, Actor::In(&txn), options, answer, Blank::new(1)))
}

#[test]
fn the_newest_item_answers(rt: HostRuntime) -> Result<(), Fail> {
    let stored = [
        (9, 0, None),
        (7, 0, Some(Body::Deletion)),
        (5, 0, Some(Body::Bytes(b"abc"))),
    ];
    let mut items = key_of(rt.alloc(), None, &stored)?;
    let rows = [
        (4, nothing()),
        (5, found(ABC, 5)),
        (6, found(ABC, 5)),
        (7, nothing()),
        (8, nothing()),
        (9, nothing()),
    ];
    for (wall, answer) in rows {
        assert!(rt; at_time(&mut items, wall, plainly(), answer), "{wall}");
    }
    Ok(())
}

#[test]
fn an_intent_of_another_is_in_the_way(rt: HostRuntime) -> Result<(), Fail> {
    let intent = intent_of(rt.alloc(), (2, 0), 7, &[], (0, DE))?;
    let mut items = key_of(rt.alloc(), intent, &[(5, 0, Some(Body::Bytes(b"abc")))])?;
    let rows = [
        (6, plainly(), found(ABC, 5)),
        (7, plainly(), conflict(7)),
        (8, plainly(), conflict(7)),
        (5, failing(), conflict(7)),
        (6, failing(), conflict(7)),
        (6, inconsistently(), found(ABC, 5)),
        (7, inconsistently(), (Decision::Value(ABC, at(5)), true)),
        (8, inconsistently(), (Decision::Value(ABC, at(5)), true)),
    ];
    for (wall, options, answer) in rows {
        assert!(rt; at_time(&mut items, wall, options, answer), "{wall}");
    }
    Ok(())
}

#[test]
fn an_intent_up_to_the_limit_is_in_the_way(rt: HostRuntime) -> Result<(), Fail> {
    let intent = intent_of(rt.alloc(), (2, 0), 7, &[], (0, DE))?;
    let mut items = key_of(rt.alloc(), intent, &[(5, 0, Some(Body::Bytes(b"abc")))])?;
    let rows = [(6, found(ABC, 5)), (7, conflict(7)), (8, conflict(7))];
    for (limit, answer) in rows {
        let reader = up_to(6, limit);
        assert!(rt;
            in_txn(rt.alloc(), &mut items, reader, plainly(), answer)?,
            "{limit}"
        );
    }
    Ok(())
}

#[test]
fn an_intent_alone_is_passed_over(rt: HostRuntime) -> Result<(), Fail> {
    let intent = intent_of(rt.alloc(), (2, 0), 7, &[], (0, DE))?;
    let mut items = key_of(rt.alloc(), intent, &[])?;
    assert!(rt; at_time(&mut items, 6, inconsistently(), nothing()));
    assert!(rt; at_time(&mut items, 7, inconsistently(), (Decision::Nothing, true)));
    assert!(rt; at_time(&mut items, 6, plainly(), nothing()));
    assert!(rt; at_time(&mut items, 7, plainly(), conflict(7)));
    Ok(())
}

const THREE: &[SeqRange] = &[SeqRange { first: 3, last: 3 }];

const FIVE: &[SeqRange] = &[SeqRange { first: 5, last: 5 }];

const ALL: &[SeqRange] = &[SeqRange { first: 1, last: 5 }];

#[test]
fn the_last_own_entry_that_is_seen_answers(rt: HostRuntime) -> Result<(), Fail> {
    let intent = intent_of(rt.alloc(), (1, 1), 7, &[(1, ABC), (3, DE)], (5, b""))?;
    let mut items = key_of(rt.alloc(), intent, &[(5, 0, Some(Body::Bytes(b"old")))])?;
    let rows = [
        (0, [].as_slice(), found(OLD, 5)),
        (1, &[], found(ABC, 7)),
        (2, &[], found(ABC, 7)),
        (4, &[], found(DE, 7)),
        (5, &[], nothing()),
        (4, THREE, found(ABC, 7)),
        (5, THREE, nothing()),
        (9, FIVE, found(DE, 7)),
        (9, ALL, found(OLD, 5)),
    ];
    for (sequence, ignored, answer) in rows {
        let reader = seeing(sequence, ignored);
        assert!(rt;
            in_txn(rt.alloc(), &mut items, reader, plainly(), answer)?,
            "{sequence}"
        );
    }
    Ok(())
}

#[test]
fn epochs_tell_whose_intent_it_is(rt: HostRuntime) -> Result<(), Fail> {
    let intent = intent_of(rt.alloc(), (1, 1), 7, &[], (0, DE))?;
    let mut items = key_of(rt.alloc(), intent, &[(5, 0, Some(Body::Bytes(b"old")))])?;
    let rows = [
        (0, 7, (Decision::EpochFault(0, 1), false)),
        (0, 6, (Decision::EpochFault(0, 1), false)),
        (1, 6, found(DE, 7)),
        (1, 8, found(DE, 7)),
        (2, 6, found(OLD, 5)),
        (2, 8, found(OLD, 5)),
    ];
    for (epoch, read, answer) in rows {
        let reader = Reader {
            epoch,
            sequence: 0,
            read,
            limit: read,
            ignored: &[],
        };
        assert!(rt;
            in_txn(rt.alloc(), &mut items, reader, plainly(), answer)?,
            "{epoch}"
        );
    }
    Ok(())
}

#[test]
fn more_recent_items_refuse(rt: HostRuntime) -> Result<(), Fail> {
    let stored = [(9, 0, None), (5, 0, Some(Body::Bytes(b"abc")))];
    let mut items = key_of(rt.alloc(), None, &stored)?;
    for (wall, answer) in [
        (10, nothing()),
        (9, too_old(9)),
        (6, too_old(9)),
        (4, too_old(9)),
    ] {
        assert!(rt; at_time(&mut items, wall, failing(), answer), "{wall}");
    }
    let reader = up_to(6, 9);
    assert!(rt; in_txn(rt.alloc(), &mut items, reader, failing(), too_old(9))?);
    let mut items = key_of(rt.alloc(), None, &[(5, 0, Some(Body::Bytes(b"abc")))])?;
    assert!(rt; at_time(&mut items, 5, failing(), too_old(5)));
    assert!(rt; at_time(&mut items, 6, failing(), found(ABC, 5)));
    Ok(())
}

#[test]
fn items_up_to_the_limit_are_uncertain(rt: HostRuntime) -> Result<(), Fail> {
    let stored = [
        (9, 7, Some(Body::Bytes(b"de"))),
        (5, 0, Some(Body::Bytes(b"abc"))),
    ];
    let mut items = key_of(rt.alloc(), None, &stored)?;
    let rows = [
        (8, 0, found(ABC, 5)),
        (9, 0, uncertain(9, 7)),
        (10, 0, uncertain(9, 7)),
        (9, 6, found(ABC, 5)),
        (9, 7, uncertain(9, 7)),
        (9, 8, uncertain(9, 7)),
    ];
    for (limit, local, answer) in rows {
        let (reader, options) = (up_to(6, limit), options(local, false, false));
        assert!(rt;
            in_txn(rt.alloc(), &mut items, reader, options, answer)?,
            "{limit} {local}"
        );
    }
    assert!(rt;
        in_txn(
            rt.alloc(),
            &mut items,
            up_to(9, 9),
            plainly(),
            found(DE_AT_7, 9)
        )?
    );
    assert!(rt; at_time(&mut items, 6, options(9, false, false), found(ABC, 5)));
    Ok(())
}

#[test]
fn the_newest_uncertain_item_is_told(rt: HostRuntime) -> Result<(), Fail> {
    let stored = [(9, 0, None), (8, 6, Some(Body::Bytes(b"de")))];
    let mut items = key_of(rt.alloc(), None, &stored)?;
    let rows = [
        (8, 0, uncertain(8, 6)),
        (9, 0, uncertain(9, 9)),
        (9, 9, uncertain(9, 9)),
        (9, 8, uncertain(8, 6)),
        (9, 5, nothing()),
    ];
    for (limit, local, answer) in rows {
        let (reader, options) = (up_to(7, limit), options(local, false, false));
        assert!(rt;
            in_txn(rt.alloc(), &mut items, reader, options, answer)?,
            "{limit} {local}"
        );
    }
    Ok(())
}

/// A key's items, and how often each of two calls was made.
#[derive(Drop)]
struct Counted<K> {
    items: K,
    below: u32,
    uncertain: u32,
}

impl<K: KeyItems> Counted<K> {
    fn count_below(&mut self)
        ensures { self.new.items ≡ self.old.items }
    {
        self.below = self.below.saturating_add(1);
    }
}

impl<K: KeyItems> KeyItems for Counted<K> {
    ghost shown = { λ c. K.shown c.items };

    ghost Place = { K.Place };

    ghost place = { λ c. K.place c.items };

    ghost whole = { λ c. K.whole c.items };

    fn intent(&self) -> Option<IntentAt<'_>> {
        self.items.intent()
    }

    fn newest(&self) -> Option<ItemRef<'_>> {
        self.items.newest()
    }

    fn at_or_below<L: Ledger>(
        &mut self,
        ts: Timestamp,
        looks: &mut Looks<L>,
    ) -> Option<ItemRef<'_>> {
        self.count_below();
        self.items.at_or_below(ts, looks)
    }

    fn uncertain<L: Ledger>(
        &mut self,
        above: Timestamp,
        limit: Timestamp,
        local_limit: Timestamp,
        looks: &mut Looks<L>,
    ) -> Option<(Timestamp, Timestamp)> {
        self.uncertain = self.uncertain.saturating_add(1);
        self.items.uncertain(above, limit, local_limit, looks)
    }
}

/// How often a read asks for the newest item at or below a timestamp, and for an uncertain one.
fn asks<L: Ledger>(
    items: ListedItems,
    who: Actor<'_>,
    options: ReadOptions,
    blank: Blank,
) -> (u32, u32)
    requires name { blank.name ≡ L.name }
    requires parts { blank.parts ≡ L.parts }
    requires some { 0 < blank.parts }
{
    let mut counted = Counted {
        items,
        below: 0,
        uncertain: 0,
    };
    let mut looks = Looks::<L>::new(blank);
    decide(&mut counted, &ReadRequest { who, options }, &mut looks);
    (counted.below, counted.uncertain)
}

#[test]
fn a_read_asks_at_most_once(rt: HostRuntime) -> Result<(), Fail> {
    let rows = [
        (up_to(4, 4), plainly(), (1, 0)),
        (up_to(5, 9), plainly(), (1, 1)),
        (up_to(4, 5), plainly(), (0, 1)),
        (up_to(4, 9), failing(), (0, 0)),
        (up_to(6, 9), failing(), (1, 1)),
    ];
    for (reader, options, asked) in rows {
        let items = key_of(rt.alloc(), None, &[(5, 0, Some(Body::Bytes(b"abc")))])?;
        let txn = reader.begin(rt.alloc())?;
        let made = asks::<Brand>(items, Actor::In(&txn), options, Blank::new(1));
        assert_eq!(rt; made, asked);
    }
    Ok(())
}
