//! A cursor over the keys of a store.
ghost use Rattle.std.specs.Prelude.{◌≡◌, ◌≤◌, ◌<◌, ◌+◌, true, false, [], length, slice_get, map, vec_capacity, IsTrue, if◌then◌else◌};
ghost use Rattle.std.specs.List.Sorted.{IsStrictlySortedBy};
ghost use Rattle.mvcc_key.specs.Order.{is_no_time, max_wall, max_logical, newer_first};
ghost use Rattle.mvcc_key.specs.views.Seen.{time_of};
ghost use Rattle.lsm_store.specs.Shown.{shown, fragments_in};
ghost use Rattle.mvcc_cursor.specs.WellFormed.{IsWellFormed, history_in};
ghost use Rattle.mvcc_cursor.specs.Standing.{stack_over};
ghost use Rattle.mvcc_cursor.specs.views.WellFormedProps.{IsOfHistory-prop};
ghost use Rattle.mvcc_cursor.specs.views.Under.{IsRecordName, before_key, behind_key, has_record, is_ahead_under, is_stored, key_under, place_in, place_under, point_under};
ghost use Rattle.mvcc_cursor.specs.declared.stand.Stand.TheVariants as at;

use crate::VersionRef;
use crate::bytes::{cut_key, key_of, name_record, put_time, put_zero};
use crate::here::{is_none, read_record, value_here, version_here};
use crate::places::Places;
use crate::stack::{stack_if, stack_of};
use crate::stand::Stand;
use intent_meta::{IntentRef, ItemRef};
use lsm_store::Store;
use mvcc_key::{Looks, MAX_COUNT, MAX_WALL, OutOfMemory, Timestamp};
use range_key::FragmentsRef;
use std::alloc::Global;
use std::sync::ledger::Ledger;

/// The bytes of the longest name that is sought: a key of 4,097 bytes, a byte 00, and a timestamp.
const ROOM: usize = 4111;

/// A place among the keys of a store, and what the store tells of the key there: its intent, its versions and the tombstones over
/// it (CockroachDB `pkg/storage` `MVCCIterator`). It stands before the first stored key, at a stored key or at one that was sought,
/// or past the last stored key.
///
/// Over `a` with an intent at 5 and versions at 3 and 1, `d` with a version at 9, and a tombstone over [c, e) at 4:
///
/// ```text
/// over             before the first key: no key, no items
/// next_key         at a: meta 5, newest 3; next_version 5, 3, 1, and then none
/// at_or_below(2)   the version at 1; next_version begins anew, at 5
/// seek_exact(c)    false, at c: no key, no versions; newest, at_or_below(4): the tombstone at 4
/// next_key         at d: newest 9; at_or_below(8): the tombstone at 4
/// next_key         past the last key
/// prev_key         at d
/// ```
///
/// Coming to a key is one seek of the store's cursor, and two more where it has an intent. What is known of the key is kept as
/// places, so that `meta`, `newest`, `intent` and `stack_here` seek no more.
#[derive(Drop)]
pub struct MvccCursor<'s> {
    places: Places<'s>,
    /// The encoded name of the record of the key.
    sought: Vec<u8>,
    stand: Stand,
    /// Whether a point of the key is stored.
    stored: bool,
    /// Whether the key has an intent.
    intent: bool,
    /// Whether a version of the key was given.
    given: bool,
    /// The timestamps of the tombstones over the key.
    stack: &'s [Timestamp],
    ghost well_formed: { IsWellFormed (history_in places.store.now) places.store.now } by { IsOfHistory-prop (history_in places.store.now) (shown places.store.now) (fragments_in places.store.now) },
    ghost room: { 4111 ≤ vec_capacity sought },
    ghost named: { IsRecordName sought.items },
    ghost short: { length (key_under sought.items) ≤ 4097 },
    ghost empty: { stand ≡ at.Before → key_under sought.items ≡ [] },
    ghost found: { stored ≡ is_stored (place_in stand sought.items) (shown places.store.now) },
    ghost has: { intent ≡ has_record (place_in stand sought.items) (shown places.store.now) },
    ghost stands: { stand ≡ at.At → place_under places.head ≡ before_key sought.items (shown places.store.now) + 1 },
    ghost ends: { stand ≡ at.Past → place_under places.head ≡ length (shown places.store.now) + 1 },
    ghost provisional: { intent ≡ true → point_under places.provisional ≡ slice_get (shown places.store.now) (before_key sought.items (shown places.store.now) + 1) },
    ghost committed: { intent ≡ true → point_under places.committed ≡ slice_get (shown places.store.now) (before_key sought.items (shown places.store.now) + 2) },
    ghost over: { map time_of stack.now ≡ stack_over (place_in stand sought.items) (fragments_in places.store.now) },
    ghost giving: { given ≡ true → stored ≡ true },
    ghost ahead: { given ≡ true → IsTrue (is_ahead_under places.versions) },
    ghost behind: { given ≡ true → before_key sought.items (shown places.store.now) < place_under places.versions },
    ghost within: { given ≡ true → place_under places.versions ≤ behind_key sought.items (shown places.store.now) + 1 },
}

impl<'s> MvccCursor<'s> {
    ghost use Rattle.std.specs.Prelude.{◌*◌, None, Some, find, min, IfOk, IfSome, is_some};
    ghost use Rattle.std.specs.Option.{option_map};
    ghost use Rattle.std.specs.Borrow.{sem};
    ghost use Rattle.mvcc_key.specs.Fragments.{Fragment};
    ghost use Rattle.mvcc_key.specs.Items.{newest, newest_at, version_item};
    ghost use Rattle.mvcc_key.specs.Lists.{first};
    ghost use Rattle.mvcc_key.specs.Order.{Key, is_up_to};
    ghost use Rattle.mvcc_key.specs.Points.{count_below, point_at};
    ghost use Rattle.mvcc_key.specs.views.Looks.{bits};
    ghost use Rattle.intent_meta.specs.StoredPairs.{intent_record, provisional, stored_value};
    ghost use Rattle.mvcc_key.specs.History.{Intent};
    ghost use Rattle.intent_meta.specs.views.Seen.{seen_intent};
    ghost use Rattle.intent_meta.specs.views.Lent.{lent_item, lent_intent, seen_item, seen_intent_at, seen_times};
    ghost use Rattle.merge_cursor.specs.Merged.{entries_below, entries_before};
    ghost use Rattle.lsm_store.specs.Shown.{points_in};
    ghost use Rattle.mvcc_cursor.specs.KeyPoints.{key_from, key_in, record_name, versions_in};
    ghost use Rattle.mvcc_cursor.specs.Standing.{AtKey, after_one, anew, at_place, committed, entries_of, here, next_place, one_seek, or_past, previous_place, sought_key, stack_here, standing_over, stored, told};
    ghost use Rattle.mvcc_cursor.specs.views.Under.{version_under};
    ghost use Rattle.mvcc_cursor.specs.views.Lent.{lent_version, seen_version, times_in, version_in};
    ghost use Rattle.mvcc_cursor.specs.views.Seen.{EndsAfterOne, EndsAnew, HasGone, IsSought, passed, seeks, seen, version_now};

    /// A cursor before the first key. It takes the memory that all moves need: no later call takes any.
    pub fn over(alloc: Global, store: &'s Store) -> Result<MvccCursor<'s>, OutOfMemory>
        requires { IsWellFormed (history_in store.now) store.now }
        ensures { IfOk result (λ c. seen c ≡ standing_over store.now) }
    {
        MvccCursor::with_buffer(Vec::new(alloc), store)
    }

    /// A cursor before the first key, as [`MvccCursor::over`] makes it, with a buffer that the caller lends for the names that are
    /// sought. What it holds is dropped, and one that has room for 4,111 bytes, as those of [`MvccCursor::into_buffer`] have, takes
    /// no memory.
    pub fn with_buffer(mut buffer: Vec<u8>, store: &'s Store) -> Result<MvccCursor<'s>, OutOfMemory>
        requires { IsWellFormed (history_in store.now) store.now }
        ensures { IfOk result (λ c. seen c ≡ standing_over store.now) }
    {
        buffer.clear();
        buffer.reserve_exact(ROOM)?;
        name_record(&mut buffer, &[]);
        Ok(MvccCursor {
            places: Places::over(store)?,
            sought: buffer,
            stand: Stand::Before,
            stored: false,
            intent: false,
            given: false,
            stack: &[],
        })
    }

    /// Gives the buffer back, for another cursor. It has room for 4,111 bytes.
    pub fn into_buffer(self) -> Vec<u8>
        ensures { 4111 ≤ vec_capacity result }
    {
        self.sought
    }

    /// Goes to the first stored key at or above the given one, or past the last. Of a key above 4,097 bytes these many decide, which
    /// is the same, since no stored key is that long.
    pub fn seek_key<L: Ledger>(&mut self, key: &[u8], looks: &mut Looks<L>)
        ensures key { seen self.new ≡ at_place (or_past (key_from (sought_key key.now) (stored (seen self.old)))) (seen self.old) }
        ensures some { 0 < length (stored (seen self.old)) → looks.old < looks.new }
        ensures later { looks.old ≤ looks.new }
    {
        name_record(&mut self.sought, cut_key(key));
        self.places.seek(self.sought.as_slice(), looks);
        self.stored = self.places.take_key(&mut self.sought);
        self.stand = or_past_if(self.stored);
        self.intent = self
            .places
            .settle(self.sought.as_slice(), self.stored, looks);
        self.stack = stack_if(
            self.places.store,
            self.sought.as_slice(),
            self.stored,
            looks,
        );
        self.given = false;
    }

    /// Goes to the given key itself, and tells whether a point of it is stored. Of a key above 4,097 bytes, which is stored nowhere,
    /// it stands at the first 4,097: no tombstone tells the two apart. Its looks are those of at most three seeks and of one
    /// search among the fragments, and one for each part entry of the key that one of the seeks passes.
    pub fn seek_exact<L: Ledger>(&mut self, key: &[u8], looks: &mut Looks<L>) -> bool
        ensures key { seen self.new ≡ at_place (AtKey (sought_key key.now)) (seen self.old) }
        ensures found { result ≡ is_some (first (here (seen self.new))) }
        ensures passed { passed self.new ≡ entries_below (record_name (sought_key key.now)) (points_in (seen self.old).store) }
        ensures some { 0 < length (stored (seen self.old)) → looks.old < looks.new }
        ensures later { looks.old ≤ looks.new }
        ensures looks { let store = (seen self.old).store in
            looks.new ≤ looks.old + 3 * (one_seek store + entries_of (sought_key key.now) store) + bits (length (fragments_in store)) + 1 }
    {
        let key = cut_key(key);
        name_record(&mut self.sought, key);
        self.places.seek(self.sought.as_slice(), looks);
        self.stored = self.places.is_at(key);
        self.stand = Stand::At;
        self.intent = self.places.settle(self.sought.as_slice(), true, looks);
        self.stack = stack_of(self.places.store, self.sought.as_slice(), looks);
        self.given = false;
        self.stored
    }

    /// Goes to the next stored key, or past the last one.
    pub fn next_key<L: Ledger>(&mut self, looks: &mut Looks<L>)
        ensures key { seen self.new ≡ at_place (next_place (seen self.old).at (stored (seen self.old))) (seen self.old) }
        ensures some { is_some (first (here (seen self.old))) ≡ true → looks.old < looks.new }
        ensures later { looks.old ≤ looks.new }
    {
        if self.stand.is_past() {
            self.given = false;
            return;
        }
        put_zero(&mut self.sought);
        self.places.seek(self.sought.as_slice(), looks);
        self.stored = self.places.take_key(&mut self.sought);
        self.stand = or_past_if(self.stored);
        self.intent = self
            .places
            .settle(self.sought.as_slice(), self.stored, looks);
        self.stack = stack_if(
            self.places.store,
            self.sought.as_slice(),
            self.stored,
            looks,
        );
        self.given = false;
    }

    /// Goes to the stored key before, or before the first one.
    pub fn prev_key<L: Ledger>(&mut self, looks: &mut Looks<L>)
        ensures key { seen self.new ≡ at_place (previous_place (seen self.old).at (stored (seen self.old))) (seen self.old) }
        ensures some { is_some (first (here (seen self.old))) ≡ true → looks.old < looks.new }
        ensures later { looks.old ≤ looks.new }
    {
        if self.stand.is_before() {
            self.given = false;
            return;
        }
        self.places.back(looks);
        self.stored = self.places.take_key(&mut self.sought);
        self.places.seek(self.sought.as_slice(), looks);
        self.stand = or_before_if(self.stored);
        self.intent = self
            .places
            .settle(self.sought.as_slice(), self.stored, looks);
        self.stack = stack_if(
            self.places.store,
            self.sought.as_slice(),
            self.stored,
            looks,
        );
        self.given = false;
    }

    /// The key here. `None` past an end, and where no point of the key sought is stored.
    pub fn key(&self) -> Option<&[u8]>
        ensures { option_map (λ k. k.now) result ≡ key_in (first (here (seen self.now))) }
    {
        if self.stored {
            Some(key_of(self.sought.as_slice()))
        } else {
            None
        }
    }

    /// The intent record of the key.
    pub fn meta(&self) -> Option<IntentRef<'_>>
        ensures { option_map seen_intent result ≡ option_map intent_record (told (seen self.now)).intent }
    {
        if self.intent {
            Some(read_record(value_here(&self.places.head)))
        } else {
            None
        }
    }

    /// The timestamps of the tombstones over the key, newest first.
    pub fn stack_here(&self) -> &[Timestamp]
        ensures value { map time_of result.now ≡ stack_here (seen self.now) }
        ensures descending { IsStrictlySortedBy newer_first (stack_here (seen self.now)) }
    {
        self.stack
    }

    /// The fragments of the store.
    pub fn fragments(&self) -> FragmentsRef<'_>
        ensures { result ≡ fragments_in (seen self.now).store }
    {
        self.places.store.fragments()
    }

    /// The next version of the key, from the newest, the provisional one included. `None` after the last. They are given anew after
    /// each coming to a key, and after each call of `version_at_or_below`, `at_or_below` or `uncertain`. The first takes one seek;
    /// beside that, each look is at an entry of a part that is passed.
    pub fn next_version<L: Ledger>(&mut self, looks: &mut Looks<L>) -> Option<VersionRef<'_>>
        ensures* ends { sem 𝓛 (EndsAfterOne self.entry looks.old looks.new) }
        ensures version { option_map seen_version result ≡ option_map version_in (first (seen self.old).left) }
        ensures some { is_some (first (seen self.old).left) ≡ true → looks.old < looks.new }
        ensures later { looks.old ≤ looks.new }
    {
        self.go_on(looks);
        self.version_here()
    }

    /// The newest committed version of the key that is not newer than the timestamp, found by one seek at most. Then the versions
    /// are given anew.
    pub fn version_at_or_below<L: Ledger>(
        &mut self,
        ts: Timestamp,
        looks: &mut Looks<L>,
    ) -> Option<ItemRef<'_>>
        ensures* ends { sem 𝓛 (EndsAnew self.entry) }
        ensures version { option_map seen_item result ≡ option_map lent_item (newest_at (time_of ts) (map version_item (committed (seen self.old)))) }
        ensures later { looks.old ≤ looks.new }
        ensures looks { (key : Key) → (seen self.old).at ≡ AtKey key → looks.new ≤ looks.old + one_seek (seen self.old).store + entries_of key (seen self.old).store }
    {
        self.seek_up_to(ts, looks);
        self.version_up_to(ts)
    }

    /// Takes the place among the versions to the newest committed one that is not newer, unless that is the newest one of all.
    pub(crate) fn seek_up_to<L: Ledger>(&mut self, ts: Timestamp, looks: &mut Looks<L>)
        ensures anew { seen self.new ≡ anew (seen self.old) }
        ensures sought { seeks (time_of ts) (first (committed (seen self.old))) ≡ true → IsSought (time_of ts) self.new }
        ensures later { looks.old ≤ looks.new }
        ensures looks { (key : Key) → (seen self.old).at ≡ AtKey key → looks.new ≤ looks.old + one_seek (seen self.old).store + entries_of key (seen self.old).store }
    {
        if self.seeks_below(ts) {
            self.seek_version(ts, looks);
        } else {
            self.restart();
        }
    }

    /// Whether a version that is not newer than the timestamp has to be sought: the newest one of all is newer.
    fn seeks_below(&self, ts: Timestamp) -> bool
        ensures { result ≡ seeks (time_of ts) (first (committed (seen self.now))) }
    {
        match self.newest_version() {
            Some(newest) => !is_none(ts) && ts.compare(newest.ts).is_lt(),
            None => false,
        }
    }

    /// The newest committed version that is not newer than the timestamp.
    pub(crate) fn version_up_to(&self, ts: Timestamp) -> Option<ItemRef<'_>>
        requires { seeks (time_of ts) (first (committed (seen self.now))) ≡ true → IsSought (time_of ts) self.now }
        ensures { option_map seen_item result ≡ option_map lent_item (newest_at (time_of ts) (map version_item (committed (seen self.now)))) }
    {
        let newest = self.newest_version()?;
        if newest.ts.compare(ts).is_le() {
            return Some(newest.item());
        }
        if is_none(ts) {
            return None;
        }
        match self.version_here() {
            Some(version) => Some(version.item()),
            None => None,
        }
    }

    /// The newest committed version of the key, as an item.
    pub(crate) fn newest_committed(&self) -> Option<ItemRef<'_>>
        ensures { option_map seen_item result ≡ option_map lent_item (first (map version_item (committed (seen self.now)))) }
    {
        match self.newest_version() {
            Some(version) => Some(version.item()),
            None => None,
        }
    }

    /// The newest committed version of the key. It is the first point of the key, or stands behind the two of its intent.
    pub(crate) fn newest_version(&self) -> Option<VersionRef<'_>>
        ensures { option_map seen_version result ≡ option_map lent_version (first (committed (seen self.now))) }
    {
        if !self.stored {
            return None;
        }
        let key = key_of(self.sought.as_slice());
        if self.intent {
            version_here(&self.places.committed, key)
        } else {
            version_here(&self.places.head, key)
        }
    }

    /// Goes to the newest version, provisional or not, that is not newer than the timestamp. Then the versions are given anew.
    pub(crate) fn seek_version<L: Ledger>(&mut self, ts: Timestamp, looks: &mut Looks<L>)
        requires { is_no_time (time_of ts) ≡ false }
        ensures anew { seen self.new ≡ anew (seen self.old) }
        ensures version { version_now self.new ≡ find (λ p. is_up_to p.name.ts (time_of ts)) (versions_in (here (seen self.old))) }
        ensures given { self.new.given ≡ false }
        ensures same_stand { self.new.stand ≡ self.old.stand }
        ensures same_sought { self.new.sought.items ≡ self.old.sought.items }
        ensures same_stored { self.new.stored ≡ self.old.stored }
        ensures same_stack { self.new.stack ≡ self.old.stack }
        ensures ahead { self.new.stored ≡ true → IsTrue (is_ahead_under self.new.places.versions) }
        ensures idle { self.new.stored ≡ false → looks.new ≡ looks.old }
        ensures sought { self.new.stored ≡ true → IsSought (time_of ts) self.new }
        ensures gone { self.new.stored ≡ true → looks.new + entries_below (version_under self.old.sought.items (time_of ts)) (points_in self.old.places.store.now)
            ≤ looks.old + one_seek self.old.places.store.now + entries_before (point_at (shown self.old.places.store.now) (place_under self.new.places.versions)) (points_in self.old.places.store.now) }
        ensures some { is_some (first (here (seen self.old))) ≡ true → looks.old < looks.new }
        ensures later { looks.old ≤ looks.new }
    {
        self.given = false;
        if self.stored {
            let len = self.sought.len();
            put_time(&mut self.sought, ts);
            self.places.seek_version(self.sought.as_slice(), looks);
            self.sought.truncate(len);
        }
    }

    /// Goes on to the next version.
    fn go_on<L: Ledger>(&mut self, looks: &mut Looks<L>)
        ensures after { HasGone self.old looks.old looks.new self.new }
        ensures version { version_now self.new ≡ first (seen self.old).left }
        ensures some { is_some (first (seen self.old).left) ≡ true → looks.old < looks.new }
        ensures later { looks.old ≤ looks.new }
    {
        if self.given {
            self.go_past(looks);
        } else {
            self.seek_version(last_time(), looks);
            self.given = self.stored;
        }
    }

    /// Goes past the version that was given last, unless it stands behind the last one already.
    fn go_past<L: Ledger>(&mut self, looks: &mut Looks<L>)
        requires { self.old.given ≡ true }
        ensures after { HasGone self.old looks.old looks.new self.new }
        ensures version { version_now self.new ≡ first (seen self.old).left }
        ensures some { is_some (first (seen self.old).left) ≡ true → looks.old < looks.new }
        ensures later { looks.old ≤ looks.new }
    {
        if self.places.is_given(key_of(self.sought.as_slice())) {
            self.places.next_version(looks);
        }
    }

    /// The value of the provisional version, where the key has an intent.
    pub(crate) fn provisional_value(&self) -> &[u8]
        ensures { (i : Intent) → (told (seen self.now)).intent ≡ Some i → result.now ≡ stored_value (provisional i) }
    {
        value_here(&self.places.provisional)
    }

    /// The versions are given anew.
    pub(crate) fn restart(&mut self)
        ensures anew { seen self.new ≡ anew (seen self.old) }
        ensures same { self.new.stack ≡ self.old.stack }
    {
        self.given = false;
    }

    /// Goes past a version, while none is given.
    pub(crate) fn pass_version<L: Ledger>(&mut self, looks: &mut Looks<L>)
        requires { self.old.given ≡ false }
        ensures seen { seen self.new ≡ seen self.old }
        ensures given { self.new.given ≡ false }
        ensures same_stored { self.new.stored ≡ self.old.stored }
        ensures same_sought { self.new.sought.items ≡ self.old.sought.items }
        ensures place { place_under self.new.places.versions ≡ min (place_under self.old.places.versions + 1) (length (shown self.old.places.store.now) + 1) }
        ensures later { looks.old ≤ looks.new }
    {
        self.places.next_version(looks);
    }

    /// The timestamp and the effective local timestamp of the version here, where it is one of the key.
    pub(crate) fn times_here(&self) -> Option<(Timestamp, Timestamp)>
        ensures { option_map seen_times result ≡ option_map times_in (option_map version_in (version_now self.now)) }
    {
        let item = self.version_here()?.item();
        Some((item.ts, effective_local(item)))
    }

    /// The version here, where it is one of the key.
    pub(crate) fn version_here(&self) -> Option<VersionRef<'_>>
        ensures { option_map seen_version result ≡ option_map version_in (version_now self.now) }
    {
        if self.stored {
            version_here(&self.places.versions, key_of(self.sought.as_slice()))
        } else {
            None
        }
    }
}

/// The greatest timestamp.
fn last_time() -> Timestamp
    ensures { time_of result ≡ record { wall = max_wall; logical = max_logical } }
{
    Timestamp::new(MAX_WALL, MAX_COUNT).unwrap()
}

/// At a key, or past the last where there is none.
fn or_past_if(is_at: bool) -> Stand
    ensures { result ≡ (if is_at then at.At else at.Past) }
{
    if is_at { Stand::At } else { Stand::Past }
}

/// At a key, or before the first where there is none.
fn or_before_if(is_at: bool) -> Stand
    ensures { result ≡ (if is_at then at.At else at.Before) }
{
    if is_at { Stand::At } else { Stand::Before }
}

/// The local timestamp of an item where one is kept, and else its own.
fn effective_local(item: ItemRef<'_>) -> Timestamp
    ensures { time_of result ≡ (if is_no_time (time_of item.entry.local) then time_of item.entry.ts else time_of item.entry.local) }
{
    if is_none(item.local) {
        item.ts
    } else {
        item.local
    }
}
