//! The places in a store that a cursor over its keys holds.
ghost use Rattle.std.specs.Prelude.{◌≡◌, ◌≤◌, ◌<◌, ◌+◌, ◌*◌, ◌-◌, ◌&&◌, true, false, [], length, slice_get, min, unwrap_or, is_some, vec_capacity, IfOk, IsTrue};
ghost use Rattle.mvcc_key.specs.Encoded.{IsName, name_in};
ghost use Rattle.mvcc_key.specs.Points.{count_below, point_at};
ghost use Rattle.merge_cursor.specs.Merged.{seek_looks, entries_below, entries_before};
ghost use Rattle.lsm_store.specs.Shown.{points_in, shown};
ghost use Rattle.mvcc_key.specs.KeyFormat.{encoded_name};
ghost use Rattle.mvcc_cursor.specs.KeyPoints.{is_of_key, kept_if, key_in, record_name};
ghost use Rattle.mvcc_cursor.specs.views.Short.{AreShortKeys};
ghost use Rattle.mvcc_cursor.specs.WellFormed.{IsWellFormed, history_in};
ghost use Rattle.mvcc_cursor.specs.Standing.{AtKey, entries_of, one_seek};
ghost use Rattle.mvcc_cursor.specs.views.Under.{IsOver, IsRecordName, before_key, has_record, is_ahead_under, key_under, place_under, point_under, points_under};

use crate::bytes::key_of;
use crate::here::{is_at, is_at_record, take_key};
use lsm_store::{Store, StoreCursor};
use mvcc_key::{Cursor, Looks, OutOfMemory};
use std::sync::ledger::Ledger;

/// The places that are kept of a key, as cursors over the store.
#[derive(Drop)]
pub(crate) struct Places<'s> {
    pub(crate) store: &'s Store,
    /// At the first point of the key, or where that would stand.
    pub(crate) head: StoreCursor<'s>,
    /// At the provisional version, where the key has an intent.
    pub(crate) provisional: StoreCursor<'s>,
    /// At the newest committed version, where the key has an intent.
    pub(crate) committed: StoreCursor<'s>,
    /// At the version that was given last.
    pub(crate) versions: StoreCursor<'s>,
    ghost head_over: { IsOver store.now head },
    ghost provisional_over: { IsOver store.now provisional },
    ghost committed_over: { IsOver store.now committed },
    ghost versions_over: { IsOver store.now versions },
}

impl<'s> Places<'s> {
    /// All before the first point.
    pub(crate) fn over(store: &'s Store) -> Result<Places<'s>, OutOfMemory>
        ensures { IfOk result (λ p. p.store.now ≡ store.now) }
    {
        Ok(Places {
            store,
            head: store.cursor()?,
            provisional: store.cursor()?,
            committed: store.cursor()?,
            versions: store.cursor()?,
        })
    }

    /// Takes the head to the first point that is not below the name.
    pub(crate) fn seek<L: Ledger>(&mut self, name: &[u8], looks: &mut Looks<L>)
        requires { IsName name.now }
        ensures store { self.new.store.now ≡ self.old.store.now }
        ensures versions { self.new.versions ≡ self.old.versions }
        ensures place { place_under self.new.head ≡ count_below (name_in name.now) (shown self.old.store.now) + 1 }
        ensures some { 0 < length (shown self.old.store.now) → looks.old < looks.new }
        ensures later { looks.old ≤ looks.new }
        ensures looks { looks.new + entries_below (name_in name.now) (points_in self.old.store.now)
            ≤ looks.old + one_seek self.old.store.now + entries_before (point_under self.new.head) (points_in self.old.store.now) }
    {
        self.head.seek_ge(name, looks);
    }

    /// Takes the head to the point before.
    pub(crate) fn back<L: Ledger>(&mut self, looks: &mut Looks<L>)
        ensures store { self.new.store.now ≡ self.old.store.now }
        ensures versions { self.new.versions ≡ self.old.versions }
        ensures place { place_under self.new.head ≡ place_under self.old.head - 1 }
        ensures some { 0 < place_under self.old.head → place_under self.old.head ≤ length (shown self.old.store.now) → looks.old < looks.new }
        ensures later { looks.old ≤ looks.new }
    {
        self.head.prev(looks);
    }

    /// Whether the point at the head is one of the key.
    pub(crate) fn is_at(&self, key: &[u8]) -> bool
        ensures { result ≡ is_some (kept_if (is_of_key key.now) (point_at (shown self.now.store.now) (place_under self.now.head))) }
    {
        is_at(&self.head, key)
    }

    /// Makes the bytes the name of the record of the key at the head, or of the empty key where there is no point.
    pub(crate) fn take_key(&self, sought: &mut Vec<u8>) -> bool
        requires short { AreShortKeys (shown self.now.store.now) }
        requires room { 4111 ≤ vec_capacity sought.old }
        ensures found { result ≡ is_some (point_at (shown self.now.store.now) (place_under self.now.head)) }
        ensures items { sought.new.items ≡ encoded_name (record_name (unwrap_or (key_in (point_at (shown self.now.store.now) (place_under self.now.head))) [])) }
        ensures room { 4111 ≤ vec_capacity sought.new }
    {
        take_key(&self.head, sought)
    }

    /// Takes the places behind the head to what stands behind the record of the key, where there is one, and tells whether there is.
    pub(crate) fn settle<L: Ledger>(
        &mut self,
        name: &[u8],
        is_there: bool,
        looks: &mut Looks<L>,
    ) -> bool
        requires well_formed { IsWellFormed (history_in self.old.store.now) self.old.store.now }
        requires named { IsRecordName name.now }
        requires stands { is_there ≡ true → place_under self.old.head ≡ before_key name.now (shown self.old.store.now) + 1 }
        ensures store { self.new.store.now ≡ self.old.store.now }
        ensures head { self.new.head ≡ self.old.head }
        ensures versions { self.new.versions ≡ self.old.versions }
        ensures intent { result ≡ (is_there && has_record (AtKey (key_under name.now)) (shown self.old.store.now)) }
        ensures provisional { result ≡ true → point_under self.new.provisional ≡ slice_get (shown self.old.store.now) (before_key name.now (shown self.old.store.now) + 1) }
        ensures committed { result ≡ true → point_under self.new.committed ≡ slice_get (shown self.old.store.now) (before_key name.now (shown self.old.store.now) + 2) }
        ensures later { looks.old ≤ looks.new }
        ensures looks { looks.new ≤ looks.old + 2 * (one_seek self.old.store.now + entries_of (key_under name.now) self.old.store.now) }
    {
        if !self.is_at_record(name, is_there) {
            return false;
        }
        self.seek_provisional(name, looks);
        self.seek_committed(name, looks);
        true
    }

    /// Whether the head stands at the record of the key.
    fn is_at_record(&self, name: &[u8], is_there: bool) -> bool
        requires named { IsRecordName name.now }
        requires stands { is_there ≡ true → place_under self.now.head ≡ before_key name.now (shown self.now.store.now) + 1 }
        ensures { result ≡ (is_there && has_record (AtKey (key_under name.now)) (shown self.now.store.now)) }
    {
        is_there && is_at_record(&self.head, key_of(name))
    }

    /// Takes the place of the provisional version to the point behind the first that is not below the name.
    fn seek_provisional<L: Ledger>(&mut self, name: &[u8], looks: &mut Looks<L>)
        requires { IsName name.now }
        ensures store { self.new.store.now ≡ self.old.store.now }
        ensures head { self.new.head ≡ self.old.head }
        ensures versions { self.new.versions ≡ self.old.versions }
        ensures place { place_under self.new.provisional ≡ min (count_below (name_in name.now) (shown self.old.store.now) + 2) (length (shown self.old.store.now) + 1) }
        ensures later { looks.old ≤ looks.new }
        ensures looks { looks.new + entries_below (name_in name.now) (points_in self.old.store.now)
            ≤ looks.old + one_seek self.old.store.now + entries_before (point_under self.new.provisional) (points_in self.old.store.now) }
    {
        self.provisional.seek_ge(name, looks);
        self.provisional.next(looks);
    }

    /// Takes the place of the newest committed version to the second point behind the first that is not below the name.
    fn seek_committed<L: Ledger>(&mut self, name: &[u8], looks: &mut Looks<L>)
        requires { IsName name.now }
        ensures store { self.new.store.now ≡ self.old.store.now }
        ensures head { self.new.head ≡ self.old.head }
        ensures provisional { self.new.provisional ≡ self.old.provisional }
        ensures versions { self.new.versions ≡ self.old.versions }
        ensures place { place_under self.new.committed ≡ min (count_below (name_in name.now) (shown self.old.store.now) + 3) (length (shown self.old.store.now) + 1) }
        ensures later { looks.old ≤ looks.new }
        ensures looks { looks.new + entries_below (name_in name.now) (points_in self.old.store.now)
            ≤ looks.old + one_seek self.old.store.now + entries_before (point_under self.new.committed) (points_in self.old.store.now) }
    {
        self.committed.seek_ge(name, looks);
        self.committed.next(looks);
        self.committed.next(looks);
    }

    /// Takes the place among the versions to the first point that is not below the name.
    pub(crate) fn seek_version<L: Ledger>(&mut self, name: &[u8], looks: &mut Looks<L>)
        requires { IsName name.now }
        ensures store { self.new.store.now ≡ self.old.store.now }
        ensures head { self.new.head ≡ self.old.head }
        ensures provisional { self.new.provisional ≡ self.old.provisional }
        ensures committed { self.new.committed ≡ self.old.committed }
        ensures place { place_under self.new.versions ≡ count_below (name_in name.now) (shown self.old.store.now) + 1 }
        ensures ahead { IsTrue (is_ahead_under self.new.versions) }
        ensures some { 0 < length (shown self.old.store.now) → looks.old < looks.new }
        ensures later { looks.old ≤ looks.new }
        ensures looks { looks.new + entries_below (name_in name.now) (points_in self.old.store.now)
            ≤ looks.old + one_seek self.old.store.now + entries_before (point_under self.new.versions) (points_in self.old.store.now) }
    {
        self.versions.seek_ge(name, looks);
    }

    /// Whether the point at the place among the versions is one of the key.
    pub(crate) fn is_given(&self, key: &[u8]) -> bool
        ensures { result ≡ is_some (kept_if (is_of_key key.now) (point_at (shown self.now.store.now) (place_under self.now.versions))) }
    {
        is_at(&self.versions, key)
    }

    /// Takes the place among the versions to the next point.
    pub(crate) fn next_version<L: Ledger>(&mut self, looks: &mut Looks<L>)
        ensures store { self.new.store.now ≡ self.old.store.now }
        ensures head { self.new.head ≡ self.old.head }
        ensures provisional { self.new.provisional ≡ self.old.provisional }
        ensures committed { self.new.committed ≡ self.old.committed }
        ensures place { place_under self.new.versions ≡ min (place_under self.old.versions + 1) (length (shown self.old.store.now) + 1) }
        ensures ahead { IsTrue (is_ahead_under self.new.versions) }
        ensures some { 0 < place_under self.old.versions → place_under self.old.versions ≤ length (shown self.old.store.now) → looks.old < looks.new }
        ensures later { looks.old ≤ looks.new }
        ensures looks { IsTrue (is_ahead_under self.old.versions)
            → looks.new + entries_before (point_under self.old.versions) (points_in self.old.store.now)
            ≤ looks.old + entries_before (point_under self.new.versions) (points_in self.old.store.now) }
    {
        self.versions.next(looks);
    }
}
