//! The key at which a cursor stands, as the items that a rule looks at.
ghost use Rattle.std.specs.Prelude.{◌≡◌, ◌≤◌, ◌+◌, ◌&&◌, ◌||◌, Option, Some, None, find, map, if◌then◌else◌};
ghost use Rattle.std.specs.Option.{option_map};
ghost use Rattle.std.specs.Borrow.{sem};
ghost use Rattle.mvcc_key.specs.Items.{newest, newest_at, tombstone_item, version_item};
ghost use Rattle.mvcc_key.specs.Order.{Key, Timestamp as Time, is_no_time, is_up_to, newer_first};
ghost use Rattle.std.specs.List.Sorted.{IsStrictlySortedBy};
ghost use Rattle.mvcc_key.specs.views.Seen.{time_of};
ghost use Rattle.intent_meta.specs.KeyHistory.{is_uncertain};
ghost use Rattle.intent_meta.specs.views.WholeKeys.{IsKeyHistory};
ghost use Rattle.intent_meta.specs.views.Lent.{Stays, lent_item, lent_intent, item_times, seen_item, seen_intent_at, seen_times};
ghost use Rattle.mvcc_cursor.specs.views.Newer.{newer_item, newer_times};

use crate::MvccCursor;
use crate::here::{is_none, value_here};
use crate::stack::time_up_to;
use intent_meta::{IntentAt, ItemRef, KeyItems};
use mvcc_key::{Looks, Timestamp};
use mvcc_value::plain_value;
use std::sync::ledger::Ledger;

impl MvccCursor<'_> {
    ghost use Rattle.mvcc_key.specs.Lists.{first};
    ghost use Rattle.std.specs.Prelude.{true};
    ghost use Rattle.mvcc_cursor.specs.Standing.{anew, committed, told};
    ghost use Rattle.mvcc_cursor.specs.views.Seen.{IsSought, seeks, seen};

    /// The newest item of the key. `None` exactly where there is none.
    pub fn newest(&self) -> Option<ItemRef<'_>>
        ensures { option_map seen_item result ≡ option_map lent_item (newest (told (seen self.now)).items) }
    {
        newer(
            self.newest_committed(),
            tombstone(self.stack_here().first().copied()),
        )
    }

    /// The intent of the key, by its record and its provisional version.
    fn intent_here(&self) -> Option<IntentAt<'_>>
        ensures { option_map seen_intent_at result ≡ option_map lent_intent (told (seen self.now)).intent }
    {
        let head = self.meta()?;
        let provisional = plain_value(self.provisional_value());
        Some(IntentAt { head, provisional })
    }

    /// The newest item that is not newer than the timestamp.
    fn item_up_to(&self, ts: Timestamp) -> Option<ItemRef<'_>>
        requires { seeks (time_of ts) (first (committed (seen self.now))) ≡ true → IsSought (time_of ts) self.now }
        ensures { option_map seen_item result ≡ option_map lent_item (newest_at (time_of ts) (told (seen self.now)).items) }
    {
        newer(
            self.version_up_to(ts),
            tombstone(time_up_to(self.stack_here(), ts)),
        )
    }

    /// The timestamps of the newest uncertain version. It walks over the versions from the limit down to `above`.
    fn uncertain_version<L: Ledger>(
        &mut self,
        above: Timestamp,
        limit: Timestamp,
        local_limit: Timestamp,
        looks: &mut Looks<L>,
    ) -> Option<(Timestamp, Timestamp)>
        ensures anew { seen self.new ≡ anew (seen self.old) }
        ensures value { option_map seen_times result
            ≡ option_map item_times (find (is_uncertain (time_of above) (time_of limit) (time_of local_limit)) (map version_item (committed (seen self.old)))) }
        ensures later { looks.old ≤ looks.new }
    {
        self.restart();
        let newest = self.newest_version()?.ts;
        let from = newest.min(limit);
        if from.compare(above).is_le() {
            return None;
        }
        self.seek_version(from, looks);
        while let Some((ts, local)) = self.times_here() {
            if ts.compare(above).is_le() {
                return None;
            }
            if is_none(local_limit) || local.compare(local_limit).is_le() {
                return Some((ts, local));
            }
            self.pass_version(looks);
        }
        None
    }
}

impl KeyItems for MvccCursor<'_> {
    ghost use Rattle.mvcc_cursor.specs.Standing.{Standing, AtKey, entries_of, one_seek};
    ghost use Rattle.mvcc_cursor.specs.WellFormed.{history_in};
    ghost use Rattle.mvcc_cursor.specs.views.Seen.{EndsTold, place_by, seen, told_by};
    ghost use Rattle.mvcc_cursor.specs.views.ToldWhole.{told-whole};

    ghost shown = { told_by };

    ghost Place = { Standing };

    ghost place = { place_by };

    ghost whole = { λ c. told-whole (seen c).at (history_in c.places.store.now) c.well_formed.valid };

    fn intent(&self) -> Option<IntentAt<'_>> {
        self.intent_here()
    }

    fn newest(&self) -> Option<ItemRef<'_>> {
        MvccCursor::newest(self)
    }

    fn at_or_below<L: Ledger>(&mut self, ts: Timestamp, looks: &mut Looks<L>) -> Option<ItemRef<'_>>
        ensures* stays { sem 𝓛 (EndsTold self.entry) }
        ensures value { option_map seen_item result ≡ option_map lent_item (newest_at (time_of ts) (told_by self.old).items) }
        ensures later { looks.old ≤ looks.new }
        ensures looks { (key : Key) → (seen self.old).at ≡ AtKey key → looks.new ≤ looks.old + one_seek (seen self.old).store + entries_of key (seen self.old).store }
    {
        self.seek_up_to(ts, looks);
        self.item_up_to(ts)
    }

    fn uncertain<L: Ledger>(
        &mut self,
        above: Timestamp,
        limit: Timestamp,
        local_limit: Timestamp,
        looks: &mut Looks<L>,
    ) -> Option<(Timestamp, Timestamp)>
        ensures stays { Stays told_by place_by self.old self.new }
        ensures value { option_map seen_times result
            ≡ option_map item_times (find (is_uncertain (time_of above) (time_of limit) (time_of local_limit)) (told_by self.old).items) }
        ensures later { looks.old ≤ looks.new }
    {
        let version = self.uncertain_version(above, limit, local_limit, looks);
        let tombstone = uncertain_time(self.stack_here(), above, limit, local_limit);
        newer_of(version, tombstone)
    }
}

/// The tombstone at the timestamp, as an item.
fn tombstone<'a>(ts: Option<Timestamp>) -> Option<ItemRef<'a>>
    ensures { option_map seen_item result ≡ option_map (λ t. lent_item (tombstone_item t)) (option_map time_of ts) }
{
    match ts {
        Some(ts) => Some(ItemRef {
            ts,
            local: Timestamp::NONE,
            value: None,
        }),
        None => None,
    }
}

/// The newer of two items, and the first of two with one timestamp.
fn newer<'a>(first: Option<ItemRef<'a>>, second: Option<ItemRef<'a>>) -> Option<ItemRef<'a>>
    ensures { option_map seen_item result ≡ newer_item (option_map seen_item first.entry) (option_map seen_item second.entry) }
{
    match (first, second) {
        (Some(first), Some(second)) => {
            if first.ts.compare(second.ts).is_lt() {
                Some(second)
            } else {
                Some(first)
            }
        }
        (Some(first), None) => Some(first),
        (None, second) => second,
    }
}

/// The newer of two by their timestamps, the first of each pair.
fn newer_of(
    first: Option<(Timestamp, Timestamp)>,
    second: Option<(Timestamp, Timestamp)>,
) -> Option<(Timestamp, Timestamp)>
    ensures { option_map seen_times result ≡ newer_times (option_map seen_times first) (option_map seen_times second) }
{
    match (first, second) {
        (Some(first), Some(second)) => {
            if first.0.compare(second.0).is_lt() {
                Some(second)
            } else {
                Some(first)
            }
        }
        (Some(first), None) => Some(first),
        (None, second) => second,
    }
}

/// The timestamps of the newest uncertain tombstone, whose effective local timestamp is its own.
fn uncertain_time(
    times: &[Timestamp],
    above: Timestamp,
    limit: Timestamp,
    local_limit: Timestamp,
) -> Option<(Timestamp, Timestamp)>
    requires { IsStrictlySortedBy newer_first (map time_of times.now) }
    ensures { option_map seen_times result
        ≡ option_map item_times (find (is_uncertain (time_of above) (time_of limit) (time_of local_limit)) (map tombstone_item (map time_of times.now))) }
{
    match time_up_to(times, last_uncertain(limit, local_limit)) {
        Some(ts) => {
            if above.compare(ts).is_lt() {
                Some((ts, ts))
            } else {
                None
            }
        }
        None => None,
    }
}

/// The greatest timestamp at which a tombstone may be uncertain.
fn last_uncertain(limit: Timestamp, local_limit: Timestamp) -> Timestamp
    ensures { (t : Time) → is_up_to t (time_of result) ≡ (is_up_to t (time_of limit) && (is_no_time (time_of local_limit) || is_up_to t (time_of local_limit))) }
{
    if is_none(local_limit) || limit.compare(local_limit).is_le() {
        limit
    } else {
        local_limit
    }
}
