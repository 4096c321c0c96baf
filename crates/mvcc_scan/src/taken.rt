//! What a scan has taken so far.
ghost use Rattle.std.specs.Prelude.{◌≡◌, ◌+◌, ◌<◌, ◌≤◌, ℕ, Some, List, length, false, Bool, IfOk, OnOk, MatchOption, if◌then◌else◌, nat_le, ◌++◌};
ghost use Rattle.mvcc_key.specs.views.Seen.{time_of};
ghost use Rattle.mvcc_key.specs.Order as order;
ghost use Rattle.std.specs.Option.{option_map};
ghost use Rattle.mvcc_value.specs.views.Seen.{owned_body};
ghost use Rattle.intent_meta.specs.KeyHistory.{KeyHistory};
ghost use Rattle.read_rule.specs.Read as read;
ghost use Rattle.read_rule.specs.Scan as scan;
ghost use Rattle.mvcc_scan.specs.views.Kept.{IsLooked, listed_as, row_with};
ghost use Rattle.mvcc_scan.specs.views.Seen.{limits_of};
ghost use Rattle.mvcc_scan.specs.views.Taking.{IsTaken, IsAfter};

use crate::ScanLimits;
use crate::kept::Kept;
use crate::look::Looked;
use crate::met::Met;
use intent_meta::IntentSeen;
use mvcc_key::{Elements, Key, OutOfMemory, Timestamp};
use mvcc_value::{Found, OwnedValue};
use std::alloc::Global;

/// How a scan ends: at the end of its keys, before a key, or refused.
#[derive(Drop)]
pub(crate) enum Stop {
    AtEnd,
    Before(Key),
    Uncertain(Timestamp, Timestamp),
    EpochFault(u32, u32),
}

/// A value that is found, and how many bytes it has as it is stored.
#[derive(Drop)]
pub(crate) struct Value {
    value: OwnedValue,
    ts: Timestamp,
    stored: u64,
}

/// What a scan has taken so far: its rows, what they leave of the target, the intents that it passed over, those in its way, and the
/// greatest timestamp that was too recent.
#[derive(Drop)]
pub(crate) struct Taken {
    pub(crate) rows: Elements<Found>,
    room: u64,
    pub(crate) listed: Elements<IntentSeen>,
    pub(crate) conflicts: Elements<IntentSeen>,
    pub(crate) too_old: Option<Timestamp>,
}

impl Taken {
    /// Nothing is taken yet.
    pub(crate) fn nothing(alloc: Global, limits: &ScanLimits) -> Taken
        ensures { IsTaken (limits_of limits.now) result scan.nothing_taken }
    {
        Taken {
            rows: Elements::new(alloc),
            room: limits.target,
            listed: Elements::new(alloc),
            conflicts: Elements::new(alloc),
            too_old: None,
        }
    }

    /// Whether a limit is reached.
    pub(crate) fn is_full(&self, limits: &ScanLimits) -> bool
        ensures { (t : scan.Taken) → IsTaken (limits_of limits.now) self.now t → result ≡ scan.is_full (limits_of limits.now) t.rows }
    {
        has_count(limits.max, self.rows.len()) || (0 < limits.target && self.room == 0)
    }

    /// Takes what a look at a key comes to, or tells how the walk stops there.
    pub(crate) fn take(
        &mut self,
        alloc: Global,
        key: &[u8],
        looked: Looked,
        limits: &ScanLimits,
    ) -> Result<Option<Stop>, OutOfMemory>
        ensures { (r : read.ReadRequest) (k : KeyHistory) (t : scan.Taken) → k.key ≡ key.now → IsLooked r k looked → IsTaken (limits_of limits.now) self.old t
            → IfOk result (λ stop. IsAfter (limits_of limits.now) t (scan.take_decision (limits_of limits.now) key.now (read.decision r k) (read.listed_of r k.intent) t) stop self.new) }
    {
        let Looked { kept, listed } = looked;
        match kept {
            Kept::Row(value, ts, stored) => {
                let found = Value { value, ts, stored };
                self.take_row(alloc, key, found, listed, limits)
            }
            Kept::Nothing => {
                self.list(alloc, key, listed)?;
                Ok(None)
            }
            Kept::Conflict(met) => {
                self.conflicts.push(met.at(alloc, key)?)?;
                Ok(None)
            }
            Kept::TooOld(ts) => {
                self.too_old = Some(greatest_so_far(self.too_old, ts));
                Ok(None)
            }
            Kept::Uncertain(ts, local) => Ok(Some(Stop::Uncertain(ts, local))),
            Kept::EpochFault(own, other) => Ok(Some(Stop::EpochFault(own, other))),
        }
    }

    /// Takes a row and the intent that is listed with it, unless the row would pass the target.
    fn take_row(
        &mut self,
        alloc: Global,
        key: &[u8],
        found: Value,
        listed: Option<Met>,
        limits: &ScanLimits,
    ) -> Result<Option<Stop>, OutOfMemory>
        ensures { (t : scan.Taken) → IsTaken (limits_of limits.now) self.old t
            → IfOk result (λ stop. IsAfter (limits_of limits.now) t (scan.take_row (limits_of limits.now) key.now (Some (row_with key.now found.value (time_of found.ts) found.stored)) (listed_as key.now listed) t) stop self.new) }
    {
        let left = room_after(self.room, key, found.stored);
        let may_stop = limits.allow_empty || !self.rows.is_empty();
        if 0 < limits.target && left.is_none() && may_stop {
            return Ok(Some(Stop::Before(Key::copy(alloc, key)?)));
        }
        let key_of_row = Key::copy(alloc, key)?;
        self.rows.push(Found {
            key: key_of_row,
            value: found.value,
            ts: found.ts,
        })?;
        self.room = left.unwrap_or(0);
        self.list(alloc, key, listed)?;
        Ok(None)
    }

    /// Lists the intent that was met at the key, if one was.
    fn list(&mut self, alloc: Global, key: &[u8], met: Option<Met>) -> Result<(), OutOfMemory>
        ensures listed { OnOk result (self.new.listed ≡ self.old.listed ++ listed_as key.now met) }
        ensures rows { self.new.rows ≡ self.old.rows }
        ensures room { self.new.room ≡ self.old.room }
        ensures conflicts { self.new.conflicts ≡ self.old.conflicts }
        ensures too_old { self.new.too_old ≡ self.old.too_old }
    {
        if let Some(met) = met {
            self.listed.push(met.at(alloc, key)?)?;
        }
        Ok(())
    }
}

/// Whether there are so many rows.
fn has_count(max: Option<u64>, rows: usize) -> bool
    ensures { result ≡ scan.has_count max rows }
{
    match max {
        Some(max) => max <= rows as u64,
        None => false,
    }
}

/// What a row of this key leaves of the room, where it fits: its size is the key's length, 12, and the length of its value.
fn room_after(room: u64, key: &[u8], stored: u64) -> Option<u64>
    ensures { MatchOption result (room < length key.now + 12 + stored) (λ left. left + (length key.now + 12 + stored) ≡ room) }
{
    room.checked_sub(key.len() as u64)?
        .checked_sub(12)?
        .checked_sub(stored)
}

/// The greatest timestamp so far.
fn greatest_so_far(so_far: Option<Timestamp>, ts: Timestamp) -> Timestamp
    ensures { Some (time_of result) ≡ scan.greatest_so_far (option_map time_of so_far) (time_of ts) }
{
    match so_far {
        Some(existing) => {
            if existing.compare(ts).is_lt() {
                ts
            } else {
                existing
            }
        }
        None => ts,
    }
}
