//! The engine: writes and reads of keys, and the running statistics of what is stored.
//!
//! ```text
//! put     a@1=x         a@1=x                 live_count=1
//! put     a@3=z         a@3=z a@1=x           live_count=1, and a@1 is garbage since 3
//! put     a@7=y in t    a:t a@7=y a@3=z a@1=x intent_count=1, and a@3 is garbage since 7
//! get_at  a@9           conflict with the intent of t
//! get_at  a@4           a@3=z
//! resolve t at 8        a@8=y a@3=z a@1=x     intent_count=0, and a@3 is garbage since 8
//! ```
ghost use Rattle.std.specs.Prelude.{◌≡◌, ◌≤◌, ◌<◌, ◌^◌, ◌+◌, map, IfOk};
ghost use Rattle.std.specs.Option.{option_map};
ghost use Rattle.mvcc_key.specs.History.{History};
ghost use Rattle.mvcc_key.specs.views.Seen.{time_of};
ghost use Rattle.mvcc_value.specs.views.Seen.{found_of, plain_body};
ghost use Rattle.txn_state.specs.views.Seen.{actor_of};
ghost use Rattle.write_rule.specs.Write as rule;
ghost use Rattle.write_rule.specs.Write.{Done, Number, WasThere};
ghost use Rattle.write_rule.specs.views.Seen.{answer_of, request_of};
ghost use Rattle.stat_delta.specs.PointChange.{IsPointChange};
ghost use Rattle.intent_resolve.specs.views.Seen.{ranged_of, update_of};
ghost use Rattle.lsm_store.specs.Parts.{layout};
ghost use Rattle.lsm_store.specs.views.Seen.{seen_shape};
ghost use Rattle.mvcc_engine.specs.Step.{Age, Compact, Finished, Flush, Get, Got, Reply, Resolve, ResolveRange, Took, WasFound, Write, Wrote, first_state, statistics, step};
ghost use Rattle.mvcc_engine.specs.Looks.{looks_at};
ghost use Rattle.mvcc_engine.specs.views.Taking.{IsPlanned, changed_to};
ghost use Rattle.mvcc_engine.specs.views.Seen.{Answers, AnswersAge, AnswersRead, AnswersUnlessFull, IsAnswerTo};

use crate::answer::{number_in, was_there};
use crate::reading::get;
use crate::refusal::{AgeFault, Refusal};
use intent_resolve::{Ranged, Update, plan_resolve, plan_resolve_range};
use lsm_store::{PartShape, Store};
use mvcc_key::{Looks, OutOfMemory, Timestamp};
use mvcc_put::plan_put_with;
use mvcc_value::{Found, PlainValue};
use stat_core::Stats;
use stat_delta::Change;
use std::alloc::Global;
use std::marker::Model;
use std::sync::ledger::Ledger;
use txn_state::Actor;
use write_rule::{WriteAnswer, WriteKind, WriteRequest};

/// Every version and every intent of every key, and the statistics that a recount of them gives. Contracts see it as the state of
/// the definitions: the history, the latest moment that was stored or aged to, the bound on each of the statistics, and what each
/// part of the store names.
#[derive(Drop)]
pub struct Engine {
    alloc: Global,
    store: Store,
    stats: Stats,
    /// What a cursor needs for the names that it seeks, kept from one to the next. It says nothing of the state.
    buffer: Vec<u8>,
}

impl Model for Engine {
    ghost use Rattle.mvcc_engine.specs.Step.{State};
    ghost use Rattle.mvcc_engine.specs.views.Sound.{IsSound, state_of};

    ghost Value = { State };

    ghost view = { λ e. state_of e.store e.stats };

    ghost invariant = { λ e. IsSound e.store e.stats };
}

impl Engine {
    /// Nothing is stored, and the latest moment is 0. None of the statistics but that moment may pass `count_max`.
    pub fn new(alloc: Global, count_max: u64) -> Engine
        requires some { 0 < count_max }
        requires range { count_max < 2 ^ 63 }
        ensures { result ≡ first_state count_max }
    {
        Engine {
            alloc,
            store: Store::new(alloc),
            stats: Stats::new(count_max),
            buffer: Vec::new(alloc),
        }
    }

    /// Puts a value of the key (CockroachDB `MVCCPut`): outside transactions a version at the timestamp, and in one its intent. A
    /// local timestamp is kept only where it is below that of the value; [`Timestamp::NONE`] is none. It is refused with the
    /// first of these that applies, in this order: [`Refusal::EmptyKey`], [`Refusal::KeyTooLong`], [`Refusal::ValueTooLong`],
    /// [`Refusal::BadTimestamp`], [`Refusal::Conflict`], [`Refusal::EpochFault`], [`Refusal::ReplayMissing`],
    /// [`Refusal::ReplayMismatch`], [`Refusal::TooOld`], [`Refusal::IntentTooLong`], [`Refusal::CountOverflow`].
    pub fn put<L: Ledger>(
        &mut self,
        who: Actor<'_>,
        key: &[u8],
        value: PlainValue<'_>,
        local: Timestamp,
        looks: &mut Looks<L>,
    ) -> Result<(), Refusal>
        ensures answers { Answers result (λ done. Wrote Done) self.old self.new
            (step self.old (Write key.now (record { who = actor_of who.entry; kind = rule.Put (plain_body value.entry); local = time_of local }))) }
        ensures looks { looks.new ≤ looks.old + looks_at self.old key.now }
    {
        let kind = WriteKind::Put(value);
        self.write(key, &WriteRequest { who, kind, local }, looks)?;
        Ok(())
    }

    /// Puts a deletion of the key (CockroachDB `MVCCDelete`), also where nothing was there, and answers whether a value was. It is
    /// refused as [`Engine::put`] is, but for the value's length.
    pub fn delete<L: Ledger>(
        &mut self,
        who: Actor<'_>,
        key: &[u8],
        local: Timestamp,
        looks: &mut Looks<L>,
    ) -> Result<bool, Refusal>
        ensures answers { Answers result (λ there. Wrote (WasThere there)) self.old self.new
            (step self.old (Write key.now (record { who = actor_of who.entry; kind = rule.Delete; local = time_of local }))) }
        ensures looks { looks.new ≤ looks.old + looks_at self.old key.now }
    {
        let kind = WriteKind::Delete;
        let answer = self.write(key, &WriteRequest { who, kind, local }, looks)?;
        Ok(was_there(answer))
    }

    /// Puts a value where the value before is the expected one, or none is there and none is expected (CockroachDB
    /// `MVCCConditionalPut`). It is refused as [`Engine::put`] is, with [`Refusal::ConditionFailed`] behind [`Refusal::TooOld`].
    pub fn conditional_put<L: Ledger>(
        &mut self,
        who: Actor<'_>,
        key: &[u8],
        value: PlainValue<'_>,
        expected: Option<PlainValue<'_>>,
        local: Timestamp,
        looks: &mut Looks<L>,
    ) -> Result<(), Refusal>
        ensures answers { Answers result (λ done. Wrote Done) self.old self.new
            (step self.old (Write key.now (record { who = actor_of who.entry; kind = rule.ConditionalPut (plain_body value.entry) (option_map plain_body expected.entry); local = time_of local }))) }
        ensures looks { looks.new ≤ looks.old + looks_at self.old key.now }
    {
        let kind = WriteKind::ConditionalPut(value, expected);
        self.write(key, &WriteRequest { who, kind, local }, looks)?;
        Ok(())
    }

    /// Puts a value where none is there or this one is (CockroachDB `MVCCInitPut`). It is refused as
    /// [`Engine::conditional_put`] is.
    pub fn init_put<L: Ledger>(
        &mut self,
        who: Actor<'_>,
        key: &[u8],
        value: PlainValue<'_>,
        local: Timestamp,
        looks: &mut Looks<L>,
    ) -> Result<(), Refusal>
        ensures answers { Answers result (λ done. Wrote Done) self.old self.new
            (step self.old (Write key.now (record { who = actor_of who.entry; kind = rule.InitPut (plain_body value.entry); local = time_of local }))) }
        ensures looks { looks.new ≤ looks.old + looks_at self.old key.now }
    {
        let kind = WriteKind::InitPut(value);
        self.write(key, &WriteRequest { who, kind, local }, looks)?;
        Ok(())
    }

    /// Puts the number that is the value before and this one together, where none is there this one alone, and answers it
    /// (CockroachDB `MVCCIncrement`). It is refused as [`Engine::delete`] is, with [`Refusal::NotInteger`] and
    /// [`Refusal::IntegerOverflow`] behind [`Refusal::TooOld`].
    pub fn increment<L: Ledger>(
        &mut self,
        who: Actor<'_>,
        key: &[u8],
        by: i64,
        local: Timestamp,
        looks: &mut Looks<L>,
    ) -> Result<i64, Refusal>
        ensures answers { Answers result (λ number. Wrote (Number number)) self.old self.new
            (step self.old (Write key.now (record { who = actor_of who.entry; kind = rule.Increment by; local = time_of local }))) }
        ensures looks { looks.new ≤ looks.old + looks_at self.old key.now }
    {
        let kind = WriteKind::Increment(by);
        let answer = self.write(key, &WriteRequest { who, kind, local }, looks)?;
        Ok(number_in(answer))
    }

    /// Resolves the key's intent, if it is of the update's transaction, and answers whether it is (CockroachDB
    /// `MVCCResolveWriteIntent`). By [`intent_resolve::plan_resolve`] the intent goes, moves, or becomes a version. It is refused
    /// with [`Refusal::CommitBelowIntent`] or, behind that, with [`Refusal::CountOverflow`].
    pub fn resolve<L: Ledger>(
        &mut self,
        key: &[u8],
        update: &Update,
        looks: &mut Looks<L>,
    ) -> Result<bool, Refusal>
        ensures answers { Answers result (λ found. WasFound found) self.old self.new (step self.old (Resolve key.now (update_of update.now))) }
        ensures looks { looks.new ≤ looks.old + looks_at self.old key.now }
    {
        let last = self.stats.last_update_nanos();
        let (change, found) = plan_resolve(self.alloc, &self.store, last, key, update, looks)?;
        self.take(change)?;
        Ok(found)
    }

    /// Resolves the intents that the update's transaction has in a span, in the order of their keys and at most `max` of them, and
    /// answers how many, and what is left of the span from the next one on (CockroachDB `MVCCResolveWriteIntentRange`). Each is
    /// resolved as by [`Engine::resolve`], and where one is refused nothing changes. It is refused with the first of these that
    /// applies, in this order: [`Refusal::BadSpan`], [`Refusal::CommitBelowIntent`], [`Refusal::CountOverflow`].
    pub fn resolve_range(
        &mut self,
        start: &[u8],
        end: &[u8],
        update: &Update,
        max: Option<u64>,
    ) -> Result<Ranged, Refusal>
        ensures { Answers result (λ ranged. Took (ranged_of ranged)) self.old self.new (step self.old (ResolveRange start.now end.now (update_of update.now) max)) }
    {
        let last = self.stats.last_update_nanos();
        let (change, ranged) = plan_resolve_range(
            self.alloc,
            &self.store,
            last,
            start,
            end,
            update,
            max,
        )?;
        self.take(change)?;
        Ok(ranged)
    }

    /// The newest version of the key that is not newer than the timestamp, where it is no deletion and no tombstone is above it
    /// (CockroachDB `MVCCGet` outside of a transaction). It is refused with [`Refusal::Conflict`] where the key has an intent at or
    /// below the timestamp.
    pub fn get_at(&self, key: &[u8], ts: Timestamp) -> Result<Option<Found>, Refusal>
        ensures { AnswersRead result (λ found. Got (option_map found_of found)) self.now (step self.now (Get key.now (time_of ts))) }
    {
        get(&mut Vec::new(self.alloc), self.alloc, &self.store, key, ts)
    }

    /// The same as [`Engine::get_at`] where the engine is the caller's alone: its cursor takes the buffer that the engine keeps, so
    /// that the read takes less memory. The engine stays as it is.
    pub fn get_buffered(&mut self, key: &[u8], ts: Timestamp) -> Result<Option<Found>, Refusal>
        ensures answers { AnswersRead result (λ found. Got (option_map found_of found)) self.old (step self.old (Get key.now (time_of ts))) }
        ensures same { self.new ≡ self.old }
    {
        get(&mut self.buffer, self.alloc, &self.store, key, ts)
    }

    /// Ages the statistics to a moment, in nanoseconds of wall time.
    pub fn age(&mut self, now: u64) -> Result<(), AgeFault>
        requires { now < 2 ^ 63 }
        ensures { AnswersAge result self.old self.new (step self.old (Age now)) }
    {
        let latest = self.stats.last_update_nanos();
        if now < latest {
            return Err(AgeFault::MomentTooEarly(latest));
        }
        self.stats.age_to(now)?;
        Ok(())
    }

    /// Makes a memory table that is not empty the newest run (Pebble `DB.Flush`). What is stored stays the same. Only want of memory
    /// refuses it, and then everything is as it was.
    pub fn flush(&mut self) -> Result<(), OutOfMemory>
        ensures { AnswersUnlessFull result (λ done. Finished) self.old self.new (step self.old Flush) }
    {
        self.store.flush()
    }

    /// Unites the oldest runs into one, so that at most `keep` runs are left (Pebble `DB.Compact`). What is stored stays the same.
    /// Only want of memory refuses it, and then everything is as it was.
    pub fn compact(&mut self, keep: u64) -> Result<(), OutOfMemory>
        requires { 1 ≤ keep }
        ensures { AnswersUnlessFull result (λ done. Finished) self.old self.new (step self.old (Compact keep)) }
    {
        self.store.compact(keep)
    }

    /// How many names each part holds and clears: the memory table first, then the runs from the newest to the oldest.
    pub fn layout(&self) -> Result<Vec<PartShape>, OutOfMemory>
        ensures { IfOk result (λ shapes. map seen_shape shapes.items ≡ layout self.now.parts) }
    {
        self.store.layout()
    }

    /// The running statistics, which are those of a recount of what is stored at the latest moment.
    pub fn stats(&self) -> Stats
        ensures { result ≡ record { sums = statistics self.now.last self.now.history; last = self.now.last; count_max = self.now.count_max } }
    {
        self.stats
    }

    /// Carries a write out, and answers as its rule does. Memory is taken before the first change.
    fn write<L: Ledger>(
        &mut self,
        key: &[u8],
        request: &WriteRequest<'_>,
        looks: &mut Looks<L>,
    ) -> Result<WriteAnswer, Refusal>
        ensures answers { Answers result (λ answer. Wrote (answer_of answer)) self.old self.new (step self.old (Write key.now (request_of request.now))) }
        ensures formed { IfOk result (λ answer. IsAnswerTo (request_of request.now).kind (answer_of answer)) }
        ensures looks { looks.new ≤ looks.old + looks_at self.old key.now }
    {
        let last = self.stats.last_update_nanos();
        let (change, answer) = plan_put_with(
            &mut self.buffer,
            self.alloc,
            &self.store,
            last,
            key,
            request,
            looks,
        )?;
        let mut stats = self.stats;
        stats.settle(&change.delta, change.last)?;
        self.store.apply(change.batch)?;
        self.stats = stats;
        Ok(answer)
    }

    /// Takes a planned change up, with the statistics after it. Memory is taken before the first change.
    fn take(&mut self, planned: Change) -> Result<(), Refusal>
        requires { IsPlanned self.old planned }
        ensures { (after : History) (reply : Reply) → IsPointChange self.old.last self.old.history after planned
            → Answers result (λ done. reply) self.old self.new (changed_to self.old after reply) }
    {
        let mut settled = self.stats;
        settled.settle(&planned.delta, planned.last)?;
        self.store.apply(planned.batch)?;
        self.stats = settled;
        Ok(())
    }
}
