//! What a script has made so far, and what one line does to it.
ghost use Rattle.std.specs.Prelude.{◌≡◌, ◌≤◌, ◌<◌, ◌+◌, ◌-◌, ◌^◌, [], ◌++◌, false, cond, OnOk, OnErr, map};
ghost use Rattle.std.specs.Option.{option_map, unwrap_or};
ghost use Rattle.std.specs.Int.{w128, to_be_bytes};
ghost use Rattle.std.specs.List.{flat_map};
ghost use Rattle.lsm_store.specs.views.Seen.{seen_shape};
ghost use Rattle.mvcc_key.specs.views.Seen.{time_of};
ghost use Rattle.mvcc_value.specs.views.Seen.{plain_body};
ghost use Rattle.script_line.specs.Grammar as grammar;
ghost use Rattle.script_line.specs.Grammar.{Age, Compact, ConditionalPut, Del, Flush, Get, Increment, InitPut, Layout, Put, Resolve, ResolveRange, Stats, TxnBegin, TxnRemove};
ghost use Rattle.script_text.specs.Text.{show};
ghost use Rattle.script_text.specs.views.Appending.{Extends};
ghost use Rattle.script_line.specs.views.SeenLine.{body_of, is_blank, line_of, status_of, who_of};
ghost use Rattle.script_run.specs.Output.{carry_out, first_script_state, layout_answers, perform, performed, statistics_answer, text_of, with_txn};
ghost use Rattle.script_run.specs.views.Answered.{Carries, IsAnswered, TellsRefusal};
ghost use Rattle.script_run.specs.views.Changed.{rule_of};
ghost use Rattle.script_run.specs.views.Told.{told_by};

use crate::change::TxnChange;
use crate::script::without_return;
use crate::stop::{CommandStop, reason_of};
use crate::txns::Txns;
use mvcc_engine::{Engine, PartShape};
use mvcc_key::{Looks, OutOfMemory, Timestamp};
use mvcc_value::PlainValue;
use script_line::{Line, Options, Status, Value, Who, parse_line};
use script_text::{Answer, Reason, show};
use script_words::LineFault;
use std::alloc::Global;
use std::marker::{Brand, Model};
use std::sync::ledger::{Blank, Ledger};
use txn_state::Txn;
use uuid::Uuid;

/// The state of a run. Contracts see it as the state of the definitions, which always has a part, the memory table.
#[derive(Drop)]
pub struct Session {
    alloc: Global,
    engine: Engine,
    txns: Txns,
    /// How many transactions were begun.
    begun: u64,
}

impl Model for Session {
    ghost use Rattle.std.specs.Prelude.{◌≤◌, length};
    ghost use Rattle.script_run.specs.Output.{ScriptState};

    ghost Value = { ScriptState };

    ghost view = { λ s. record { engine = s.engine; txns = s.txns; begun = s.begun } };

    ghost invariant = { λ s. 1 ≤ length s.engine.parts };
}

impl Session {
    /// Nothing is stored, and no transaction was begun.
    pub fn new(alloc: Global, options: Options) -> Self
        ensures { result ≡ first_script_state options.count_max }
    {
        Session {
            alloc,
            engine: Engine::new(alloc, options.count_max()),
            txns: Txns::new(alloc),
            begun: 0,
        }
    }

    /// Carries out a line, counted from 1, and appends the text of its answers, with that of the statistics where they are wanted
    /// and the line is a command. Where memory is wanting the text stays as it was. Each line begins at most one transaction.
    pub fn carry_out(
        &mut self,
        options: Options,
        number: u64,
        line: &[u8],
        text: &mut Vec<u8>,
    ) -> Result<(), OutOfMemory>
        requires { self.old.begun < number }
        ensures state { OnOk result (self.new ≡ (carry_out self.old number line.now).state) }
        ensures answer { OnOk result (text.new.items ≡ text.old.items ++ text_of options.stats (carry_out self.old number line.now)) }
        ensures err { OnErr result (text.new.items ≡ text.old.items) }
    {
        let start = text.len();
        match self.answer(options, number, line, text) {
            Ok(()) => Ok(()),
            Err(wanting) => {
                text.truncate(start);
                Err(wanting)
            }
        }
    }

    /// Carries out a line, and appends the text of its answers. Where memory is wanting a beginning of it may stand there.
    fn answer(
        &mut self,
        options: Options,
        number: u64,
        line: &[u8],
        text: &mut Vec<u8>,
    ) -> Result<(), OutOfMemory>
        requires { self.old.begun < number }
        ensures state { OnOk result (self.new ≡ (carry_out self.old number line.now).state) }
        ensures answer { OnOk result (text.new.items ≡ text.old.items ++ text_of options.stats (carry_out self.old number line.now)) }
        ensures err { OnErr result (Extends text.old.items text.new.items) }
    {
        let said = match parse_line(self.alloc, without_return(line)) {
            Ok(said) => said,
            Err(LineFault::BadLine) => {
                show(self.alloc, &Answer::Refused(Reason::BadLine(number)), text)?;
                return self.show_statistics(options, text);
            }
            Err(LineFault::OutOfMemory) => return Err(OutOfMemory),
        };
        if said.is_blank() {
            return Ok(());
        }
        self.command(&said, text)?;
        self.show_statistics(options, text)
    }

    /// Appends the text of the statistics, where they are wanted.
    fn show_statistics(&self, options: Options, text: &mut Vec<u8>) -> Result<(), OutOfMemory>
        ensures ok { OnOk result (text.new.items ≡ text.old.items ++ cond options.stats (show (statistics_answer self.now.engine)) []) }
        ensures err { OnErr result (text.new.items ≡ text.old.items) }
    {
        if options.stats() {
            return show(self.alloc, &Answer::Statistics(&self.engine.stats()), text);
        }
        Ok(())
    }

    /// Does what a command says, and appends the text of its answers or of its refusal.
    fn command(&mut self, line: &Line<'_>, text: &mut Vec<u8>) -> Result<(), OutOfMemory>
        requires said { is_blank (line_of line.now) ≡ false }
        requires room { self.old.begun < 2 ^ 64 - 1 }
        ensures ok { OnOk result (IsAnswered (performed self.old (line_of line.now)) self.new text.old.items text.new.items) }
        ensures err { OnErr result (Extends text.old.items text.new.items) }
    {
        match self.perform_from::<Brand>(line, text, Blank::new(1)) {
            Ok(()) => Ok(()),
            Err(stop) => show_refusal(self.alloc, stop, text),
        }
    }

    /// Does what a command says, with the engine's looks in a ledger of their own.
    fn perform_from<L: Ledger>(
        &mut self,
        line: &Line<'_>,
        text: &mut Vec<u8>,
        blank: Blank,
    ) -> Result<(), CommandStop>
        requires said { is_blank (line_of line.now) ≡ false }
        requires room { self.old.begun < 2 ^ 64 - 1 }
        requires name { blank.name ≡ L.name }
        requires parts { blank.parts ≡ L.parts }
        requires some { 0 < blank.parts }
        ensures { Carries result (performed self.old (line_of line.now)) self.old self.new text.old.items text.new.items }
    {
        self.perform(line, text, &mut Looks::<L>::new(blank))
    }

    /// Does what a command says, and appends the text of its answers, or tells why it is refused.
    fn perform<L: Ledger>(
        &mut self,
        line: &Line<'_>,
        text: &mut Vec<u8>,
        looks: &mut Looks<L>,
    ) -> Result<(), CommandStop>
        requires said { is_blank (line_of line.now) ≡ false }
        requires room { self.old.begun < 2 ^ 64 - 1 }
        ensures { Carries result (performed self.old (line_of line.now)) self.old self.new text.old.items text.new.items }
    {
        match line {
            Line::Blank => Ok(()),
            Line::TxnBegin {
                name,
                ts,
                limit,
                id,
            } => self.begin_txn(name, *ts, *limit, *id, text),
            Line::TxnStep { name, n } => self.change_txn(name, TxnChange::Step(*n), text),
            Line::TxnAdvance { name, ts } => self.change_txn(name, TxnChange::Advance(*ts), text),
            Line::TxnRestart { name, ts } => self.change_txn(name, TxnChange::Restart(*ts), text),
            Line::TxnRefresh { name } => self.change_txn(name, TxnChange::Refresh, text),
            Line::TxnIgnoreSeqs { name, ranges } => {
                self.change_txn(name, TxnChange::IgnoreSeqs(ranges.as_slice()), text)
            }
            Line::TxnRemove { name } => self.remove_txn(name, text),
            Line::Put {
                key,
                value,
                who,
                local,
            } => self.put(key.as_slice(), value.as_plain(), *who, *local, text, looks),
            Line::Del { key, who, local } => {
                self.delete(key.as_slice(), *who, *local, text, looks)
            }
            Line::ConditionalPut {
                key,
                value,
                who,
                expected,
                local,
            } => {
                let expected = as_plain(expected.as_ref());
                self.conditional_put(
                    key.as_slice(),
                    value.as_plain(),
                    *who,
                    expected,
                    *local,
                    text,
                    looks,
                )
            }
            Line::InitPut {
                key,
                value,
                who,
                local,
            } => self.init_put(key.as_slice(), value.as_plain(), *who, *local, text, looks),
            Line::Increment {
                key,
                who,
                by,
                local,
            } => self.increment(key.as_slice(), *who, *by, *local, text, looks),
            Line::Resolve {
                name,
                key,
                status,
                ts,
            } => self.resolve(name, key.as_slice(), *status, *ts, text, looks),
            Line::ResolveRange {
                name,
                start,
                end,
                status,
                ts,
                max,
            } => {
                let (start, end) = (start.as_slice(), end.as_slice());
                self.resolve_range(name, start, end, *status, *ts, *max, text)
            }
            Line::Get { key, ts } => self.get(key.as_slice(), *ts, text),
            Line::Age { now } => self.age(now.nanos, text),
            Line::Stats => self.stats(text),
            Line::Flush => self.flush(text),
            Line::Compact { keep } => self.compact(keep.runs, text),
            Line::Layout => self.layout(text),
        }
    }

    fn begin_txn(
        &mut self,
        name: &str,
        ts: Timestamp,
        limit: Timestamp,
        id: Option<Uuid>,
        text: &mut Vec<u8>,
    ) -> Result<(), CommandStop>
        requires { self.old.begun < 2 ^ 64 - 1 }
        ensures { Carries result (performed self.old (TxnBegin name.now (time_of ts) (time_of limit) id)) self.old self.new text.old.items text.new.items }
    {
        if self.txns.find(name).is_some() {
            return Err(CommandStop::TxnExists);
        }
        let id = new_id(id, self.begun);
        let txn = Txn::begin(self.alloc, id, ts, limit);
        show(self.alloc, &Answer::TxnLine { name, txn: &txn }, text)?;
        self.txns.keep(self.alloc, name, txn)?;
        self.begun += 1;
        Ok(())
    }

    /// Changes the transaction of the name, for a line that says so.
    fn change_txn(
        &mut self,
        name: &str,
        change: TxnChange<'_>,
        text: &mut Vec<u8>,
    ) -> Result<(), CommandStop>
        ensures { (line : grammar.Line) → perform self.old line ≡ with_txn self.old name.now (rule_of change.entry)
            → Carries result (performed self.old line) self.old self.new text.old.items text.new.items }
    {
        match self.txns.find_mut(name) {
            Some(txn) => {
                change.make(txn)?;
                show(self.alloc, &Answer::TxnLine { name, txn }, text)?;
                Ok(())
            }
            None => Err(CommandStop::NoTxn),
        }
    }

    fn remove_txn(&mut self, name: &str, text: &mut Vec<u8>) -> Result<(), CommandStop>
        ensures { Carries result (performed self.old (TxnRemove name.now)) self.old self.new text.old.items text.new.items }
    {
        if !self.txns.remove(name) {
            return Err(CommandStop::NoTxn);
        }
        show(self.alloc, &Answer::Accepted, text)?;
        Ok(())
    }

    fn put<L: Ledger>(
        &mut self,
        key: &[u8],
        value: PlainValue<'_>,
        who: Who<'_>,
        local: Timestamp,
        text: &mut Vec<u8>,
        looks: &mut Looks<L>,
    ) -> Result<(), CommandStop>
        ensures { Carries result (performed self.old (Put key.now (plain_body value.entry) (who_of who.entry) (time_of local))) self.old self.new text.old.items text.new.items }
    {
        let writer = self.txns.actor(who)?;
        self.engine.put(writer, key, value, local, looks)?;
        show(self.alloc, &Answer::Accepted, text)?;
        Ok(())
    }

    fn delete<L: Ledger>(
        &mut self,
        key: &[u8],
        who: Who<'_>,
        local: Timestamp,
        text: &mut Vec<u8>,
        looks: &mut Looks<L>,
    ) -> Result<(), CommandStop>
        ensures { Carries result (performed self.old (Del key.now (who_of who.entry) (time_of local))) self.old self.new text.old.items text.new.items }
    {
        let writer = self.txns.actor(who)?;
        let found = self.engine.delete(writer, key, local, looks)?;
        show(self.alloc, &Answer::Deleted { found }, text)?;
        Ok(())
    }

    fn conditional_put<L: Ledger>(
        &mut self,
        key: &[u8],
        value: PlainValue<'_>,
        who: Who<'_>,
        expected: Option<PlainValue<'_>>,
        local: Timestamp,
        text: &mut Vec<u8>,
        looks: &mut Looks<L>,
    ) -> Result<(), CommandStop>
        ensures { Carries result (performed self.old (ConditionalPut key.now (plain_body value.entry) (who_of who.entry) (option_map plain_body expected.entry) (time_of local))) self.old self.new text.old.items text.new.items }
    {
        let writer = self.txns.actor(who)?;
        self.engine
            .conditional_put(writer, key, value, expected, local, looks)?;
        show(self.alloc, &Answer::Accepted, text)?;
        Ok(())
    }

    fn init_put<L: Ledger>(
        &mut self,
        key: &[u8],
        value: PlainValue<'_>,
        who: Who<'_>,
        local: Timestamp,
        text: &mut Vec<u8>,
        looks: &mut Looks<L>,
    ) -> Result<(), CommandStop>
        ensures { Carries result (performed self.old (InitPut key.now (plain_body value.entry) (who_of who.entry) (time_of local))) self.old self.new text.old.items text.new.items }
    {
        let writer = self.txns.actor(who)?;
        self.engine.init_put(writer, key, value, local, looks)?;
        show(self.alloc, &Answer::Accepted, text)?;
        Ok(())
    }

    fn increment<L: Ledger>(
        &mut self,
        key: &[u8],
        who: Who<'_>,
        by: i64,
        local: Timestamp,
        text: &mut Vec<u8>,
        looks: &mut Looks<L>,
    ) -> Result<(), CommandStop>
        ensures { Carries result (performed self.old (Increment key.now (who_of who.entry) by (time_of local))) self.old self.new text.old.items text.new.items }
    {
        let writer = self.txns.actor(who)?;
        let number = self.engine.increment(writer, key, by, local, looks)?;
        show(self.alloc, &Answer::Incremented(number), text)?;
        Ok(())
    }

    fn resolve<L: Ledger>(
        &mut self,
        name: &str,
        key: &[u8],
        status: Status,
        ts: Option<Timestamp>,
        text: &mut Vec<u8>,
        looks: &mut Looks<L>,
    ) -> Result<(), CommandStop>
        ensures { Carries result (performed self.old (Resolve name.now key.now (status_of status) (option_map time_of ts))) self.old self.new text.old.items text.new.items }
    {
        let update = self.txns.update(self.alloc, name, status, ts)?;
        let found = self.engine.resolve(key, &update, looks)?;
        show(self.alloc, &Answer::Resolved { found }, text)?;
        Ok(())
    }

    fn resolve_range(
        &mut self,
        name: &str,
        start: &[u8],
        end: &[u8],
        status: Status,
        ts: Option<Timestamp>,
        max: Option<u64>,
        text: &mut Vec<u8>,
    ) -> Result<(), CommandStop>
        ensures { Carries result (performed self.old (ResolveRange name.now start.now end.now (status_of status) (option_map time_of ts) max)) self.old self.new text.old.items text.new.items }
    {
        let update = self.txns.update(self.alloc, name, status, ts)?;
        let ranged = self.engine.resolve_range(start, end, &update, max)?;
        let answer = Answer::ResolvedRange {
            count: ranged.count,
            resume: ranged.resume.as_ref(),
        };
        show(self.alloc, &answer, text)?;
        Ok(())
    }

    fn get(&mut self, key: &[u8], ts: Timestamp, text: &mut Vec<u8>) -> Result<(), CommandStop>
        ensures { Carries result (performed self.old (Get key.now (time_of ts))) self.old self.new text.old.items text.new.items }
    {
        let found = self.engine.get_buffered(key, ts)?;
        show(self.alloc, &Answer::of_read(key, found.as_ref()), text)?;
        Ok(())
    }

    fn age(&mut self, now: u64, text: &mut Vec<u8>) -> Result<(), CommandStop>
        requires { now < 2 ^ 63 }
        ensures { Carries result (performed self.old (Age now)) self.old self.new text.old.items text.new.items }
    {
        self.engine.age(now)?;
        show(self.alloc, &Answer::Accepted, text)?;
        Ok(())
    }

    fn stats(&self, text: &mut Vec<u8>) -> Result<(), CommandStop>
        ensures { Carries result (performed self.now Stats) self.now self.now text.old.items text.new.items }
    {
        show(self.alloc, &Answer::Statistics(&self.engine.stats()), text)?;
        Ok(())
    }

    fn flush(&mut self, text: &mut Vec<u8>) -> Result<(), CommandStop>
        ensures { Carries result (performed self.old Flush) self.old self.new text.old.items text.new.items }
    {
        self.engine.flush()?;
        show(self.alloc, &Answer::Accepted, text)?;
        Ok(())
    }

    fn compact(&mut self, keep: u64, text: &mut Vec<u8>) -> Result<(), CommandStop>
        requires { 1 ≤ keep }
        ensures { Carries result (performed self.old (Compact keep)) self.old self.new text.old.items text.new.items }
    {
        self.engine.compact(keep)?;
        show(self.alloc, &Answer::Accepted, text)?;
        Ok(())
    }

    fn layout(&self, text: &mut Vec<u8>) -> Result<(), CommandStop>
        ensures { Carries result (performed self.now Layout) self.now self.now text.old.items text.new.items }
    {
        let shapes = self.engine.layout()?;
        show_layout(self.alloc, &shapes, text)?;
        Ok(())
    }
}

/// Appends a line for each part, the memory table first. Where memory is wanting a beginning of them may stand there.
fn show_layout(alloc: Global, shapes: &[PartShape], text: &mut Vec<u8>) -> Result<(), OutOfMemory>
    ensures ok { OnOk result (text.new.items ≡ text.old.items ++ flat_map show (layout_answers 0 (map seen_shape shapes.now))) }
    ensures err { OnErr result (Extends text.old.items text.new.items) }
{
    for (index, shape) in shapes.iter().enumerate() {
        let line = Answer::LayoutLine {
            index: index as u64,
            keys: shape.keys,
            clears: shape.clears,
            ranges: shape.ranges,
        };
        show(alloc, &line, text)?;
    }
    Ok(())
}

/// Appends the reason that a command is refused for. Where memory is wanting the text stays as it was.
fn show_refusal(alloc: Global, stop: CommandStop, text: &mut Vec<u8>) -> Result<(), OutOfMemory>
    ensures ok { OnOk result (TellsRefusal (told_by stop) text.old.items text.new.items) }
    ensures err { OnErr result (text.new.items ≡ text.old.items) }
{
    let why = reason_of(&stop)?;
    show(alloc, &Answer::Refused(why), text)?;
    Ok(())
}

/// The id that a transaction begins with: the given one, or the number of those begun before it, plus one.
fn new_id(given: Option<Uuid>, begun: u64) -> Uuid
    ensures { result ≡ unwrap_or given (to_be_bytes w128 (begun + 1)) }
{
    match given {
        Some(id) => id,
        None => Uuid::from_u128(u128::from(begun) + 1),
    }
}

/// The value, with its bytes lent.
fn as_plain<'a>(value: Option<&'a Value<'_>>) -> Option<PlainValue<'a>>
    ensures { option_map plain_body result ≡ option_map (λ v. body_of v.now) value.entry }
{
    match value {
        Some(value) => Some(value.as_plain()),
        None => None,
    }
}
