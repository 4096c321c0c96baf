//! The texts of answers and refusals.
ghost use Rattle.std.specs.Prelude.{◌≡◌, ◌++◌, OnOk, OnErr};
ghost use Rattle.std.specs.Option.{option_map};
ghost use Rattle.std.specs.List.{flat_map};
ghost use Rattle.mvcc_key.specs.views.Seen.{range_of};
ghost use Rattle.mvcc_value.specs.views.Seen.{found_of};
ghost use Rattle.txn_state.specs.views.Seen.{ranges_of};
ghost use Rattle.script_text.specs.Text.{get_line, increment_line, layout_line, next_range, part_name, range, ranges, resolved_lines, resume_line, show, txn_line, txn_name, txn_numbers, txn_times, yes_or_no};
ghost use Rattle.script_text.specs.views.Seen.{answer_of, span_of};
ghost use Rattle.script_text.specs.views.Appending.{Extends};

use crate::answer::Answer;
use crate::pieces::{append, append_integer, append_number, append_numbered};
use crate::refusals::append_reason;
use crate::statistics::append_statistics;
use crate::values::{append_id, append_quoted, append_time, append_timed, append_value};
use mvcc_key::{OutOfMemory, SeqRange, Span};
use mvcc_value::Found;
use std::alloc::Global;
use txn_state::Txn;

/// Appends the text of the answer. Where memory is wanting the bytes stay as they were.
pub fn show(_alloc: Global, answer: &Answer<'_>, into: &mut Vec<u8>) -> Result<(), OutOfMemory>
    ensures ok { OnOk result (into.new.items ≡ into.old.items ++ show (answer_of answer.now)) }
    ensures err { OnErr result (into.new.items ≡ into.old.items) }
{
    let start = into.len();
    match append_answer(answer, into) {
        Ok(()) => Ok(()),
        Err(wanting) => {
            into.truncate(start);
            Err(wanting)
        }
    }
}

#[tactic(auto, unfolding(crate::specs::Text::show))]
fn append_answer(answer: &Answer<'_>, into: &mut Vec<u8>) -> Result<(), OutOfMemory>
    ensures ok { OnOk result (into.new.items ≡ into.old.items ++ show (answer_of answer.now)) }
    ensures err { OnErr result (Extends into.old.items into.new.items) }
{
    match *answer {
        Answer::Accepted => append(b"ok\n", into),
        Answer::TxnLine { name, txn } => append_txn_line(name, txn, into),
        Answer::Got { key, found } => append_get_line(key, found, into),
        Answer::Deleted { found: true } => append(b"del: found=true\n", into),
        Answer::Deleted { found: false } => append(b"del: found=false\n", into),
        Answer::Incremented(number) => append_increment_line(number, into),
        Answer::Resolved { found: true } => append(b"resolve: found=true\n", into),
        Answer::Resolved { found: false } => append(b"resolve: found=false\n", into),
        Answer::ResolvedRange { count, resume } => append_resolved_lines(count, resume, into),
        Answer::Statistics(stats) => append_statistics(stats, into),
        Answer::LayoutLine {
            index,
            keys,
            clears,
            ranges,
        } => append_layout_line(index, keys, clears, ranges, into),
        Answer::Refused(why) => {
            append(b"error: ", into)?;
            append_reason(why, into)?;
            append(b"\n", into)?;
            Ok(())
        }
    }
}

/// The number that is there after an increment.
#[tactic(auto, unfolding(crate::specs::Text::increment_line))]
fn append_increment_line(number: i64, into: &mut Vec<u8>) -> Result<(), OutOfMemory>
    ensures ok { OnOk result (into.new.items ≡ into.old.items ++ increment_line number) }
    ensures err { OnErr result (Extends into.old.items into.new.items) }
{
    append_integer(b"increment: ", number, into)?;
    append(b"\n", into)?;
    Ok(())
}

/// How many intents of a span are resolved, and what is left of it.
#[tactic(auto, unfolding(crate::specs::Text::resolved_lines))]
fn append_resolved_lines(
    count: u64,
    resume: Option<&Span>,
    into: &mut Vec<u8>,
) -> Result<(), OutOfMemory>
    ensures ok { OnOk result (into.new.items ≡ into.old.items ++ resolved_lines count (option_map (λ s. span_of s.now) resume.entry)) }
    ensures err { OnErr result (Extends into.old.items into.new.items) }
{
    append_numbered(b"resolve_range: resolved=", count, into)?;
    append(b"\n", into)?;
    append_resume_line(resume, into)?;
    Ok(())
}

/// What is left of a span, where something is.
#[tactic(auto, unfolding(crate::specs::Text::resume_line))]
fn append_resume_line(resume: Option<&Span>, into: &mut Vec<u8>) -> Result<(), OutOfMemory>
    ensures ok { OnOk result (into.new.items ≡ into.old.items ++ resume_line (option_map (λ s. span_of s.now) resume.entry)) }
    ensures err { OnErr result (Extends into.old.items into.new.items) }
{
    let Some(span) = resume else {
        return Ok(());
    };
    append(b"resume: ", into)?;
    append_quoted(span.start.bytes(), into)?;
    append(b"-", into)?;
    append_quoted(span.end.bytes(), into)?;
    append(b"\n", into)?;
    Ok(())
}

/// A transaction by its name, as it stands.
#[tactic(auto, unfolding(crate::specs::Text::txn_line))]
fn append_txn_line(name: &str, txn: &Txn, into: &mut Vec<u8>) -> Result<(), OutOfMemory>
    ensures ok { OnOk result (into.new.items ≡ into.old.items ++ txn_line name.now txn.now) }
    ensures err { OnErr result (Extends into.old.items into.new.items) }
{
    append_txn_name(name, into)?;
    append_txn_numbers(txn, into)?;
    append_txn_times(txn, into)?;
    append(b" ignored=", into)?;
    append_ranges(txn.ignored(), into)?;
    append(b"\n", into)?;
    Ok(())
}

/// The name of a transaction.
#[tactic(auto, unfolding(crate::specs::Text::txn_name))]
fn append_txn_name(name: &str, into: &mut Vec<u8>) -> Result<(), OutOfMemory>
    ensures ok { OnOk result (into.new.items ≡ into.old.items ++ txn_name name.now) }
    ensures err { OnErr result (Extends into.old.items into.new.items) }
{
    append(b"txn: \"", into)?;
    append(name.as_bytes(), into)?;
    append(b"\"", into)?;
    Ok(())
}

/// Which transaction it is, and where it stands.
#[tactic(auto, unfolding(crate::specs::Text::txn_numbers))]
fn append_txn_numbers(txn: &Txn, into: &mut Vec<u8>) -> Result<(), OutOfMemory>
    ensures ok { OnOk result (into.new.items ≡ into.old.items ++ txn_numbers txn.now) }
    ensures err { OnErr result (Extends into.old.items into.new.items) }
{
    append(b" id=", into)?;
    append_id(txn.id(), into)?;
    append_numbered(b" epoch=", u64::from(txn.epoch()), into)?;
    append_numbered(b" seq=", u64::from(txn.sequence()), into)?;
    Ok(())
}

/// When a transaction reads and writes, and up to when a value may have been written before it began.
#[tactic(auto, unfolding(crate::specs::Text::txn_times))]
fn append_txn_times(txn: &Txn, into: &mut Vec<u8>) -> Result<(), OutOfMemory>
    ensures ok { OnOk result (into.new.items ≡ into.old.items ++ txn_times txn.now) }
    ensures err { OnErr result (Extends into.old.items into.new.items) }
{
    append_timed(b" read=", txn.read_ts(), into)?;
    append_timed(b" write=", txn.write_ts(), into)?;
    append_timed(b" limit=", txn.global_limit(), into)?;
    Ok(())
}

/// The ranges, with commas between them, or `none`.
#[tactic(auto, unfolding(crate::specs::Text::ranges))]
fn append_ranges(ignored: &[SeqRange], into: &mut Vec<u8>) -> Result<(), OutOfMemory>
    ensures ok { OnOk result (into.new.items ≡ into.old.items ++ ranges (ranges_of ignored.now)) }
    ensures err { OnErr result (Extends into.old.items into.new.items) }
{
    let Some((first, others)) = ignored.split_first() else {
        append(b"none", into)?;
        return Ok(());
    };
    append_range(*first, into)?;
    append_next_ranges(others, into)?;
    Ok(())
}

/// Each of the ranges behind a comma.
fn append_next_ranges(others: &[SeqRange], into: &mut Vec<u8>) -> Result<(), OutOfMemory>
    ensures ok { OnOk result (into.new.items ≡ into.old.items ++ flat_map next_range (ranges_of others.now)) }
    ensures err { OnErr result (Extends into.old.items into.new.items) }
{
    for other in others {
        append_next_range(*other, into)?;
    }
    Ok(())
}

#[tactic(auto, unfolding(crate::specs::Text::next_range))]
fn append_next_range(other: SeqRange, into: &mut Vec<u8>) -> Result<(), OutOfMemory>
    ensures ok { OnOk result (into.new.items ≡ into.old.items ++ next_range (range_of other)) }
    ensures err { OnErr result (Extends into.old.items into.new.items) }
{
    append(b",", into)?;
    append_range(other, into)?;
    Ok(())
}

/// The two ends of a range.
#[tactic(auto, unfolding(crate::specs::Text::range))]
fn append_range(ignored: SeqRange, into: &mut Vec<u8>) -> Result<(), OutOfMemory>
    ensures ok { OnOk result (into.new.items ≡ into.old.items ++ range (range_of ignored)) }
    ensures err { OnErr result (Extends into.old.items into.new.items) }
{
    append_number(u64::from(ignored.first), into)?;
    append_numbered(b"-", u64::from(ignored.last), into)?;
    Ok(())
}

#[tactic(auto, unfolding(crate::specs::Text::get_line))]
fn append_get_line(key: &[u8], found: Option<&Found>, into: &mut Vec<u8>) -> Result<(), OutOfMemory>
    ensures ok { OnOk result (into.new.items ≡ into.old.items ++ get_line key.now (option_map (λ f. found_of f.now) found.entry)) }
    ensures err { OnErr result (Extends into.old.items into.new.items) }
{
    append(b"get: ", into)?;
    match found {
        None => {
            append_quoted(key, into)?;
            append(b" -> <no data>\n", into)?;
            Ok(())
        }
        Some(found) => {
            append_quoted(found.key.bytes(), into)?;
            append(b" -> ", into)?;
            append_value(&found.value, into)?;
            append(b" @", into)?;
            append_time(found.ts, into)?;
            append(b"\n", into)?;
            Ok(())
        }
    }
}

/// Appends the line of the part at a place, from 0 for the memory table.
#[tactic(auto, unfolding(crate::specs::Text::layout_line))]
fn append_layout_line(
    index: u64,
    keys: u64,
    clears: u64,
    ranges: bool,
    into: &mut Vec<u8>,
) -> Result<(), OutOfMemory>
    ensures ok { OnOk result (into.new.items ≡ into.old.items ++ layout_line index keys clears ranges) }
    ensures err { OnErr result (Extends into.old.items into.new.items) }
{
    append_numbered(b"part ", index, into)?;
    append(part_name(index), into)?;
    append_numbered(b" keys=", keys, into)?;
    append_numbered(b" clears=", clears, into)?;
    append(b" ranges=", into)?;
    append(yes_or_no(ranges), into)?;
    append(b"\n", into)?;
    Ok(())
}

/// What the part at a place is.
#[tactic(auto, unfolding(crate::specs::Text::part_name))]
fn part_name(index: u64) -> &'static [u8]
    ensures { result.now ≡ part_name index }
{
    if index == 0 { b": mem" } else { b": run" }
}

#[tactic(auto, unfolding(crate::specs::Text::yes_or_no))]
fn yes_or_no(holds: bool) -> &'static [u8]
    ensures { result.now ≡ yes_or_no holds }
{
    if holds { b"yes" } else { b"no" }
}
