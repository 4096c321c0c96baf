//! What a line of a script says: its command, and the words of each.
ghost use Rattle.std.specs.Prelude.{◌≡◌, map};
ghost use Rattle.script_line.specs.Grammar.{age, alone, begins_comment, command, compact, cput, del, get, increment, initput, parse, put, resolve, resolve_range};
ghost use Rattle.script_words.specs.views.Reading.{Gives};
ghost use Rattle.script_line.specs.views.SeenLine.{line_of};
ghost use Rattle.script_words.specs.views.SeenWord.{word_of};

use crate::line::Line;
use crate::options::{
    expected, optional_addend, optional_time, perhaps_limit, perhaps_time, required, required_name,
    required_status, required_text, required_time, value, who,
};
use crate::txn_commands::txn_command;
use script_words::forms::{moment, run_count};
use script_words::{LineFault, Word, next_word, read_values, read_words};
use std::alloc::Global;

/// What the line says. The first word is the name of a command, each further one a flag or `name=value`, in any order and each at
/// most once; spaces and tabs part them. A line without words, and one whose first word begins with `#`, says nothing. Every other
/// line is a [`LineFault::BadLine`].
#[tactic(auto, unfolding(crate::specs::Grammar::parse, crate::specs::Grammar::parse_words))]
pub fn parse_line(alloc: Global, line: &[u8]) -> Result<Line<'_>, LineFault>
    ensures { Gives line_of result (parse line.now) }
{
    let Some((name, behind)) = next_word(line) else {
        return Ok(Line::Blank);
    };
    if begins_comment(name) {
        return Ok(Line::Blank);
    }
    let words = read_words(alloc, behind)?;
    command(alloc, name, words.as_slice())
}

fn begins_comment(word: &[u8]) -> bool
    ensures { result ≡ begins_comment word.now }
{
    match word {
        [first, ..] => *first == b'#',
        [] => false,
    }
}

/// The command of this name, with these words.
#[tactic(auto, unfolding(crate::specs::Grammar::command))]
fn command<'a>(alloc: Global, name: &[u8], words: &[Word<'a>]) -> Result<Line<'a>, LineFault>
    ensures { Gives line_of result (command name.now (map word_of words.now)) }
{
    if name == b"put".as_slice() {
        put(alloc, words)
    } else if name == b"get".as_slice() {
        get(alloc, words)
    } else if name == b"del".as_slice() {
        del(alloc, words)
    } else if name == b"cput".as_slice() {
        cput(alloc, words)
    } else if name == b"initput".as_slice() {
        initput(alloc, words)
    } else if name == b"increment".as_slice() {
        increment(alloc, words)
    } else if name == b"resolve".as_slice() {
        resolve(alloc, words)
    } else if name == b"resolve_range".as_slice() {
        resolve_range(alloc, words)
    } else if name == b"age".as_slice() {
        age(words)
    } else if name == b"stats".as_slice() {
        alone(Line::Stats, words)
    } else if name == b"flush".as_slice() {
        alone(Line::Flush, words)
    } else if name == b"compact".as_slice() {
        compact(words)
    } else if name == b"layout".as_slice() {
        alone(Line::Layout, words)
    } else {
        txn_command(alloc, name, words)
    }
}

/// `k=TEXT`, `v=TEXT` or `int=INT`, `t=NAME` or `ts=TIME`, `[local=TIME]`
#[tactic(auto, unfolding(crate::specs::Grammar::put))]
fn put<'a>(alloc: Global, words: &[Word<'a>]) -> Result<Line<'a>, LineFault>
    ensures { Gives line_of result (put (map word_of words.now)) }
{
    let mut values = [None; 6];
    read_values(words, &["k", "v", "int", "t", "ts", "local"], &mut values)?;
    let [key, bytes, int, txn, ts, local] = values;
    Ok(Line::Put {
        key: required_text(alloc, key)?,
        value: value(alloc, bytes, int)?,
        who: who(txn, ts)?,
        local: optional_time(local)?,
    })
}

/// `k=TEXT ts=TIME`
#[tactic(auto, unfolding(crate::specs::Grammar::get))]
fn get<'a>(alloc: Global, words: &[Word<'a>]) -> Result<Line<'a>, LineFault>
    ensures { Gives line_of result (get (map word_of words.now)) }
{
    let mut values = [None; 2];
    read_values(words, &["k", "ts"], &mut values)?;
    let [key, ts] = values;
    Ok(Line::Get {
        key: required_text(alloc, key)?,
        ts: required_time(ts)?,
    })
}

/// `k=TEXT`, `t=NAME` or `ts=TIME`, `[local=TIME]`
#[tactic(auto, unfolding(crate::specs::Grammar::del))]
fn del<'a>(alloc: Global, words: &[Word<'a>]) -> Result<Line<'a>, LineFault>
    ensures { Gives line_of result (del (map word_of words.now)) }
{
    let mut values = [None; 4];
    read_values(words, &["k", "t", "ts", "local"], &mut values)?;
    let [key, txn, ts, local] = values;
    Ok(Line::Del {
        key: required_text(alloc, key)?,
        who: who(txn, ts)?,
        local: optional_time(local)?,
    })
}

/// The words of `put`, and `cond=TEXT` or `cond_int=INT` or neither
#[tactic(auto, unfolding(crate::specs::Grammar::cput))]
fn cput<'a>(alloc: Global, words: &[Word<'a>]) -> Result<Line<'a>, LineFault>
    ensures { Gives line_of result (cput (map word_of words.now)) }
{
    let names = ["k", "v", "int", "t", "ts", "cond", "cond_int", "local"];
    let mut values = [None; 8];
    read_values(words, &names, &mut values)?;
    let [key, bytes, int, txn, ts, cond, cond_int, local] = values;
    Ok(Line::ConditionalPut {
        key: required_text(alloc, key)?,
        value: value(alloc, bytes, int)?,
        who: who(txn, ts)?,
        expected: expected(alloc, cond, cond_int)?,
        local: optional_time(local)?,
    })
}

/// The words of `put`
#[tactic(auto, unfolding(crate::specs::Grammar::initput))]
fn initput<'a>(alloc: Global, words: &[Word<'a>]) -> Result<Line<'a>, LineFault>
    ensures { Gives line_of result (initput (map word_of words.now)) }
{
    let mut values = [None; 6];
    read_values(words, &["k", "v", "int", "t", "ts", "local"], &mut values)?;
    let [key, bytes, int, txn, ts, local] = values;
    Ok(Line::InitPut {
        key: required_text(alloc, key)?,
        value: value(alloc, bytes, int)?,
        who: who(txn, ts)?,
        local: optional_time(local)?,
    })
}

/// `k=TEXT`, `t=NAME` or `ts=TIME`, `[inc=INT]`, `[local=TIME]`
#[tactic(auto, unfolding(crate::specs::Grammar::increment))]
fn increment<'a>(alloc: Global, words: &[Word<'a>]) -> Result<Line<'a>, LineFault>
    ensures { Gives line_of result (increment (map word_of words.now)) }
{
    let mut values = [None; 5];
    read_values(words, &["k", "t", "ts", "inc", "local"], &mut values)?;
    let [key, txn, ts, addend, local] = values;
    Ok(Line::Increment {
        key: required_text(alloc, key)?,
        who: who(txn, ts)?,
        by: optional_addend(addend)?,
        local: optional_time(local)?,
    })
}

/// `t=NAME k=TEXT status=STATUS [ts=TIME]`
#[tactic(auto, unfolding(crate::specs::Grammar::resolve))]
fn resolve<'a>(alloc: Global, words: &[Word<'a>]) -> Result<Line<'a>, LineFault>
    ensures { Gives line_of result (resolve (map word_of words.now)) }
{
    let mut values = [None; 4];
    read_values(words, &["t", "k", "status", "ts"], &mut values)?;
    let [txn, key, status, ts] = values;
    Ok(Line::Resolve {
        name: required_name(txn)?,
        key: required_text(alloc, key)?,
        status: required_status(status)?,
        ts: perhaps_time(ts)?,
    })
}

/// `t=NAME k=TEXT end=TEXT status=STATUS [ts=TIME] [max=NUM]`
#[tactic(auto, unfolding(crate::specs::Grammar::resolve_range))]
fn resolve_range<'a>(alloc: Global, words: &[Word<'a>]) -> Result<Line<'a>, LineFault>
    ensures { Gives line_of result (resolve_range (map word_of words.now)) }
{
    let mut values = [None; 6];
    read_values(
        words,
        &["t", "k", "end", "status", "ts", "max"],
        &mut values,
    )?;
    let [txn, start, end, status, ts, max] = values;
    Ok(Line::ResolveRange {
        name: required_name(txn)?,
        start: required_text(alloc, start)?,
        end: required_text(alloc, end)?,
        status: required_status(status)?,
        ts: perhaps_time(ts)?,
        max: perhaps_limit(max)?,
    })
}

/// `now=MOMENT`
#[tactic(auto, unfolding(crate::specs::Grammar::age))]
fn age<'a>(words: &[Word<'_>]) -> Result<Line<'a>, LineFault>
    ensures { Gives line_of result (age (map word_of words.now)) }
{
    let mut values = [None; 1];
    read_values(words, &["now"], &mut values)?;
    let [now] = values;
    Ok(Line::Age {
        now: moment(required(now)?)?,
    })
}

/// `keep=NUM`
#[tactic(auto, unfolding(crate::specs::Grammar::compact))]
fn compact<'a>(words: &[Word<'_>]) -> Result<Line<'a>, LineFault>
    ensures { Gives line_of result (compact (map word_of words.now)) }
{
    let mut values = [None; 1];
    read_values(words, &["keep"], &mut values)?;
    let [keep] = values;
    Ok(Line::Compact {
        keep: run_count(required(keep)?)?,
    })
}

/// A command without words.
#[tactic(auto, unfolding(crate::specs::Grammar::alone))]
fn alone<'a>(line: Line<'a>, words: &[Word<'_>]) -> Result<Line<'a>, LineFault>
    ensures { Gives line_of result (alone (line_of line.entry) (map word_of words.now)) }
{
    read_values(words, &[], &mut [])?;
    Ok(line)
}
