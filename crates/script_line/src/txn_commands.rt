//! The commands that change a transaction.
ghost use Rattle.std.specs.Prelude.{◌≡◌, map};
ghost use Rattle.script_line.specs.Grammar.{txn_advance, txn_begin, txn_command, txn_ignore_seqs, txn_refresh, txn_remove, txn_restart, txn_step};
ghost use Rattle.script_words.specs.views.Reading.{Gives};
ghost use Rattle.script_line.specs.views.SeenLine.{line_of};
ghost use Rattle.script_words.specs.views.SeenWord.{word_of};

use crate::line::Line;
use crate::options::{
    optional_count, optional_id, optional_time, required, required_name, required_time,
};
use script_words::forms::ranges;
use script_words::{LineFault, Word, read_values};
use std::alloc::Global;

/// The command of this name that changes a transaction, with these words.
#[tactic(auto, unfolding(crate::specs::Grammar::txn_command))]
pub fn txn_command<'a>(
    alloc: Global,
    name: &[u8],
    words: &[Word<'a>],
) -> Result<Line<'a>, LineFault>
    ensures { Gives line_of result (txn_command name.now (map word_of words.now)) }
{
    if name == b"txn_begin".as_slice() {
        begin(words)
    } else if name == b"txn_step".as_slice() {
        step(words)
    } else if name == b"txn_advance".as_slice() {
        advance(words)
    } else if name == b"txn_restart".as_slice() {
        restart(words)
    } else if name == b"txn_refresh".as_slice() {
        refresh(words)
    } else if name == b"txn_ignore_seqs".as_slice() {
        ignore_seqs(alloc, words)
    } else if name == b"txn_remove".as_slice() {
        remove(words)
    } else {
        Err(LineFault::BadLine)
    }
}

/// `t=NAME ts=TIME [limit=TIME] [id=UUID]`
#[tactic(auto, unfolding(crate::specs::Grammar::txn_begin))]
fn begin<'a>(words: &[Word<'a>]) -> Result<Line<'a>, LineFault>
    ensures { Gives line_of result (txn_begin (map word_of words.now)) }
{
    let mut values = [None; 4];
    read_values(words, &["t", "ts", "limit", "id"], &mut values)?;
    let [txn, ts, limit, id] = values;
    Ok(Line::TxnBegin {
        name: required_name(txn)?,
        ts: required_time(ts)?,
        limit: optional_time(limit)?,
        id: optional_id(id)?,
    })
}

/// `t=NAME [n=NUM]`
#[tactic(auto, unfolding(crate::specs::Grammar::txn_step))]
fn step<'a>(words: &[Word<'a>]) -> Result<Line<'a>, LineFault>
    ensures { Gives line_of result (txn_step (map word_of words.now)) }
{
    let mut values = [None; 2];
    read_values(words, &["t", "n"], &mut values)?;
    let [txn, n] = values;
    Ok(Line::TxnStep {
        name: required_name(txn)?,
        n: optional_count(n)?,
    })
}

/// `t=NAME ts=TIME`
#[tactic(auto, unfolding(crate::specs::Grammar::txn_advance))]
fn advance<'a>(words: &[Word<'a>]) -> Result<Line<'a>, LineFault>
    ensures { Gives line_of result (txn_advance (map word_of words.now)) }
{
    let mut values = [None; 2];
    read_values(words, &["t", "ts"], &mut values)?;
    let [txn, ts] = values;
    Ok(Line::TxnAdvance {
        name: required_name(txn)?,
        ts: required_time(ts)?,
    })
}

/// `t=NAME [ts=TIME]`
#[tactic(auto, unfolding(crate::specs::Grammar::txn_restart))]
fn restart<'a>(words: &[Word<'a>]) -> Result<Line<'a>, LineFault>
    ensures { Gives line_of result (txn_restart (map word_of words.now)) }
{
    let mut values = [None; 2];
    read_values(words, &["t", "ts"], &mut values)?;
    let [txn, ts] = values;
    Ok(Line::TxnRestart {
        name: required_name(txn)?,
        ts: optional_time(ts)?,
    })
}

/// `t=NAME`
#[tactic(auto, unfolding(crate::specs::Grammar::txn_refresh))]
fn refresh<'a>(words: &[Word<'a>]) -> Result<Line<'a>, LineFault>
    ensures { Gives line_of result (txn_refresh (map word_of words.now)) }
{
    let mut values = [None; 1];
    read_values(words, &["t"], &mut values)?;
    let [txn] = values;
    Ok(Line::TxnRefresh {
        name: required_name(txn)?,
    })
}

/// `t=NAME seqs=SEQS`
#[tactic(auto, unfolding(crate::specs::Grammar::txn_ignore_seqs))]
fn ignore_seqs<'a>(alloc: Global, words: &[Word<'a>]) -> Result<Line<'a>, LineFault>
    ensures { Gives line_of result (txn_ignore_seqs (map word_of words.now)) }
{
    let mut values = [None; 2];
    read_values(words, &["t", "seqs"], &mut values)?;
    let [txn, seqs] = values;
    Ok(Line::TxnIgnoreSeqs {
        name: required_name(txn)?,
        ranges: ranges(alloc, required(seqs)?)?,
    })
}

/// `t=NAME`
#[tactic(auto, unfolding(crate::specs::Grammar::txn_remove))]
fn remove<'a>(words: &[Word<'a>]) -> Result<Line<'a>, LineFault>
    ensures { Gives line_of result (txn_remove (map word_of words.now)) }
{
    let mut values = [None; 1];
    read_values(words, &["t"], &mut values)?;
    let [txn] = values;
    Ok(Line::TxnRemove {
        name: required_name(txn)?,
    })
}
