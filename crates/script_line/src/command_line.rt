//! What the words of the command line say.
ghost use Rattle.std.specs.Prelude.{◌≡◌, ◌<◌, ◌≤◌, ◌^◌, IfOk, IfSome, MatchOption, None, codes, length, map, string_bytes};
ghost use Rattle.std.specs.Option.{option_map};
ghost use Rattle.script_line.specs.CommandLine.{Run, given_options, option_and, invocation, max_count_max, options_of};
ghost use Rattle.script_words.specs.Forms.{number_in};
ghost use Rattle.script_words.specs.Words.{read_or};
ghost use Rattle.script_words.specs.views.SeenWord.{word_of};

use mvcc_key::OutOfMemory;
use script_words::forms::number_in;
use script_words::{Word, read_named};
use std::alloc::Global;
use std::marker::Model;

/// The greatest bound on statistics.
const MAX_COUNT_MAX: u64 = (1 << 63) - 1;

/// The most digits that a number may have.
const MAX_DIGITS: usize = 20;

/// The options of `run`. Contracts see them as a record of the definitions.
#[derive(Clone, Copy, Debug)]
pub struct Options {
    stats: bool,
    count_max: u64,
}

impl Model for Options {
    ghost use Rattle.std.specs.Prelude.{◌^◌, ◌<◌, ◌≤◌};
    ghost use Rattle.script_line.specs.CommandLine as words;

    ghost Value = { words.Options };

    ghost view = { λ o. record { stats = o.stats; count_max = o.count_max } };

    ghost invariant = { λ o. (1 ≤ o.count_max) × (o.count_max < 2 ^ 63) };

    ghost inverse = { λ o. record { stats = o.stats; count_max = o.count_max } };
}

impl Options {
    /// Whether the statistics line follows each answer.
    pub fn stats(&self) -> bool
        ensures { result ≡ self.now.stats }
    {
        self.stats
    }

    /// The bound on each statistic, 1 to 2^63-1.
    pub fn count_max(&self) -> u64
        ensures value { result ≡ self.now.count_max }
        ensures least { 1 ≤ result }
        ensures greatest { result < 2 ^ 63 }
    {
        self.count_max
    }
}

/// The options of the run that the words ask for, where they have a reading: `run`, and behind it `--stats`, and `--count-max N`
/// with N from 1 to 2^63-1 in at most 20 digits (2^63-1 where it is left out), in any order and each at most once. A value is the next
/// word, whatever that is, or stands behind `=`.
#[tactic(auto, unfolding(crate::specs::CommandLine::invocation, crate::specs::CommandLine::run_options))]
pub fn read_command_line(alloc: Global, words: &[String]) -> Result<Option<Options>, OutOfMemory>
    ensures { IfOk result (λ read. option_map (λ options. Run options) read ≡ invocation (map string_bytes words.now)) }
{
    let [word, given @ ..] = words else {
        return Ok(None);
    };
    if word.as_str() != "run" {
        return Ok(None);
    }
    match gather_options(alloc, given)? {
        Some(given) => Ok(options_of(given.as_slice())),
        None => Ok(None),
    }
}

/// The options of `run` that these are.
#[tactic(auto, unfolding(crate::specs::CommandLine::options_of))]
fn options_of(given: &[Word<'_>]) -> Option<Options>
    ensures { result ≡ options_of (map word_of given.now) }
{
    let mut values = [None; 1];
    let mut flags = [false; 1];
    if !read_named(
        given,
        &["--count-max"],
        &mut values,
        &["--stats"],
        &mut flags,
    ) {
        return None;
    }
    let [count_max] = values;
    let [stats] = flags;
    let count_max = bound(count_max)?;
    Some(Options { stats, count_max })
}

/// The options that the words give: each with its value, and `--stats` without one. Nothing where one waits for its value at the
/// end.
fn gather_options(alloc: Global, words: &[String]) -> Result<Option<Vec<Word<'_>>>, OutOfMemory>
    ensures { IfOk result (λ given. option_map (λ ws. map word_of ws.items) given ≡ given_options (codes "--stats") (map string_bytes words.now)) }
{
    let mut options = Vec::new(alloc);
    let mut rest = words;
    while !rest.is_empty() {
        let Some((option, behind)) = next_option(rest) else {
            return Ok(None);
        };
        options.push(option)?;
        rest = behind;
    }
    Ok(Some(options))
}

/// The first option of some words, and the words behind it. Nothing where it waits for its value at the end.
#[tactic(auto, unfolding(crate::specs::CommandLine::given_options))]
fn next_option(words: &[String]) -> Option<(Word<'_>, &[String])>
    requires { 0 < length words.now }
    ensures first { MatchOption result
        (given_options (codes "--stats") (map string_bytes words.now) ≡ None)
        (λ r. given_options (codes "--stats") (map string_bytes words.now) ≡ option_and (word_of r.0) (given_options (codes "--stats") (map string_bytes r.1.now))) }
    ensures shorter { IfSome result (λ r. length r.1.now < length words.now) }
{
    let (first, behind) = words.split_first()?;
    let option = Word::over(first.as_bytes());
    if option.value.is_some() || option.is_named(b"--stats") {
        return Some((option, behind));
    }
    let (value, behind) = behind.split_first()?;
    let option = Word {
        name: option.name,
        value: Some(value.as_bytes()),
    };
    Some((option, behind))
}

/// The bound on statistics that a value says, or the greatest one.
fn bound(value: Option<&[u8]>) -> Option<u64>
    ensures value { result ≡ read_or (number_in 20 1 max_count_max) max_count_max (option_map (λ v. v.now) value.entry) }
    ensures least { IfSome result (λ n. 1 ≤ n) }
    ensures greatest { IfSome result (λ n. n < 2 ^ 63) }
{
    match value {
        Some(digits) => number_in(digits, MAX_DIGITS, 1, MAX_COUNT_MAX),
        None => Some(MAX_COUNT_MAX),
    }
}
