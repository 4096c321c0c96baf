//! The words of a line, and of the command line: flags, and names with values.
ghost use Rattle.std.specs.Prelude.{◌≡◌, ℕ, ◌<◌, ◌∷◌, ◌++◌, Bool, true, false, List, [], Option, Some, None, IfOk, OnOk, IfSome, MatchOption, length, map, position, not, bytes_eq};
ghost use Rattle.std.specs.Option.{option_map};
ghost use Rattle.script_words.specs.Words as spec;
ghost use Rattle.script_words.specs.Words.{are_only, has, is_blank, is_named, only, value_of, words};
ghost use Rattle.script_words.specs.views.Named.{IsNamed, Takes, are_apart};
ghost use Rattle.script_words.specs.views.Reading.{Gives};
ghost use Rattle.script_words.specs.views.SeenWord.{word_of};

use crate::cutting::cut;
use crate::fault::LineFault;
use mvcc_key::OutOfMemory;
use smallvec::SmallVec;
use std::alloc::Global;

/// So many words of a line take no memory.
const FEW: usize = 8;

/// A flag, or a name with a value.
#[derive(Clone, Copy, Debug, Default)]
pub struct Word<'a> {
    pub name: &'a [u8],
    pub value: Option<&'a [u8]>,
}

impl<'a> Word<'a> {
    /// The word of these bytes, cut at its first equals sign.
    pub fn over(bytes: &'a [u8]) -> Word<'a>
        ensures { word_of result ≡ spec.word_of bytes.now }
    {
        let (name, value) = cut(bytes, b'=');
        Word { name, value }
    }

    /// Whether it has this name.
    pub fn is_named(&self, name: &[u8]) -> bool
        ensures { result ≡ is_named name.now (word_of self.now) }
    {
        self.name == name
    }

    /// Puts it at the place of its name: its value, or that it stands.
    fn take(
        &self,
        names: &[&str],
        values: &mut [Option<&'a [u8]>],
        flags: &[&str],
        given: &mut [bool],
    ) -> bool
        requires values { length values.old ≡ length names.now }
        requires flags { length given.old ≡ length flags.now }
        requires apart { are_apart (map (λ n. n.now) names.now ++ map (λ n. n.now) flags.now) ≡ true }
        ensures { (ws : List spec.Word) → IsNamed (map (λ n. n.now) names.now) (map (λ n. n.now) flags.now) ws (map (option_map (λ v. v.now)) values.old) given.old
            → Takes result (map (λ n. n.now) names.now) (map (λ n. n.now) flags.now) ws (word_of self.now) (map (option_map (λ v. v.now)) values.new) given.new }
    {
        match self.value {
            Some(value) => take_value(self.name, value, names, values),
            None => take_flag(self.name, flags, given),
        }
    }
}

/// The words that a line has between spaces and tabs.
pub fn read_words(alloc: Global, line: &[u8]) -> Result<SmallVec<Word<'_>, FEW>, OutOfMemory>
    ensures { IfOk result (λ ws. map word_of ws.items ≡ map spec.word_of (words line.now)) }
{
    let mut words = SmallVec::new(alloc);
    let mut rest = line;
    while let Some((word, behind)) = next_word(rest) {
        words.push(Word::over(word))?;
        rest = behind;
    }
    Ok(words)
}

/// The first word of a line, and what stands behind it.
pub fn next_word(line: &[u8]) -> Option<(&[u8], &[u8])>
    ensures words { MatchOption result (words line.now ≡ []) (λ w. words line.now ≡ w.0.now ∷ words w.1.now) }
    ensures shorter { IfSome result (λ w. length w.1.now < length line.now) }
{
    let start = place_of_word(line)?;
    let line = line.split_at(start).1;
    match place_of_blank(line) {
        Some(end) => Some((line.split_at(end).0, line.split_at(end + 1).1)),
        None => Some((line, line.split_at(line.len()).1)),
    }
}

fn place_of_word(line: &[u8]) -> Option<usize>
    ensures value { result ≡ position (λ b. not (is_blank b)) line.now }
    ensures within { IfSome result (λ place. place < length line.now) }
{
    line.iter().position(|byte| !is_blank(*byte))
}

fn place_of_blank(line: &[u8]) -> Option<usize>
    ensures value { result ≡ position is_blank line.now }
    ensures within { IfSome result (λ place. place < length line.now) }
{
    line.iter().position(|byte| is_blank(*byte))
}

fn is_blank(byte: u8) -> bool
    ensures { result ≡ is_blank byte }
{
    byte == b' ' || byte == b'\t'
}

/// Reads words by their names, and tells whether they are of these names and flags, each at most once: puts the value of each name at
/// its place, and at the place of each flag whether it stands. The places begin empty.
pub fn read_named<'a>(
    words: &[Word<'a>],
    names: &[&str],
    values: &mut [Option<&'a [u8]>],
    flags: &[&str],
    given: &mut [bool],
) -> bool
    requires apart { are_apart (map (λ n. n.now) names.now ++ map (λ n. n.now) flags.now) ≡ true }
    requires no_value { map (option_map (λ v. v.now)) values.old ≡ map (λ n. None) names.now }
    requires no_flag { given.old ≡ map (λ n. false) flags.now }
    ensures only { result ≡ are_only (map (λ n. n.now) names.now) (map (λ n. n.now) flags.now) (map word_of words.now) }
    ensures values { result ≡ true → map (option_map (λ v. v.now)) values.new ≡ map (λ n. value_of n.now (map word_of words.now)) names.now }
    ensures flags { result ≡ true → given.new ≡ map (λ n. has n.now (map word_of words.now)) flags.now }
{
    for word in words {
        if !word.take(names, values, flags, given) {
            return false;
        }
    }
    true
}

/// Reads words by their names, as [`read_named`] does, where none is a flag. [`LineFault::BadLine`] where they are not of these names.
pub fn read_values<'a>(
    words: &[Word<'a>],
    names: &[&str],
    values: &mut [Option<&'a [u8]>],
) -> Result<(), LineFault>
    requires apart { are_apart (map (λ n. n.now) names.now ++ []) ≡ true }
    requires no_value { map (option_map (λ v. v.now)) values.old ≡ map (λ n. None) names.now }
    ensures only { Gives (λ _. map word_of words.now) result (only (map (λ n. n.now) names.now) [] (map word_of words.now)) }
    ensures values { OnOk result (map (option_map (λ v. v.now)) values.new ≡ map (λ n. value_of n.now (map word_of words.now)) names.now) }
{
    if read_named(words, names, values, &[], &mut []) {
        Ok(())
    } else {
        Err(LineFault::BadLine)
    }
}

/// Puts a value at the place of its name, where the name has one and that is empty.
fn take_value<'a>(
    name: &[u8],
    value: &'a [u8],
    names: &[&str],
    values: &mut [Option<&'a [u8]>],
) -> bool
    requires { length values.old ≡ length names.now }
    ensures { (flags : List (List ℕ)) (ws : List spec.Word) (given : List Bool) → are_apart (map (λ n. n.now) names.now ++ flags) ≡ true
        → IsNamed (map (λ n. n.now) names.now) flags ws (map (option_map (λ v. v.now)) values.old) given
        → Takes result (map (λ n. n.now) names.now) flags ws (record { name = name.now; value = Some value.now }) (map (option_map (λ v. v.now)) values.new) given }
{
    let Some(place) = place_of(names, name) else {
        return false;
    };
    if values[place].is_some() {
        return false;
    }
    values[place] = Some(value);
    true
}

/// Tells at the place of a flag that it stands, where the flag has a place and did not stand.
fn take_flag(name: &[u8], flags: &[&str], given: &mut [bool]) -> bool
    requires { length given.old ≡ length flags.now }
    ensures { (names : List (List ℕ)) (ws : List spec.Word) (values : List (Option (List ℕ))) → are_apart (names ++ map (λ n. n.now) flags.now) ≡ true
        → IsNamed names (map (λ n. n.now) flags.now) ws values given.old
        → Takes result names (map (λ n. n.now) flags.now) ws (record { name = name.now; value = None }) values given.new }
{
    let Some(place) = place_of(flags, name) else {
        return false;
    };
    if given[place] {
        return false;
    }
    given[place] = true;
    true
}

/// The place of a name.
fn place_of(names: &[&str], name: &[u8]) -> Option<usize>
    ensures value { result ≡ position (λ n. bytes_eq name.now n.now) names.now }
    ensures within { IfSome result (λ place. place < length names.now) }
{
    names.iter().position(|known| name == known.as_bytes())
}
