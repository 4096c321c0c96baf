//! The forms in which a line writes names, keys, values, times, numbers and ids.
ghost use Rattle.std.specs.Prelude.{◌≡◌, ◌<◌, ◌≤◌, ◌==◌, ◌^◌, ◌&&◌, IfSome, length, neg_ℤ, not, pos};
ghost use Rattle.std.specs.List.{list_all};
ghost use Rattle.std.specs.Option.{option_map};
ghost use Rattle.std.specs.Cow.{cow_slice_items};
ghost use Rattle.mvcc_key.specs.Limits.{max_count};
ghost use Rattle.mvcc_key.specs.views.Seen.{range_of, time_of};
ghost use Rattle.txn_state.specs.views.Seen.{ranges_of};
ghost use Rattle.script_words.specs.Forms.{counter, fraction, id, integer, is_name_byte, is_other_urn, is_printed, max_number, max_sequence, name, nanos, number_from, number_in, number_to, number_up_to, range, ranges, text, time, wall};
ghost use Rattle.script_words.specs.views.Reading.{Gives};

use crate::cutting::cut;
use crate::fault::LineFault;
use crate::unescape::{is_printed, unescape};
use mvcc_key::{MAX_COUNT, MAX_WALL, SeqRange, Timestamp};
use smallvec::SmallVec;
use std::alloc::Global;
use std::borrow::CowSlice;
use std::str::from_utf8;
use txn_state::FEW_RANGES;
use uuid::Uuid;

/// The most bytes that a NAME has.
const MAX_NAME_LEN: usize = 64;

/// The last second that a wall time holds whole.
const MAX_SECONDS: u64 = MAX_WALL / 1_000_000_000;

/// The greatest number that a NUM writes.
const MAX_NUMBER: u64 = (1 << 63) - 1;

/// The most digits that a NUM has.
const MAX_DIGITS: usize = 19;

/// The greatest number in a range of sequences.
const MAX_SEQUENCE: u64 = (1 << 32) - 1;

/// How many bytes an id has behind `urn:uuid:`, with that.
const URN_LEN: usize = 45;

/// The NAME that the bytes are, where they are one: 1 to 64 letters, digits, underscores and dashes.
#[tactic(auto, unfolding(crate::specs::Forms::name))]
pub fn name(bytes: &[u8]) -> Result<&str, LineFault>
    ensures { Gives (λ n. n.now) result (name bytes.now) }
{
    if bytes.is_empty() || bytes.len() > MAX_NAME_LEN || !are_name_bytes(bytes) {
        return Err(LineFault::BadLine);
    }
    match from_utf8(bytes) {
        Ok(name) => Ok(name),
        Err(_) => Err(LineFault::BadLine),
    }
}

/// Whether each of the bytes may stand in a name.
fn are_name_bytes(bytes: &[u8]) -> bool
    ensures { result ≡ list_all is_name_byte bytes.now }
{
    bytes.iter().all(|byte| is_name_byte(*byte))
}

fn is_name_byte(byte: u8) -> bool
    ensures { result ≡ is_name_byte byte }
{
    byte.is_ascii_alphanumeric() || byte == b'_' || byte == b'-'
}

/// The bytes that a TEXT writes, where it is one: bytes 21 to 7e but `\` stand for themselves, `\\` is a backslash, and `\xHH`
/// any byte, by two hexadecimal digits of either case. A text without escapes is lent.
#[tactic(auto, using(crate::proofs::EscapeLaws::plain_text))]
pub fn text(alloc: Global, bytes: &[u8]) -> Result<CowSlice<'_, u8>, LineFault>
    ensures { Gives cow_slice_items result (text bytes.now) }
{
    if are_plain(bytes) {
        return Ok(CowSlice::Borrowed(bytes));
    }
    Ok(CowSlice::Owned(unescape(alloc, bytes)?))
}

/// Whether each of the bytes stands for itself.
fn are_plain(bytes: &[u8]) -> bool
    ensures { result ≡ list_all (λ b. is_printed b && not (b == 0x5c)) bytes.now }
{
    bytes.iter().all(|byte| is_printed(*byte) && *byte != b'\\')
}

/// What a TIME says, where it is one: seconds, a point and 1 to 9 digits where there is a fraction, a comma and digits where
/// there is a logical counter, all in the ranges of timestamps. The time 0 is [`Timestamp::NONE`].
#[tactic(auto, unfolding(crate::specs::Forms::time))]
pub fn time(bytes: &[u8]) -> Result<Timestamp, LineFault>
    ensures { Gives time_of result (time bytes.now) }
{
    let (whole, behind) = cut(bytes, b',');
    let nanos = wall(whole).ok_or(LineFault::BadLine)?;
    let logical = counter(behind).ok_or(LineFault::BadLine)?;
    Timestamp::new(nanos, logical).ok_or(LineFault::BadLine)
}

/// A moment: nanoseconds of wall time, below 2^63.
#[derive(Clone, Copy, Debug)]
pub struct WallTime {
    pub nanos: u64,
    ghost range: { nanos < 2 ^ 63 },
}

/// What a MOMENT says, where it is one: a time without a logical counter.
pub fn moment(bytes: &[u8]) -> Result<WallTime, LineFault>
    ensures { Gives (λ m. m.nanos) result (wall bytes.now) }
{
    let nanos = wall(bytes).ok_or(LineFault::BadLine)?;
    Ok(WallTime { nanos })
}

/// The nanoseconds of a time without a logical counter, where the bytes are one.
#[tactic(auto, unfolding(crate::specs::Forms::wall))]
fn wall(bytes: &[u8]) -> Option<u64>
    ensures value { result ≡ wall bytes.now }
    ensures in_range { IfSome result (λ nanos. nanos < 2 ^ 63) }
{
    let (whole, behind) = cut(bytes, b'.');
    let seconds = number(whole, MAX_SECONDS)?;
    let rest = fraction(behind)?;
    let nanos = seconds * 1_000_000_000 + rest;
    if nanos <= MAX_WALL { Some(nanos) } else { None }
}

fn fraction(digits: Option<&[u8]>) -> Option<u64>
    ensures value { result ≡ fraction (option_map (λ d. d.now) digits.entry) }
    ensures short { IfSome result (λ n. n < 10 ^ 9) }
{
    match digits {
        Some(digits) => nanos(digits),
        None => Some(0),
    }
}

/// The nanoseconds of a fraction, by its digits and zeros behind them.
#[tactic(auto, unfolding(crate::specs::Forms::nanos))]
fn nanos(digits: &[u8]) -> Option<u64>
    ensures value { result ≡ nanos digits.now }
    ensures short { IfSome result (λ n. n < 10 ^ 9) }
{
    if digits.is_empty() || digits.len() > 9 {
        return None;
    }
    let mut padded = [b'0'; 9];
    padded[..digits.len()].copy_from_slice(digits);
    number(&padded, 999_999_999)
}

fn counter(digits: Option<&[u8]>) -> Option<u32>
    ensures value { result ≡ counter (option_map (λ d. d.now) digits.entry) }
    ensures in_range { IfSome result (λ n. n < 2 ^ 31) }
{
    let Some(digits) = digits else {
        return Some(0);
    };
    let counter = number(digits, u64::from(MAX_COUNT))?;
    Some(counter as u32)
}

/// The number that the digits write, where it is at most the limit.
#[tactic(auto, unfolding(crate::specs::Forms::number_up_to))]
pub fn number(digits: &[u8], limit: u64) -> Option<u64>
    ensures value { result ≡ number_up_to limit digits.now }
    ensures low { IfSome result (λ n. n ≤ limit) }
{
    if digits.is_empty() {
        return None;
    }
    let mut number: u64 = 0;
    for digit in digits {
        if !digit.is_ascii_digit() {
            return None;
        }
        let next = u128::from(number) * 10 + u128::from(*digit - b'0');
        if next > u128::from(limit) {
            return None;
        }
        number = next as u64;
    }
    Some(number)
}

/// How many runs may be left: at least one.
#[derive(Clone, Copy, Debug)]
pub struct RunCount {
    pub runs: u64,
    ghost some: { 1 ≤ runs },
}

/// The number of runs that a NUM says, where it is at least 1: 1 to 19 digits, below 2^63.
pub fn run_count(bytes: &[u8]) -> Result<RunCount, LineFault>
    ensures { Gives (λ count. count.runs) result (number_from 1 bytes.now) }
{
    let runs = number_in(bytes, MAX_DIGITS, 1, MAX_NUMBER).ok_or(LineFault::BadLine)?;
    Ok(RunCount { runs })
}

/// The number that some digits write, at most so many, where it is within a range.
#[tactic(auto, unfolding(crate::specs::Forms::number_in))]
pub fn number_in(digits: &[u8], most: usize, least: u64, greatest: u64) -> Option<u64>
    ensures value { result ≡ number_in most least greatest digits.now }
    ensures within { IfSome result (λ n. (least ≤ n) × (n ≤ greatest)) }
{
    let value = number(digits, greatest)?;
    if digits.len() > most || value < least {
        return None;
    }
    Some(value)
}

/// How many sequences a NUM says, where it is at most 2^31-1.
pub fn count(digits: &[u8]) -> Result<u32, LineFault>
    ensures { Gives (λ n. n) result (number_to max_count digits.now) }
{
    let number = number_in(digits, MAX_DIGITS, 0, u64::from(MAX_COUNT)).ok_or(LineFault::BadLine)?;
    Ok(number as u32)
}

/// At most how many a NUM says: 1 to 19 digits, below 2^63.
pub fn limit(digits: &[u8]) -> Result<u64, LineFault>
    ensures { Gives (λ n. n) result (number_to max_number digits.now) }
{
    number_in(digits, MAX_DIGITS, 0, MAX_NUMBER).ok_or(LineFault::BadLine)
}

/// The number that an INT writes, where it is one: 1 to 19 digits, and a minus sign in front of them where it is negative.
#[tactic(auto, unfolding(crate::specs::Forms::integer))]
pub fn integer(bytes: &[u8]) -> Result<i64, LineFault>
    ensures { Gives (λ n. n) result (integer bytes.now) }
{
    let Some((first, digits)) = bytes.split_first() else {
        return Err(LineFault::BadLine);
    };
    if *first == b'-' {
        negative(digits).ok_or(LineFault::BadLine)
    } else {
        positive(bytes).ok_or(LineFault::BadLine)
    }
}

/// The negative number of these digits.
fn negative(digits: &[u8]) -> Option<i64>
    ensures { result ≡ option_map (λ n. neg_ℤ (pos n)) (number_to (2 ^ 63) digits.now) }
{
    let number = number_in(digits, MAX_DIGITS, 0, 1 << 63)?;
    Some((-i128::from(number)) as i64)
}

/// The number of these digits.
fn positive(digits: &[u8]) -> Option<i64>
    ensures { result ≡ option_map pos (number_to max_number digits.now) }
{
    let number = number_in(digits, MAX_DIGITS, 0, MAX_NUMBER)?;
    Some(number as i64)
}

/// The ranges that SEQS writes, where they are: one or more, with commas between them.
#[tactic(auto, unfolding(crate::specs::Forms::ranges))]
pub fn ranges(alloc: Global, bytes: &[u8]) -> Result<SmallVec<SeqRange, FEW_RANGES>, LineFault>
    ensures { Gives (λ rs. ranges_of rs.items) result (ranges bytes.now) }
{
    let mut ranges = SmallVec::new(alloc);
    let mut rest = Some(bytes);
    while let Some(listed) = rest {
        let (piece, behind) = cut(listed, b',');
        ranges.push(range(piece)?)?;
        rest = behind;
    }
    Ok(ranges)
}

/// Two numbers with a dash between them.
#[tactic(auto, unfolding(crate::specs::Forms::range))]
fn range(bytes: &[u8]) -> Result<SeqRange, LineFault>
    ensures { Gives range_of result (range bytes.now) }
{
    let (before, behind) = cut(bytes, b'-');
    let first = sequence(before)?;
    let last = sequence(behind.ok_or(LineFault::BadLine)?)?;
    Ok(SeqRange { first, last })
}

/// A number of a range.
fn sequence(digits: &[u8]) -> Result<u32, LineFault>
    ensures { Gives (λ n. n) result (number_to max_sequence digits.now) }
{
    let number = number_in(digits, MAX_DIGITS, 0, MAX_SEQUENCE).ok_or(LineFault::BadLine)?;
    Ok(number as u32)
}

/// The id that a UUID writes, where it is one: 32 hexadecimal digits of either case; or these with hyphens between them, 36 bytes, alone,
/// in braces, or behind `urn:uuid:` in lower case.
#[tactic(auto, unfolding(crate::specs::Forms::id))]
pub fn id(bytes: &[u8]) -> Result<Uuid, LineFault>
    ensures { Gives (λ i. i) result (id bytes.now) }
{
    if is_other_urn(bytes) {
        return Err(LineFault::BadLine);
    }
    match Uuid::try_parse_ascii(bytes) {
        Ok(id) => Ok(id),
        Err(_) => Err(LineFault::BadLine),
    }
}

/// Whether it is as long as an id behind `urn:uuid:`, and begins otherwise.
fn is_other_urn(bytes: &[u8]) -> bool
    ensures { result ≡ is_other_urn bytes.now }
{
    bytes.len() == URN_LEN && &bytes[..9] != b"urn:uuid:".as_slice()
}
