//! The fields of an intent record, each read at the front of bytes and judged once it is whole. What is answered with a field
//! is the bytes behind it.
ghost use Rattle.std.specs.Prelude.{◌≡◌, ◌<◌, Ok, Err, MatchResult, IfOk, length};
ghost use Rattle.std.specs.Int.{w32, w64};
ghost use Rattle.mvcc_key.specs.Limits.{max_count};
ghost use Rattle.mvcc_key.specs.Order.{max_wall};
ghost use Rattle.mvcc_key.specs.Steps.{bytes_at, number_at};
ghost use Rattle.intent_meta.specs.Entries.{entry_in};
ghost use Rattle.intent_meta.specs.Record as words;
ghost use Rattle.intent_meta.specs.views.Seen.{seen_entry};

use crate::IntentFault;
use mvcc_key::numbers::{read_u32, read_u64};
use mvcc_key::{MAX_COUNT, MAX_WALL, Timestamp};
use mvcc_value::is_value_len;

/// An entry that lies in a record's bytes.
#[derive(Clone, Copy, Debug)]
pub(crate) struct EntryRef<'a> {
    pub(crate) sequence: u32,
    pub(crate) value: &'a [u8],
}

/// So many bytes.
pub(crate) fn bytes_of(count: usize, bytes: &[u8]) -> Result<(&[u8], &[u8]), IntentFault>
    ensures { MatchResult result
        (λ x. bytes_at IntentFault.Short count bytes.now ≡ Ok (x.0.now, x.1.now))
        (λ e. bytes_at IntentFault.Short count bytes.now ≡ Err e) }
{
    if bytes.len() < count {
        return Err(IntentFault::Short);
    }
    Ok(bytes.split_at(count))
}

/// A number of 32 bits.
pub(crate) fn number(bytes: &[u8]) -> Result<(u32, &[u8]), IntentFault>
    ensures { MatchResult result
        (λ x. number_at IntentFault.Short w32 bytes.now ≡ Ok (x.0, x.1.now))
        (λ e. number_at IntentFault.Short w32 bytes.now ≡ Err e) }
{
    if bytes.len() < 4 {
        return Err(IntentFault::Short);
    }
    let (front, rest) = bytes.split_at(4);
    Ok((read_u32(front), rest))
}

/// An epoch, a sequence or a logical counter.
pub(crate) fn count(bytes: &[u8]) -> Result<(u32, &[u8]), IntentFault>
    ensures { MatchResult result
        (λ x. words.limited_at w32 max_count bytes.now ≡ Ok (x.0, x.1.now))
        (λ e. words.limited_at w32 max_count bytes.now ≡ Err e) }
{
    let (count, rest) = number(bytes)?;
    if count > MAX_COUNT {
        return Err(IntentFault::Range);
    }
    Ok((count, rest))
}

/// The wall time of a timestamp.
fn wall(bytes: &[u8]) -> Result<(u64, &[u8]), IntentFault>
    ensures { MatchResult result
        (λ x. words.limited_at w64 max_wall bytes.now ≡ Ok (x.0, x.1.now))
        (λ e. words.limited_at w64 max_wall bytes.now ≡ Err e) }
{
    if bytes.len() < 8 {
        return Err(IntentFault::Short);
    }
    let (front, rest) = bytes.split_at(8);
    let wall = read_u64(front);
    if wall > MAX_WALL {
        return Err(IntentFault::Range);
    }
    Ok((wall, rest))
}

/// The wall time and the logical counter of a timestamp that is not none.
pub(crate) fn time(bytes: &[u8]) -> Result<(u64, u32, &[u8]), IntentFault>
    ensures { MatchResult result
        (λ x. words.time_from bytes.now ≡ Ok (record { wall = x.0; logical = x.1 }, x.2.now))
        (λ e. words.time_from bytes.now ≡ Err e) }
{
    let (wall, rest) = wall(bytes)?;
    let (logical, rest) = count(rest)?;
    if wall == 0 && logical == 0 {
        return Err(IntentFault::Range);
    }
    Ok((wall, logical, rest))
}

/// Whether the provisional value is a deletion.
pub(crate) fn flag(bytes: &[u8]) -> Result<(bool, &[u8]), IntentFault>
    ensures { MatchResult result
        (λ x. words.flag_at bytes.now ≡ Ok (x.0, x.1.now))
        (λ e. words.flag_at bytes.now ≡ Err e) }
{
    let Some((first, rest)) = bytes.split_first() else {
        return Err(IntentFault::Short);
    };
    match *first {
        0 => Ok((false, rest)),
        1 => Ok((true, rest)),
        _ => Err(IntentFault::Length),
    }
}

/// The length of the provisional version's encoded value.
pub(crate) fn value_length(deleted: bool, bytes: &[u8]) -> Result<(u32, &[u8]), IntentFault>
    ensures { MatchResult result
        (λ x. words.value_length_at deleted bytes.now ≡ Ok (x.0, x.1.now))
        (λ e. words.value_length_at deleted bytes.now ≡ Err e) }
{
    let (length, rest) = number(bytes)?;
    if !is_value_len(deleted, length) {
        return Err(IntentFault::Length);
    }
    Ok((length, rest))
}

/// A history entry, behind one with the sequence before, in a record of the sequence `limit`.
pub(crate) fn entry(
    before: Option<u32>,
    limit: u32,
    bytes: &[u8],
) -> Result<(EntryRef<'_>, &[u8]), IntentFault>
    ensures { MatchResult result
        (λ x. words.entry_from before limit bytes.now ≡ Ok (seen_entry x.0, x.1.now))
        (λ e. words.entry_from before limit bytes.now ≡ Err e) }
{
    let (sequence, rest) = count(bytes)?;
    if !is_next_sequence(before, limit, sequence) {
        return Err(IntentFault::Order);
    }
    let (length, rest) = number(rest)?;
    let (value, rest) = bytes_of(length as usize, rest)?;
    if !is_entry_value(value) {
        return Err(IntentFault::Length);
    }
    Ok((EntryRef { sequence, value }, rest))
}

/// A history sequence is above the one before it, and below the record's.
fn is_next_sequence(before: Option<u32>, limit: u32, sequence: u32) -> bool
    ensures { result ≡ words.is_next_sequence before limit sequence }
{
    before.is_none_or(|before| before < sequence) && sequence < limit
}

/// A history value is nothing or a plain value. No local timestamp is below none, so a value with a header is refused.
fn is_entry_value(value: &[u8]) -> bool
    ensures { result ≡ words.is_entry_value value.now }
{
    mvcc_value::decode(value, Timestamp::NONE).is_ok()
}

/// The entry at the front of bytes that were judged before, and the bytes behind it.
pub(crate) fn first_entry(bytes: &[u8]) -> Result<(EntryRef<'_>, &[u8]), IntentFault>
    ensures read { MatchResult result
        (λ x. entry_in bytes.now ≡ Ok (seen_entry x.0, x.1.now))
        (λ e. entry_in bytes.now ≡ Err e) }
    ensures shorter { IfOk result (λ x. length x.1.now < length bytes.now) }
{
    let (sequence, rest) = number(bytes)?;
    let (length, rest) = number(rest)?;
    let (value, rest) = bytes_of(length as usize, rest)?;
    Ok((EntryRef { sequence, value }, rest))
}
