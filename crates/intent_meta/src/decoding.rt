//! From bytes to an intent record.
ghost use Rattle.std.specs.Prelude.{◌≡◌, ℕ, List, Ok, Err, IsOk, MatchResult, IfOk, IfErr, None};
ghost use Rattle.mvcc_key.specs.Order.{Timestamp};
ghost use Rattle.intent_meta.specs.Entries.{rest_of};
ghost use Rattle.intent_meta.specs.Record as words;
ghost use Rattle.intent_meta.specs.Rules.{IsRecordOf};
ghost use Rattle.intent_meta.specs.views.Seen.{seen_intent};

use crate::fields::{bytes_of, count, entry, flag, number, time, value_length};
use crate::{IntentFault, IntentRef};

/// The intent record that these bytes are, lent with no copy, or their first fault as they are read from left to right. Each
/// field is judged once it is whole: the deletion flag by itself, the value's length by the flag, a history sequence first by
/// its range and then by its order. This takes no memory, and its time is bounded by the bytes, whatever number of entries
/// they claim.
pub fn decode(bytes: &[u8]) -> Result<IntentRef<'_>, IntentFault>
    ensures read { IfOk result (λ r. words.record_of bytes.now ≡ Ok (seen_intent r)) }
    ensures spelled { IfOk result (λ r. IsRecordOf bytes.now (seen_intent r)) }
    ensures fault { IfErr result (λ e. words.record_of bytes.now ≡ Err e) }
{
    check(bytes)?;
    Ok(IntentRef::over(bytes))
}

/// The bytes are a record.
#[tactic(auto, unfolding(crate::specs::Record::record_of))]
fn check(bytes: &[u8]) -> Result<(), IntentFault>
    ensures { MatchResult result
        (λ _. IsOk (words.record_of bytes.now))
        (λ e. words.record_of bytes.now ≡ Err e) }
{
    let (_, rest) = bytes_of(16, bytes)?;
    let (_, rest) = count(rest)?;
    let (sequence, rest) = count(rest)?;
    check_behind_sequence(sequence, rest)
}

/// The bytes are those of a record behind its sequence.
fn check_behind_sequence(sequence: u32, bytes: &[u8]) -> Result<(), IntentFault>
    ensures { MatchResult result
        (λ _. (id : List ℕ) (epoch : ℕ) → IsOk (words.behind_sequence id epoch sequence bytes.now))
        (λ e. (id : List ℕ) (epoch : ℕ) → words.behind_sequence id epoch sequence bytes.now ≡ Err e) }
{
    let (_, _, rest) = time(bytes)?;
    let (deleted, rest) = flag(rest)?;
    check_behind_flag(sequence, deleted, rest)
}

/// The bytes are those of a record behind its deletion flag.
fn check_behind_flag(sequence: u32, deleted: bool, bytes: &[u8]) -> Result<(), IntentFault>
    ensures { MatchResult result
        (λ _. (id : List ℕ) (epoch : ℕ) (ts : Timestamp) → IsOk (words.behind_flag id epoch sequence ts deleted bytes.now))
        (λ e. (id : List ℕ) (epoch : ℕ) (ts : Timestamp) → words.behind_flag id epoch sequence ts deleted bytes.now ≡ Err e) }
{
    let (_, rest) = value_length(deleted, bytes)?;
    let (count, rest) = number(rest)?;
    let rest = history(count, sequence, rest)?;
    if !rest.is_empty() {
        return Err(IntentFault::Trailing);
    }
    Ok(())
}

/// The bytes behind so many history entries of a record of the sequence `limit`. Each entry has 8 bytes or more, so a count
/// that is too large ends with the bytes.
fn history(count: u32, limit: u32, bytes: &[u8]) -> Result<&[u8], IntentFault>
    ensures { MatchResult result
        (λ rest. rest_of (words.entries_from count None limit bytes.now) ≡ Ok rest.now)
        (λ e. rest_of (words.entries_from count None limit bytes.now) ≡ Err e) }
{
    let mut before = None;
    let mut rest = bytes;
    for _ in 0..count {
        let (entry, behind) = entry(before, limit, rest)?;
        before = Some(entry.sequence);
        rest = behind;
    }
    Ok(rest)
}
