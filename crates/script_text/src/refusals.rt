//! Why lines are refused, as it is shown.
ghost use Rattle.std.specs.Prelude.{◌≡◌, ◌++◌, OnOk, OnErr};
ghost use Rattle.std.specs.List.{flat_map};
ghost use Rattle.mvcc_key.specs.Refusal.{Conflict, EpochFault, IntegerOverflow};
ghost use Rattle.mvcc_value.specs.views.Seen.{owned_body};
ghost use Rattle.stat_core.specs.Names.{field_name};
ghost use Rattle.stat_core.specs.views.Seen.{field_of};
ghost use Rattle.script_text.specs.Text.{conflict_text, reason, refusal, txn_refusal, value};
ghost use Rattle.script_text.specs.views.Appending.{Extends};
ghost use Rattle.script_text.specs.views.Seen.{reason_of, refusal_of, txn_refusal_of};

use crate::answer::{Reason, Refusal, TxnRefusal};
use crate::pieces::{append, append_integer, append_numbered};
use crate::values::{append_id, append_quoted, append_timed, append_value};
use intent_meta::IntentSeen;
use mvcc_key::OutOfMemory;
use mvcc_value::OwnedValue;
use stat_core::Field;

/// Why a line is refused.
#[tactic(auto, unfolding(crate::specs::Text::reason))]
pub fn append_reason(why: Reason<'_>, into: &mut Vec<u8>) -> Result<(), OutOfMemory>
    ensures ok { OnOk result (into.new.items ≡ into.old.items ++ reason (reason_of why.entry)) }
    ensures err { OnErr result (Extends into.old.items into.new.items) }
{
    match why {
        Reason::BadLine(line) => append_numbered(b"BadLine line=", line, into),
        Reason::TxnExists => append(b"TxnExists", into),
        Reason::NoTxn => append(b"NoTxn", into),
        Reason::ByTxn(why) => append_txn_refusal(why, into),
        Reason::ByEngine(why) => append_refusal(why, into),
    }
}

/// The name of a refusal, and what it carries.
#[tactic(auto, unfolding(crate::specs::Text::refusal, crate::specs::Text::value, crate::specs::Text::actual))]
fn append_refusal(why: Refusal<'_>, into: &mut Vec<u8>) -> Result<(), OutOfMemory>
    ensures ok { OnOk result (into.new.items ≡ into.old.items ++ refusal (refusal_of why.entry)) }
    ensures err { OnErr result (Extends into.old.items into.new.items) }
{
    match why {
        Refusal::EmptyKey => append(b"EmptyKey", into),
        Refusal::KeyTooLong(length) => append_numbered(b"KeyTooLong length=", length, into),
        Refusal::ValueTooLong(length) => append_numbered(b"ValueTooLong length=", length, into),
        Refusal::BadTimestamp => append(b"BadTimestamp", into),
        Refusal::BadSpan => append(b"BadSpan", into),
        Refusal::Conflict(intents) => append_conflict(intents, into),
        Refusal::EpochFault(own, other) => append_epoch_fault(own, other, into),
        Refusal::ReplayMissing(sequence) => {
            append_numbered(b"ReplayMissing sequence=", u64::from(sequence), into)
        }
        Refusal::ReplayMismatch(Some(stored)) => {
            append_valued(b"ReplayMismatch stored=", stored, into)
        }
        Refusal::ReplayMismatch(None) => append(b"ReplayMismatch stored=/<empty>", into),
        Refusal::TooOld(existing) => append_timed(b"TooOld existing=", existing, into),
        Refusal::ConditionFailed(Some(found)) => {
            append_valued(b"ConditionFailed actual=", found, into)
        }
        Refusal::ConditionFailed(None) => append(b"ConditionFailed actual=<none>", into),
        Refusal::NotInteger(found) => append_valued(b"NotInteger actual=", found, into),
        Refusal::IntegerOverflow(old, by) => append_integer_overflow(old, by, into),
        Refusal::IntentTooLong(length) => append_numbered(b"IntentTooLong length=", length, into),
        Refusal::CommitBelowIntent(ts) => append_timed(b"CommitBelowIntent ts=", ts, into),
        Refusal::MomentTooEarly(latest) => append_numbered(b"MomentTooEarly latest=", latest, into),
        Refusal::CountOverflow(field) => append_named(b"CountOverflow field=", field, into),
    }
}

/// The name of a refusal by a transaction's rules, and the number as it stands.
#[tactic(auto, unfolding(crate::specs::Text::txn_refusal))]
fn append_txn_refusal(why: TxnRefusal, into: &mut Vec<u8>) -> Result<(), OutOfMemory>
    ensures ok { OnOk result (into.new.items ≡ into.old.items ++ txn_refusal (txn_refusal_of why)) }
    ensures err { OnErr result (Extends into.old.items into.new.items) }
{
    match why {
        TxnRefusal::SequenceLimit(sequence) => {
            append_numbered(b"SequenceLimit sequence=", u64::from(sequence), into)
        }
        TxnRefusal::EpochLimit(epoch) => {
            append_numbered(b"EpochLimit epoch=", u64::from(epoch), into)
        }
        TxnRefusal::BadRanges => append(b"BadRanges", into),
    }
}

/// The intents that are in the way.
#[tactic(auto, unfolding(crate::specs::Text::refusal))]
fn append_conflict(intents: &[IntentSeen], into: &mut Vec<u8>) -> Result<(), OutOfMemory>
    ensures ok { OnOk result (into.new.items ≡ into.old.items ++ refusal (Conflict intents.now)) }
    ensures err { OnErr result (Extends into.old.items into.new.items) }
{
    append(b"Conflict", into)?;
    append_intents(intents, into)?;
    Ok(())
}

fn append_intents(intents: &[IntentSeen], into: &mut Vec<u8>) -> Result<(), OutOfMemory>
    ensures ok { OnOk result (into.new.items ≡ into.old.items ++ flat_map conflict_text intents.now) }
    ensures err { OnErr result (Extends into.old.items into.new.items) }
{
    for intent in intents {
        append_intent(intent, into)?;
    }
    Ok(())
}

/// An intent by its key, its id and its timestamp.
#[tactic(auto, unfolding(crate::specs::Text::conflict_text))]
fn append_intent(intent: &IntentSeen, into: &mut Vec<u8>) -> Result<(), OutOfMemory>
    ensures ok { OnOk result (into.new.items ≡ into.old.items ++ conflict_text intent.now) }
    ensures err { OnErr result (Extends into.old.items into.new.items) }
{
    append(b" ", into)?;
    append_quoted(intent.key.bytes(), into)?;
    append(b"/", into)?;
    append_id(intent.id, into)?;
    append_timed(b"@", intent.ts, into)?;
    Ok(())
}

#[tactic(auto, unfolding(crate::specs::Text::refusal))]
fn append_epoch_fault(own: u32, other: u32, into: &mut Vec<u8>) -> Result<(), OutOfMemory>
    ensures ok { OnOk result (into.new.items ≡ into.old.items ++ refusal (EpochFault own other)) }
    ensures err { OnErr result (Extends into.old.items into.new.items) }
{
    append_numbered(b"EpochFault own=", u64::from(own), into)?;
    append_numbered(b" intent=", u64::from(other), into)?;
    Ok(())
}

#[tactic(auto, unfolding(crate::specs::Text::refusal))]
fn append_integer_overflow(old: i64, by: i64, into: &mut Vec<u8>) -> Result<(), OutOfMemory>
    ensures ok { OnOk result (into.new.items ≡ into.old.items ++ refusal (IntegerOverflow old by)) }
    ensures err { OnErr result (Extends into.old.items into.new.items) }
{
    append_integer(b"IntegerOverflow old=", old, into)?;
    append_integer(b" by=", by, into)?;
    Ok(())
}

/// Words with a value behind them.
fn append_valued(words: &[u8], stored: &OwnedValue, into: &mut Vec<u8>) -> Result<(), OutOfMemory>
    ensures ok { OnOk result (into.new.items ≡ into.old.items ++ (words.now ++ value (owned_body stored.now))) }
    ensures err { OnErr result (Extends into.old.items into.new.items) }
{
    append(words, into)?;
    append_value(stored, into)?;
    Ok(())
}

/// Words with the name of a statistic behind them.
fn append_named(words: &[u8], field: Field, into: &mut Vec<u8>) -> Result<(), OutOfMemory>
    ensures ok { OnOk result (into.new.items ≡ into.old.items ++ (words.now ++ field_name (field_of field))) }
    ensures err { OnErr result (Extends into.old.items into.new.items) }
{
    append(words, into)?;
    append(field.name().as_bytes(), into)?;
    Ok(())
}
