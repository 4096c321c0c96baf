//! Values of words of which one or another may stand, or none.
ghost use Rattle.std.specs.Prelude.{◌≡◌, pos};
ghost use Rattle.std.specs.Cow.{cow_slice_items};
ghost use Rattle.std.specs.Option.{option_map};
ghost use Rattle.mvcc_key.specs.Limits.{max_count};
ghost use Rattle.mvcc_key.specs.Order.{no_time};
ghost use Rattle.mvcc_key.specs.views.Seen.{time_of};
ghost use Rattle.script_words.specs.Forms.{id, integer, max_number, name, number_to, text, time};
ghost use Rattle.script_line.specs.Grammar as grammar;
ghost use Rattle.script_line.specs.Grammar.{at_time, bytes_value, in_txn, int_value};
ghost use Rattle.script_words.specs.Words.{read_one, read_or, read_perhaps, read_required, read_up_to_one};
ghost use Rattle.script_words.specs.views.Reading.{Gives};
ghost use Rattle.script_line.specs.views.SeenLine.{body_of, status_of, who_of};

use crate::line::{Status, Value, Who};
use mvcc_key::Timestamp;
use script_words::LineFault;
use script_words::forms::{count, id, integer, limit, name, text, time};
use std::alloc::Global;
use std::borrow::CowSlice;
use uuid::Uuid;

/// A value that must be there.
pub fn required(value: Option<&[u8]>) -> Result<&[u8], LineFault>
    ensures { Gives (λ v. v.now) result (option_map (λ v. v.now) value.entry) }
{
    value.ok_or(LineFault::BadLine)
}

/// The bytes of a text that must be there.
pub fn required_text(alloc: Global, value: Option<&[u8]>) -> Result<CowSlice<'_, u8>, LineFault>
    ensures { Gives cow_slice_items result (read_required text (option_map (λ v. v.now) value.entry)) }
{
    text(alloc, required(value)?)
}

/// The name that must be there.
pub fn required_name(value: Option<&[u8]>) -> Result<&str, LineFault>
    ensures { Gives (λ n. n.now) result (read_required name (option_map (λ v. v.now) value.entry)) }
{
    name(required(value)?)
}

/// The time that must be there.
pub fn required_time(value: Option<&[u8]>) -> Result<Timestamp, LineFault>
    ensures { Gives time_of result (read_required time (option_map (λ v. v.now) value.entry)) }
{
    time(required(value)?)
}

/// The status that must be there.
pub fn required_status(value: Option<&[u8]>) -> Result<Status, LineFault>
    ensures { Gives status_of result (read_required grammar.status_of (option_map (λ v. v.now) value.entry)) }
{
    status(required(value)?)
}

/// The writer: a name or a time, and not both.
pub fn who<'a>(txn: Option<&'a [u8]>, ts: Option<&'a [u8]>) -> Result<Who<'a>, LineFault>
    ensures { Gives who_of result (read_one in_txn at_time (option_map (λ v. v.now) txn.entry) (option_map (λ v. v.now) ts.entry)) }
{
    match (txn, ts) {
        (Some(txn), None) => Ok(Who::InTxn(name(txn)?)),
        (None, Some(ts)) => Ok(Who::AtTime(time(ts)?)),
        _ => Err(LineFault::BadLine),
    }
}

/// The value: bytes or a number, and not both.
pub fn value<'a>(
    alloc: Global,
    bytes: Option<&'a [u8]>,
    int: Option<&'a [u8]>,
) -> Result<Value<'a>, LineFault>
    ensures { Gives body_of result (read_one bytes_value int_value (option_map (λ v. v.now) bytes.entry) (option_map (λ v. v.now) int.entry)) }
{
    match (bytes, int) {
        (Some(bytes), None) => Ok(Value::Bytes(text(alloc, bytes)?)),
        (None, Some(int)) => Ok(Value::Int(integer(int)?)),
        _ => Err(LineFault::BadLine),
    }
}

/// The value that is expected: bytes or a number, and not both; none where neither stands.
pub fn expected<'a>(
    alloc: Global,
    bytes: Option<&'a [u8]>,
    int: Option<&'a [u8]>,
) -> Result<Option<Value<'a>>, LineFault>
    ensures { Gives (option_map body_of) result (read_up_to_one bytes_value int_value (option_map (λ v. v.now) bytes.entry) (option_map (λ v. v.now) int.entry)) }
{
    if bytes.is_none() && int.is_none() {
        return Ok(None);
    }
    Ok(Some(value(alloc, bytes, int)?))
}

/// The time, or [`Timestamp::NONE`] where it is left out.
pub fn optional_time(value: Option<&[u8]>) -> Result<Timestamp, LineFault>
    ensures { Gives time_of result (read_or time no_time (option_map (λ v. v.now) value.entry)) }
{
    match value {
        Some(bytes) => time(bytes),
        None => Ok(Timestamp::NONE),
    }
}

/// How many sequences a transaction goes on, or 1 where it is left out.
pub fn optional_count(value: Option<&[u8]>) -> Result<u32, LineFault>
    ensures { Gives (λ n. n) result (read_or (number_to max_count) 1 (option_map (λ v. v.now) value.entry)) }
{
    match value {
        Some(digits) => count(digits),
        None => Ok(1),
    }
}

/// What is added, or 1 where it is left out.
pub fn optional_addend(value: Option<&[u8]>) -> Result<i64, LineFault>
    ensures { Gives (λ n. n) result (read_or integer (pos 1) (option_map (λ v. v.now) value.entry)) }
{
    match value {
        Some(bytes) => integer(bytes),
        None => Ok(1),
    }
}

/// The id, where one stands.
pub fn optional_id(value: Option<&[u8]>) -> Result<Option<Uuid>, LineFault>
    ensures { Gives (λ i. i) result (read_perhaps id (option_map (λ v. v.now) value.entry)) }
{
    match value {
        Some(bytes) => Ok(Some(id(bytes)?)),
        None => Ok(None),
    }
}

/// The time, where one stands.
pub fn perhaps_time(value: Option<&[u8]>) -> Result<Option<Timestamp>, LineFault>
    ensures { Gives (option_map time_of) result (read_perhaps time (option_map (λ v. v.now) value.entry)) }
{
    match value {
        Some(bytes) => Ok(Some(time(bytes)?)),
        None => Ok(None),
    }
}

/// At most how many, where that stands.
pub fn perhaps_limit(value: Option<&[u8]>) -> Result<Option<u64>, LineFault>
    ensures { Gives (λ n. n) result (read_perhaps (number_to max_number) (option_map (λ v. v.now) value.entry)) }
{
    match value {
        Some(digits) => Ok(Some(limit(digits)?)),
        None => Ok(None),
    }
}

/// The status that a STATUS names: `committed`, `aborted` or `pending`, or one of these in capitals.
#[tactic(auto, unfolding(crate::specs::Grammar::status_of))]
fn status(bytes: &[u8]) -> Result<Status, LineFault>
    ensures { Gives status_of result (grammar.status_of bytes.now) }
{
    if bytes == b"committed".as_slice() || bytes == b"COMMITTED".as_slice() {
        Ok(Status::Committed)
    } else if bytes == b"aborted".as_slice() || bytes == b"ABORTED".as_slice() {
        Ok(Status::Aborted)
    } else if bytes == b"pending".as_slice() || bytes == b"PENDING".as_slice() {
        Ok(Status::Pending)
    } else {
        Err(LineFault::BadLine)
    }
}
