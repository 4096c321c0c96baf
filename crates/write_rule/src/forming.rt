//! The value that a write forms of the value before it.
ghost use Rattle.std.specs.Prelude.{◌≡◌, Ok, Err, IfOk, IfErr, MatchResult};
ghost use Rattle.std.specs.Option.{option_map};
ghost use Rattle.mvcc_key.specs.History as history;
ghost use Rattle.mvcc_value.specs.views.Seen.{owned_body, plain_body, seen_body};
ghost use Rattle.write_rule.specs.Write as rule;
ghost use Rattle.write_rule.specs.views.Seen.{IsLate, Tells, kind_of, refusal_of};
ghost use Rattle.write_rule.specs.views.Forming.{Forms, first_body, refusal_of_sum};

use crate::{WriteAnswer, WriteFault, WriteKind};
use mvcc_key::OutOfMemory;
use mvcc_value::{Body, OwnedValue, PlainValue};
use std::alloc::Global;

/// What a write is to write, and what it answers.
#[derive(Clone, Copy)]
pub(crate) struct Formed<'a> {
    pub(crate) body: Body<'a>,
    pub(crate) answer: WriteAnswer,
}

/// Why an increment forms no number.
#[derive(Clone, Copy)]
pub(crate) enum NoSum<'a> {
    /// The value before is bytes.
    NotInteger(&'a [u8]),
    /// The sum of the two leaves 64 signed bits.
    Overflow(i64, i64),
}

/// The value where it is one, and none for a deletion.
pub(crate) fn present(body: Body<'_>) -> Option<PlainValue<'_>>
    ensures { option_map plain_body result ≡ rule.present (seen_body body.entry) }
{
    match body {
        Body::Deletion => None,
        Body::Bytes(bytes) => Some(PlainValue::Bytes(bytes)),
        Body::Int(number) => Some(PlainValue::Int(number)),
    }
}

/// The value that the write forms of the one before it.
pub(crate) fn form<'a>(
    kind: WriteKind<'a>,
    before: Option<PlainValue<'a>>,
) -> Result<Formed<'a>, NoSum<'a>>
    ensures { MatchResult result
        (λ f. Forms (rule.new_body (kind_of kind.entry) (option_map plain_body before.entry)) (kind_of kind.entry) (option_map plain_body before.entry) f)
        (λ why. rule.new_body (kind_of kind.entry) (option_map plain_body before.entry) ≡ Err (refusal_of_sum why)) }
{
    match kind {
        WriteKind::Put(value) | WriteKind::ConditionalPut(value, _) | WriteKind::InitPut(value) =>
            Ok(Formed {
                body: Body::from(value),
                answer: WriteAnswer::Done,
            }),
        WriteKind::Delete => Ok(Formed {
            body: Body::Deletion,
            answer: WriteAnswer::Found(before.is_some()),
        }),
        WriteKind::Increment(by) => {
            let number = sum(before, by)?;
            Ok(Formed {
                body: Body::Int(number),
                answer: WriteAnswer::Number(number),
            })
        }
    }
}

/// The number before and what is added; where there is no value, it counts as 0.
fn sum(before: Option<PlainValue<'_>>, by: i64) -> Result<i64, NoSum<'_>>
    ensures { MatchResult result
        (λ n. rule.incremented by (option_map plain_body before.entry) ≡ Ok (history.Int n))
        (λ why. rule.incremented by (option_map plain_body before.entry) ≡ Err (refusal_of_sum why)) }
{
    match before {
        None => Ok(by),
        Some(PlainValue::Bytes(bytes)) => Err(NoSum::NotInteger(bytes)),
        Some(PlainValue::Int(old)) => match old.checked_add(by) {
            Some(number) => Ok(number),
            None => Err(NoSum::Overflow(old, by)),
        },
    }
}

/// The value before is the one on which the write depends.
pub(crate) fn meets_condition(kind: WriteKind<'_>, before: Option<PlainValue<'_>>) -> bool
    ensures { result ≡ rule.meets_condition (kind_of kind.entry) (option_map plain_body before.entry) }
{
    match kind {
        WriteKind::ConditionalPut(_, expected) => is_same_value(before, expected),
        WriteKind::InitPut(value) => before.is_none() || is_same_value(before, Some(value)),
        WriteKind::Put(_) | WriteKind::Delete | WriteKind::Increment(_) => true,
    }
}

/// Both are the same value, or there is none.
fn is_same_value(a: Option<PlainValue<'_>>, b: Option<PlainValue<'_>>) -> bool
    ensures { result ≡ rule.is_same_value (option_map plain_body a.entry) (option_map plain_body b.entry) }
{
    match (a, b) {
        (None, None) => true,
        (Some(a), Some(b)) => is_same_body(Body::from(a), Body::from(b)),
        _ => false,
    }
}

/// Both are the same value, or deletions.
pub(crate) fn is_same_body(a: Body<'_>, b: Body<'_>) -> bool
    ensures { result ≡ rule.is_same_body (seen_body a.entry) (seen_body b.entry) }
{
    match (a, b) {
        (Body::Deletion, Body::Deletion) => true,
        (Body::Bytes(a), Body::Bytes(b)) => a == b,
        (Body::Int(a), Body::Int(b)) => a == b,
        _ => false,
    }
}

/// The value that a write forms which is made for the first time: its condition is met, and its sum can be formed.
pub(crate) fn form_first<'a>(
    alloc: Global,
    kind: WriteKind<'a>,
    before: Option<PlainValue<'a>>,
) -> Result<Formed<'a>, WriteFault>
    ensures outcome { MatchResult result
        (λ f. Forms (first_body (kind_of kind.entry) (option_map plain_body before.entry)) (kind_of kind.entry) (option_map plain_body before.entry) f)
        (λ why. Tells (refusal_of why) (first_body (kind_of kind.entry) (option_map plain_body before.entry))) }
    ensures late { IfErr result IsLate }
{
    if !meets_condition(kind, before) {
        return Err(WriteFault::ConditionFailed(owned(alloc, before)?));
    }
    match form(kind, before) {
        Ok(formed) => Ok(formed),
        Err(NoSum::Overflow(old, by)) => Err(WriteFault::IntegerOverflow(old, by)),
        Err(NoSum::NotInteger(bytes)) => Err(WriteFault::NotInteger(OwnedValue::copy(
            alloc,
            PlainValue::Bytes(bytes),
        )?)),
    }
}

/// A copy of the value, where there is one.
pub(crate) fn owned(
    alloc: Global,
    value: Option<PlainValue<'_>>,
) -> Result<Option<OwnedValue>, OutOfMemory>
    ensures { IfOk result (λ v. option_map owned_body v ≡ option_map plain_body value.entry) }
{
    match value {
        Some(value) => Ok(Some(OwnedValue::copy(alloc, value)?)),
        None => Ok(None),
    }
}
