//! A write that was made before.
ghost use Rattle.std.specs.Prelude.{◌≡◌, false, Ok, IfErr, MatchOption, MatchResult};
ghost use Rattle.std.specs.Option.{option_map};
ghost use Rattle.mvcc_key.specs.History.{Intent};
ghost use Rattle.mvcc_value.specs.views.Seen.{plain_body, seen_body};
ghost use Rattle.txn_state.specs.Transaction.{Actor};
ghost use Rattle.write_rule.specs.Write as rule;
ghost use Rattle.write_rule.specs.views.Forming.{IsAnswerAgain};
ghost use Rattle.write_rule.specs.views.Own.{IsOwn};
ghost use Rattle.write_rule.specs.views.Seen.{IsLate, Tells, answer_of, kind_of, refusal_of};

use crate::forming::{form, is_same_body, owned, present};
use crate::own_intent::OwnIntent;
use crate::{WriteAnswer, WriteFault, WriteKind};
use mvcc_value::{Body, PlainValue};
use std::alloc::Global;

/// What the write answers that was made before: it changes nothing, and the value that it forms must be the one that the entry
/// of its sequence has, ignored or not. No condition is tested.
pub(crate) fn replay<'a>(
    alloc: Global,
    kind: WriteKind<'a>,
    before: Option<PlainValue<'a>>,
    own: OwnIntent<'a>,
) -> Result<WriteAnswer, WriteFault>
    ensures outcome { (who : Actor) (i : Intent) → IsOwn own.entry who i
        → MatchResult result
        (λ answer. rule.replay (kind_of kind.entry) (option_map plain_body before.entry) own.entry.txn.now.sequence (rule.first_write own.entry.txn.now i) ≡ Ok (answer_of answer))
        (λ why. Tells (refusal_of why) (rule.replay (kind_of kind.entry) (option_map plain_body before.entry) own.entry.txn.now.sequence (rule.first_write own.entry.txn.now i))) }
    ensures late { IfErr result IsLate }
{
    let Some(entry) = own.entry_here() else {
        return Err(WriteFault::ReplayMissing(own.txn.sequence()));
    };
    match answer_again(kind, before, entry) {
        Some(answer) => Ok(answer),
        None => Err(WriteFault::ReplayMismatch(owned(alloc, present(entry))?)),
    }
}

/// What the write answers, where the value that it forms is that of the entry.
fn answer_again(
    kind: WriteKind<'_>,
    before: Option<PlainValue<'_>>,
    entry: Body<'_>,
) -> Option<WriteAnswer>
    ensures { MatchOption result
        (rule.is_body (rule.new_body (kind_of kind.entry) (option_map plain_body before.entry)) (seen_body entry.entry) ≡ false)
        (λ answer. IsAnswerAgain (kind_of kind.entry) (option_map plain_body before.entry) (seen_body entry.entry) answer) }
{
    match form(kind, before) {
        Ok(formed) if is_same_body(formed.body, entry) => Some(formed.answer),
        Ok(_) | Err(_) => None,
    }
}
