//! Why a command is not carried out, and the reason that is shown.
ghost use Rattle.std.specs.Prelude.{◌≡◌, None, Some, MatchResult};
ghost use Rattle.std.specs.Option.{option_map};
ghost use Rattle.mvcc_engine.specs.views.Seen as engine;
ghost use Rattle.script_text.specs.views.Seen.{reason_of, refusal_of};
ghost use Rattle.script_run.specs.views.Told.{told_by};

use mvcc_engine::{AgeFault, Refusal};
use mvcc_key::OutOfMemory;
use script_text::{Reason, TxnRefusal};
use txn_state::{IgnoreFault, TxnFault};

/// Why a command is not carried out.
#[derive(Debug, Drop)]
pub enum CommandStop {
    /// A transaction has the name already.
    TxnExists,
    /// No transaction has the name.
    NoTxn,
    /// The transaction's rules refuse what the line says.
    ByTxn(TxnRefusal),
    /// The engine refuses what the line says, or memory is wanting.
    ByEngine(Refusal),
}

impl From<OutOfMemory> for CommandStop {
    ghost use Rattle.std.specs.Prelude.{◌≡◌, None};
    ghost use Rattle.script_run.specs.views.Told.{told_by};

    ghost from_gives = { λ _ stop. told_by stop ≡ None };

    fn from(wanting: OutOfMemory) -> Self {
        CommandStop::ByEngine(Refusal::from(wanting))
    }
}

impl From<Refusal> for CommandStop {
    ghost use Rattle.std.specs.Prelude.{◌≡◌};
    ghost use Rattle.script_run.specs.declared.stop.CommandStop.TheVariants as stop;

    ghost from_gives = { λ refusal e. e ≡ stop.ByEngine refusal };

    fn from(refusal: Refusal) -> Self {
        CommandStop::ByEngine(refusal)
    }
}

impl From<AgeFault> for CommandStop {
    ghost use Rattle.std.specs.Prelude.{◌≡◌};
    ghost use Rattle.mvcc_engine.specs.views.Seen.{as_refusal};
    ghost use Rattle.script_run.specs.declared.stop.CommandStop.TheVariants as stop;

    ghost from_gives = { λ fault e. e ≡ stop.ByEngine (as_refusal fault) };

    fn from(fault: AgeFault) -> Self {
        CommandStop::ByEngine(Refusal::from(fault))
    }
}

impl From<TxnFault> for CommandStop {
    ghost use Rattle.std.specs.Prelude.{◌≡◌, Some};
    ghost use Rattle.txn_state.specs.views.Seen as txn;
    ghost use Rattle.script_text.specs.Text.{ByTxn};
    ghost use Rattle.script_run.specs.views.Told.{told_by};

    ghost from_gives = { λ fault stop. told_by stop ≡ Some (ByTxn (txn.refusal_of fault)) };

    fn from(fault: TxnFault) -> Self {
        match fault {
            TxnFault::SequenceLimit(sequence) => {
                CommandStop::ByTxn(TxnRefusal::SequenceLimit(sequence))
            }
            TxnFault::EpochLimit(epoch) => CommandStop::ByTxn(TxnRefusal::EpochLimit(epoch)),
        }
    }
}

impl From<IgnoreFault> for CommandStop {
    ghost use Rattle.std.specs.Prelude.{◌≡◌};
    ghost use Rattle.script_run.specs.views.Told.{told_by, told_by_ignoring};

    ghost from_gives = { λ fault stop. told_by stop ≡ told_by_ignoring fault };

    fn from(fault: IgnoreFault) -> Self {
        match fault {
            IgnoreFault::OutOfMemory => CommandStop::from(OutOfMemory),
            IgnoreFault::BadRanges => CommandStop::ByTxn(TxnRefusal::BadRanges),
        }
    }
}

/// The reason that is shown; want of memory is none.
pub fn reason_of(stop: &CommandStop) -> Result<Reason<'_>, OutOfMemory>
    ensures { MatchResult result (λ reason. told_by stop.now ≡ Some (reason_of reason)) (λ _. told_by stop.now ≡ None) }
{
    match stop {
        CommandStop::TxnExists => Ok(Reason::TxnExists),
        CommandStop::NoTxn => Ok(Reason::NoTxn),
        CommandStop::ByTxn(why) => Ok(Reason::ByTxn(*why)),
        CommandStop::ByEngine(why) => match refusal_of(why) {
            Ok(refusal) => Ok(Reason::ByEngine(refusal)),
            Err(wanting) => Err(wanting),
        },
    }
}

/// The engine's refusal as it is shown; want of memory is none.
fn refusal_of(why: &Refusal) -> Result<script_text::Refusal<'_>, OutOfMemory>
    ensures { MatchResult result (λ refusal. engine.refusal_of why.now ≡ Some (refusal_of refusal)) (λ _. engine.refusal_of why.now ≡ None) }
{
    let refusal = match why {
        Refusal::OutOfMemory => return Err(OutOfMemory),
        Refusal::EmptyKey => script_text::Refusal::EmptyKey,
        Refusal::KeyTooLong(length) => script_text::Refusal::KeyTooLong(*length),
        Refusal::ValueTooLong(length) => script_text::Refusal::ValueTooLong(*length),
        Refusal::BadTimestamp => script_text::Refusal::BadTimestamp,
        Refusal::BadSpan => script_text::Refusal::BadSpan,
        Refusal::Conflict(intents) => script_text::Refusal::Conflict(intents.as_slice()),
        Refusal::EpochFault(own, other) => script_text::Refusal::EpochFault(*own, *other),
        Refusal::ReplayMissing(sequence) => script_text::Refusal::ReplayMissing(*sequence),
        Refusal::ReplayMismatch(stored) => script_text::Refusal::ReplayMismatch(stored.as_ref()),
        Refusal::TooOld(existing) => script_text::Refusal::TooOld(*existing),
        Refusal::ConditionFailed(actual) => script_text::Refusal::ConditionFailed(actual.as_ref()),
        Refusal::NotInteger(actual) => script_text::Refusal::NotInteger(actual),
        Refusal::IntegerOverflow(old, by) => script_text::Refusal::IntegerOverflow(*old, *by),
        Refusal::IntentTooLong(length) => script_text::Refusal::IntentTooLong(*length),
        Refusal::CommitBelowIntent(ts) => script_text::Refusal::CommitBelowIntent(*ts),
        Refusal::MomentTooEarly(latest) => script_text::Refusal::MomentTooEarly(*latest),
        Refusal::CountOverflow(field) => script_text::Refusal::CountOverflow(*field),
    };
    Ok(refusal)
}
