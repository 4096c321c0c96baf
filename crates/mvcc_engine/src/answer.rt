//! The answers of writes, by their kinds.
ghost use Rattle.std.specs.Prelude.{◌≡◌, Bool, ℤ};
ghost use Rattle.write_rule.specs.Write.{Number, WasThere};
ghost use Rattle.write_rule.specs.views.Seen.{answer_of};

use write_rule::WriteAnswer;

/// Whether a value was there, in the answer of a delete.
pub(crate) fn was_there(answer: WriteAnswer) -> bool
    ensures { (there : Bool) → answer_of answer ≡ WasThere there → result ≡ there }
{
    match answer {
        WriteAnswer::Found(there) => there,
        _ => false,
    }
}

/// The number that was written, in the answer of an increment.
pub(crate) fn number_in(answer: WriteAnswer) -> i64
    ensures { (number : ℤ) → answer_of answer ≡ Number number → result ≡ number }
{
    match answer {
        WriteAnswer::Number(number) => number,
        _ => 0,
    }
}
