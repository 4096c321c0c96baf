//! Laws of the definitions, each the contract of a function that does nothing.
ghost use Rattle.read_rule.specs.Laws.{AlikeReadAlike};

/// Histories with the same versions, intents and fragments answer every read of a key alike, and list the same.
pub fn alike_read_alike()
    ensures { AlikeReadAlike }
{}
