//! Laws of the definitions, each the contract of a function that does nothing.
ghost use Rattle.intent_meta.specs.KeyChanges.{ChangeKeepsValid, ChangeLeavesOthers, VersionOnTopIsOnePair, IntentInPlaceIsTwoPairs};
ghost use Rattle.write_rule.specs.Causes.{RefusalsHaveCauses};
ghost use Rattle.write_rule.specs.Laws.{AlikeWriteAlike, WriteHasOutcome, WriteChangesOneKey, WriteKeepsValid, WriteMayRepeat};

/// A write that is taken was a replay, added one version on top, or left the writer's intent: so it changes one key alone, and
/// keeps what holds of every history. In a transaction it may be made again. One that is refused is refused for the cause of its
/// refusal. Histories with the same versions, intents and fragments answer every write alike.
pub fn laws_of_writes()
    ensures outcome { WriteHasOutcome }
    ensures one_key { WriteChangesOneKey }
    ensures valid { WriteKeepsValid }
    ensures repeat { WriteMayRepeat }
    ensures causes { RefusalsHaveCauses }
    ensures alike { AlikeWriteAlike }
{}

/// What such a change makes of the stored pairs: a version on top is one pair more, and an intent is its two pairs in the place
/// of those of the earlier one. All other keys are left.
pub fn laws_of_points()
    ensures version { VersionOnTopIsOnePair }
    ensures intent { IntentInPlaceIsTwoPairs }
    ensures valid { ChangeKeepsValid }
    ensures others { ChangeLeavesOthers }
{}
