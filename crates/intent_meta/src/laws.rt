//! Laws of the definitions, each the contract of a function that does nothing.
ghost use Rattle.intent_meta.specs.views.WholeKeys.{KeysAreWhole};
ghost use Rattle.intent_meta.specs.ReadBack.{StoredIsReadBack, FragmentsStay, StoredPairsRise};
ghost use Rattle.intent_meta.specs.Rules.{RecordIsRead, ReadingWasWritten};

/// A record has one spelling: what was encoded is read again, and what is read was encoded and keeps the rules of records.
pub fn one_spelling()
    ensures again { RecordIsRead }
    ensures back { ReadingWasWritten }
{}

/// The pairs that a valid history is stored as, with its fragments, are read back as this history, its tombstones in the order
/// of their fragments. So what is stored says all.
pub fn stored_is_read_back()
    ensures read { StoredIsReadBack }
    ensures fragments { FragmentsStay }
    ensures rising { StoredPairsRise }
{}

/// What a valid history has of a key is what [`KeyItems`](crate::KeyItems) may tell of one.
pub fn keys_are_whole()
    ensures { KeysAreWhole }
{}
