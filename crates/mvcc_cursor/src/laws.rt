//! Laws of the definitions, each the contract of a function that does nothing.
ghost use Rattle.mvcc_cursor.specs.KeyHistory.{KeyPointsAre, LongKeysAreCut};
ghost use Rattle.mvcc_cursor.specs.WellFormed.{HistoriesAreReadBack};

/// The points that a cursor walks over at a key are those of the key's intent and of its versions, and what a history has of a
/// long key is what it has of the bytes at which `seek_exact` stands. A store of any valid history is one that a cursor can walk
/// over.
pub fn laws_of_keys()
    ensures points { KeyPointsAre }
    ensures long { LongKeysAreCut }
    ensures read { HistoriesAreReadBack }
{}
