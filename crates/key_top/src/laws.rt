//! Laws of the tops of keys, each the contract of a function that does nothing.
ghost use Rattle.key_top.specs.Laws.{FrontsChange, TopsAreShort};

/// The top of a key of a valid history is short enough to be counted. Where a key changes in front of its newest committed version,
/// the statistics of all that is stored change by what that changes for the key's top.
pub fn laws_of_tops()
    ensures short { TopsAreShort }
    ensures change { FrontsChange }
{}
