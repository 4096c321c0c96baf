//! Laws of the definitions, each the contract of a function that does nothing.
ghost use Rattle.mvcc_key.specs.Canonical.{StacksTell, FragmentsAreCanonical, StackIsOver};
ghost use Rattle.mvcc_key.specs.Clock.{NextIsUndone, PreviousIsUndone, TimesAreOrdered, NamesAreOrdered, TiedNamesAreOne};
ghost use Rattle.mvcc_key.specs.Encoded.{EncodingIsRead, ReadingWasEncoded, RefusedIsNoEncoding};
ghost use Rattle.mvcc_key.specs.Pieces.{CutShowsItsOwn, CutStaysCanonical, AddingPuts, TakingOutLeaves, ApartStays, AddingJoinsBetween, TakingOutJoinsBetween, AddingStaysAround, TakingOutStaysAround};

/// `next` and `prev` undo each other.
pub fn laws_of_timestamps()
    ensures next { NextIsUndone }
    ensures previous { PreviousIsUndone }
    ensures ordered { TimesAreOrdered }
{}

/// Stored pairs are in one order, and each name has one spelling: what was encoded is read again, what is read was encoded,
/// and what is refused is the encoding of nothing.
pub fn laws_of_names()
    ensures ordered { NamesAreOrdered }
    ensures one { TiedNamesAreOne }
    ensures again { EncodingIsRead }
    ensures back { ReadingWasEncoded }
    ensures refused { RefusedIsNoEncoding }
{}

/// The fragments of tombstones are the one canonical list that shows each key the tombstones over it.
pub fn laws_of_fragments()
    ensures canonical { FragmentsAreCanonical }
    ensures shows { StackIsOver }
    ensures one { StacksTell }
{}

/// A list cut to a span is what it was there.
pub fn laws_of_cuts()
    ensures shows { CutShowsItsOwn }
    ensures canonical { CutStaysCanonical }
{}

/// A change within a span changes no fragment apart from it.
pub fn laws_of_changes()
    ensures adding { AddingPuts }
    ensures taking_out { TakingOutLeaves }
    ensures apart { ApartStays }
{}

/// The list after a change is the old list with its middle made anew.
pub fn laws_of_middles()
    ensures adding { AddingJoinsBetween }
    ensures taking_out { TakingOutJoinsBetween }
    ensures adding_around { AddingStaysAround }
    ensures taking_out_around { TakingOutStaysAround }
{}
