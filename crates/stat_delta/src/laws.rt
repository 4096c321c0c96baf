//! Laws of the differences, each the contract of a function that does nothing.
ghost use Rattle.mvcc_key.specs.Order.{Key, Pair};
ghost use Rattle.stat_delta.specs.Laws.{OthersOfStored, SharesOfStored, StoredKeyChanges, StoredKeyChangesOnTop, StoredChangesAddUp, VersionComes, IntentIsPut, IntentComes, IntentIsReplaced, IntentGoes, IntentBecomesVersion, VersionTellsShape, RecordTellsShape, TopsAreShort};
ghost use Rattle.stat_delta.specs.SpanLaws.{TombstoneOverKey, TombstoneOverVersions, LeastAboveTells, HidingNothingStays, KeysAreWithin, OneKeyFirst, FirstPairTells, PairsTellVersions, NothingAtOrAbove, StoredSpanChanges, CoveringStaysInside, UncoveringStaysInside, NoneFoundHideNothing, StoredSharesTell, TombstonesChange, MiddleShows, TombstoneComes, TombstonesGo, HidingNothingGoes};
ghost use Rattle.stat_delta.specs.Dying.{TombstoneKills, TombstoneComesOverKeys, OneDies, DyingInTwo, FewDie};
ghost use Rattle.stat_delta.specs.MomentLaws.{StoredIsBy, GreatestIsLast, NothingMoves, VersionMoves, IntentMoves};
ghost use Rattle.stat_delta.specs.SpanWalk.{WalkInTwo, WalkSkips, WalkMeetsKeys, WalkMeetsFirst, TombstoneComesOverPairs};
ghost use Rattle.stat_delta.specs.Removals.{VersionsInTwo, OldShapesGo, AllShapesGo, OldVersionsGo, WithoutVersions, NewerStandInFront, VersionsUpToGo, AllVersionsGo, OlderStayUnderFewer, WindowStays, WindowGoes};
ghost use Rattle.stat_delta.specs.SpanBounds.{KeysAreShort, PairsAreShort, VersionsAreShort, VersionsAreFew, KeysAreFew, FragmentsAreFew, FragmentsStandAround};

/// Where one key changes, the statistics change by what it changes, told by its intent and the newest of its versions: those
/// further down count the same.
pub fn laws_of_stored_keys()
    ensures others { OthersOfStored }
    ensures shares { SharesOfStored }
    ensures changes { StoredKeyChanges }
    ensures on_top { StoredKeyChangesOnTop }
    ensures add_up { StoredChangesAddUp }
{}

/// What each change of a key changes: a version on top, an intent that is put, that goes, or that becomes a version.
pub fn laws_of_one_key()
    ensures version_comes { VersionComes }
    ensures intent_is_put { IntentIsPut }
    ensures intent_comes { IntentComes }
    ensures intent_is_replaced { IntentIsReplaced }
    ensures intent_goes { IntentGoes }
    ensures intent_becomes_version { IntentBecomesVersion }
{}

/// What the statistics see of a version and of an intent is told without its bytes, and is short enough to be counted.
pub fn laws_of_shapes()
    ensures of_version { VersionTellsShape }
    ensures of_intent { RecordTellsShape }
    ensures short { TopsAreShort }
{}

/// Where a span changes, the statistics change by what its keys change by, one after another, and by what the fragments do that
/// overlap it or abut it.
pub fn laws_of_spans()
    ensures changes { StoredSpanChanges }
    ensures shares { StoredSharesTell }
    ensures tombstones { TombstonesChange }
    ensures middle { MiddleShows }
{}

/// The keys of a span, and the versions of each, are those of its pairs.
pub fn laws_of_keys_within()
    ensures within { KeysAreWithin }
    ensures one_first { OneKeyFirst }
    ensures first_pair { FirstPairTells }
    ensures versions { PairsTellVersions }
    ensures nothing_above { NothingAtOrAbove }
{}

/// What a tombstone changes that comes above everything in its span.
pub fn laws_of_a_tombstone()
    ensures over_key { TombstoneOverKey }
    ensures over_versions { TombstoneOverVersions }
    ensures inside { CoveringStaysInside }
    ensures comes { TombstoneComes }
{}

/// The same counted as the keys that die, and their bytes.
pub fn laws_of_dying()
    ensures kills { TombstoneKills }
    ensures comes { TombstoneComesOverKeys }
    ensures one { OneDies }
    ensures keys_in_two { DyingInTwo Key }
    ensures pairs_in_two { DyingInTwo Pair }
    ensures few_keys { FewDie Key }
    ensures few_pairs { FewDie Pair }
{}

/// The same in one walk over the pairs of the span.
pub fn laws_of_a_walk()
    ensures in_two { WalkInTwo }
    ensures skips { WalkSkips }
    ensures keys { WalkMeetsKeys }
    ensures first { WalkMeetsFirst }
    ensures comes { TombstoneComesOverPairs }
{}

/// What tombstones change that go.
pub fn laws_of_thinning()
    ensures least_above { LeastAboveTells }
    ensures inside { UncoveringStaysInside }
    ensures go { TombstonesGo }
    ensures hiding_nothing { HidingNothingStays }
    ensures found { NoneFoundHideNothing }
    ensures hiding_nothing_go { HidingNothingGoes }
{}

/// What versions of a key change that are collected: those that go alone count, and the timestamp of the one before them.
pub fn laws_of_collection()
    ensures in_two { VersionsInTwo }
    ensures old_shapes { OldShapesGo }
    ensures all_shapes { AllShapesGo }
    ensures old_versions { OldVersionsGo }
    ensures without { WithoutVersions }
    ensures newer { NewerStandInFront }
    ensures up_to { VersionsUpToGo }
    ensures all { AllVersionsGo }
{}

/// What a window of time changes that goes from a span.
pub fn laws_of_windows()
    ensures fewer { OlderStayUnderFewer }
    ensures stays { WindowStays }
    ensures goes { WindowGoes }
{}

/// How large the sums of a span may be.
pub fn laws_of_bounds()
    ensures keys_short { KeysAreShort }
    ensures pairs_short { PairsAreShort }
    ensures versions_short { VersionsAreShort }
    ensures versions_few { VersionsAreFew }
    ensures keys_few { KeysAreFew }
    ensures fragments_few { FragmentsAreFew }
    ensures around { FragmentsStandAround }
{}

/// The latest moment of all that is stored, and what a version or an intent more makes of it.
pub fn laws_of_moments()
    ensures stored { StoredIsBy }
    ensures greatest { GreatestIsLast }
    ensures stays { NothingMoves }
    ensures version { VersionMoves }
    ensures intent { IntentMoves }
{}
