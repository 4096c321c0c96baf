//! Laws of the definitions, each the contract of a function that does nothing.
ghost use Rattle.intent_resolve.specs.Causes.{RefusalsHaveCauses, SpanRefusalsHaveCauses};
ghost use Rattle.intent_resolve.specs.Laws.{AlikeRangeAlike, AlikeResolveAlike, EachHasItsResolution, EachIsAsAlone, EachIsResolved, EachKeepsValid, RangeHasItsResolutions, RangeIsAsAlone, RangeIsResolved, RangeKeepsValid, RangeLeavesOutside, RecordsStayShort, ResolutionStores, ResolveChangesItsKey, ResolveChangesOnlyItsKey, ResolveKeepsValid, ResolvedEachIsOne};

/// The resolution of one key keeps a valid history valid and changes this key alone: its intent goes, stays in a new form that is
/// no longer, or becomes a version on top of all items, and so do its pairs. It is refused exactly where the transaction has committed
/// in the epoch of its intent, below its timestamp, and entries are left. Histories with the same versions, intents and fragments
/// answer it alike.
pub fn laws_of_one_key()
    ensures valid { ResolveKeepsValid }
    ensures only { ResolveChangesOnlyItsKey }
    ensures its { ResolveChangesItsKey }
    ensures stores { ResolutionStores }
    ensures short { RecordsStayShort }
    ensures causes { RefusalsHaveCauses }
    ensures alike { AlikeResolveAlike }
{}

/// Intents of distinct keys that are resolved one after another end as their resolutions, which need no history: each key as the
/// resolution of this key alone would leave it, and all others as they were.
pub fn laws_of_several()
    ensures resolutions { EachHasItsResolution }
    ensures valid { EachKeepsValid }
    ensures resolved { EachIsResolved }
    ensures alone { EachIsAsAlone }
    ensures one { ResolvedEachIsOne }
{}

/// So do those of a span, and the keys outside it are left. It is refused exactly where the bounds are no span, or where the first of
/// the handled intents that is refused is.
pub fn laws_of_spans()
    ensures resolutions { RangeHasItsResolutions }
    ensures valid { RangeKeepsValid }
    ensures resolved { RangeIsResolved }
    ensures alone { RangeIsAsAlone }
    ensures outside { RangeLeavesOutside }
    ensures causes { SpanRefusalsHaveCauses }
    ensures alike { AlikeRangeAlike }
{}
