//! Laws of the definitions, as the contract of a function that does nothing.
ghost use Rattle.range_key.specs.RangeOps.{FragmentsTellOperations, OperationsGiveFragments, OperationsKeepParts, OperationsSetSpans};

/// What range operations make of fragments is what they make of whichever tombstones these show. The operations that set what
/// fragments stand for give the fragments again; each is over a span and sets no bytes, and its bounds and its timestamp are those of
/// operations that gave the fragments.
pub fn laws_of_operations()
    ensures tell { FragmentsTellOperations }
    ensures again { OperationsGiveFragments }
    ensures parts { OperationsKeepParts }
    ensures spans { OperationsSetSpans }
{}
