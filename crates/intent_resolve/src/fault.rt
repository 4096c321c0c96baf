//! Why a resolution is refused.
use mvcc_key::{OutOfMemory, Timestamp};

/// Why a resolution is refused: want of memory, or the first of the others, in this order, that applies.
#[derive(Debug, Drop)]
pub enum ResolveFault {
    /// Memory was wanting.
    OutOfMemory,
    /// The bounds are no span, or one of them is longer than 4,097 bytes. Of one key it never comes.
    BadSpan,
    /// A commit is below the timestamp of the transaction's intent, which this is: of a span, of the first such intent that is
    /// handled.
    CommitBelowIntent(Timestamp),
}

impl From<OutOfMemory> for ResolveFault {
    ghost use Rattle.std.specs.Prelude.{◌≡◌};
    ghost use Rattle.intent_resolve.specs.declared.fault.ResolveFault.TheVariants as fault;

    ghost from_gives = { λ _ e. e ≡ fault.OutOfMemory };

    fn from(_: OutOfMemory) -> Self {
        ResolveFault::OutOfMemory
    }
}
