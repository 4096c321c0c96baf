//! Ranges of sequences that rise.
ghost use Rattle.std.specs.Prelude.{◌≡◌};
ghost use Rattle.txn_state.specs.views.Seen.{ranges_of};
ghost use Rattle.txn_state.specs.Transaction.{are_ranges};

use mvcc_key::{MAX_COUNT, SeqRange};

/// Whether each range ends no earlier than it begins, each begins above the end of the one before it, and no number is above
/// the limit.
pub(crate) fn are_rising(ranges: &[SeqRange]) -> bool
    ensures { result ≡ are_ranges (ranges_of ranges.now) }
{
    let mut lowest = 0;
    for range in ranges {
        if range.first < lowest || range.last < range.first || MAX_COUNT < range.last {
            return false;
        }
        lowest = range.last + 1;
    }
    true
}
