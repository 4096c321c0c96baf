//! The pieces that a change makes of the fragments that it touches.
ghost use Rattle.std.specs.Prelude.{◌≡◌, ◌++◌, List, IfOk, OnOk};
ghost use Rattle.mvcc_key.specs.Canonical.{IsCanonical};
ghost use Rattle.mvcc_key.specs.Fragments.{Fragment, cut_to, joined, part_within};
ghost use Rattle.mvcc_key.specs.Pieces.{added_pieces, laid_over, taken_pieces, thinned};
ghost use Rattle.mvcc_key.specs.views.Seen.{time_of};
ghost use Rattle.range_key.specs.views.Joining.{joined_on};
ghost use Rattle.range_key.specs.views.Places.{EndsFrom, StartBy};
ghost use Rattle.range_key.specs.views.Taken.{is_taken};

use crate::Fragment;
use crate::cut::bounds_within;
use crate::pieces::Pieces;
use crate::taken::Taken;
use mvcc_key::{OutOfMemory, Timestamp};
use std::alloc::Global;

/// Lays the timestamp over the part of a fragment within the span, and over the free stretch that begins at `from` and ends
/// before it. The answer is where the next stretch begins.
fn lay_over_part<'a>(
    pieces: &mut Pieces,
    fragment: &'a Fragment,
    from: &'a [u8],
    start: &'a [u8],
    end: &'a [u8],
    ts: Timestamp,
) -> Result<&'a [u8], OutOfMemory>
    ensures { IfOk result (λ next. (rest : List Fragment)
        → joined_on pieces.new (laid_over next.now end.now (time_of ts) rest)
        ≡ joined_on pieces.old (laid_over from.now end.now (time_of ts) (part_within start.now end.now fragment.now ++ rest))) }
{
    let Some((low, high)) = bounds_within(fragment, start, end) else {
        return Ok(from);
    };
    pieces.fill(from, low, ts)?;
    pieces.push(low, high, fragment.stack_with(pieces.alloc(), ts)?)?;
    Ok(high)
}

/// Lays the timestamp over the fragments within the span, and over the free stretches between them.
fn lay_over(
    pieces: &mut Pieces,
    fragments: &[Fragment],
    start: &[u8],
    end: &[u8],
    ts: Timestamp,
) -> Result<(), OutOfMemory>
    ensures { OnOk result (pieces.new
        ≡ joined_on pieces.old (laid_over start.now end.now (time_of ts) (cut_to start.now end.now fragments.now))) }
{
    let mut from = start;
    for fragment in fragments {
        from = lay_over_part(pieces, fragment, from, start, end, ts)?;
    }
    pieces.fill(from, end, ts)
}

/// The pieces of the fragments that a span touches, after a tombstone more over it, joined.
pub(crate) fn added(
    alloc: Global,
    touched: &[Fragment],
    start: &[u8],
    end: &[u8],
    ts: Timestamp,
) -> Result<Vec<Fragment>, OutOfMemory>
    requires canonical { IsCanonical touched.now }
    requires from { EndsFrom start.now touched.now }
    requires by { StartBy end.now touched.now }
    ensures { IfOk result (λ pieces. pieces.items
        ≡ joined (added_pieces (record { start = start.now; end = end.now; ts = time_of ts }) touched.now)) }
{
    let mut pieces = Pieces::new(alloc);
    pieces.push_below(touched, start)?;
    lay_over(&mut pieces, touched, start, end, ts)?;
    pieces.push_from(touched, end)?;
    Ok(pieces.into_vec())
}

/// Leaves, of the part of a fragment within the span, the timestamps that are not taken out.
fn thin_part(
    pieces: &mut Pieces,
    fragment: &Fragment,
    start: &[u8],
    end: &[u8],
    taken: Taken,
) -> Result<(), OutOfMemory>
    ensures { OnOk result (pieces.new
        ≡ joined_on pieces.old (thinned (is_taken taken) (part_within start.now end.now fragment.now))) }
{
    let Some((low, high)) = bounds_within(fragment, start, end) else {
        return Ok(());
    };
    let stack = fragment.stack_without(pieces.alloc(), taken)?;
    if !stack.is_empty() {
        pieces.push(low, high, stack)?;
    }
    Ok(())
}

/// Leaves, of the fragments within the span, the timestamps that are not taken out.
fn thin(
    pieces: &mut Pieces,
    fragments: &[Fragment],
    start: &[u8],
    end: &[u8],
    taken: Taken,
) -> Result<(), OutOfMemory>
    ensures { OnOk result (pieces.new
        ≡ joined_on pieces.old (thinned (is_taken taken) (cut_to start.now end.now fragments.now))) }
{
    for fragment in fragments {
        thin_part(pieces, fragment, start, end, taken)?;
    }
    Ok(())
}

/// The pieces of the fragments that a span touches, after timestamps were taken out of it, joined.
pub(crate) fn thinned(
    alloc: Global,
    touched: &[Fragment],
    start: &[u8],
    end: &[u8],
    taken: Taken,
) -> Result<Vec<Fragment>, OutOfMemory>
    requires canonical { IsCanonical touched.now }
    requires from { EndsFrom start.now touched.now }
    requires by { StartBy end.now touched.now }
    ensures { IfOk result (λ pieces. pieces.items
        ≡ joined (taken_pieces start.now end.now (is_taken taken) touched.now)) }
{
    let mut pieces = Pieces::new(alloc);
    pieces.push_below(touched, start)?;
    thin(&mut pieces, touched, start, end, taken)?;
    pieces.push_from(touched, end)?;
    Ok(pieces.into_vec())
}
