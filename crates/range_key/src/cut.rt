//! Fragments cut to a span.
ghost use Rattle.std.specs.Prelude.{◌≡◌, [], ◌∷◌, IfOk, MatchOption};
ghost use Rattle.std.specs.Option.{option_to_list};
ghost use Rattle.mvcc_key.specs.Canonical.{IsCanonical};
ghost use Rattle.mvcc_key.specs.Fragments.{cut_to, part_within};
ghost use Rattle.mvcc_key.specs.Pieces.{piece};

use crate::Fragment;
use crate::place::{ending_by, starting_below};
use mvcc_key::OutOfMemory;
use std::alloc::Global;

/// The bounds of the part of a fragment within a span, where there is one.
pub(crate) fn bounds_within<'a>(
    fragment: &'a Fragment,
    start: &'a [u8],
    end: &'a [u8],
) -> Option<(&'a [u8], &'a [u8])>
    ensures { MatchOption result (part_within start.now end.now fragment.now ≡ [])
        (λ bounds. part_within start.now end.now fragment.now ≡ piece bounds.0.now bounds.1.now fragment.now.stack ∷ []) }
{
    let low = fragment.start_bytes().max(start);
    let high = end.min(fragment.end_bytes());
    if low.cmp(high).is_lt() {
        Some((low, high))
    } else {
        None
    }
}

/// The part of a fragment within a span, where there is one.
fn part_of(
    alloc: Global,
    fragment: &Fragment,
    start: &[u8],
    end: &[u8],
) -> Result<Option<Fragment>, OutOfMemory>
    ensures { IfOk result (λ part. option_to_list part ≡ part_within start.now end.now fragment.now) }
{
    let Some((low, high)) = bounds_within(fragment, start, end) else {
        return Ok(None);
    };
    let part = Fragment::copy(alloc, low, high, fragment.copy_stack(alloc)?)?;
    Ok(Some(part))
}

/// The fragments that overlap the span.
fn overlapping<'a>(fragments: &'a [Fragment], start: &[u8], end: &[u8]) -> &'a [Fragment]
    requires { IsCanonical fragments.now }
    ensures { cut_to start.now end.now result.now ≡ cut_to start.now end.now fragments.now }
{
    let (_, rest) = fragments.split_at(ending_by(fragments, start));
    let (overlapping, _) = rest.split_at(starting_below(rest, end));
    overlapping
}

/// The fragments cut to the span.
pub(crate) fn cut(
    alloc: Global,
    fragments: &[Fragment],
    start: &[u8],
    end: &[u8],
) -> Result<Vec<Fragment>, OutOfMemory>
    requires { IsCanonical fragments.now }
    ensures { IfOk result (λ parts. parts.items ≡ cut_to start.now end.now fragments.now) }
{
    parts_of(alloc, overlapping(fragments, start, end), start, end)
}

/// The parts of the fragments within the span.
fn parts_of(
    alloc: Global,
    fragments: &[Fragment],
    start: &[u8],
    end: &[u8],
) -> Result<Vec<Fragment>, OutOfMemory>
    ensures { IfOk result (λ parts. parts.items ≡ cut_to start.now end.now fragments.now) }
{
    let mut parts = Vec::new(alloc);
    parts.reserve(fragments.len())?;
    for fragment in fragments {
        if let Some(part) = part_of(alloc, fragment, start, end)? {
            parts.push(part)?;
        }
    }
    Ok(parts)
}
