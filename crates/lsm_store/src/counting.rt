//! What is counted in one walk of a part's cursor.
ghost use Rattle.std.specs.Prelude.{◌≡◌, ◌<◌, length, filter, not, is_some};
ghost use Rattle.lsm_store.specs.views.Seen.{seen_shape};

use crate::PartShape;
use mvcc_key::{Cursor, next};

/// What is shown of a part with so many names, and with range operations or without.
pub(crate) fn shape_of<C: Cursor>(cursor: &mut C, count: usize, ranges: bool) -> PartShape
    requires start { C.place cursor.old ≡ 0 }
    requires count { count ≡ length (C.points cursor.old) }
    ensures { seen_shape result ≡ record { keys = count; clears = length (filter (λ p. not (is_some p.value)) (C.points cursor.old)); ranges = ranges } }
{
    PartShape {
        keys: count as u64,
        clears: count_clears(cursor, count),
        ranges,
    }
}

/// How many of so many names are cleared.
fn count_clears<C: Cursor>(cursor: &mut C, count: usize) -> u64
    requires start { C.place cursor.old ≡ 0 }
    requires count { count ≡ length (C.points cursor.old) }
    ensures { result ≡ length (filter (λ p. not (is_some p.value)) (C.points cursor.old)) }
{
    let mut clears = 0;
    for _ in 0..count {
        next(cursor);
        if cursor.value().is_none() {
            clears += 1;
        }
    }
    clears
}

/// How many bytes the next so many entries of a cursor have in a run, or the greatest number.
pub(crate) fn entries_len<C: Cursor>(cursor: &mut C, count: usize) -> usize {
    let mut total: usize = 0;
    for _ in 0..count {
        next(cursor);
        let entry = field_len(cursor.key()).saturating_add(field_len(cursor.value()));
        total = total.saturating_add(entry).saturating_add(1);
    }
    total
}

/// How many bytes a key or a value has with its length before it. None has none.
fn field_len(bytes: Option<&[u8]>) -> usize {
    match bytes {
        Some(bytes) => bytes.len().saturating_add(4),
        None => 0,
    }
}
