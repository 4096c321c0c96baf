//! Which of the parts stands first.
ghost use Rattle.std.specs.Prelude.{◌≡◌, ◌≤◌, ◌<◌, ℕ, length};
ghost use Rattle.mvcc_key.specs.Encoded.{name_in, IsName};
ghost use Rattle.merge_cursor.specs.views.Standing.{standings, heads, point_of_part, leads, precedes, IsLeading};

use mvcc_key::{Cursor, cmp_encoded};
use std::cmp::Ordering;

/// The number of the part whose pair comes first on the way ahead or back, the newest of those with one name, or their number
/// where none stands at a pair.
pub(crate) fn leading<C: Cursor>(parts: &[C], ahead: bool) -> usize
    ensures { IsLeading ahead (heads (standings C.points C.place C.is_part parts.now)) result }
{
    let mut best = parts.len();
    for index in 0..parts.len() {
        if leads(parts, index, best, ahead) {
            best = index;
        }
    }
    best
}

/// Whether the part comes before the best one so far.
fn leads<C: Cursor>(parts: &[C], index: usize, best: usize, ahead: bool) -> bool
    requires index { index < length parts.now }
    requires best { best ≤ length parts.now }
    ensures { let all = standings C.points C.place C.is_part in
        result ≡ leads ahead (point_of_part (all parts.now) index) (point_of_part (all parts.now) best) }
{
    let Some(key) = parts[index].key() else {
        return false;
    };
    if best == parts.len() {
        return true;
    }
    match parts[best].key() {
        Some(other) => comes_before(key, other, ahead),
        None => true,
    }
}

/// Whether a key comes before another on the way ahead or back.
fn comes_before(key: &[u8], other: &[u8], ahead: bool) -> bool
    requires key { IsName key.now }
    requires other { IsName other.now }
    ensures { result ≡ precedes ahead (name_in key.now) (name_in other.now) }
{
    match cmp_encoded(key, other) {
        Ordering::Less => ahead,
        Ordering::Equal => false,
        Ordering::Greater => !ahead,
    }
}
