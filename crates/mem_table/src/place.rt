//! Places of names among operations in order.
ghost use Rattle.std.specs.Prelude.{◌≡◌, ◌<◌, length, slice_get, true, Some};
ghost use Rattle.mvcc_key.specs.Order.{is_same_name};
ghost use Rattle.mvcc_key.specs.Encoded.{name_in, IsName};
ghost use Rattle.mvcc_key.specs.Points.{Point};
ghost use Rattle.mem_table.specs.views.Entries.{numbered};
ghost use Rattle.mem_table.specs.views.Slots.{numbers_in, IsIndexed};
ghost use Rattle.mem_table.specs.views.Gaps.{place_of, IsGap};
ghost use Rattle.mem_table.specs.views.Held.{held};

use crate::entries::Entries;
use crate::leaves::Leaves;
use mvcc_key::cmp_encoded;

/// Where a name stands in a memory table, or would stand: what [`find`](crate::MemTable::find) answers. It holds until the table
/// takes a new name up.
#[derive(Clone, Copy, Debug)]
pub struct MemPlace {
    pub(crate) low: usize,
    /// One more than `low` where the name is known, and else `low`.
    pub(crate) behind: usize,
    /// The leaf and the slot where the table found the name. In another table, or later, the place is sought by `low`.
    pub(crate) leaf: usize,
    pub(crate) slot: usize,
}

/// Whether the name with this encoded key stands at a gap.
pub(crate) fn is_at<E: Entries>(
    entries: &E,
    leaves: &Leaves,
    leaf: usize,
    slot: usize,
    sought: &[u8],
) -> bool
    requires index { IsIndexed (E.points entries.now) (held leaves.now) }
    requires gap { IsGap (held leaves.now) leaf slot }
    requires sought { IsName sought.now }
    ensures found { (p : Point) → slice_get (numbered (E.points entries.now) (numbers_in (held leaves.now))) (place_of (held leaves.now) leaf slot) ≡ Some p
        → result ≡ is_same_name p.name (name_in sought.now) }
    ensures within { result ≡ true → place_of (held leaves.now) leaf slot < length (numbers_in (held leaves.now)) }
{
    match leaves.slot_at(leaf, slot) {
        Some(at) => cmp_encoded(entries.key(leaves.number(at.0, at.1)), sought).is_eq(),
        None => false,
    }
}
