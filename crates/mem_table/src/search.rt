//! The search in one level: by halves, over abbreviated keys alone where they differ.
ghost use Rattle.std.specs.Prelude.{◌≡◌, ◌≤◌, ◌<◌, ◌+◌, ℕ, List, length, slice_index};
ghost use Rattle.mvcc_key.specs.Encoded.{name_in, IsName};
ghost use Rattle.mvcc_key.specs.views.AbbreviatedKey.{IsAbbreviatedKey};
ghost use Rattle.mvcc_key.specs.views.Looks.{bits};
ghost use Rattle.mvcc_key.specs.Points.{count_below};
ghost use Rattle.mem_table.specs.views.Entries.{numbered, IsIndex};

use crate::entries::{Entries, half_if_below_name};
use crate::halve::halve;
use mvcc_key::Looks;
use std::sync::ledger::Ledger;

/// Numbers of entries in a row.
pub(crate) trait Numbers {
    ghost list: { Self → List ℕ };

    fn at(&self, index: usize) -> u32
        requires { index < length (list self.now) }
        ensures { result ≡ slice_index (list self.now) index };
}

/// How many entries are below the encoded key: those with these numbers, whose abbreviated keys stand beside them.
pub(crate) fn count_below_name<E: Entries, N: Numbers, L: Ledger>(
    entries: &E,
    abbreviated_keys: &[u64],
    numbers: &N,
    sought: &[u8],
    abbreviated: u64,
    looks: &mut Looks<L>,
) -> usize
    requires index { IsIndex (E.points entries.now) abbreviated_keys.now (N.list numbers.now) }
    requires sought { IsName sought.now }
    requires abbreviated { IsAbbreviatedKey (name_in sought.now).key abbreviated }
    ensures count { result ≡ count_below (name_in sought.now) (numbered (E.points entries.now) (N.list numbers.now)) }
    ensures within { result ≤ length abbreviated_keys.now }
    ensures some { 0 < length abbreviated_keys.now → looks.old < looks.new }
    ensures later { looks.old ≤ looks.new }
    ensures bound { looks.new ≤ looks.old + bits (length abbreviated_keys.now) }
{
    let (mut low, mut left) = halve(
        abbreviated_keys,
        abbreviated,
        0,
        abbreviated_keys.len(),
        looks,
    );
    while left > 0 {
        let half = left - left / 2;
        let number = numbers.at(low + half - 1);
        low += half_if_below_name(entries, number, sought, half, looks);
        let next = halve(abbreviated_keys, abbreviated, low, left - half, looks);
        low = next.0;
        left = next.1;
    }
    low
}
