//! The timestamps of the tombstones over a key.
ghost use Rattle.std.specs.Prelude.{◌≡◌, ◌≤◌, ◌+◌, [], length, map, find, if◌then◌else◌};
ghost use Rattle.std.specs.List.Sorted.{IsStrictlySortedBy};
ghost use Rattle.std.specs.Option.{option_map, option_copied};
ghost use Rattle.mvcc_key.specs.Encoded.{IsName};
ghost use Rattle.mvcc_key.specs.Fragments.{stack_at, stack_of};
ghost use Rattle.mvcc_key.specs.Order.{newer_first, is_up_to};
ghost use Rattle.mvcc_key.specs.views.Looks.{bits};
ghost use Rattle.mvcc_key.specs.views.Seen.{time_of};
ghost use Rattle.lsm_store.specs.Shown.{fragments_in};
ghost use Rattle.mvcc_cursor.specs.views.Under.{key_under};

use crate::bytes::key_of;
use lsm_store::Store;
use mvcc_key::{Looks, Timestamp};
use range_key::Fragment;
use std::sync::ledger::Ledger;

/// The timestamps of the tombstones over the key of an encoded name, newest first.
pub(crate) fn stack_of<'s, L: Ledger>(
    store: &'s Store,
    name: &[u8],
    looks: &mut Looks<L>,
) -> &'s [Timestamp]
    requires { IsName name.now }
    ensures value { map time_of result.now ≡ stack_at (fragments_in store.now) (key_under name.now) }
    ensures later { looks.old ≤ looks.new }
    ensures looks { looks.new ≤ looks.old + bits (length (fragments_in store.now)) + 1 }
{
    times_of(store.fragments().at(key_of(name), looks))
}

/// The same where there is a key, and else none.
pub(crate) fn stack_if<'s, L: Ledger>(
    store: &'s Store,
    name: &[u8],
    is_there: bool,
    looks: &mut Looks<L>,
) -> &'s [Timestamp]
    requires { IsName name.now }
    ensures value { map time_of result.now ≡ (if is_there then stack_at (fragments_in store.now) (key_under name.now) else []) }
    ensures later { looks.old ≤ looks.new }
{
    if is_there {
        stack_of(store, name, looks)
    } else {
        &[]
    }
}

/// The timestamps of a fragment, and none where there is none.
fn times_of(fragment: Option<&Fragment>) -> &[Timestamp]
    ensures { map time_of result.now ≡ stack_of (option_copied fragment.entry) }
{
    match fragment {
        Some(fragment) => fragment.stack.times(),
        None => &[],
    }
}

/// The newest of the timestamps that is not newer than `ts`, found by halving.
pub(crate) fn time_up_to(times: &[Timestamp], ts: Timestamp) -> Option<Timestamp>
    requires { IsStrictlySortedBy newer_first (map time_of times.now) }
    ensures { option_map time_of result ≡ find (λ t. is_up_to t (time_of ts)) (map time_of times.now) }
{
    let place = times.partition_point(|time| ts.compare(*time).is_lt());
    times.split_at(place).1.first().copied()
}
