//! Abbreviated keys: the first bytes of keys as numbers, by which most keys are compared at once.
ghost use Rattle.std.specs.Prelude.{◌≡◌, ◌≤◌, ◌-◌, ◌*◌, ◌/◌, ◌^◌, length};
ghost use Rattle.mvcc_key.specs.Order.{key_cmp, name_cmp};
ghost use Rattle.mvcc_key.specs.Encoded.{name_in, IsName};
ghost use Rattle.mvcc_key.specs.views.AbbreviatedKey.{abbreviated_key, IsAbbreviatedKey};

use crate::encoded::{key_in, rank_in};
use crate::numbers::read_u64;
use std::cmp::Ordering;

/// How many bytes an abbreviated key has.
const ABBREVIATED_LEN: usize = 8;

/// The abbreviated key of an encoded key: the first eight bytes of its key as a number, the highest byte first, with zeros behind
/// a shorter key. Of two keys whose abbreviated keys differ, that with the lower one comes first (Pebble `Comparer.AbbreviatedKey`).
pub fn abbreviated_key(bytes: &[u8]) -> u64
    requires { IsName bytes.now }
    ensures { IsAbbreviatedKey (name_in bytes.now).key result }
{
    let key = key_in(bytes);
    if key.len() >= ABBREVIATED_LEN {
        read_u64(key)
    } else if key.is_empty() || bytes.len() < ABBREVIATED_LEN {
        abbreviated_short(key)
    } else {
        upper_bytes(read_u64(bytes), key.len())
    }
}

/// The abbreviated key of a key of at most eight bytes.
fn abbreviated_short(key: &[u8]) -> u64
    requires { length key.now ≤ 8 }
    ensures { result ≡ abbreviated_key key.now }
{
    let mut bytes = [0; ABBREVIATED_LEN];
    let (front, _) = bytes.split_at_mut(key.len());
    front.copy_from_slice(key);
    read_u64(&bytes)
}

/// The number with so many of its highest bytes, and zeros below them.
fn upper_bytes(number: u64, count: usize) -> u64
    requires some { 1 ≤ count }
    requires within { count ≤ 8 }
    ensures { result ≡ number / 256 ^ (8 - count) * 256 ^ (8 - count) }
{
    let below = 8 * (ABBREVIATED_LEN - count) as u32;
    number >> below << below
}

/// How the names of two encoded keys are ordered whose abbreviated keys are equal.
pub(crate) fn cmp_past_abbreviated(a: &[u8], b: &[u8]) -> Ordering
    requires left { IsName a.now }
    requires right { IsName b.now }
    requires abbreviated { abbreviated_key (name_in a.now).key ≡ abbreviated_key (name_in b.now).key }
    ensures { result ≡ name_cmp (name_in a.now) (name_in b.now) }
{
    match cmp_keys(key_in(a), key_in(b)) {
        Ordering::Equal => rank_in(b).cmp(&rank_in(a)),
        unequal => unequal,
    }
}

/// How two keys with one abbreviated key are ordered: one that ends there comes first, and else the bytes behind it decide.
fn cmp_keys(a: &[u8], b: &[u8]) -> Ordering
    requires { abbreviated_key a.now ≡ abbreviated_key b.now }
    ensures { result ≡ key_cmp a.now b.now }
{
    if a.len() <= ABBREVIATED_LEN || b.len() <= ABBREVIATED_LEN {
        return a.len().cmp(&b.len());
    }
    a.split_at(ABBREVIATED_LEN)
        .1
        .cmp(b.split_at(ABBREVIATED_LEN).1)
}
