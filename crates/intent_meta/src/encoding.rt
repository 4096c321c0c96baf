//! From history entries to their bytes.
ghost use Rattle.std.specs.Prelude.{◌≡◌, ◌<◌, ◌≤◌, ◌+◌, ◌^◌, ◌++◌, length, vec_len, vec_capacity};
ghost use Rattle.std.specs.List.{AllByRecursion, flat_map};
ghost use Rattle.intent_meta.specs.Entries.{IsWhole};
ghost use Rattle.intent_meta.specs.Record.{entry_bytes};

use crate::Entry;
use mvcc_key::numbers::{put_bytes, put_u32};

/// How many bytes the entries have.
pub(crate) fn entries_len(entries: &[Entry]) -> u64
    requires { length (flat_map entry_bytes entries.now) < 2 ^ 64 }
    ensures { result ≡ length (flat_map entry_bytes entries.now) }
{
    let mut total = 0;
    for entry in entries {
        total += 8 + entry.value.as_slice().len() as u64;
    }
    total
}

/// Puts the entries' bytes at the end, where there is room.
pub(crate) fn put_entries(out: &mut Vec<u8>, entries: &[Entry])
    requires whole { AllByRecursion IsWhole entries.now }
    requires room { vec_len out.old + length (flat_map entry_bytes entries.now) ≤ vec_capacity out.old }
    ensures { out.new.items ≡ out.old.items ++ flat_map entry_bytes entries.now }
{
    for entry in entries {
        put_entry(out, entry);
    }
}

/// Puts an entry's bytes at the end, where there is room: its sequence, its value's length, and its value.
fn put_entry(out: &mut Vec<u8>, entry: &Entry)
    requires whole { IsWhole entry.now }
    requires room { vec_len out.old + length (entry_bytes entry.now) ≤ vec_capacity out.old }
    ensures items { out.new.items ≡ out.old.items ++ entry_bytes entry.now }
    ensures len { vec_len out.new ≡ vec_len out.old + length (entry_bytes entry.now) }
    ensures kept { vec_capacity out.old ≤ vec_capacity out.new }
{
    let value = entry.value.as_slice();
    put_u32(out, entry.sequence);
    put_u32(out, value.len() as u32);
    put_bytes(out, value);
}
