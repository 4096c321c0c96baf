//! A cursor over either kind of part.
ghost use Rattle.std.specs.Prelude.{true};

use mem_table::MemCursor;
use merge_cursor::VisibleCursor;
use mvcc_key::{Cursor, Looks};
use run_block::RunCursor;
use std::sync::ledger::Ledger;

/// A cursor over one part of a store, in both directions. A cleared name has no value.
#[derive(Drop)]
pub enum PartCursor<'a> {
    Memory(MemCursor<'a>),
    Run(RunCursor<'a>),
}

/// A cursor over the visible pairs of a store: of each name the newest part's pair, and none where that part clears the name.
/// A seek on takes at most bits(n) + 2 looks in a part of n entries, and one for each part entry from the key sought up to, and
/// without, the name that is reached; going on takes one for each part entry from the name left up to the name reached.
pub type StoreCursor<'a> = VisibleCursor<PartCursor<'a>>;

impl Cursor for PartCursor<'_> {
    ghost use Rattle.lsm_store.specs.views.Cursors.{points_at, place_at, rising_at, encodable_at, in_range_at};

    ghost points = { points_at };

    ghost place = { place_at };

    ghost is_part = { λ _. true };

    ghost rising = { rising_at };

    ghost encodable = { encodable_at };

    ghost in_range = { in_range_at };

    fn seek_ge<L: Ledger>(&mut self, key: &[u8], looks: &mut Looks<L>) {
        match self {
            PartCursor::Memory(cursor) => cursor.seek_ge(key, looks),
            PartCursor::Run(cursor) => cursor.seek_ge(key, looks),
        }
    }

    fn seek_lt<L: Ledger>(&mut self, key: &[u8], looks: &mut Looks<L>) {
        match self {
            PartCursor::Memory(cursor) => cursor.seek_lt(key, looks),
            PartCursor::Run(cursor) => cursor.seek_lt(key, looks),
        }
    }

    fn next<L: Ledger>(&mut self, looks: &mut Looks<L>) {
        match self {
            PartCursor::Memory(cursor) => cursor.next(looks),
            PartCursor::Run(cursor) => cursor.next(looks),
        }
    }

    fn prev<L: Ledger>(&mut self, looks: &mut Looks<L>) {
        match self {
            PartCursor::Memory(cursor) => cursor.prev(looks),
            PartCursor::Run(cursor) => cursor.prev(looks),
        }
    }

    fn key(&self) -> Option<&[u8]> {
        match self {
            PartCursor::Memory(cursor) => cursor.key(),
            PartCursor::Run(cursor) => cursor.key(),
        }
    }

    fn value(&self) -> Option<&[u8]> {
        match self {
            PartCursor::Memory(cursor) => cursor.value(),
            PartCursor::Run(cursor) => cursor.value(),
        }
    }
}
