//! The cursor over a memory table.
ghost use Rattle.std.specs.Prelude.{◌≡◌, ◌≤◌, ◌+◌, ◌-◌, length, true, IsTrue};
ghost use Rattle.mem_table.specs.views.Seen.{points_held};
ghost use Rattle.mem_table.specs.views.Held.{held};
ghost use Rattle.mem_table.specs.views.Gaps.{place_of, IsGap};

use crate::SortedOps;
use mvcc_key::{Cursor, Looks};
use std::sync::ledger::Ledger;

/// A cursor over the points of a memory table, in both directions. It is a part's cursor: a cleared name has no value.
#[derive(Drop)]
pub struct MemCursor<'a> {
    pairs: &'a SortedOps,
    /// 0 before the first name, n at the nth, and one more than their number past the last.
    at: usize,
    /// The gap before that name; before the first one it is the first gap too.
    leaf: usize,
    slot: usize,
    ghost in_range: { at ≤ length (points_held pairs.now) + 1 },
    ghost gap: { IsGap (held pairs.now.leaves) leaf slot },
    ghost place: { place_of (held pairs.now.leaves) leaf slot ≡ at - 1 },
}

impl<'a> MemCursor<'a> {
    /// A cursor before the first of the operations.
    pub(crate) fn over(pairs: &'a SortedOps) -> Self
        ensures points { ⟦<MemCursor<'a> as Cursor>⟧.points result ≡ points_held pairs.now }
        ensures place { ⟦<MemCursor<'a> as Cursor>⟧.place result ≡ 0 }
        ensures part { IsTrue (⟦<MemCursor<'a> as Cursor>⟧.is_part result) }
    {
        MemCursor {
            pairs,
            at: 0,
            leaf: 0,
            slot: 0,
        }
    }
}

impl Cursor for MemCursor<'_> {
    ghost points = { λ c. points_held c.pairs.now };

    ghost place = { λ c. c.at };

    ghost is_part = { λ _. true };

    ghost rising = { λ c. c.pairs.now.entries.rising };

    ghost encodable = { λ c. c.pairs.now.encodable };

    ghost in_range = { λ c. c.in_range };

    fn seek_ge<L: Ledger>(&mut self, key: &[u8], looks: &mut Looks<L>) {
        let gap = self.pairs.seek(key, looks);
        self.at = self.pairs.place(gap.0, gap.1) + 1;
        self.leaf = gap.0;
        self.slot = gap.1;
    }

    fn seek_lt<L: Ledger>(&mut self, key: &[u8], looks: &mut Looks<L>) {
        let gap = self.pairs.seek(key, looks);
        self.at = self.pairs.place(gap.0, gap.1);
        let front = self.pairs.prev(gap.0, gap.1);
        self.leaf = front.0;
        self.slot = front.1;
    }

    fn next<L: Ledger>(&mut self, looks: &mut Looks<L>) {
        if self.at <= self.pairs.len() {
            looks.tick();
            if self.at > 0 {
                let gap = self.pairs.next(self.leaf, self.slot);
                self.leaf = gap.0;
                self.slot = gap.1;
            }
            self.at += 1;
        }
    }

    fn prev<L: Ledger>(&mut self, looks: &mut Looks<L>) {
        if self.at > 0 {
            looks.tick();
            let gap = self.pairs.prev(self.leaf, self.slot);
            self.leaf = gap.0;
            self.slot = gap.1;
            self.at -= 1;
        }
    }

    fn key(&self) -> Option<&[u8]> {
        if self.at == 0 || self.at > self.pairs.len() {
            return None;
        }
        Some(self.pairs.key(self.leaf, self.slot))
    }

    fn value(&self) -> Option<&[u8]> {
        if self.at == 0 || self.at > self.pairs.len() {
            return None;
        }
        self.pairs.value(self.leaf, self.slot)
    }
}
