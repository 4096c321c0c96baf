//! A sink over memory, whose faults come where a list says and where there is no room.
ghost use Rattle.std.specs.Prelude.{◌≡◌, ◌<◌, [], length, is_some, IfOk, OnErr, Some};
ghost use Rattle.std.specs.Io.{WritesAtMost};
ghost use Rattle.std.specs.Io.KnownBytes.{WriteAppends};
ghost use Rattle.io_edge.specs.Causes.{HasCause};
ghost use Rattle.io_edge.specs.Memory.{TakesExactly, taking, write_fails, after_write, after_failed_write};

use crate::plan::FaultPlan;
use crate::traits::{Failed, Sink};
use mvcc_key::OutOfMemory;
use std::alloc::Global;
use std::marker::Model;

/// Room for bytes in memory, filled in pieces, with a fault at each call whose number is listed and at each write that
/// finds no room.
///
/// Calls are counted from 0, and those of an empty piece are not. Contracts see the bytes held, how many it holds at most,
/// the size of a piece, the list, the number of the next call, and the count of faults.
#[derive(Debug, Drop)]
pub struct MemSink {
    taken: Vec<u8>,
    room: usize,
    piece: usize,
    plan: FaultPlan,
}

impl Model for MemSink {
    ghost use Rattle.std.specs.Prelude.{◌≤◌, vec_len, vec_capacity};
    ghost use Rattle.io_edge.specs.Memory.{SinkState};

    ghost Value = { SinkState };

    ghost view = { λ s. record {
      held = s.taken.items;
      room = s.room;
      piece = s.piece;
      failing = s.plan.failing.items;
      calls = s.plan.calls;
      faults = s.plan.faults;
    } };

    ghost invariant = { λ s. (s.room ≤ vec_capacity s.taken) × (vec_len s.taken ≤ s.room) };
}

impl MemSink {
    /// An empty sink with room for `room` bytes, which takes at most `piece` of them a write, and whose calls with the
    /// numbers in `failing` fail. All its memory is taken here. With `piece` 0 each write of a piece that is not empty fails.
    pub fn new(
        alloc: Global,
        room: usize,
        piece: usize,
        failing: Vec<u64>,
    ) -> Result<MemSink, OutOfMemory>
        ensures { IfOk result (λ s. s ≡ record {
          held = [];
          room = room;
          piece = piece;
          failing = failing.items;
          calls = 0;
          faults = 0;
        }) }
    {
        Ok(MemSink {
            taken: Vec::with_capacity(alloc, room)?,
            room,
            piece,
            plan: FaultPlan::new(failing),
        })
    }

    /// What it took, from the first byte on.
    pub fn bytes(&self) -> &[u8]
        ensures { result.now ≡ self.now.held }
    {
        self.taken.as_slice()
    }
}

impl Sink for MemSink {
    ghost held = { λ s. Some s.held };

    ghost faults = { λ s. s.faults };

    fn write(&mut self, piece: &[u8]) -> Result<usize, Failed>
        ensures bound { WritesAtMost result piece.now }
        ensures some { IfOk result (λ n. 0 < length piece.now → 0 < n) }
        ensures bytes { WriteAppends (Some self.old.held) (Some self.new.held) result piece.now }
        ensures told { is_some (Some self.new.held) ≡ is_some (Some self.old.held) }
        ensures cause { HasCause self.old.faults self.new.faults result }

        // which call fails, what the others take, and what stands then in the sink
        ensures exact { TakesExactly (taking self.old (length piece.now))
            (write_fails self.old (length piece.now)) result }
        ensures ok { IfOk result (λ n. self.new ≡ after_write self.old piece.now n) }
        ensures err { OnErr result (self.new ≡ after_failed_write self.old piece.now) }
    {
        if piece.is_empty() {
            return Ok(0);
        }
        let is_listed = self.plan.begin_call();
        let room_left = self.room - self.taken.len();
        let count = self.piece.min(piece.len()).min(room_left);
        if is_listed || count == 0 {
            self.plan.count_fault();
            return Err(Failed);
        }
        self.taken
            .extend_from_slice(piece.split_at(count).0)
            .unwrap();
        Ok(count)
    }
}
