//! A source over memory, whose faults come where a list says.
ghost use Rattle.std.specs.Prelude.{◌≡◌, ◌≤◌, ◌++◌, length, take, drop, is_some, IfOk, OnErr, MatchResult, Some};
ghost use Rattle.std.specs.Io.{ReadsAtMost};
ghost use Rattle.std.specs.Io.KnownBytes.{ReadConsumes};
ghost use Rattle.io_edge.specs.Causes.{HasCause};
ghost use Rattle.io_edge.specs.Memory.{TakesExactly, giving, read_fails, after_read, after_failed_read};

use crate::plan::FaultPlan;
use crate::sure::SureSource;
use crate::traits::{Failed, Source};
use std::marker::Model;

/// Bytes in memory, given in pieces, with a fault at each call whose number is listed.
///
/// Calls are counted from 0, and those into an empty buffer are not. Contracts see the bytes left, the size of a piece, the
/// list, the number of the next call, and the count of faults.
#[derive(Debug, Drop)]
pub struct MemSource {
    inner: SureSource,
    plan: FaultPlan,
}

impl Model for MemSource {
    ghost use Rattle.io_edge.specs.Memory.{SourceState};

    ghost Value = { SourceState };

    ghost view = { λ s. record {
      left = s.inner.left;
      piece = s.inner.piece;
      failing = s.plan.failing.items;
      calls = s.plan.calls;
      faults = s.plan.faults;
    } };
}

impl MemSource {
    /// A source that gives these bytes, at most `piece` of them a read, and whose calls with the numbers in `failing` fail.
    pub fn new(bytes: Vec<u8>, piece: usize, failing: Vec<u64>) -> MemSource
        requires { 1 ≤ piece }
        ensures { result ≡ record {
          left = bytes.items;
          piece = piece;
          failing = failing.items;
          calls = 0;
          faults = 0;
        } }
    {
        MemSource {
            inner: SureSource::new(bytes, piece),
            plan: FaultPlan::new(failing),
        }
    }
}

impl Source for MemSource {
    ghost left = { λ s. Some s.left };

    ghost faults = { λ s. s.faults };

    fn read(&mut self, into: &mut [u8]) -> Result<usize, Failed>
        ensures bound { ReadsAtMost result into.new }
        ensures bytes { ReadConsumes (Some self.old.left) (Some self.new.left) result into.new }
        ensures told { is_some (Some self.new.left) ≡ is_some (Some self.old.left) }
        ensures cause { HasCause self.old.faults self.new.faults result }

        // which call fails, what the others give, and then the buffer and the source
        ensures exact { TakesExactly (giving self.old.left self.old.piece (length into.old))
            (read_fails self.old (length into.old)) result }
        ensures into { MatchResult result
            (λ n. into.new ≡ take n self.old.left ++ drop n into.old)
            (λ _. into.new ≡ into.old) }
        ensures ok { IfOk result (λ n. self.new ≡ after_read self.old (length into.old) n) }
        ensures err { OnErr result (self.new ≡ after_failed_read self.old (length into.old)) }
    {
        if into.is_empty() {
            return Ok(0);
        }
        if self.plan.begin_call() {
            self.plan.count_fault();
            return Err(Failed);
        }
        self.inner.read(into)
    }
}
