//! Which calls of a source or a sink over memory fail.
ghost use Rattle.std.specs.Prelude.{◌≡◌, ◌≤◌, ◌+◌, ◌-◌, ◌^◌, min};
ghost use Rattle.io_edge.specs.Causes.{one_more_fault};
ghost use Rattle.io_edge.specs.Memory.{is_listed};

/// The numbers of the calls that are to fail, counted from 0, and how many calls and how many faults there were.
#[derive(Debug, Drop)]
pub(crate) struct FaultPlan {
    failing: Vec<u64>,
    /// Wider than the numbers listed, so that no number is met twice.
    calls: u128,
    faults: u64,
}

impl FaultPlan {
    pub(crate) fn new(failing: Vec<u64>) -> FaultPlan
        ensures { result ≡ record { failing = failing; calls = 0; faults = 0 } }
    {
        FaultPlan {
            failing,
            calls: 0,
            faults: 0,
        }
    }

    /// Counts a call, and tells whether its number is listed.
    pub(crate) fn begin_call(&mut self) -> bool
        ensures listed { result ≡ is_listed self.old.failing.items self.old.calls }
        ensures counted { self.new ≡ record self.old {
          calls = min (self.old.calls + 1) (2 ^ 128 - 1);
        } }
    {
        let call = self.calls;
        self.calls = call.saturating_add(1);
        self.failing
            .iter()
            .any(|&number| u128::from(number) == call)
    }

    /// Counts a fault.
    pub(crate) fn count_fault(&mut self)
        ensures counted { self.new ≡ record self.old { faults = one_more_fault self.old.faults } }
        ensures later { self.old.faults ≤ self.new.faults }
    {
        self.faults = self.faults.saturating_add(1);
    }
}
