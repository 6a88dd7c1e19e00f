ghost use Rattle.std.specs.Prelude.{◌≡◌, ℕ, ◌≤◌, true, false};
ghost use Rattle.flow_io.specs.Flow.{Rose};
ghost use Rattle.flow_io.specs.Held.{unused, is_due, counted, after_call};

use std::marker::Model;

/// Which calls fail, and how many have failed.
#[derive(Drop)]
pub struct FailingCalls {
    fails: Vec<u64>,
    calls: u64,
    faults: u64,
}

impl Model for FailingCalls {
    ghost use Rattle.flow_io.specs.Held.{CallFailures};

    ghost Value = { CallFailures };

    ghost view = { λ a. record { fails = a.fails.items; calls = a.calls; faults = a.faults } };
}

impl FailingCalls {
    pub fn new(fails: Vec<u64>) -> FailingCalls
        ensures { result ≡ unused fails.items }
    {
        FailingCalls {
            fails,
            calls: 0,
            faults: 0,
        }
    }

    /// Whether the next call is one of those that fail.
    pub fn is_due(&self) -> bool
        ensures { result ≡ is_due self.now }
    {
        self.fails.contains(&self.calls)
    }

    /// Counts a call.
    pub fn count(&mut self, failed: bool)
        ensures failing { self.new ≡ after_call self.old failed }
        ensures later { self.old.faults ≤ self.new.faults }
        ensures rose { failed ≡ true → Rose self.old.faults self.new.faults }
        ensures quiet { failed ≡ false → self.new.faults ≡ self.old.faults }
    {
        self.calls = self.calls.saturating_add(1);
        if failed {
            self.faults = self.faults.saturating_add(1);
        }
    }
}
