use std::marker::Model;

/// Numbers the calls of a source or a sink from 0, and fails those that it was told to.
#[derive(Debug, Drop)]
pub(crate) struct NumberedCalls {
    fails: Vec<u64>,
    next: u64,
    faults: u64,
}

impl Model for NumberedCalls {
    ghost use Rattle.ctm_ports.specs.Calls.{Calls};

    ghost Value = { Calls };

    ghost view = { λ c. record { fails = c.fails.items; next = c.next; faults = c.faults } };
}

impl NumberedCalls {
    ghost use Rattle.std.specs.Prelude.{◌≡◌, ◌≤◌};
    ghost use Rattle.ctm_ports.specs.Calls.{no_calls, next_fails, after_call};

    pub(crate) fn new(fails: Vec<u64>) -> NumberedCalls
        ensures { result ≡ no_calls fails.items }
    {
        NumberedCalls {
            fails,
            next: 0,
            faults: 0,
        }
    }

    /// Counts one more call, and tells whether it fails.
    pub(crate) fn next_fails(&mut self) -> bool
        ensures fails { result ≡ next_fails self.old }
        ensures counted { self.new ≡ after_call self.old }
        ensures never_falls { self.old.faults ≤ self.new.faults }
    {
        let fails = self.fails.contains(&self.next);
        self.next = self.next.saturating_add(1);
        if fails {
            self.faults = self.faults.saturating_add(1);
        }
        fails
    }
}
