// The calls of a form in memory, some of which are to fail.
ghost use Rattle.std.specs.Prelude.{◌≡◌, ◌≤◌};
ghost use Rattle.cstn_io.specs.Calls.{CallsState, is_to_fail, accepted, failed};

use std::marker::Model;

#[derive(Drop)]
pub(crate) struct Calls {
    failing: Vec<u64>,
    made: u64,
    faults: u64,
}

impl Model for Calls {
    ghost use Rattle.cstn_io.specs.Calls.{CallsState};

    ghost Value = { CallsState };

    ghost view = { λ c. record { failing = c.failing.items; made = c.made; faults = c.faults } };
}

impl Calls {
    pub(crate) fn new(failing: Vec<u64>) -> Calls
        ensures { result ≡ record { failing = failing.items; made = 0; faults = 0 } }
    {
        Calls {
            failing,
            made: 0,
            faults: 0,
        }
    }

    /// Whether the next call is to fail.
    pub(crate) fn is_to_fail(&self) -> bool
        ensures { result ≡ is_to_fail self.now }
    {
        self.failing.contains(&self.made)
    }

    /// Counts a call that is accepted.
    pub(crate) fn accept(&mut self)
        ensures { self.new ≡ accepted self.old }
    {
        self.made = self.made.saturating_add(1);
    }

    /// Counts a call that fails.
    pub(crate) fn fail(&mut self)
        ensures state { self.new ≡ failed self.old }
        ensures later { self.old.faults ≤ self.new.faults }
    {
        self.made = self.made.saturating_add(1);
        self.faults = self.faults.saturating_add(1);
    }
}
