ghost use Rattle.std.specs.Prelude.{◌≡◌};
ghost use Rattle.cstn_refute.specs.Refutations.{AreSteps};

use cstn_rules::Entry;
use std::marker::Model;

/// What a check hands out after a no: its load, and steps that are to refute the network. The value alone doesn't say that they
/// do; a replay decides it.
#[derive(Debug, Drop)]
pub struct Refutation {
    load: u32,
    steps: Vec<Entry>,
}

impl Model for Refutation {
    ghost use Rattle.cstn_refute.specs.Refutations.{RefutationParts, AreSteps};

    ghost Value = { RefutationParts };

    ghost view = { λ r. record { load = r.load; steps = r.steps.items } };

    ghost invariant = { λ r. AreSteps r.steps.items };
}

impl Refutation {
    /// The refutation of a load and of 1 to 4,294,967,295 steps, each with a least value from 0 to 1,000,001.
    pub fn new(load: u32, steps: Vec<Entry>) -> Refutation
        requires steps { AreSteps steps.items }
        ensures load { result.load ≡ load }
        ensures steps { result.steps ≡ steps.items }
    {
        Refutation { load, steps }
    }

    /// The load that the check had.
    pub fn load(&self) -> u32
        ensures load { result ≡ self.now.load }
    {
        self.load
    }

    /// The steps, at places from 0.
    pub fn steps(&self) -> &[Entry]
        ensures steps { result.now ≡ self.now.steps }
        ensures form { AreSteps result.now }
    {
        &self.steps
    }
}
