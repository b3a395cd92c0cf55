use crate::Prop;
use crate::words::{MEANT, has_bit, with_bit};

/// The propositions that are true. Bit p stands for the proposition p; bits above 51 mean nothing, and `==` passes over
/// them.
#[derive(Clone, Copy, Debug)]
pub struct Scenario {
    pub bits: u64,
}

impl Scenario {
    ghost use Rattle.std.specs.Prelude.{ℕ, ◌≡◌, ◌<◌, ◌==◌, cond, ◌^◌};
    ghost use Rattle.cstn_label.specs.Read.{the_scenario};

    /// Whether p is true.
    pub fn is_true(self, p: Prop) -> bool
        ensures value { result ≡ the_scenario self p.index }
    {
        has_bit(self.bits, p.index)
    }

    /// The scenario in which p has this value, and all else is as here.
    pub fn with(self, p: Prop, value: bool) -> Scenario
        ensures with { (q : ℕ) → the_scenario result q ≡ cond (q == p.index) value (the_scenario self q) }
    {
        Scenario {
            bits: with_bit(self.bits, p.index, value),
        }
    }
}

impl PartialEq for Scenario {
    ghost use Rattle.std.proofs.Common.{rules};
    ghost use Rattle.std.specs.Cmp.Rules.{comparing};
    ghost use Rattle.cstn_label.specs.Read.{same_scenario};

    ghost eq = { same_scenario };

    ghost laws = { Prim.search (comparing, rules) };

    fn eq(&self, other: &Scenario) -> bool {
        self.bits & MEANT == other.bits & MEANT
    }
}

impl Eq for Scenario {
    ghost use Rattle.std.proofs.Common.{rules};
    ghost use Rattle.std.specs.Cmp.Rules.{comparing};

    ghost laws = { Prim.search (comparing, rules) };
}
