ghost use Rattle.std.specs.Prelude.{◌≡◌, bit_and};

use crate::words::{MEANT, has_bit, with_bit};
use crate::{Prop, Scenario};

/// The propositions that are known, and those of them that are known true. Bits above 51 mean nothing, and `==` passes
/// over them.
#[derive(Clone, Copy, Debug)]
pub struct Known {
    pub seen: u64,
    pub bits: u64,
    pub ghost among_seen: { bit_and bits seen ≡ bits },
}

impl Known {
    ghost use Rattle.std.specs.Prelude.{ℕ, ◌≡◌, ◌==◌, true, cond, Option, Some, None, if◌then◌else◌, bit_and};
    ghost use Rattle.cstn_label.specs.Read.{the_scenario, the_values, known_value};
    ghost use Rattle.cstn_label.specs.Words.{has_bit};

    /// The value in which no proposition is known.
    pub fn nothing() -> Known
        ensures seen { result.seen ≡ 0 }
        ensures known { (q : ℕ) → known_value result q ≡ None }
    {
        Known { seen: 0, bits: 0 }
    }

    /// The value in which the propositions of `seen` are known, with their values in the scenario. Bit p of `seen` stands for
    /// the proposition p.
    pub fn of(seen: u64, scenario: Scenario) -> Known
        ensures seen { result.seen ≡ seen }
        ensures values { result.bits ≡ bit_and scenario.bits seen }
        ensures known { (q : ℕ) → known_value result q ≡ (if has_bit seen q then Some (the_scenario scenario q) else None) }
    {
        Known {
            seen,
            bits: scenario.bits & seen,
        }
    }

    /// What is known here, but p is known and has this value.
    pub fn with(self, p: Prop, value: bool) -> Known
        ensures seen { (q : ℕ) → has_bit result.seen q ≡ cond (q == p.index) true (has_bit self.seen q) }
        ensures values { (q : ℕ) → the_values result q ≡ cond (q == p.index) value (the_values self q) }
        ensures known { (q : ℕ) → known_value result q ≡ cond (q == p.index) (Some value) (known_value self q) }
    {
        Known {
            seen: with_bit(self.seen, p.index, true),
            bits: with_bit(self.bits, p.index, value),
        }
    }

    /// The value of p; none where p isn't known.
    pub fn value(self, p: Prop) -> Option<bool>
        ensures value { result ≡ known_value self p.index }
    {
        if has_bit(self.seen, p.index) {
            Some(has_bit(self.bits, p.index))
        } else {
            None
        }
    }
}

impl PartialEq for Known {
    ghost use Rattle.std.proofs.Common.{rules};
    ghost use Rattle.std.specs.Cmp.Rules.{comparing};
    ghost use Rattle.cstn_label.specs.Read.{same_known};

    ghost eq = { same_known };

    ghost laws = { Prim.search (comparing, rules) };

    fn eq(&self, other: &Known) -> bool {
        self.seen & MEANT == other.seen & MEANT && self.bits & MEANT == other.bits & MEANT
    }
}

impl Eq for Known {
    ghost use Rattle.std.proofs.Common.{rules};
    ghost use Rattle.std.specs.Cmp.Rules.{comparing};

    ghost laws = { Prim.search (comparing, rules) };
}
