// The constraints that end at each time-point, linked in the order of their ids.
ghost use Rattle.std.specs.Prelude.{ℕ, ◌≡◌, ◌<◌, ◌≤◌, ◌+◌, ◌++◌, ◌∷◌, [], List, length, IfOk};
ghost use Rattle.std.specs.List.{All};
ghost use Rattle.std.specs.Vec.{vec_len, vec_capacity};
ghost use Rattle.cstn_net.specs.Limits.{most_constraints};
ghost use Rattle.cstn_net.specs.Links.{AreLinked, ends};

use crate::constraints::Constraint;
use cstn_label::NodeId;
use std::alloc::{AllocError, Global};

/// The places of the first and of the last constraint that end at a time-point.
#[derive(Clone, Copy, Debug, PartialEq, Eq)]
pub struct Chain {
    pub first: u16,
    pub last: u16,
}

/// For each time-point the first and the last constraint that end there, and for each constraint the place of the next one
/// that ends where it does.
#[derive(Drop)]
pub struct Links {
    pub chains: Vec<Option<Chain>>,
    pub nexts: Vec<Option<u16>>,
}

impl Links {
    // The links of these constraints, which are between `nodes` time-points.
    pub fn of(alloc: Global, nodes: usize, constraints: &[Constraint]) -> Result<Links, AllocError>
        requires few { length constraints.now ≤ most_constraints }
        requires inside { All (λ c. c.to.0 < nodes) constraints.now }
        ensures linked { IfOk result (λ l. AreLinked (ends constraints.now) l.chains.items l.nexts.items) }
        ensures wide { IfOk result (λ l. length l.chains.items ≡ nodes) }
        ensures room { IfOk result (λ l. vec_capacity l.nexts ≡ length constraints.now) }
    {
        let mut chains = Vec::new(alloc);
        chains.resize(nodes, None)?;
        let nexts = Vec::with_capacity(alloc, constraints.len())?;
        let mut links = Links { chains, nexts };
        links.rebuild(constraints);
        Ok(links)
    }

    // Links these constraints afresh.
    pub fn rebuild(&mut self, constraints: &[Constraint])
        requires few { length constraints.now ≤ most_constraints }
        requires inside { All (λ c. c.to.0 < length self.old.chains.items) constraints.now }
        requires room { length constraints.now ≤ vec_capacity self.old.nexts }
        ensures linked { AreLinked (ends constraints.now) self.new.chains.items self.new.nexts.items }
        ensures wide { length self.new.chains.items ≡ length self.old.chains.items }
        ensures room { vec_capacity self.new.nexts ≡ vec_capacity self.old.nexts }
    {
        self.chains.fill(None);
        self.nexts.clear();
        for c in constraints {
            self.append(c.to);
        }
    }

    // Links one more constraint, which ends at this time-point, behind the last of its chain.
    pub fn append(&mut self, to: NodeId)
        requires few { vec_len self.old.nexts < most_constraints }
        requires room { vec_len self.old.nexts < vec_capacity self.old.nexts }
        requires inside { to.0 < length self.old.chains.items }
        requires linked { (xs : List ℕ) × AreLinked xs self.old.chains.items self.old.nexts.items }
        ensures linked { (xs : List ℕ) → AreLinked xs self.old.chains.items self.old.nexts.items
            → AreLinked (xs ++ to.0 ∷ []) self.new.chains.items self.new.nexts.items }
        ensures wide { length self.new.chains.items ≡ length self.old.chains.items }
        ensures long { vec_len self.new.nexts ≡ vec_len self.old.nexts + 1 }
        ensures room { vec_capacity self.new.nexts ≡ vec_capacity self.old.nexts }
    {
        let place = self.nexts.len() as u16;
        self.nexts.push_reserved(None);
        match self.chains[to.index()] {
            None => {
                self.chains[to.index()] = Some(Chain {
                    first: place,
                    last: place,
                });
            }
            Some(chain) => {
                self.nexts[chain.last as usize] = Some(place);
                self.chains[to.index()] = Some(Chain {
                    first: chain.first,
                    last: place,
                });
            }
        }
    }
}
