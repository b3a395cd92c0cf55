//! The observers of propositions.

ghost use Rattle.std.specs.Prelude.{◌≡◌, ◌<◌, ◌+◌, ◌^◌, IfOk, None, option_map, slice_index_or, length, replicate};
ghost use Rattle.cstn_graphml.specs.Document.{or_nothing};
ghost use Rattle.cstn_graphml.specs.DrawnGraphSeen.{observed_seen};
ghost use Rattle.cstn_sentences.specs.Observers.{with_observer};
ghost use Rattle.cstn_sentences.specs.SeenDeclared.{the_declared};
ghost use Rattle.cstn_sentences.specs.SeenMeaning.{Knows};

use crate::declarations::Declared;
use cstn_graphml::Observation;
use cstn_label::Prop;
use std::alloc::{AllocError, Global};
use std::marker::Model;

/// The first time-point that observes each proposition, with its reaction, by the number of the proposition.
#[derive(Drop)]
pub struct Observers {
    table: Vec<Option<(u32, u32)>>,
}

/// What the origin observes: nothing where its step wasn't read.
fn at_origin(origin: Option<Option<Observation>>) -> Option<Observation>
    ensures { observed_seen result ≡ or_nothing (option_map observed_seen origin) }
{
    match origin {
        Some(observed) => observed,
        None => None,
    }
}

impl Model for Observers {
    ghost use Rattle.std.specs.Prelude.{◌≡◌, ℕ, List, Option, length};

    ghost Value = { List (Option (ℕ × ℕ)) };

    ghost view = { λ o. o.table.items };

    ghost invariant = { λ o. length o.table.items ≡ 52 };
}

impl Observers {
    /// The first time-point that observes the proposition, and its reaction.
    pub fn first(&self, p: Prop) -> Option<(u32, u32)>
        ensures { result ≡ slice_index_or self.now p.index None }
    {
        self.table[p.index as usize]
    }

    // No observers.
    fn none(alloc: Global) -> Result<Observers, AllocError>
        ensures { IfOk result (λ o. o ≡ replicate 52 None) }
    {
        Ok(Observers {
            table: vec![in alloc; None; 52]?,
        })
    }

    // Puts in what a time-point observes, unless an earlier one does.
    fn put(&mut self, x: u32, observed: Option<Observation>)
        ensures { self.new ≡ with_observer x (observed_seen observed) self.old }
    {
        let Some(o) = observed else {
            return;
        };
        let place = o.prop.index as usize;
        let None = self.table[place] else {
            return;
        };
        self.table[place] = Some((x, o.reaction));
    }

    /// The observers of what is declared. Fails where memory is refused, or where there are 2^32 - 1 names.
    pub fn new(alloc: Global, d: &Declared) -> Result<Observers, AllocError>
        requires { length (the_declared d.now).names ≡ length (the_declared d.now).observes + 1 }
        ensures { IfOk result (λ o. Knows (the_declared d.now) o) }
    {
        if d.names.count() == u32::MAX {
            return Err(AllocError);
        }
        let mut observers = Observers::none(alloc)?;
        observers.put(0, at_origin(d.origin));
        let mut x = 1;
        let mut left = d.observes.as_slice();
        while let Some((observed, rest)) = left.split_first() {
            observers.put(x, *observed);
            x += 1;
            left = rest;
        }
        Ok(observers)
    }
}
