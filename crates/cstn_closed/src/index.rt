// What the check of a list of bounds looks up.
ghost use Rattle.std.specs.Prelude.{◌≡◌, ◌<◌, ◌^◌, ◌↔◌, [], length, map, slice_get, IsTrue, IfOk, Some};
ghost use Rattle.std.specs.List.{All};
ghost use Rattle.cstn_label.specs.Read.{the_bound};
ghost use Rattle.cstn_rules.specs.Closed.{IsCovered};
ghost use Rattle.cstn_closed.specs.Closed.{the_listed_bounds};
ghost use Rattle.cstn_closed.specs.Marking.{marking};
ghost use Rattle.cstn_closed.specs.Minimal.{AreFresh, AreKept};

use crate::lists::Closed;
use crate::marks::Marking;
use crate::minimal::Minimal;
use cstn_label::{Bound, Prop};
use std::alloc::{AllocError, Global};
use std::marker::Model;

/// A list of bounds, made ready for its check: with the bounds that no other dominates by their time-points, the places of those
/// that no earlier one dominates, and the places of those that mark a proposition.
#[derive(Debug, Drop)]
pub struct Indexed {
    closed: Closed,
    minimal: Minimal,
    fresh: Vec<u32>,
    marking: Marking,
}

impl Model for Indexed {
    ghost use Rattle.cstn_closed.specs.Closed.{ClosedParts, IsIndexed};

    ghost Value = { ClosedParts };

    ghost view = { λ i. i.closed };

    ghost invariant = { λ i. IsIndexed i.closed.bounds i.minimal.lists.items i.fresh.items i.marking.lists.items };
}

impl Indexed {
    /// The list with what its check looks up. This takes time by the square of the list at most, and less where few bounds of a
    /// time-point are not dominated by another. Fails where memory is refused.
    pub fn of(alloc: Global, closed: Closed) -> Result<Indexed, AllocError>
        ensures of { IfOk result (λ i. i ≡ closed) }
    {
        let bounds = closed.bounds();
        let mut minimal = Minimal::none(alloc, width(bounds))?;
        let fresh = keep(alloc, &mut minimal, bounds)?;
        let marking = Marking::of(alloc, bounds)?;
        Ok(Indexed {
            closed,
            minimal,
            fresh,
            marking,
        })
    }

    /// Whether some bound of the list dominates r. Only those at the time-point of r are looked at that no other dominates.
    pub fn covers(&self, r: &Bound) -> bool
        ensures covers { IsTrue result ↔ IsCovered (the_listed_bounds self.now) (the_bound r.now) }
    {
        self.covers_near(r, &mut 0)
    }

    // The same. Of the bounds at the time-point of r the one that `hint` tells is tried first; then it tells where one was found.
    pub(crate) fn covers_near(&self, r: &Bound, hint: &mut usize) -> bool
        ensures covers { IsTrue result ↔ IsCovered (the_listed_bounds self.now) (the_bound r.now) }
    {
        self.minimal.covers(r, hint)
    }

    /// The list alone.
    pub fn into_closed(self) -> Closed
        ensures closed { result ≡ self }
    {
        self.closed
    }

    // How many bounds there are.
    pub(crate) fn count(&self) -> u32
        ensures count { result ≡ length self.now.bounds }
    {
        self.closed.bounds().len() as u32
    }

    // The bound at a place.
    pub(crate) fn bound(&self, k: u32) -> Bound
        requires { k < length self.now.bounds }
        ensures bound { slice_get self.now.bounds k ≡ Some result }
    {
        self.closed.bounds()[k as usize]
    }

    // The places of the bounds that no earlier one dominates, in ascending order.
    pub(crate) fn fresh(&self) -> &[u32]
        ensures fresh { AreFresh (the_listed_bounds self.now) result.now }
    {
        self.fresh.as_slice()
    }

    // The places of the bounds that mark p, in ascending order.
    pub(crate) fn marking(&self, p: Prop) -> &[u32]
        ensures marking { result.now ≡ marking p.index (the_listed_bounds self.now) }
    {
        self.marking.lists[p.index as usize].as_slice()
    }
}

// Keeps the bounds one after the other, but for those that an earlier one dominates. The places of the others are the answer.
fn keep(alloc: Global, minimal: &mut Minimal, bounds: &[Bound]) -> Result<Vec<u32>, AllocError>
    requires few { length bounds.now < 2 ^ 32 }
    requires wide { All (λ b. b.node.0 < length minimal.old.lists.items) bounds.now }
    requires none { AreKept [] minimal.old.lists.items }
    ensures kept { IfOk result (λ fresh. AreKept (map the_bound bounds.now) minimal.new.lists.items) }
    ensures fresh { IfOk result (λ fresh. AreFresh (map the_bound bounds.now) fresh.items) }
{
    let mut fresh = Vec::new(alloc);
    for (place, b) in bounds.iter().enumerate() {
        if !minimal.covers(b, &mut 0) {
            minimal.put(b)?;
            fresh.push(place as u32)?;
        }
    }
    Ok(fresh)
}

// One more than the highest number of a bound's time-point; 0 where there is no bound.
fn width(bounds: &[Bound]) -> usize
    ensures width { All (λ b. b.node.0 < result) bounds.now }
{
    let mut width = 0;
    for b in bounds {
        width = width.max(b.node.0 as usize + 1);
    }
    width
}
