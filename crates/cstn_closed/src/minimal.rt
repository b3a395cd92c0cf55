// The bounds of a list that no other bound of it dominates.
ghost use Rattle.std.specs.Prelude.{◌≡◌, ◌<◌, ◌↔◌, ◌⊎◌, [], length, map, IsTrue, IfOk, OnOk};
ghost use Rattle.cstn_label.specs.Bounds.{Bound as TheBound, Dominates};
ghost use Rattle.cstn_label.specs.Read.{the_bound};
ghost use Rattle.cstn_rules.specs.Closed.{IsCovered};
ghost use Rattle.cstn_closed.specs.Minimal.{kept_bounds_at, AreKept, IsPut, CoversToo};

use cstn_label::Bound;
use std::alloc::{AllocError, Global};

// For each time-point the bounds that are kept at it, of which none dominates another.
#[derive(Debug, Drop)]
pub(crate) struct Minimal {
    pub lists: Vec<Vec<Bound>>,
}

impl Minimal {
    // No bound, at the time-points below `width`.
    pub fn none(alloc: Global, width: usize) -> Result<Minimal, AllocError>
        ensures width { IfOk result (λ m. length m.lists.items ≡ width) }
        ensures none { IfOk result (λ m. AreKept [] m.lists.items) }
    {
        let mut lists = Vec::with_capacity(alloc, width)?;
        for _ in 0..width {
            lists.push(Vec::new(alloc))?;
        }
        Ok(Minimal { lists })
    }

    // Whether some kept bound dominates r. Of those at its time-point the one at the place `hint` is tried first, which then is
    // the place where one was found.
    pub fn covers(&self, r: &Bound, hint: &mut usize) -> bool
        ensures covers { IsTrue result ↔ IsCovered (kept_bounds_at self.now.lists.items r.now.node.0) (the_bound r.now) }
    {
        match self.lists.get(r.node.index()) {
            Some(list) => covers(list, r, hint),
            None => false,
        }
    }

    // Keeps b, and drops what b dominates.
    pub fn put(&mut self, b: &Bound) -> Result<(), AllocError>
        requires inside { b.now.node.0 < length self.old.lists.items }
        ensures width { length self.new.lists.items ≡ length self.old.lists.items }
        ensures put { OnOk result (IsPut (the_bound b.now) self.old.lists.items self.new.lists.items) }
    {
        put_in(&mut self.lists[b.node.index()], b)
    }
}

// Whether some bound of the list dominates r. The bound at the place `hint` is tried first; then `hint` is where one was found.
fn covers(list: &[Bound], r: &Bound, hint: &mut usize) -> bool
    ensures covers { IsTrue result ↔ IsCovered (map the_bound list.now) (the_bound r.now) }
{
    if is_over(list, *hint, r) {
        return true;
    }
    for (place, kept) in list.iter().enumerate() {
        if kept.dominates(r) {
            *hint = place;
            return true;
        }
    }
    false
}

// Whether there is a bound at the place, and it dominates r.
fn is_over(list: &[Bound], place: usize, r: &Bound) -> bool
    ensures over { IsTrue result → IsCovered (map the_bound list.now) (the_bound r.now) }
{
    match list.get(place) {
        Some(kept) => kept.dominates(r),
        None => false,
    }
}

// Puts b at the end of the list, and drops what b dominates.
fn put_in(list: &mut Vec<Bound>, b: &Bound) -> Result<(), AllocError>
    ensures put { OnOk result (CoversToo (the_bound b.now) (map the_bound list.old.items) (map the_bound list.new.items)) }
{
    list.retain(|kept| !b.dominates(kept));
    list.push(*b)?;
    Ok(())
}
