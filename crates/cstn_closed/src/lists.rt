ghost use Rattle.std.specs.Prelude.{◌≡◌, ◌<◌, ◌^◌, length};

use cstn_label::Bound;
use std::marker::Model;

/// Evidence for a yes: the load that a check had, and bounds that are meant to be closed for the network. Whether they are,
/// `check` finds out.
#[derive(Debug, Drop)]
pub struct Closed {
    load: u32,
    bounds: Vec<Bound>,
}

impl Model for Closed {
    ghost use Rattle.std.specs.Prelude.{◌<◌, ◌^◌, length};
    ghost use Rattle.cstn_closed.specs.Closed.{ClosedParts};

    ghost Value = { ClosedParts };

    ghost view = { λ c. record { load = c.load; bounds = c.bounds.items } };

    ghost invariant = { λ c. length c.bounds.items < 2 ^ 32 };
}

impl Closed {
    /// The list of this load and these bounds, fewer than 2^32, in their order.
    pub fn new(load: u32, bounds: Vec<Bound>) -> Closed
        requires few { length bounds.items < 2 ^ 32 }
        ensures new { result ≡ record { load = load; bounds = bounds.items } }
    {
        Closed { load, bounds }
    }

    /// The load that the check had.
    pub fn load(&self) -> u32
        ensures load { result ≡ self.now.load }
    {
        self.load
    }

    /// The bounds, at places from 0.
    pub fn bounds(&self) -> &[Bound]
        ensures bounds { result.now ≡ self.now.bounds }
        ensures few { length result.now < 2 ^ 32 }
    {
        &self.bounds
    }

    /// The bounds alone.
    pub fn into_bounds(self) -> Vec<Bound>
        ensures bounds { result.items ≡ self.bounds }
        ensures few { length result.items < 2 ^ 32 }
    {
        self.bounds
    }
}
