ghost use Rattle.std.specs.Prelude.{◌≡◌};

use std::marker::Model;

/// Ids of constraints.
#[derive(Debug, Drop)]
pub struct Ids {
    ids: Vec<u32>,
}

impl Model for Ids {
    ghost use Rattle.std.specs.Prelude.{ℕ, List};

    ghost Value = { List ℕ };

    ghost view = { λ i. i.ids.items };
}

impl Ids {
    /// The ids of a vector, in its order.
    pub(crate) fn of(ids: Vec<u32>) -> Ids
        ensures ids { result ≡ ids.items }
    {
        Ids { ids }
    }

    /// The ids, in order.
    pub fn as_slice(&self) -> &[u32]
        ensures ids { result.now ≡ self.now }
    {
        &self.ids
    }
}
