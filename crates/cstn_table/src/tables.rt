ghost use Rattle.std.specs.Prelude.{◌≡◌, ◌<◌, ◌≤◌, ◌*◌, ◌^◌, length};
ghost use Rattle.cstn_label.specs.Read.{the_scenario};
ghost use Rattle.cstn_table.specs.Read.{the_table};

use crate::rows::{place, row_of};
use cstn_label::{NodeId, Prop, Scenario};
use std::marker::Model;

/// A moment for each time-point in each scenario of the observed propositions.
#[derive(Drop)]
pub struct Table {
    props: Vec<Prop>,
    points: u16,
    moments: Vec<u32>,
}

impl Model for Table {
    ghost use Rattle.std.specs.Prelude.{◌≡◌, ◌≤◌, ◌*◌, ◌^◌, length};
    ghost use Rattle.cstn_table.specs.Read.{TableParts};

    ghost Value = { TableParts };

    ghost view = { λ t. record { props = t.props.items; points = t.points; moments = t.moments.items } };

    ghost invariant = { λ t. (length t.props.items ≤ 8) × (length t.moments.items ≡ 2 ^ length t.props.items * t.points) };
}

impl Table {
    pub(crate) fn new(props: Vec<Prop>, points: u16, moments: Vec<u32>) -> Table
        requires few { length props.items ≤ 8 }
        requires sized { length moments.items ≡ 2 ^ length props.items * points }
        ensures { result ≡ record { props = props.items; points = points; moments = moments.items } }
    {
        Table {
            props,
            points,
            moments,
        }
    }

    /// The moment of a time-point in a scenario, in ticks. Only the values of the observed propositions matter.
    pub fn moment(&self, s: Scenario, x: NodeId) -> u32
        requires { x.0 < self.now.points }
        ensures moment { result ≡ the_table self.now (the_scenario s) x.0 }
    {
        self.moments[place(self.points, row_of(&self.props, s), x)]
    }
}
