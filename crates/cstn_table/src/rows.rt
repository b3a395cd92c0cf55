// The rows of a table, and the scenarios that they stand for.
ghost use Rattle.std.specs.Prelude.{◌≡◌, ◌<◌, ◌≤◌, ◌+◌, ◌*◌, ◌^◌, length, IfOk};
ghost use Rattle.cstn_label.specs.Read.{the_scenario};
ghost use Rattle.cstn_net.specs.Read.{the_network};
ghost use Rattle.cstn_table.specs.Tables.{observed_props, row_of, scenario_of};
ghost use Rattle.cstn_table.specs.Read.{numbers};

use cstn_label::{NodeId, Prop, Scenario};
use cstn_net::Network;
use std::alloc::{AllocError, Global};

// How many propositions are observed.
pub fn count_props(net: &Network) -> usize
    ensures { result ≡ length (observed_props (the_network net.now).observes) }
{
    let mut observed = 0;
    for x in 0..net.count() {
        if net.observes(NodeId(x)).is_some() {
            observed += 1;
        }
    }
    observed
}

// The observed propositions, in the order of their observers.
pub fn props_of(alloc: Global, net: &Network) -> Result<Vec<Prop>, AllocError>
    ensures { IfOk result (λ v. numbers v.items ≡ observed_props (the_network net.now).observes) }
{
    let mut props = Vec::new(alloc);
    for x in 0..net.count() {
        if let Some(p) = net.observes(NodeId(x)) {
            props.push(p)?;
        }
    }
    Ok(props)
}

// How many rows a table of these propositions has: 2 to the power of their number.
pub fn rows_of(props: &[Prop]) -> usize
    requires few { length props.now ≤ 8 }
    ensures rows { result ≡ 2 ^ length props.now }
    ensures few { result ≤ 256 }
{
    match props {
        [] => 1,
        [_, rest @ ..] => 2 * rows_of(rest),
    }
}

// The row of a scenario, by the values that it gives these propositions.
pub fn row_of(props: &[Prop], s: Scenario) -> usize
    requires few { length props.now ≤ 8 }
    ensures row { result ≡ row_of (numbers props.now) (the_scenario s) }
    ensures below { result < 2 ^ length props.now }
{
    match props {
        [] => 0,
        [p, rest @ ..] => 2 * row_of(rest, s) + s.is_true(*p) as usize,
    }
}

// The scenario of a row, in which no proposition but these is true.
pub fn scenario_of(props: &[Prop], row: usize) -> Scenario
    ensures { the_scenario result ≡ scenario_of (numbers props.now) row }
{
    match props {
        [] => Scenario { bits: 0 },
        [p, rest @ ..] => scenario_of(rest, row / 2).with(*p, row % 2 == 1),
    }
}

// The place of a time-point's moment in the list of all rows, each of which has `points` moments.
pub fn place(points: u16, row: usize, x: NodeId) -> usize
    requires row { row < 256 }
    requires x { x.0 < points }
    ensures { result ≡ row * points + x.0 }
{
    row * points as usize + x.index()
}
