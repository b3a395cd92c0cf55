//! The network of a graph.

ghost use Rattle.std.specs.Prelude.{◌≡◌, ◌<◌, ◌+◌, ◌-◌, ◌^◌, ◌++◌, ◌∷◌, [], length, OnOk, IfOk, IfErr, All};
ghost use Rattle.cstn_net.specs.Drafts.{with_draft, IsNetRefusal};
ghost use Rattle.cstn_net.specs.Networks.{IsWellFormed};
ghost use Rattle.cstn_net.specs.Read.{the_network};
ghost use Rattle.cstn_graphml.specs.DrawnGraphSeen.{graph_seen};
ghost use Rattle.cstn_graphml.specs.DrawnGraphLaws.{IsDrawnGraph};
ghost use Rattle.cstn_graphml.specs.Networks.{point_of, with_points, with_drafts, draft_of, builder_of, IsBuilt};

use crate::drawn_graph::{DrawnConstraint, DrawnGraph, Observation};
use cstn_net::{Builder, NetError, Network};
use std::alloc::{AllocError, Global};

/// Hands the builder a time-point, with its reaction where it observes something.
fn put_point(builder: &mut Builder, observed: Option<Observation>) -> Result<(), AllocError>
    requires { length builder.old.points < 2 ^ 32 - 1 }
    ensures { OnOk result (builder.new ≡ record builder.old { points = builder.old.points ++ point_of observed ∷ [] }) }
{
    match observed {
        Some(observation) => {
            let number = builder.node(Some(observation.prop))?;
            builder.react(number, observation.reaction);
            Ok(())
        }
        None => {
            builder.node(None)?;
            Ok(())
        }
    }
}

/// Hands the builder these time-points in their order.
fn put_points(builder: &mut Builder, observes: &[Option<Observation>]) -> Result<(), AllocError>
    requires { length builder.old.points + length observes.now < 2 ^ 32 }
    ensures { OnOk result (builder.new ≡ with_points observes.now builder.old) }
{
    let mut rest = observes;
    while let Some((observed, next)) = rest.split_first() {
        put_point(builder, *observed)?;
        rest = next;
    }
    Ok(())
}

/// Hands the builder a constraint.
fn put_constraint(builder: &mut Builder, c: DrawnConstraint) -> Result<(), AllocError>
    requires room { length builder.old.drafts < 2 ^ 32 - 1 }
    requires from { c.from < length builder.old.points }
    requires to { c.to < length builder.old.points }
    ensures { OnOk result (builder.new ≡ with_draft (draft_of c) builder.old) }
{
    builder.constrain(c.from, c.to, c.most, c.label)?;
    Ok(())
}

/// Hands the builder these constraints in their order.
fn put_constraints(builder: &mut Builder, constraints: &[DrawnConstraint]) -> Result<(), AllocError>
    requires room { length builder.old.drafts + length constraints.now < 2 ^ 32 }
    requires among { All (λ c. (c.from < length builder.old.points) × (c.to < length builder.old.points)) constraints.now }
    ensures { OnOk result (builder.new ≡ with_drafts constraints.now builder.old) }
{
    let mut rest = constraints;
    while let Some((c, next)) = rest.split_first() {
        put_constraint(builder, *c)?;
        rest = next;
    }
    Ok(())
}

/// A builder that was handed what a graph holds.
fn builder_of(alloc: Global, deadline: u32, graph: &DrawnGraph) -> Result<Builder, AllocError>
    requires { IsDrawnGraph (graph_seen graph.now) }
    ensures { IfOk result (λ b. b ≡ builder_of deadline graph.now) }
{
    let mut builder = Builder::new(alloc, deadline);
    let origin = match graph.origin {
        Some(observed) => observed,
        None => None,
    };
    put_point(&mut builder, origin)?;
    if graph.names.count() == u32::MAX {
        return Err(AllocError);
    }
    put_points(&mut builder, graph.observes.as_slice())?;
    put_constraints(&mut builder, graph.constraints.list.as_slice())?;
    Ok(builder)
}

/// The network of a graph with this deadline in ticks, or the fault for which the builder refuses it.
pub fn build_network(alloc: Global, deadline: u32, graph: &DrawnGraph) -> Result<Network, NetError>
    requires { IsDrawnGraph (graph_seen graph.now) }
    ensures accepted { IfOk result (IsBuilt (builder_of deadline graph.now)) }
    ensures well_formed { IfOk result (λ n. IsWellFormed (the_network n)) }
    ensures refused { IfErr result (IsNetRefusal (builder_of deadline graph.now)) }
{
    match builder_of(alloc, deadline, graph) {
        Ok(builder) => builder.close(),
        Err(e) => Err(NetError::Memory(e)),
    }
}
