//! Reading a plan: from its text to its labelled network, or to its refusal.

ghost use Rattle.std.specs.Prelude.{◌≡◌, nat_abs, IfOk, IfErr, Ok};
ghost use Rattle.cstn_lift.specs.Read.{the_labelled};
ghost use Rattle.cstn_graphml.specs.Document.{first_of_two};
ghost use Rattle.cstn_graphml.specs.DrawnGraphSeen.{graph_seen};
ghost use Rattle.cstn_graphml.specs.Kept.{kept};
ghost use Rattle.cstn_sentences.specs.Drawn.{graph_of, IsOfWhole};
ghost use Rattle.cstn_sentences.specs.Meaning.{on_clock};
ghost use Rattle.cstn_sentences.specs.Planned.{IsFitPlan, RefusesPlan, IsFitKept, RefusesKept, IsPlanNetTold, IsOfLabels, IsLabelTold};
ghost use Rattle.cstn_sentences.specs.Plans.{plan, deadline_in};
ghost use Rattle.cstn_sentences.specs.SeenDeclared.{the_declared};
ghost use Rattle.cstn_sentences.specs.SeenMeaning.{the_meaning};

use crate::bounds::on_clock;
use crate::declarations::{Declared, declare_lines};
use crate::errors::PlanError;
use crate::lines::Span;
use crate::meaning::{Meaning, mean_lines};
use crate::observers::Observers;
use cstn_element::DocError;
use cstn_graphml::{DrawnGraph, KeptConstraints, build_network, label_network};
use cstn_lift::Labelled;
use cstn_net::{MAX_CONSTRAINTS, NetError};
use cstn_text::{NameKey, Names};
use std::alloc::Global;

/// The most bytes of a plan.
const MAX_PLAN: usize = 8_388_608;

/// The ticks of a deadline of the lines.
fn ticks_of(start: Option<i32>, span: Span) -> u32
    ensures { result ≡ nat_abs (on_clock start span) }
{
    on_clock(start, span).unsigned_abs() as u32
}

/// The deadline handed in, else that of the lines, in ticks.
fn deadline_of(handed: Option<u32>, d: &Declared) -> Option<u32>
    ensures { result ≡ first_of_two handed (deadline_in (the_declared d.now)) }
{
    if let Some(ticks) = handed {
        return Some(ticks);
    }
    let span = d.deadline?;
    Some(ticks_of(d.start, span))
}

/// The graph of a plan, with one constraint past the limit of a network at most.
fn graph_of(alloc: Global, d: Declared, m: Meaning) -> DrawnGraph
    ensures { graph_seen result ≡ kept (graph_of (the_declared d) (the_meaning m)) }
{
    let mut list = m.constraints;
    list.truncate(MAX_CONSTRAINTS + 1);
    DrawnGraph {
        own: Vec::new(alloc),
        deadline: None,
        origin: d.origin,
        origin_label: m.origin_label,
        names: d.names,
        observes: d.observes,
        labels: m.labels,
        constraints: KeptConstraints { list },
    }
}

/// The refusal of a plan for what the builder refused: want of memory by itself, any other fault with the names.
fn refusal(error: NetError, names: Names) -> PlanError
    ensures { IsPlanNetTold error names result }
{
    match error {
        NetError::Memory(e) => PlanError::Memory(e),
        _ => PlanError::Net { error, names },
    }
}

/// The refusal of a plan for labels that were refused.
fn label_refusal(error: DocError) -> PlanError
    requires { IsOfLabels error }
    ensures { IsLabelTold error result }
{
    match error {
        DocError::Lift { error, names } => PlanError::Lift { error, names },
        DocError::Memory(e) => PlanError::Memory(e),
        _ => unreachable!(),
    }
}

/// The answer to a plan by what its lines declare and mean: its labelled network with the names, or the refusal.
fn answer(
    alloc: Global,
    deadline: u32,
    d: Declared,
    m: Meaning,
) -> Result<(Labelled, Names), PlanError>
    requires { IsOfWhole (the_declared d) (the_meaning m) }
    ensures accepted { IfOk result (λ r. IsFitKept deadline (the_declared d) (the_meaning m) (the_labelled r.0) r.1) }
    ensures refused { IfErr result (RefusesKept deadline (the_declared d) (the_meaning m)) }
{
    let graph = graph_of(alloc, d, m);
    match build_network(alloc, deadline, &graph) {
        Ok(network) => match label_network(alloc, network, graph) {
            Ok(read) => Ok(read),
            Err(error) => Err(label_refusal(error)),
        },
        Err(error) => Err(refusal(error, graph.names)),
    }
}

/// Reads a plan in sentences. Returns its labelled network and the names of its time-points by number, `Z` first, or the first
/// refusal. A deadline in ticks that is handed in wins over that of the lines.
pub fn read(
    alloc: Global,
    text: &[u8],
    deadline: Option<u32>,
) -> Result<(Labelled, Names), PlanError>
    ensures accepted { IfOk result (λ r. IsFitPlan (plan text.now deadline) (the_labelled r.0) r.1) }
    ensures refused { IfErr result (RefusesPlan (plan text.now deadline)) }
{
    if text.len() > MAX_PLAN {
        return Err(PlanError::Long);
    }
    let d = declare_lines(alloc, NameKey::new(text), text)?;
    let observers = Observers::new(alloc, &d)?;
    let m = mean_lines(alloc, &d, &observers, text)?;
    let Some(ticks) = deadline_of(deadline, &d) else {
        return Err(PlanError::NoDeadline);
    };
    answer(alloc, ticks, d, m)
}
