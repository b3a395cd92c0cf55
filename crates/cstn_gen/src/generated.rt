ghost use Rattle.std.specs.Prelude.{◌≡◌, ◌<◌, ◌≤◌, ◌+◌, ◌*◌, ◌++◌, ◌∷◌, [], length, IfOk, OnErr, Contains, ◌^◌, ◌-◌};
ghost use Rattle.std.specs.Option.{option_map};
ghost use Rattle.cstn_net.specs.Networks.{IsWellFormed};
ghost use Rattle.cstn_net.specs.Read.{the_network};
ghost use Rattle.cstn_net.specs.Drafts.{net_number};
ghost use Rattle.cstn_gen.specs.Generated.{generated, generated_names, props_of, observed_by};
ghost use Rattle.cstn_gen.specs.Made.{HasDrawnPoints, HasDrawnConstraints};

use crate::constraints::{Span, draw_label, draw_span, letter};
use crate::draws::Draws;
use cstn_label::{Label, Prop};
use cstn_net::{
    Builder, NetError, Network, drafts_are_numbered, handed_networks_are_closed,
    reactions_are_a_tick_at_first,
};
use cstn_text::{NameError, NameKey, Names};
use std::alloc::{AllocError, Global};

const MOST_PROPS: u32 = 6;

/// Generates a network of a size from 1 to 200, and the names of its time-points. It has the origin `Z`, the time-points `T1`
/// to `Tsize`, two constraints for each of these, drawn by the recurrence from `number`, and a deadline of 10 + 2 * `size`
/// ticks. Fails only where memory is refused.
#[tactic(auto, using(crate::proofs::WellFormed::well_formed))]
pub fn network(alloc: Global, number: u64, size: u32) -> Result<(Network, Names), AllocError>
    requires some { 1 ≤ size }
    requires most { size ≤ 200 }
    ensures network { IfOk result (λ r. the_network r.0 ≡ generated number size) }
    ensures names { IfOk result (λ r. r.1 ≡ generated_names size) }
    ensures well_formed { IsWellFormed (generated number size) }
{
    handed_networks_are_closed();
    reactions_are_a_tick_at_first();
    let mut builder = Builder::new(alloc, 10 + 2 * size);
    add_points(&mut builder, size)?;
    add_constraints(&mut builder, number, size)?;
    let names = names_of(alloc, size)?;
    match builder.close() {
        Ok(network) => Ok((network, names)),
        Err(error) => Err(memory_of(error)),
    }
}

// The refusal of memory that a builder's error stands for, which may be no other error.
fn memory_of(error: NetError) -> AllocError
    requires { net_number error ≡ 0 }
{
    match error {
        NetError::Memory(e) => e,
        _ => unreachable!(),
    }
}

// How many propositions a network of this size observes.
fn props_of(size: u32) -> u32
    requires { size ≤ 200 }
    ensures props { result ≡ props_of size }
    ensures some { 0 < result }
    ensures most { result ≤ 6 }
{
    (1 + size / 3).min(MOST_PROPS)
}

// What the i-th time-point after the origin observes.
fn observed_by(props: u32, i: u32) -> Option<Prop>
    requires { props ≤ 6 }
    ensures { option_map (λ p. p.index) result ≡ observed_by props i }
{
    if i < props { Some(letter(i)) } else { None }
}

// Adds the origin and the time-points after it.
fn add_points(builder: &mut Builder, size: u32) -> Result<(), AllocError>
    requires few { size ≤ 200 }
    requires none { builder.old.points ≡ [] }
    ensures points { IfOk result (λ _. HasDrawnPoints size size builder.new.points) }
    ensures rest { (builder.new.deadline ≡ builder.old.deadline) × (builder.new.drafts ≡ builder.old.drafts) }
{
    builder.node(None)?;
    let props = props_of(size);
    for i in 0..size {
        builder.node(observed_by(props, i))?;
    }
    Ok(())
}

// Adds two constraints for each time-point but the origin.
fn add_constraints(builder: &mut Builder, number: u64, size: u32) -> Result<(), AllocError>
    requires some { 1 ≤ size }
    requires most { size ≤ 200 }
    requires points { length builder.old.points ≡ size + 1 }
    requires none { builder.old.drafts ≡ [] }
    ensures constraints { IfOk result (λ _. HasDrawnConstraints number size (2 * size) builder.new.drafts) }
    ensures rest { (builder.new.deadline ≡ builder.old.deadline) × (builder.new.points ≡ builder.old.points) }
{
    drafts_are_numbered();
    let props = props_of(size);
    let mut draws = Draws { state: number };
    for _ in 0..2 * size {
        let span = draw_span(&mut draws, size);
        let label = draw_label(&mut draws, props);
        add_constraint(builder, &span, label)?;
    }
    Ok(())
}

// Adds one constraint.
fn add_constraint(builder: &mut Builder, span: &Span, label: Label) -> Result<(), AllocError>
    requires from { span.now.from < length builder.old.points }
    requires to { span.now.to < length builder.old.points }
    requires room { length builder.old.drafts < 2 ^ 32 - 1 }
    ensures added { IfOk result (λ _. builder.new
        ≡ record builder.old { drafts = builder.old.drafts ++ record { from = span.now.from; to = span.now.to; most = span.now.most; label = label } ∷ [] }) }
    ensures refused { OnErr result (builder.new ≡ builder.old) }
{
    builder.constrain(span.from, span.to, span.most, label)?;
    Ok(())
}

// The names of the time-points: `Z`, `T1`, `T2` and so on.
fn names_of(alloc: Global, size: u32) -> Result<Names, AllocError>
    requires few { size ≤ 200 }
    ensures names { IfOk result (λ names. names ≡ generated_names size) }
{
    let mut names = Names::new(alloc, NameKey::new(b""));
    push_name(&mut names, "Z")?;
    for i in 0..size {
        let number = i + 1;
        let name = format!(in alloc; "T{number}")?;
        push_name(&mut names, &name)?;
    }
    Ok(names)
}

// Puts a name that isn't there yet at the end of the list.
fn push_name(names: &mut Names, name: &str) -> Result<(), AllocError>
    requires few { length names.old < 2 ^ 32 - 1 }
    requires some { 0 < length name.now }
    requires most { length name.now ≤ 64 }
    requires fresh { Contains names.old name.now → ⊥ }
    ensures pushed { IfOk result (λ _. names.new ≡ names.old ++ name.now ∷ []) }
{
    match names.push(name) {
        Ok(_) => Ok(()),
        Err(NameError::Memory(e)) => Err(e),
        Err(_) => unreachable!(),
    }
}
