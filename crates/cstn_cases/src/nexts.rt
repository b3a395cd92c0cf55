// What is next in a case.
ghost use Rattle.std.specs.Prelude.{◌≡◌, ◌≤◌, ◌++◌, ◌∷◌, [], length, slice_index_or, None, if◌then◌else◌, IfOk};
ghost use Rattle.std.specs.List.{filter, find, range_with_len};
ghost use Rattle.std.specs.Option.{option_map};
ghost use Rattle.cstn_net.specs.Limits.{most_time_points};
ghost use Rattle.cstn_net.specs.Read.{the_network};
ghost use Rattle.cstn_lift.specs.Lowered.{lowered};
ghost use Rattle.cstn_lift.specs.Read.{the_labelled};
ghost use Rattle.cstn_plan.specs.Plans.{the_bounds};
ghost use Rattle.cstn_outline.specs.Read.{node_numbers};
ghost use Rattle.cstn_next.specs.Next.{earlier, earliest, is_upto};
ghost use Rattle.cstn_cases.specs.Writing.{the_case, IsFollowed, IsNextOf};

use crate::going::Case;
use cstn_label::{NodeId, Prop};
use cstn_lift::Labels;
use cstn_plan::SoundPlan;
use std::alloc::{AllocError, Global};

/// What is next in a case.
#[derive(Drop)]
pub enum Next {
    /// No time-point is left.
    Over,
    /// An outcome is asked at this moment.
    Asks(u32, Prop),
    /// These time-points are named at this moment.
    Names(u32, Vec<NodeId>),
}

impl Case {
    /// What is next, by the bounds of a plan. Fails for want of memory alone.
    pub fn next(&self, alloc: Global, plan: &SoundPlan, labels: &Labels) -> Result<Next, AllocError>
        requires lowered { the_network plan.now.net ≡ lowered (the_labelled labels.now) }
        requires followed { IsFollowed (the_labelled labels.now) (the_bounds plan.now.bounds) self.now }
        ensures next { IfOk result (IsNextOf (the_labelled labels.now) (the_bounds plan.now.bounds) (the_case self.now)) }
    {
        if self.is_all_named(labels) {
            return Ok(Next::Over);
        }
        plan.network();
        labels.base();
        let ready = self.ready_moments(alloc, plan, labels)?;
        let awaited = self.awaited_moments(alloc, labels)?;
        let Some(t) = earlier(earliest(&ready), earliest(&awaited)) else {
            return Ok(Next::Over);
        };
        if let Some(p) = first_upto(&awaited, t) {
            return Ok(Next::Asks(t, p));
        }
        let named = named_upto(alloc, &ready, t)?;
        Ok(Next::Names(t, named))
    }
}

// The earliest of these moments, if there are any.
fn earliest(moments: &[Option<u32>]) -> Option<u32>
    ensures { result ≡ earliest moments.now }
{
    let mut first = None;
    for k in 0..moments.len() {
        first = earlier(first, moments[k]);
    }
    first
}

// The earlier of two moments, or the one that there is.
fn earlier(a: Option<u32>, b: Option<u32>) -> Option<u32>
    ensures { result ≡ earlier a b }
{
    let Some(t) = a else {
        return b;
    };
    match b {
        None => Some(t),
        Some(u) => Some(t.min(u)),
    }
}

// Whether there is a moment, and it is t or earlier.
fn is_upto(t: u32, moment: Option<u32>) -> bool
    ensures { result ≡ is_upto t moment }
{
    match moment {
        None => false,
        Some(u) => u <= t,
    }
}

// The time-points whose moment is t or earlier.
fn named_upto(alloc: Global, moments: &[Option<u32>], t: u32) -> Result<Vec<NodeId>, AllocError>
    requires few { length moments.now ≤ most_time_points }
    ensures { IfOk result (λ v. node_numbers v.items ≡ filter (λ x. is_upto t (slice_index_or moments.now x None)) (range_with_len 0 (length moments.now))) }
{
    let mut named = Vec::new(alloc);
    for x in 0..moments.len() {
        push_one(&mut named, NodeId(x as u16), is_upto(t, moments[x]))?;
    }
    Ok(named)
}

fn push_one(named: &mut Vec<NodeId>, x: NodeId, is_named: bool) -> Result<(), AllocError>
    ensures { IfOk result (λ _. named.new.items ≡ named.old.items ++ (if is_named then x ∷ [] else [])) }
{
    if is_named {
        named.push(x)?;
    }
    Ok(())
}

// The least of the 52 propositions whose moment is t or earlier.
fn first_upto(moments: &[Option<u32>], t: u32) -> Option<Prop>
    requires size { length moments.now ≡ 52 }
    ensures { option_map (λ p. p.index) result ≡ find (λ p. is_upto t (slice_index_or moments.now p None)) (range_with_len 0 52) }
{
    for index in 0..Prop::COUNT {
        if is_upto(t, moments[index as usize]) {
            return Some(Prop { index });
        }
    }
    None
}
