// What an open id holds.
ghost use Rattle.std.specs.Prelude.{◌≡◌, false, List, IfSome, OnErr};
ghost use Rattle.std.specs.Option.{option_map};
ghost use Rattle.cstn_plan.specs.Plans.{PlanParts};
ghost use Rattle.cstn_exec.specs.Answers.{Moment, See, Names, Kept, answer_to};
ghost use Rattle.cstn_run.specs.hosted.Hosts.{net_at, bounds_at, named_in};
ghost use Rattle.cstn_run.specs.hosted.Calls.{Pass, Told, answer_at, event_passed, case_after};
ghost use Rattle.cstn_run.specs.hosted.Read.{the_opened, IsOverPlan, answer_of, in_want};

use super::errors::HostError;
use cstn_exec::Executive;
use cstn_label::Prop;

/// What an open id holds: the number of its plan, and the executive that has a copy of the plan.
#[derive(Drop)]
pub struct Case {
    pub file: u32,
    pub executive: Executive,
}

impl Case {
    // Passes a moment to the executive.
    fn moment(&mut self, t: u32) -> Result<(), HostError>
        ensures answer { (plans : List PlanParts) → IsOverPlan plans self.old
            → answer_of (λ _. Told (Names self.new.executive.named)) result
            ≡ Told (answer_to (net_at plans self.old.file) (bounds_at plans self.old.file) self.old.executive.run (Moment t)) }
        ensures after { (plans : List PlanParts) → IsOverPlan plans self.old → the_opened self.new ≡ event_passed plans (the_opened self.old) (Moment t) }
        ensures over { (plans : List PlanParts) → IsOverPlan plans self.old → IsOverPlan plans self.new }
        ensures memory { in_want result ≡ false }
        ensures same { OnErr result (self.new ≡ self.old) }
    {
        match self.executive.moment(t) {
            Ok(()) => Ok(()),
            Err(error) => Err(HostError::Exec(error)),
        }
    }

    // Passes an outcome to the executive.
    fn see(&mut self, p: Prop, value: bool) -> Result<(), HostError>
        ensures answer { (plans : List PlanParts) → IsOverPlan plans self.old
            → answer_of (λ _. Told Kept) result
            ≡ Told (answer_to (net_at plans self.old.file) (bounds_at plans self.old.file) self.old.executive.run (See p.index value)) }
        ensures after { (plans : List PlanParts) → IsOverPlan plans self.old → the_opened self.new
            ≡ event_passed plans (the_opened self.old) (See p.index value) }
        ensures over { (plans : List PlanParts) → IsOverPlan plans self.old → IsOverPlan plans self.new }
        ensures memory { in_want result ≡ false }
        ensures same { OnErr result (self.new ≡ self.old) }
    {
        match self.executive.see(p, value) {
            Ok(()) => Ok(()),
            Err(error) => Err(HostError::Exec(error)),
        }
    }
}

/// Passes a moment, in ticks, to the executive of an id. Refused with `NoSuchPlan` where the id isn't open.
pub fn pass_moment(case: &mut Option<Case>, id: u32, t: u32) -> Result<(), HostError>
    ensures answer { (plans : List PlanParts) → IfSome case.old (IsOverPlan plans)
        → answer_of (λ _. Told (Names (named_in (option_map the_opened case.new)))) result
        ≡ answer_at plans id (option_map the_opened case.old) (Pass (Moment t)) }
    ensures after { (plans : List PlanParts) → IfSome case.old (IsOverPlan plans)
        → option_map the_opened case.new ≡ case_after plans (option_map the_opened case.old) (Pass (Moment t)) }
    ensures over { (plans : List PlanParts) → IfSome case.old (IsOverPlan plans) → IfSome case.new (IsOverPlan plans) }
    ensures memory { in_want result ≡ false }
    ensures same { OnErr result (case.new ≡ case.old) }
{
    match case {
        Some(case) => case.moment(t),
        None => Err(HostError::NoSuchPlan { id }),
    }
}

/// Passes an outcome to the executive of an id. Refused with `NoSuchPlan` where the id isn't open.
pub fn pass_outcome(case: &mut Option<Case>, id: u32, p: Prop, value: bool) -> Result<(), HostError>
    ensures answer { (plans : List PlanParts) → IfSome case.old (IsOverPlan plans)
        → answer_of (λ _. Told Kept) result ≡ answer_at plans id (option_map the_opened case.old) (Pass (See p.index value)) }
    ensures after { (plans : List PlanParts) → IfSome case.old (IsOverPlan plans)
        → option_map the_opened case.new ≡ case_after plans (option_map the_opened case.old) (Pass (See p.index value)) }
    ensures over { (plans : List PlanParts) → IfSome case.old (IsOverPlan plans) → IfSome case.new (IsOverPlan plans) }
    ensures memory { in_want result ≡ false }
    ensures same { OnErr result (case.new ≡ case.old) }
{
    match case {
        Some(case) => case.see(p, value),
        None => Err(HostError::NoSuchPlan { id }),
    }
}
