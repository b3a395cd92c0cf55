// Rehearses a network by an executive.
ghost use Rattle.std.specs.Prelude.{◌≡◌, OnOk};
ghost use Rattle.cstn_net.specs.Read.{the_network};
ghost use Rattle.cstn_exec.specs.Right.{IsFulfilled};

use crate::bottling::bottling;
use crate::courses::{Course, MAX_COURSES, MAX_TURNS};
use crate::plans::plan_of;
use crate::printing::{print_course, print_named, print_outcome};
use anyhow::bail;
use cstn_exec::{ExecError, Executive};
use cstn_plan::SoundPlan;
use cstn_text::Names;
use std::alloc::Global;

/// Rehearses the plan of bottling.
pub fn rehearse_bottling(rt: &impl Print, alloc: Global) -> anyhow::Result<()> {
    let (net, names) = bottling(alloc)?;
    match plan_of(alloc, net)? {
        Some(plan) => rehearse_plan(rt, alloc, plan, &names)?,
        None => println!(rt; "no plan")?,
    }
    Ok(())
}

// Rehearses a plan by an executive of its own.
fn rehearse_plan(
    rt: &impl Print,
    alloc: Global,
    plan: SoundPlan,
    names: &Names,
) -> anyhow::Result<()> {
    let mut executive = Executive::start(alloc, plan)?;
    rehearse_courses(rt, &mut executive, names)
}

// Rehearses each course of the plan.
fn rehearse_courses(
    rt: &impl Print,
    executive: &mut Executive,
    names: &Names,
) -> anyhow::Result<()> {
    let mut course = Course::first();
    for number in 1..=MAX_COURSES {
        if !rehearse_course(rt, executive, names, number, &mut course)? {
            return Ok(());
        }
    }
    bail!("more than {MAX_COURSES} courses")
}

// Rehearses a course from the start, and turns to the next one. Says whether there is one.
fn rehearse_course(
    rt: &impl Print,
    executive: &mut Executive,
    names: &Names,
    number: u32,
    course: &mut Course,
) -> anyhow::Result<bool> {
    print_course(rt, number)?;
    executive.restart();
    rehearse(rt, executive, names, course)?;
    Ok(course.advance())
}

// Carries the plan out to its end, with the outcomes of the course. In every scenario that agrees with these, each constraint
// whose label holds is met then.
fn rehearse(
    rt: &impl Print,
    executive: &mut Executive,
    names: &Names,
    course: &mut Course,
) -> anyhow::Result<()>
    ensures carried_out { OnOk result (IsFulfilled (the_network executive.old.net) executive.new.run) }
    ensures network { executive.new.net ≡ executive.old.net }
{
    for _ in 0..MAX_TURNS {
        let Some(t) = executive.due() else {
            return Ok(());
        };
        turn(rt, executive, names, course, t)?;
    }
    bail!("more than {MAX_TURNS} turns")
}

// Does what comes next: accepts the due moment, or hands in an outcome that is awaited by then.
fn turn(
    rt: &impl Print,
    executive: &mut Executive,
    names: &Names,
    course: &mut Course,
    t: u32,
) -> anyhow::Result<()>
    ensures network { executive.new.net ≡ executive.old.net }
{
    match executive.moment(t) {
        Ok(()) => print_named(rt, t, executive.named(), names)?,
        Err(ExecError::Awaiting { prop }) => {
            let value = course.outcome();
            executive.see(prop, value)?;
            print_outcome(rt, t, prop, value)?;
        }
        Err(error) => return Err(error.into()),
    }
    Ok(())
}
