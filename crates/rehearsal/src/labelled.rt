// Rehearses a labelled network by a guide.
ghost use Rattle.std.specs.Prelude.{◌≡◌, OnOk};
ghost use Rattle.cstn_lift.specs.Read.{the_labelled};
ghost use Rattle.cstn_exec.specs.Sound.{IsLed};

use crate::courses::{Course, MAX_COURSES, MAX_TURNS};
use crate::heating::heating;
use crate::plans::plan_of;
use crate::printing::{print_course, print_named, print_outcome};
use anyhow::bail;
use cstn_exec::{ExecError, Guide};
use cstn_text::Names;
use std::alloc::Global;

/// Rehearses the plan of heating and bottling. Each course has a guide of its own.
pub fn rehearse_heating(rt: &impl Print, alloc: Global) -> anyhow::Result<()> {
    let mut course = Course::first();
    for number in 1..=MAX_COURSES {
        if !rehearse_course(rt, alloc, number, &mut course)? {
            return Ok(());
        }
    }
    bail!("more than {MAX_COURSES} courses")
}

// Rehearses a course by a guide of its own, and turns to the next one. Says whether there is one; there is none where there is no
// plan.
fn rehearse_course(
    rt: &impl Print,
    alloc: Global,
    number: u32,
    course: &mut Course,
) -> anyhow::Result<bool> {
    match guide_of(alloc)? {
        Some((mut guide, names)) => rehearse_by(rt, &mut guide, &names, number, course),
        None => print_no_plan(rt),
    }
}

// Says that there is no plan, and so no next course.
fn print_no_plan(rt: &impl Print) -> anyhow::Result<bool> {
    println!(rt; "no plan")?;
    Ok(false)
}

// Rehearses a course by this guide, and turns to the next one. Says whether there is one.
fn rehearse_by(
    rt: &impl Print,
    guide: &mut Guide,
    names: &Names,
    number: u32,
    course: &mut Course,
) -> anyhow::Result<bool> {
    print_course(rt, number)?;
    rehearse(rt, guide, names, course)?;
    Ok(course.advance())
}

// A guide by the plan, and the names of the time-points; none where there is no plan.
fn guide_of(alloc: Global) -> anyhow::Result<Option<(Guide, Names)>> {
    let (labelled, names) = heating(alloc)?;
    let (net, labels) = labelled.split();
    let Some(plan) = plan_of(alloc, net)? else {
        return Ok(None);
    };
    let guide = Guide::start(alloc, plan, labels)?;
    Ok(Some((guide, names)))
}

// Carries the plan out to its end, with the outcomes of the course. In every scenario that agrees with these, each constraint
// that is in force is met then.
fn rehearse(
    rt: &impl Print,
    guide: &mut Guide,
    names: &Names,
    course: &mut Course,
) -> anyhow::Result<()>
    ensures led { OnOk result (IsLed (the_labelled guide.old.labelled) guide.new.state) }
    ensures labelled { guide.new.labelled ≡ guide.old.labelled }
{
    for _ in 0..MAX_TURNS {
        let Some(t) = guide.due() else {
            return Ok(());
        };
        turn(rt, guide, names, course, t)?;
    }
    bail!("more than {MAX_TURNS} turns")
}

// Does what comes next: accepts the due moment, or hands in an outcome that is awaited by then.
fn turn(
    rt: &impl Print,
    guide: &mut Guide,
    names: &Names,
    course: &mut Course,
    t: u32,
) -> anyhow::Result<()>
    ensures labelled { guide.new.labelled ≡ guide.old.labelled }
{
    match guide.moment(t) {
        Ok(()) => print_named(rt, t, guide.named(), names)?,
        Err(ExecError::Awaiting { prop }) => {
            let value = course.outcome();
            guide.see(prop, value)?;
            print_outcome(rt, t, prop, value)?;
        }
        Err(error) => return Err(error.into()),
    }
    Ok(())
}
