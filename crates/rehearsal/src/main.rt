//! Rehearses a plan before it is carried out. For each course that the plan can take, it prints what is done when. And for
//! courses that leave the plan, it prints after each event whether the plan can still be carried out, what is next and until when
//! that can wait, or which constraints are to blame.
#![tactic(auto)]

mod bottling;
mod courses;
mod events;
mod following;
mod heating;
mod labelled;
mod plain;
mod plans;
mod printing;

use following::rehearse_following;
use labelled::rehearse_heating;
use plain::rehearse_bottling;

fn main(rt: HostRuntime) -> anyhow::Result<()> {
    println!(rt; "bottling")?;
    rehearse_bottling(&rt, rt.alloc())?;
    println!(rt; "heating")?;
    rehearse_heating(&rt, rt.alloc())?;
    println!(rt; "following")?;
    rehearse_following(&rt, rt.alloc())
}
