// Follows what really happens, by a session.
ghost use Rattle.std.specs.Prelude.{◌<◌, ◌^◌, ◌↔◌, IsTrue};
ghost use Rattle.std.specs.List.{All};

use crate::bottling::SOUR;
use crate::events::Event;
use crate::heating::{FILL, HEAT, SAMPLE, heating};
use crate::plans::CAP;
use crate::printing::{print_blame, print_event, print_latest, print_outlook};
use anyhow::bail;
use cstn_change::Change;
use cstn_check::Verdict;
use cstn_follow::{Outlook, Session};
use cstn_label::NodeId;
use cstn_lift::Labelled;
use cstn_log::Cap;
use cstn_net::{MAX_DEADLINE, Network};
use cstn_text::Names;
use std::alloc::Global;

// The sample is 3 minutes late and its result 7, and heating begins 2 minutes late.
const LATE: [(u32, Event); 5] = [
    (3, Event::Executed(SAMPLE)),
    (20, Event::Expected(SOUR)),
    (20, Event::Observed(SOUR, true)),
    (22, Event::Executed(HEAT)),
    (42, Event::Executed(FILL)),
];

// The result is 6 minutes early, and all is to be done within 20 minutes then.
const EARLY: [(u32, Event); 4] = [
    (0, Event::Executed(SAMPLE)),
    (4, Event::Observed(SOUR, false)),
    (4, Event::Due(20)),
    (15, Event::Executed(FILL)),
];

// The result is 9 minutes late, and 2 minutes after it heating has not begun. Then the batch may be filled up to 45 minutes after
// the sample.
const TOO_LATE: [(u32, Event); 7] = [
    (5, Event::Executed(SAMPLE)),
    (24, Event::Expected(SOUR)),
    (24, Event::Observed(SOUR, true)),
    (26, Event::Passed),
    (26, Event::Revalued { id: 2, most: 45 }),
    (28, Event::Executed(HEAT)),
    (48, Event::Executed(FILL)),
];

/// Follows three courses of heating and bottling.
pub fn rehearse_following(rt: &impl Print, alloc: Global) -> anyhow::Result<()> {
    println!(rt; "late")?;
    follow_from_start(rt, alloc, &LATE)?;
    println!(rt; "early")?;
    follow_from_start(rt, alloc, &EARLY)?;
    println!(rt; "too late")?;
    follow_from_start(rt, alloc, &TOO_LATE)
}

// Follows a course by a session of its own.
fn follow_from_start(
    rt: &impl Print,
    alloc: Global,
    course: &[(u32, Event)],
) -> anyhow::Result<()> {
    let (network, names) = heating(alloc)?;
    let mut session = start(alloc, network)?;
    tell(rt, &session, &names)?;
    follow(rt, &mut session, &names, course)
}

// A session of a network. Refused where the network has an id of 2^31 or above.
fn start(alloc: Global, network: Labelled) -> anyhow::Result<Session> {
    if !has_low_ids(network.base()) {
        bail!("the network has an id of 2147483648 or above");
    }
    Ok(Session::start(alloc, network, Cap { entries: CAP })?)
}

// Whether the ids of all constraints are below 2^31.
fn has_low_ids(net: &Network) -> bool
    ensures { IsTrue result ↔ All (λ c. c.id < 2 ^ 31) net.now.constraints }
{
    net.constraints().iter().all(|c| c.id < 2_147_483_648)
}

// Records the events of a course in turn, and tells after each how the plan stands.
fn follow(
    rt: &impl Print,
    session: &mut Session,
    names: &Names,
    course: &[(u32, Event)],
) -> anyhow::Result<()> {
    for step in course {
        let (moment, event) = *step;
        record(session, moment, event)?;
        print_event(rt, moment, event, names)?;
        tell(rt, session, names)?;
    }
    Ok(())
}

// Records what happens at a moment. What is refused changes nothing.
fn record(session: &mut Session, moment: u32, event: Event) -> anyhow::Result<()> {
    match event {
        Event::Passed => session.now(moment)?,
        Event::Executed(x) => session.did(moment, &[x])?,
        Event::Observed(p, value) => session.saw(moment, p, value)?,
        Event::Expected(p) => session.expect(moment, p)?,
        Event::Revalued { id, most } => session.edit(Change::Revalue { id, most })?,
        Event::Due(deadline) => set_deadline(session, deadline)?,
    };
    Ok(())
}

// Sets the deadline. Refused where it is above 1,000,000.
fn set_deadline(session: &mut Session, deadline: u32) -> anyhow::Result<Verdict> {
    if deadline > MAX_DEADLINE {
        bail!("the deadline {deadline} is above {MAX_DEADLINE}");
    }
    Ok(session.deadline(deadline)?)
}

// Tells how the plan stands: what is next, and until when each time-point that is named can wait; or what is to blame.
fn tell(rt: &impl Print, session: &Session, names: &Names) -> anyhow::Result<()> {
    let outlook = session.next()?;
    print_outlook(rt, &outlook, names)?;
    match outlook {
        Outlook::Next(next) => tell_latest(rt, session, names, &next.named),
        Outlook::Impossible => tell_blame(rt, session),
        Outlook::Finished | Outlook::Unknown => Ok(()),
    }
}

// Tells until when each of these time-points can wait.
fn tell_latest(
    rt: &impl Print,
    session: &Session,
    names: &Names,
    named: &[NodeId],
) -> anyhow::Result<()> {
    for x in named {
        print_latest(rt, session.latest(*x)?, *x, names)?;
    }
    Ok(())
}

// Tells which constraints are to blame.
fn tell_blame(rt: &impl Print, session: &Session) -> anyhow::Result<()> {
    let blame = session.blame()?;
    print_blame(rt, &blame)?;
    Ok(())
}
