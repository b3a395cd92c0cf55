use crate::events::Event;
use cstn_follow::{Latest, Outlook, ToBlame};
use cstn_label::{NodeId, Prop};
use cstn_next::NextMoment;
use cstn_text::Names;
use std::io;

/// Prints the number of a course.
pub fn print_course(rt: &impl Print, number: u32) -> io::Result<()> {
    println!(rt; "course {number}")
}

/// Prints a moment, and the names of the time-points that are executed then; the number of one that has no name. Prints nothing
/// where none are executed.
pub fn print_named(rt: &impl Print, t: u32, named: &[NodeId], names: &Names) -> io::Result<()> {
    if named.is_empty() {
        return Ok(());
    }
    print!(rt; "{t}")?;
    print_names(rt, named, names)?;
    println!(rt)
}

// Prints the names of time-points, a space before each; the number of one that has no name.
fn print_names(rt: &impl Print, named: &[NodeId], names: &Names) -> io::Result<()> {
    for x in named {
        match names.as_slice().get(x.index()) {
            Some(name) => print!(rt; " {name}")?,
            None => print!(rt; " {}", x.number())?,
        }
    }
    Ok(())
}

/// Prints a moment, and an outcome that is handed in before it.
pub fn print_outcome(rt: &impl Print, t: u32, prop: Prop, value: bool) -> io::Result<()> {
    println!(rt; "{t} {} is {value}", prop.letter() as char)
}

/// Prints a moment, and what happens at it.
pub fn print_event(rt: &impl Print, t: u32, event: Event, names: &Names) -> io::Result<()> {
    match event {
        Event::Passed => println!(rt; "{t} now"),
        Event::Executed(x) => print_named(rt, t, &[x], names),
        Event::Observed(p, value) => print_outcome(rt, t, p, value),
        Event::Expected(p) => println!(rt; "{t} {} is expected", p.letter() as char),
        Event::Due(deadline) => println!(rt; "{t} due by {deadline}"),
        Event::Revalued { id, most } => println!(rt; "{t} constraint {id} is {most}"),
    }
}

/// Prints whether a plan can still be carried out, and what is next then.
pub fn print_outlook(rt: &impl Print, outlook: &Outlook, names: &Names) -> io::Result<()> {
    match outlook {
        Outlook::Next(next) => print_next(rt, next, names),
        Outlook::Finished => println!(rt; "yes, all is done"),
        Outlook::Impossible => println!(rt; "no"),
        Outlook::Unknown => println!(rt; "not known"),
    }
}

// Prints the next moment, the names of the time-points to be executed then, and the outcomes that are awaited then.
fn print_next(rt: &impl Print, next: &NextMoment, names: &Names) -> io::Result<()> {
    print!(rt; "yes, next {}", next.moment)?;
    print_names(rt, &next.named, names)?;
    print_awaited(rt, &next.awaited)?;
    println!(rt)
}

// Prints the outcomes that are awaited, each as a question.
fn print_awaited(rt: &impl Print, awaited: &[Prop]) -> io::Result<()> {
    for prop in awaited {
        print!(rt; " {}?", prop.letter() as char)?;
    }
    Ok(())
}

/// Prints until when a time-point can wait, or why there is no such moment.
pub fn print_latest(rt: &impl Print, latest: Latest, x: NodeId, names: &Names) -> io::Result<()> {
    match latest {
        Latest::Until(moment) => print!(rt; "by {moment}")?,
        Latest::Refused(error) => print!(rt; "{error}:")?,
        Latest::TooManyConstraints => print!(rt; "too many constraints")?,
        Latest::Impossible => print!(rt; "no")?,
        Latest::Unknown => print!(rt; "not known")?,
    }
    print_names(rt, &[x], names)?;
    println!(rt)
}

/// Prints the ids of the constraints that are to blame, or why there are none.
pub fn print_blame(rt: &impl Print, blame: &ToBlame) -> io::Result<()> {
    match blame {
        ToBlame::Constraints(ids) => print_ids(rt, ids),
        ToBlame::Nothing => println!(rt; "nothing to blame"),
        ToBlame::Unknown => println!(rt; "not known"),
    }
}

// Prints ids behind a word.
fn print_ids(rt: &impl Print, ids: &[u32]) -> io::Result<()> {
    print!(rt; "blame")?;
    for id in ids {
        print!(rt; " {id}")?;
    }
    println!(rt)
}
