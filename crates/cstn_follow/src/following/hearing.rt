// Lines that a session hears.
ghost use Rattle.std.specs.Prelude.{◌≡◌, Some, slice_get, IfOk, OnErr};
ghost use Rattle.std.specs.Option.{option_map};
ghost use Rattle.cstn_lines.specs.FollowLines.{the_follow};
ghost use Rattle.cstn_lines.specs.EditLines.{the_edit};
ghost use Rattle.cstn_follow.specs.Asking.{the_spoken};
ghost use Rattle.cstn_follow.specs.Following.{says};
ghost use Rattle.cstn_follow.specs.Hearing.{hear, counted, on_line, on_follow, on_plan, on_ends_by, on_other};
ghost use Rattle.cstn_follow.specs.Read.{the_following, the_heard, IsSaidFor};

use super::{Following, Heard};
use crate::asking::Spoken;
use crate::texts::number_line;
use cstn_lines::{EditLine, FollowLine};
use cstn_net::MAX_DEADLINE;
use std::alloc::AllocError;

// How many lines are counted.
const MAX_LINES: u32 = 16_777_217;

impl Following {
    /// What is said to the next line, which is none of the session where it is none. A line that is refused changes nothing but the
    /// count of lines. Fails for want of memory alone, and then nothing else has changed either.
    pub fn hear(&mut self, line: Option<Spoken>) -> Result<Heard, AllocError>
        ensures heard { IfOk result (λ heard. hear (the_following self.old) (option_map the_spoken line) ≡ the_heard self.new heard) }
        ensures same { OnErr result (self.new ≡ record self.old { lines = (counted (the_following self.old)).lines }) }
        ensures first { slice_get self.new.names 0 ≡ slice_get self.old.names 0 }
        ensures said { IfOk result (IsSaidFor self.old.names) }
    {
        self.is_in_order();
        self.count_line();
        match line {
            Some(line) => self.answer(line),
            None => Ok(Heard::Text(self.other()?)),
        }
    }

    // Counts one line more.
    pub(crate) fn count_line(&mut self)
        ensures counted { self.new ≡ record self.old { lines = (counted (the_following self.old)).lines } }
    {
        self.lines = (self.lines + 1).min(MAX_LINES);
    }

    // What is said to a line of the session.
    pub(crate) fn answer(&mut self, line: Spoken) -> Result<Heard, AllocError>
        ensures heard { IfOk result (λ heard. on_line (the_following self.old) (Some (the_spoken line)) ≡ the_heard self.new heard) }
        ensures same { OnErr result (self.new ≡ self.old) }
    {
        match line {
            Spoken::Line(line) => self.answer_line(line),
            Spoken::Ask(question) => Ok(Heard::Text(self.ask(question)?)),
            Spoken::Amend(amendment) => Ok(Heard::Text(self.amend(amendment)?)),
            Spoken::Digest => self.digest(),
        }
    }

    // What is said to a line that tells, edits or asks.
    fn answer_line(&mut self, line: FollowLine) -> Result<Heard, AllocError>
        ensures heard { IfOk result (λ heard. on_follow (the_following self.old) (the_follow line) ≡ the_heard self.new heard) }
        ensures same { OnErr result (self.new ≡ self.old) }
    {
        match line {
            FollowLine::Did { t, names } => Ok(Heard::Text(self.did(t, &names)?)),
            FollowLine::Saw { t, prop, value } => Ok(Heard::Text(self.saw(t, prop, value)?)),
            FollowLine::Now { t } => Ok(Heard::Text(self.now(t)?)),
            FollowLine::Await { t, prop } => Ok(Heard::Text(self.await_outcome(t, prop)?)),
            FollowLine::Expect { t, name } => Ok(Heard::Text(self.expect(t, name.as_str())?)),
            FollowLine::Edit(line) => Ok(Heard::Text(self.answer_edit(line)?)),
            FollowLine::Deadline { ticks } => Ok(Heard::Text(self.end_by(ticks)?)),
            FollowLine::Next => Ok(Heard::Text(self.next()?)),
            FollowLine::By { name } => Ok(Heard::Text(self.by(name.as_str())?)),
            FollowLine::Blame => Ok(Heard::Text(self.blame()?)),
            FollowLine::Rest => self.rest(),
        }
    }

    // What is said to an edit or a check.
    fn answer_edit(&mut self, line: EditLine) -> Result<Vec<u8>, AllocError>
        ensures says { IfOk result (λ text. on_plan (the_following self.old) (the_edit line) ≡ says text.items (the_following self.new)) }
        ensures same { OnErr result (self.new ≡ self.old) }
    {
        match line {
            EditLine::Add {
                from,
                to,
                most,
                label,
            } => self.add(from.as_str(), to.as_str(), most, label),
            EditLine::Remove { id } => self.remove(id),
            EditLine::Change { id, most } => self.change(id, most),
            EditLine::Check => self.check(),
        }
    }

    // What is said to a deadline, which is one of the session up to 1,000,000.
    fn end_by(&mut self, ticks: u32) -> Result<Vec<u8>, AllocError>
        ensures says { IfOk result (λ text. on_ends_by (the_following self.old) ticks ≡ says text.items (the_following self.new)) }
        ensures same { OnErr result (self.new ≡ self.old) }
    {
        if ticks > MAX_DEADLINE {
            return self.other();
        }
        self.deadline(ticks)
    }

    // Says that the line is none of the session.
    pub(crate) fn other(&self) -> Result<Vec<u8>, AllocError>
        ensures says { IfOk result (λ text. on_other (the_following self.now) ≡ says text.items (the_following self.now)) }
    {
        number_line(self.alloc, b"refused line ", self.lines)
    }
}
