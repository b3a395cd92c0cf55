// Sessions with marks, which lead back to where they were set.
ghost use Rattle.std.specs.Prelude.{◌≡◌, ◌<◌, [], ◌^◌, Some, length, slice_get, IfOk, OnErr};
ghost use Rattle.std.specs.List.{All};
ghost use Rattle.std.specs.Option.{option_map};
ghost use Rattle.cstn_net.specs.Networks.{count};
ghost use Rattle.cstn_lift.specs.Read.{the_labelled};
ghost use Rattle.cstn_reply.specs.Written.{EndsLine};
ghost use Rattle.cstn_follow.specs.Following.{says, verdict_now};
ghost use Rattle.cstn_follow.specs.Hearing.{counted, on_other};
ghost use Rattle.cstn_follow.specs.Marks.{the_saying, try_read, saying_read, begun_marked, on_mark, on_back, on_saying};
ghost use Rattle.cstn_follow.specs.Marks.{hear_marked, marked_ending};
ghost use Rattle.cstn_follow.specs.MarkedRead.{the_marked, the_marked_heard};
ghost use Rattle.cstn_follow.specs.Read.{the_following, IsSaidFor};
ghost use Rattle.cstn_follow.specs.Trials.{the_triable, on_triable, on_try};

use crate::asking::behind_word;
use crate::following::{Following, Heard};
use crate::texts::{number_line, word_line};
use crate::trials::{Triable, read_triable};
use cstn_check::Verdict;
use cstn_lift::Labelled;
use cstn_log::Cap;
use cstn_reply::{AnswerText, Outcome};
use cstn_text::Names;
use std::alloc::{AllocError, Global};
use std::marker::Model;

// How many marks there may be.
const MAX_MARKS: usize = 8;

/// What a line of a session with marks says.
#[derive(Drop)]
pub enum Saying {
    /// A line that can be tried.
    Line(Triable),
    /// `try LINE`, with a line that can be tried.
    Try(Triable),
    /// `mark`.
    Mark,
    /// `back`.
    Back,
}

/// What the line of these bytes, without its LF, says: exactly a form of `Saying`, with one space between the parts and no other. None
/// where they are no such line. Fails for want of memory alone.
pub fn read_saying(alloc: Global, bytes: &[u8]) -> Result<Option<Saying>, AllocError>
    ensures read { IfOk result (λ line. option_map the_saying line ≡ saying_read bytes.now) }
{
    if let Some(line) = read_triable(alloc, bytes)? {
        return Ok(Some(Saying::Line(line)));
    }
    if bytes == b"mark".as_slice() {
        return Ok(Some(Saying::Mark));
    }
    if bytes == b"back".as_slice() {
        return Ok(Some(Saying::Back));
    }
    match read_try(alloc, bytes)? {
        Some(line) => Ok(Some(Saying::Try(line))),
        None => Ok(None),
    }
}

// The line behind `try `.
fn read_try(alloc: Global, bytes: &[u8]) -> Result<Option<Triable>, AllocError>
    ensures read { IfOk result (λ line. option_map the_triable line ≡ try_read bytes.now) }
{
    match behind_word(bytes, b"try ") {
        Some(rest) => read_triable(alloc, rest),
        None => Ok(None),
    }
}

/// A session that follows what happens, told and asked in lines, with marks that lead back to where they were set.
#[derive(Drop)]
pub struct Marked {
    alloc: Global,
    following: Following,
    marks: Vec<Following>,
}

impl Model for Marked {
    ghost use Rattle.cstn_follow.specs.MarkedRead.{MarkedParts, HasMarks, marked_parts};

    ghost Value = { MarkedParts };

    ghost view = { λ f. marked_parts f.following f.marks.items };

    ghost invariant = { λ f. HasMarks f.following f.marks.items };
}

impl Marked {
    /// A session of a labelled network of which nothing has happened yet, whose logs may have `cap` entries each, without marks. Fails for
    /// want of memory alone, and drops the network and the names then.
    pub fn start(
        alloc: Global,
        network: Labelled,
        names: Names,
        cap: Cap,
    ) -> Result<Marked, AllocError>
        requires named { length names ≡ count (the_labelled network).base }
        requires ids { All (λ c. c.id < 2 ^ 31) (the_labelled network).base.constraints }
        ensures start { IfOk result (λ f. the_marked f ≡ begun_marked cap.entries names (the_labelled network)) }
    {
        let following = Following::start(alloc, network, names, cap)?;
        Ok(Marked {
            alloc,
            following,
            marks: Vec::new(alloc),
        })
    }

    /// The verdict on what is left.
    pub fn verdict(&self) -> Verdict
        ensures verdict { result ≡ verdict_now (the_marked self.now).now }
    {
        self.following.verdict()
    }

    /// How the session ends, and what is said then.
    pub fn ending(&self, text: &mut AnswerText) -> Outcome
        requires empty { text.old ≡ [] }
        ensures ending { marked_ending (the_marked self.now) ≡ record { outcome = result; text = text.new } }
    {
        self.following.ending(text)
    }

    /// What is said to the next line, which is none of the session where it is none. A line that is refused changes nothing but the
    /// count of lines. Fails for want of memory alone, and then nothing else has changed either.
    pub fn hear(&mut self, line: Option<Saying>) -> Result<Heard, AllocError>
        ensures heard { IfOk result (λ heard. hear_marked (the_marked self.old) (option_map the_saying line) ≡ the_marked_heard self.new heard) }
        ensures same { OnErr result (the_marked self.new ≡ record (the_marked self.old) { now = counted (the_marked self.old).now }) }
        ensures first { slice_get self.new.now.names 0 ≡ slice_get self.old.now.names 0 }
        ensures said { IfOk result (IsSaidFor self.old.now.names) }
    {
        self.count_line();
        match line {
            Some(line) => self.answer(line),
            None => Ok(Heard::Text(self.other()?)),
        }
    }

    // Counts one line more.
    fn count_line(&mut self)
        ensures counted { self.new ≡ record self.old { now = record self.old.now { lines = (counted (the_following self.old.now)).lines } } }
    {
        self.following.count_line();
    }

    // What is said to a line of the session.
    fn answer(&mut self, line: Saying) -> Result<Heard, AllocError>
        ensures heard { IfOk result (λ heard.
            on_saying (the_marked self.old).now (the_marked self.old).marks (Some (the_saying line)) ≡ the_marked_heard self.new heard) }
        ensures same { OnErr result (self.new ≡ self.old) }
        ensures first { slice_get self.new.now.names 0 ≡ slice_get self.old.now.names 0 }
        ensures said { IfOk result (IsSaidFor self.old.now.names) }
    {
        match line {
            Saying::Line(line) => self.answer_line(line),
            Saying::Try(line) => self.try_line(line),
            Saying::Mark => Ok(Heard::Text(self.mark()?)),
            Saying::Back => Ok(Heard::Text(self.back()?)),
        }
    }

    // What is said to a line that can be tried.
    fn answer_line(&mut self, line: Triable) -> Result<Heard, AllocError>
        ensures heard { IfOk result (λ heard. record { heard = on_triable (the_marked self.old).now (the_triable line); marks = (the_marked self.old).marks }
            ≡ the_marked_heard self.new heard) }
        ensures same { OnErr result (self.new ≡ self.old) }
        ensures first { slice_get self.new.now.names 0 ≡ slice_get self.old.now.names 0 }
        ensures said { IfOk result (IsSaidFor self.old.now.names) }
    {
        self.following.answer_triable(line)
    }

    // What a line would be answered.
    fn try_line(&self, line: Triable) -> Result<Heard, AllocError>
        ensures heard { IfOk result (λ heard. record { heard = on_try (the_marked self.now).now (the_triable line); marks = (the_marked self.now).marks }
            ≡ the_marked_heard self.now heard) }
        ensures said { IfOk result (IsSaidFor self.now.now.names) }
    {
        self.following.try_line(line)
    }

    // Says that the line is none of the session.
    fn other(&self) -> Result<Vec<u8>, AllocError>
        ensures says { IfOk result (λ text. on_other (the_marked self.now).now ≡ says text.items (the_marked self.now).now) }
        ensures ends { IfOk result (λ text. EndsLine text.items) }
    {
        self.following.other()
    }

    /// Sets a mark, to which `back` leads back. Answers with the line of how many there are, or with the line that refuses it, where there
    /// are 8. Takes one copy of the session. Fails for want of memory alone, and then nothing has changed.
    pub fn mark(&mut self) -> Result<Vec<u8>, AllocError>
        ensures says { IfOk result (λ text. on_mark (the_marked self.old).now (the_marked self.old).marks
            ≡ record { heard = says text.items (the_marked self.new).now; marks = (the_marked self.new).marks }) }
        ensures same { OnErr result (self.new ≡ self.old) }
        ensures now { self.new.now ≡ self.old.now }
        ensures ends { IfOk result (λ text. EndsLine text.items) }
    {
        let count = self.marks.len();
        if count >= MAX_MARKS {
            return word_line(self.alloc, b"refused M1");
        }
        let text = number_line(self.alloc, b"mark ", count as u32 + 1)?;
        let copy = self.following.copy()?;
        self.marks.push(copy)?;
        Ok(text)
    }

    /// Leads back to the last mark, which is gone then: all is as it was there, but for the count of lines. Answers with the line of how
    /// many marks are left, or with the line that refuses it, where there is none. Fails for want of memory alone, and then nothing has
    /// changed.
    pub fn back(&mut self) -> Result<Vec<u8>, AllocError>
        ensures says { IfOk result (λ text. on_back (the_marked self.old).now (the_marked self.old).marks
            ≡ record { heard = says text.items (the_marked self.new).now; marks = (the_marked self.new).marks }) }
        ensures same { OnErr result (self.new ≡ self.old) }
        ensures first { slice_get self.new.now.names 0 ≡ slice_get self.old.now.names 0 }
        ensures ends { IfOk result (λ text. EndsLine text.items) }
    {
        let Some(left) = self.marks.len().checked_sub(1) else {
            return word_line(self.alloc, b"refused M2");
        };
        let text = number_line(self.alloc, b"back ", left as u32)?;
        let Some(mut mark) = self.marks.pop() else {
            unreachable!();
        };
        mark.count_on_from(&self.following);
        self.following = mark;
        Ok(text)
    }
}
