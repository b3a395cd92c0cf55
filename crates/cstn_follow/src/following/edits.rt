// Edits of the network that a session follows, in lines.
ghost use Rattle.std.specs.Prelude.{◌≡◌, ◌≤◌, Ok, IfOk, OnErr};
ghost use Rattle.cstn_label.specs.Read.{marks};
ghost use Rattle.cstn_net.specs.Limits.{most_deadline};
ghost use Rattle.cstn_lift.specs.Read.{the_labelled};
ghost use Rattle.cstn_change.specs.Changes.{HasTimePointEnds, UnknownEnd};
ghost use Rattle.cstn_change.specs.ChangeLines.{accepted_text, refused_change_text};
ghost use Rattle.cstn_change.specs.Read.{the_change, the_change_refusal};
ghost use Rattle.cstn_reply.specs.Texts.{line};
ghost use Rattle.cstn_follow.specs.Following.{says};
ghost use Rattle.cstn_follow.specs.PlanLines.{on_edit, on_add, on_remove, on_change, on_deadline};
ghost use Rattle.cstn_follow.specs.Read.{the_following};
ghost use Rattle.cstn_follow.specs.Told.{IsSaidOfEdit, IsSaidOfReplan, IsUnmade};

use super::Following;
use crate::errors::ReplanError;
use crate::texts::{number_line, too_many};
use cstn_change::{Change, EditError, put_accepted, put_refusal, put_unknown_end};
use cstn_check::Verdict;
use cstn_history::RestError;
use cstn_label::Label;
use cstn_reply::AnswerText;
use std::alloc::{AllocError, Global};

impl Following {
    /// Adds a constraint, by which the time-point of the second name is at most `most` ticks after that of the first where the label
    /// holds. Answers with the line of its id, which was never used, or with the line that refuses the edit, and then nothing has
    /// changed: the first that applies of S7 of each name, S6, S1, S3, S4, S5 and F8. Fails for want of memory alone, and then nothing
    /// has changed either.
    pub fn add(
        &mut self,
        from: &str,
        to: &str,
        most: i32,
        label: Label,
    ) -> Result<Vec<u8>, AllocError>
        ensures says { IfOk result (λ text. on_add (the_following self.old) from.now to.now most (marks label)
            ≡ says text.items (the_following self.new)) }
        ensures names { self.new.names ≡ self.old.names }
        ensures same { OnErr result (self.new ≡ self.old) }
    {
        let Some(x) = self.node(from) else {
            return unknown_end(self.alloc, from);
        };
        let Some(y) = self.node(to) else {
            return unknown_end(self.alloc, to);
        };
        let change = Change::Add {
            from: x,
            to: y,
            most,
            label,
        };
        self.edit(change)
    }

    /// Takes the constraint with this id out. Answers with the line of the id, or with the line that refuses the edit: the first that
    /// applies of S6, S2 and F8; else as `add`.
    pub fn remove(&mut self, id: u32) -> Result<Vec<u8>, AllocError>
        ensures says { IfOk result (λ text. on_remove (the_following self.old) id ≡ says text.items (the_following self.new)) }
        ensures names { self.new.names ≡ self.old.names }
        ensures same { OnErr result (self.new ≡ self.old) }
    {
        self.edit(Change::Remove { id })
    }

    /// Gives the constraint with this id another value, in ticks. Answers with the line of the id, or with the line that refuses the
    /// edit: the first that applies of S6, S2, S3 and F8; else as `add`.
    pub fn change(&mut self, id: u32, most: i32) -> Result<Vec<u8>, AllocError>
        ensures says { IfOk result (λ text. on_change (the_following self.old) id most ≡ says text.items (the_following self.new)) }
        ensures names { self.new.names ≡ self.old.names }
        ensures same { OnErr result (self.new ≡ self.old) }
    {
        self.edit(Change::Revalue { id, most })
    }

    /// Sets the deadline, in ticks. Answers with the line of the deadline, or with the line that refuses it as F8; else as `add`.
    pub fn deadline(&mut self, deadline: u32) -> Result<Vec<u8>, AllocError>
        requires range { deadline ≤ most_deadline }
        ensures says { IfOk result (λ text. on_deadline (the_following self.old) deadline ≡ says text.items (the_following self.new)) }
        ensures names { self.new.names ≡ self.old.names }
        ensures same { OnErr result (self.new ≡ self.old) }
    {
        let text = number_line(self.alloc, b"deadline ", deadline)?;
        let made = self.session.deadline(deadline);
        self.answer_replanned(text, made)
    }

    // Makes a change. Its line is made before, so nothing can fail after it.
    fn edit(&mut self, change: Change) -> Result<Vec<u8>, AllocError>
        requires between { HasTimePointEnds (the_labelled self.old.network).base (the_change change) }
        ensures says { IfOk result (λ text. on_edit (the_following self.old) (Ok (the_change change)) ≡ says text.items (the_following self.new)) }
        ensures names { self.new.names ≡ self.old.names }
        ensures same { OnErr result (self.new ≡ self.old) }
    {
        let text = accepted(self.alloc, self.session.fresh(), change)?;
        let made = self.session.edit(change);
        self.answer_edited(text, made)
    }

    // This line of an edit that is made, or the line of why it isn't. So it fails only where nothing is edited.
    fn answer_edited(
        &self,
        text: Vec<u8>,
        made: Result<Verdict, ReplanError>,
    ) -> Result<Vec<u8>, AllocError>
        ensures said { IfOk result (λ said. IsSaidOfEdit text.items made said.items) }
        ensures refused { OnErr result (IsUnmade made) }
    {
        match made {
            Ok(_) => Ok(text),
            Err(ReplanError::Refused(error)) => refused(self.alloc, error),
            Err(ReplanError::TooManyConstraints) => too_many(self.alloc),
            Err(ReplanError::Memory(e)) => Err(e),
        }
    }

    // This line of another deadline that is set, or the line of why it isn't.
    fn answer_replanned(
        &self,
        text: Vec<u8>,
        made: Result<Verdict, RestError>,
    ) -> Result<Vec<u8>, AllocError>
        ensures said { IfOk result (λ said. IsSaidOfReplan text.items made said.items) }
        ensures refused { OnErr result (IsUnmade made) }
    {
        match made {
            Ok(_) => Ok(text),
            Err(RestError::TooManyConstraints) => too_many(self.alloc),
            Err(RestError::Memory(e)) => Err(e),
        }
    }
}

// The line of an accepted change.
fn accepted(alloc: Global, fresh: u32, change: Change) -> Result<Vec<u8>, AllocError>
    ensures line { IfOk result (λ text. text.items ≡ line (accepted_text fresh (the_change change))) }
{
    let mut text = AnswerText::new(alloc)?;
    put_accepted(&mut text, fresh, change);
    bytes_of(alloc, &text)
}

/// The line that refuses a change.
pub(super) fn refused(alloc: Global, error: EditError) -> Result<Vec<u8>, AllocError>
    ensures line { IfOk result (λ text. text.items ≡ line (refused_change_text (the_change_refusal error))) }
{
    let mut text = AnswerText::new(alloc)?;
    put_refusal(&mut text, error);
    bytes_of(alloc, &text)
}

// The line that no time-point has the name, which an end of a constraint is to have.
fn unknown_end(alloc: Global, name: &str) -> Result<Vec<u8>, AllocError>
    ensures line { IfOk result (λ text. text.items ≡ line (refused_change_text (UnknownEnd name.now))) }
{
    let mut text = AnswerText::new(alloc)?;
    put_unknown_end(alloc, &mut text, name)?;
    bytes_of(alloc, &text)
}

// The bytes that were put into a text.
fn bytes_of(alloc: Global, text: &AnswerText) -> Result<Vec<u8>, AllocError>
    ensures bytes { IfOk result (λ bytes. bytes.items ≡ text.now) }
{
    let mut bytes = Vec::new(alloc);
    bytes.extend_from_slice(text.as_bytes())?;
    Ok(bytes)
}
