// What a line would be answered in a session in lines, and another cap.
ghost use Rattle.std.specs.Prelude.{◌≡◌, ◌≤◌, true, false, length, slice_get, IfOk, IfSome, OnErr};
ghost use Rattle.cstn_net.specs.Limits.{most_time_points};
ghost use Rattle.cstn_lines.specs.FollowLines.{the_follow};
ghost use Rattle.cstn_follow.specs.Hearing.{on_follow};
ghost use Rattle.cstn_follow.specs.Asking.{of_line, the_spoken};
ghost use Rattle.cstn_follow.specs.Following.{says, Following as FollowingSession};
ghost use Rattle.cstn_follow.specs.Read.{the_following, the_heard, IsSaidFor};
ghost use Rattle.cstn_follow.specs.Trials.{of_spoken, the_triable, on_cap, on_triable, on_try, is_plan_line, trial_said};

use super::questions::push_name;
use super::{Following, Heard};
use crate::asking::Spoken;
use crate::texts::{name_of_point, room, verdict_in};
use crate::trials::{Triable, is_refusal};
use cstn_label::NodeId;
use cstn_lines::{EditLine, FollowLine};
use cstn_log::Cap;
use cstn_text::{NameKey, Names};
use std::alloc::{AllocError, Global};

impl Following {
    /// A copy of the session. Fails for want of memory alone.
    pub fn copy(&self) -> Result<Following, AllocError>
        ensures same { IfOk result (λ copy. the_following copy ≡ the_following self.now) }
    {
        self.session.network().base().count();
        let session = self.session.copy()?;
        let names = copy_of_names(self.alloc, &self.names)?;
        Ok(Following {
            alloc: self.alloc,
            session,
            names,
            lines: self.lines,
        })
    }

    /// Sets how many entries a log may have, as if the session had been started with it. Answers with the line of the verdict. Fails for
    /// want of memory alone, and then nothing has changed.
    pub fn set_cap(&mut self, cap: Cap) -> Result<Vec<u8>, AllocError>
        ensures says { IfOk result (λ text. on_cap (the_following self.old) cap.entries ≡ says text.items (the_following self.new)) }
        ensures same { OnErr result (self.new ≡ self.old) }
    {
        let room = room(self.alloc)?;
        let verdict = self.session.set_cap(cap)?;
        Ok(verdict_in(room, cap, verdict))
    }

    /// Counts lines on from where another session is.
    pub(crate) fn count_on_from(&mut self, now: &Following)
        ensures recounted { self.new ≡ record self.old { lines = now.now.lines } }
    {
        self.lines = now.lines;
    }

    /// What is said to a line that can be tried. Fails for want of memory alone, and then nothing has changed.
    pub(crate) fn answer_triable(&mut self, line: Triable) -> Result<Heard, AllocError>
        ensures heard { IfOk result (λ heard. on_triable (the_following self.old) (the_triable line) ≡ the_heard self.new heard) }
        ensures same { OnErr result (self.new ≡ self.old) }
        ensures first { slice_get self.new.names 0 ≡ slice_get self.old.names 0 }
        ensures said { IfOk result (IsSaidFor self.old.names) }
    {
        self.is_in_order();
        match line {
            Triable::Line(line) => self.answer(line),
            Triable::Cap(cap) => Ok(Heard::Text(self.set_cap(cap)?)),
        }
    }

    /// What a line would be answered; of an edit or a deadline that wouldn't be refused, the line of the verdict after it. Takes a copy of
    /// the session, unless it is a question. Fails for want of memory alone.
    pub fn try_line(&self, line: Triable) -> Result<Heard, AllocError>
        ensures heard { IfOk result (λ heard. on_try (the_following self.now) (the_triable line) ≡ the_heard self.now heard) }
        ensures said { IfOk result (IsSaidFor self.now.names) }
    {
        self.is_in_order();
        self.try_any(line)
    }

    // What a line would be answered.
    fn try_any(&self, line: Triable) -> Result<Heard, AllocError>
        ensures heard { IfOk result (λ heard. on_try (the_following self.now) (the_triable line) ≡ the_heard self.now heard) }
    {
        match line {
            Triable::Line(line) => self.try_spoken(line),
            Triable::Cap(cap) => self.try_on_copy(Triable::Cap(cap)),
        }
    }

    // What a line that tells, edits or asks, or a further question, would be answered.
    fn try_spoken(&self, line: Spoken) -> Result<Heard, AllocError>
        ensures heard { IfOk result (λ heard. on_try (the_following self.now) (of_spoken (the_spoken line)) ≡ the_heard self.now heard) }
    {
        match line {
            Spoken::Line(line) => self.try_follow(line),
            Spoken::Ask(question) => Ok(Heard::Text(self.ask(question)?)),
            Spoken::Amend(amendment) => {
                self.try_on_copy(Triable::Line(Spoken::Amend(amendment)))
            }
            Spoken::Digest => self.digest(),
        }
    }

    // What a line that tells, edits or asks would be answered.
    fn try_follow(&self, line: FollowLine) -> Result<Heard, AllocError>
        ensures heard { IfOk result (λ heard. on_try (the_following self.now) (of_spoken (of_line (the_follow line))) ≡ the_heard self.now heard) }
    {
        match self.answer_asked(&line)? {
            Some(heard) => Ok(heard),
            None => self.try_on_copy(Triable::Line(Spoken::Line(line))),
        }
    }

    // What is said to a line that asks, if it does.
    fn answer_asked(&self, line: &FollowLine) -> Result<Option<Heard>, AllocError>
        ensures heard { IfOk result (λ o. IfSome o (λ heard. on_follow (the_following self.now) (the_follow line.now) ≡ the_heard self.now heard)) }
        ensures asks { IfOk result (λ o. IfSome o (λ _. is_plan_line (the_follow line.now) ≡ false)) }
    {
        match line {
            FollowLine::Edit(EditLine::Check) => Ok(Some(Heard::Text(self.check()?))),
            FollowLine::Next => Ok(Some(Heard::Text(self.next()?))),
            FollowLine::By { name } => Ok(Some(Heard::Text(self.by(name.as_str())?))),
            FollowLine::Blame => Ok(Some(Heard::Text(self.blame()?))),
            FollowLine::Rest => Ok(Some(self.rest()?)),
            _ => Ok(None),
        }
    }

    // What a line would be answered, by a copy of the session that hears it.
    fn try_on_copy(&self, line: Triable) -> Result<Heard, AllocError>
        ensures heard { IfOk result (λ heard. on_try (the_following self.now) (the_triable line) ≡ the_heard self.now heard) }
    {
        let replans = line.is_replanning();
        let mut copy = self.copy()?;
        let heard = copy.answer_triable(line)?;
        if replans {
            return copy.verdict_unless_refused(heard);
        }
        Ok(heard)
    }

    // What is said, if it is a refusal or a document; else the line of the verdict.
    fn verdict_unless_refused(&self, heard: Heard) -> Result<Heard, AllocError>
        ensures heard { IfOk result (λ h. (s : FollowingSession) → trial_said s true (the_heard self.now heard) ≡ trial_said s false (the_heard self.now h)) }
    {
        match heard {
            Heard::Text(text) => {
                if is_refusal(&text) {
                    return Ok(Heard::Text(text));
                }
                Ok(Heard::Text(self.line_now()?))
            }
            Heard::Rest { network, names } => Ok(Heard::Rest { network, names }),
            Heard::Digest { network, names } => Ok(Heard::Digest { network, names }),
        }
    }
}

/// An equal list of names.
pub(super) fn copy_of_names(alloc: Global, names: &Names) -> Result<Names, AllocError>
    requires few { length names.now ≤ most_time_points }
    ensures { IfOk result (λ copy. copy ≡ names.now) }
{
    let mut copy = Names::new(alloc, NameKey::new(b""));
    for x in 0..names.count() {
        push_name(&mut copy, name_of_point(names, NodeId(x as u16)), true)?;
    }
    Ok(copy)
}
