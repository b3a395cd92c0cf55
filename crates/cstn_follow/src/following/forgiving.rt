// Forgiving what was done has broken, in lines.
ghost use Rattle.std.specs.Prelude.{◌≡◌, IfOk, OnErr};
ghost use Rattle.cstn_follow.specs.Amending.{the_amendment};
ghost use Rattle.cstn_follow.specs.Following.{says};
ghost use Rattle.cstn_follow.specs.ForgivingLines.{on_forgive};
ghost use Rattle.cstn_follow.specs.Hearing.{on_amendment};
ghost use Rattle.cstn_follow.specs.Read.{the_following};

use super::Following;
use super::edits::refused;
use crate::amending::Amendment;
use crate::errors::ForgiveError;
use crate::lists::forgiven_line;
use cstn_change::EditError;
use std::alloc::AllocError;

impl Following {
    /// What is said to an amendment of the plan. Fails for want of memory alone, and then nothing has changed.
    pub fn amend(&mut self, amendment: Amendment) -> Result<Vec<u8>, AllocError>
        ensures says { IfOk result (λ text. on_amendment (the_following self.old) (the_amendment amendment)
            ≡ says text.items (the_following self.new)) }
        ensures same { OnErr result (self.new ≡ self.old) }
    {
        match amendment {
            Amendment::Forgive => self.forgive(),
            Amendment::Step { name } => self.step(&name),
        }
    }

    /// Removes each constraint that what was done has broken, which counts as an edit each. Answers with the line of their ids, in
    /// ascending order, or with the line that refuses it, by S6, and then nothing has changed. Fails for want of memory alone, and then
    /// nothing has changed either.
    pub fn forgive(&mut self) -> Result<Vec<u8>, AllocError>
        ensures says { IfOk result (λ text. on_forgive (the_following self.old) ≡ says text.items (the_following self.new)) }
        ensures names { self.new.names ≡ self.old.names }
        ensures same { OnErr result (self.new ≡ self.old) }
    {
        let ids = self.session.broken()?;
        let text = forgiven_line(self.alloc, &ids)?;
        match self.session.forgive() {
            Ok(_) => Ok(text),
            Err(ForgiveError::EditLimit) => refused(self.alloc, EditError::EditLimit),
            Err(ForgiveError::Memory(e)) => Err(e),
        }
    }
}
