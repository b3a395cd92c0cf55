// A further time-point, in lines.
ghost use Rattle.std.specs.Prelude.{◌≡◌, ◌≤◌, ◌<◌, ◌++◌, ◌∷◌, [], length, IfOk, OnErr, codes};
ghost use Rattle.cstn_net.specs.Limits.{most_time_points};
ghost use Rattle.cstn_net.specs.Networks.{count};
ghost use Rattle.cstn_lift.specs.Read.{the_labelled};
ghost use Rattle.cstn_history.specs.Read.{the_history};
ghost use Rattle.cstn_text.specs.PrintedNames.{printed_name};
ghost use Rattle.cstn_reply.specs.Texts.{line};
ghost use Rattle.cstn_follow.specs.Following.{says};
ghost use Rattle.cstn_follow.specs.Read.{the_following};
ghost use Rattle.cstn_follow.specs.StepLines.{on_step, twice_refusal};
ghost use Rattle.cstn_follow.specs.Told.{IsSaidOfStep};

use super::Following;
use super::edits::refused;
use super::questions::push_name;
use super::trials::copy_of_names;
use crate::errors::StepError;
use crate::texts::{refused_fact, too_many, word_line};
use cstn_change::EditError;
use cstn_history::FactError;
use cstn_label::NodeId;
use cstn_lines::NameText;
use cstn_text::{Names, print_name};
use std::alloc::{AllocError, Global};

impl Following {
    /// Puts a further time-point of this name behind the last one, which observes nothing and has no label, and which nothing ties to the
    /// others yet. It counts as an edit. Answers with the line of its name, or with the line that refuses it, and then nothing has
    /// changed: the first that applies of F4 where a time-point of the name is done, S8 where there is one, S6, S9 where there are 1,024
    /// time-points, and F8. Fails for want of memory alone, and then nothing has changed either.
    pub fn step(&mut self, name: &NameText) -> Result<Vec<u8>, AllocError>
        ensures says { IfOk result (λ text. on_step (the_following self.old) name.now ≡ says text.items (the_following self.new)) }
        ensures same { OnErr result (self.new ≡ self.old) }
    {
        self.is_in_order();
        let name = name.as_str();
        if let Some(x) = self.node(name) {
            return self.refused_twice(x, name);
        }
        let names = names_with(self.alloc, &self.names, name)?;
        let text = step_line(self.alloc, name)?;
        match self.session.step() {
            Ok(_) => {
                self.names = names;
                Ok(text)
            }
            Err(error) => refused_step(self.alloc, error),
        }
    }

    // The line that refuses a name that a time-point has.
    fn refused_twice(&self, x: NodeId, name: &str) -> Result<Vec<u8>, AllocError>
        requires inside { x.0 < count (the_labelled self.now.network).base }
        ensures line { IfOk result (λ text. text.items ≡ line (twice_refusal self.now.names name.now x.0 ((the_history self.now.history).done x.0))) }
    {
        self.session.network();
        match self.session.history().done(x) {
            Some(moment) => {
                refused_fact(self.alloc, &self.names, FactError::Done { node: x, moment })
            }
            None => known_name(self.alloc, name),
        }
    }
}

// The line that a time-point has the name.
fn known_name(alloc: Global, name: &str) -> Result<Vec<u8>, AllocError>
    ensures { IfOk result (λ text. text.items ≡ line (codes "refused S8 " ++ printed_name name.now)) }
{
    let text = format!(in alloc; "refused S8 {}\n", print_name(alloc, name)?)?;
    Ok(text.into_bytes())
}

// The line that there is a further time-point of the name.
fn step_line(alloc: Global, name: &str) -> Result<Vec<u8>, AllocError>
    ensures { IfOk result (λ text. text.items ≡ line (codes "step " ++ printed_name name.now)) }
{
    let text = format!(in alloc; "step {}\n", print_name(alloc, name)?)?;
    Ok(text.into_bytes())
}

// The line of why there is no further time-point, unless that is want of memory.
fn refused_step(alloc: Global, error: StepError) -> Result<Vec<u8>, AllocError>
    ensures { IfOk result (λ text. IsSaidOfStep error text.items) }
{
    match error {
        StepError::EditLimit => refused(alloc, EditError::EditLimit),
        StepError::NoPlace => word_line(alloc, b"refused S9"),
        StepError::TooManyConstraints => too_many(alloc),
        StepError::Memory(e) => Err(e),
    }
}

// The names with a further one.
fn names_with(alloc: Global, names: &Names, name: &str) -> Result<Names, AllocError>
    requires few { length names.now ≤ most_time_points }
    ensures { IfOk result (λ more. more ≡ names.now ++ name.now ∷ []) }
{
    let mut more = copy_of_names(alloc, names)?;
    push_name(&mut more, name, true)?;
    Ok(more)
}
