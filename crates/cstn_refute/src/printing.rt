// Refutations as texts.
ghost use Rattle.std.specs.Prelude.{◌≡◌, ◌<◌, ◌++◌, ◌∷◌, [], length, map, string_bytes, IfOk, OnOk, codes};
ghost use Rattle.std.specs.List.{All};
ghost use Rattle.cstn_label.specs.Read.{the_bound, marks};
ghost use Rattle.cstn_text.specs.Names.{AreNames};
ghost use Rattle.cstn_text.specs.Numbers.{printed_number, printed_value};
ghost use Rattle.cstn_text.specs.PrintedLabels.{printed_label};
ghost use Rattle.cstn_text.specs.PrintedNames.{printed_name};
ghost use Rattle.cstn_refute.specs.Refutations.{FitsText, the_steps};
ghost use Rattle.cstn_refute.specs.Steps.{printed_why};
ghost use Rattle.cstn_refute.specs.Texts.{refutation_shown, refutation_told, tells};
ghost use Rattle.cstn_refute.specs.Written.{ArePlaces};

use crate::refutations::Refutation;
use cstn_label::{Bound, labels_are_their_marks};
use cstn_rules::{Entry, Why};
use cstn_text::{Names, print_names, push_label, push_load, push_number, push_value};
use std::alloc::{AllocError, Global};

// A usual line has fewer bytes. Room for longer ones is taken as they come.
const USUAL_LINE: usize = 40;

impl Refutation {
    /// The text of the refutation: a line for its load, and one for each step. Fails only where memory is refused.
    ///
    /// Where the load is from 1 to 4,194,304 and there are at most 4,194,304 steps, the text is read again as the same
    /// refutation. Beside the text it takes memory for the printed names, and none for a line.
    pub fn print(&self, alloc: Global, names: &Names) -> Result<String, AllocError>
        requires named { All (λ e. e.bound.node.0 < length names.now) self.now.steps }
        ensures shown { IfOk result (λ text. string_bytes text ≡ refutation_shown names.now self.now.load (the_steps self.now)) }
        ensures back { FitsText self.now → IfOk result (λ text. refutation_told names.now (string_bytes text) ≡ tells self.now.load (the_steps self.now)) }
    {
        labels_are_their_marks();
        let printed = print_names(alloc, names)?;
        let steps = self.steps();
        let mut text = String::with_capacity(alloc, USUAL_LINE * (steps.len() + 1))?;
        push_load(&mut text, "no", self.load())?;
        for (k, step) in steps.iter().enumerate() {
            push_step(&mut text, k, *step, &printed[step.bound.node.index()])?;
        }
        Ok(text)
    }
}

// Appends the line of the step at the place k, at the time-point of this printed name.
fn push_step(text: &mut String, k: usize, step: Entry, name: &str) -> Result<(), AllocError>
    ensures pushed { OnOk result (string_bytes text.new ≡ string_bytes text.old
        ++ (printed_number k ++ 32 ∷ printed_why step.why ++ 32 ∷ name.now ++ 32 ∷ printed_value step.bound.least
        ++ 32 ∷ printed_label (marks step.bound.label) ++ 10 ∷ [])) }
    ensures places { ArePlaces step.why }
{
    push_number(text, k as u64)?;
    text.push(' ')?;
    push_why(text, step.why)?;
    text.push(' ')?;
    push_bound(text, step.bound, name)
}

// Appends the rule's word and its places.
fn push_why(text: &mut String, why: Why) -> Result<(), AllocError>
    ensures pushed { OnOk result (string_bytes text.new ≡ string_bytes text.old ++ printed_why why) }
    ensures places { ArePlaces why }
{
    match why {
        Why::Base => text.push_str("base"),
        Why::Chain {
            constraint,
            premise,
        } => push_places(text, "chain ", constraint, premise),
        Why::Wait { seen, premise } => push_places(text, "wait ", seen, premise),
    }
}

// Appends a word and two places.
fn push_places(text: &mut String, word: &str, i: u32, j: u32) -> Result<(), AllocError>
    ensures pushed { OnOk result (string_bytes text.new ≡ string_bytes text.old ++ (word.now ++ printed_number i ++ 32 ∷ printed_number j)) }
{
    text.push_str(word)?;
    push_number(text, i as u64)?;
    text.push(' ')?;
    push_number(text, j as u64)
}

// Appends a bound's parts and the end of the line.
fn push_bound(text: &mut String, bound: Bound, name: &str) -> Result<(), AllocError>
    ensures pushed { OnOk result (string_bytes text.new ≡ string_bytes text.old
        ++ (name.now ++ 32 ∷ printed_value bound.least ++ 32 ∷ printed_label (marks bound.label) ++ 10 ∷ [])) }
{
    text.push_str(name)?;
    text.push(' ')?;
    push_value(text, bound.least)?;
    text.push(' ')?;
    push_label(text, bound.label)?;
    text.push('\n')
}
