// `plan FILE [--deadline N]`
ghost use Rattle.std.specs.Prelude.{ℕ, List, ◌≡◌, ◌++◌, IfOk, codes, decimal};
ghost use Rattle.cstn_text.specs.PrintedNames.{printed_name};
ghost use Rattle.cstn_reply.specs.Read.{the_said};
ghost use Rattle.cstn_top.specs.commands.Plan.{at_line, planned, IsPlanTold, IsWhy};

use super::save::save_text;
use cstn_reply::Said;
use cstn_request::{label_fault, network_fault, refusal};
use cstn_sentences::{PlanError, push_printed, read};
use std::alloc::{AllocError, Global};

/// The canonical document of a plan in sentences, or why the plan is refused. Fails for want of memory alone.
pub(crate) fn plan_text(
    alloc: Global,
    text: &[u8],
    deadline: Option<u32>,
) -> Result<Said, AllocError>
    ensures said { IfOk result (λ said. (live : List ℕ) → (planned text.now deadline).output live (the_said said)) }
{
    match read(alloc, text, deadline) {
        Ok((labelled, names)) => save_text(alloc, &labelled, &names),
        Err(error) => refuse(alloc, error),
    }
}

// What is said of a plan that is refused with this error. Fails for want of memory alone, also where that is the error.
fn refuse(alloc: Global, error: PlanError) -> Result<Said, AllocError>
    ensures told { IfOk result (λ said. IsPlanTold error (the_said said)) }
{
    let why = why(alloc, error)?;
    refusal(alloc, b"plan ", &why)
}

// Why a plan is refused with this error. Fails as `refuse` does.
fn why(alloc: Global, error: PlanError) -> Result<Vec<u8>, AllocError>
    ensures why { IfOk result (λ why. IsWhy error why.items) }
{
    match error {
        PlanError::Long => b"long".to_vec(alloc),
        PlanError::Wrong { line, word } => at_word(alloc, line, word),
        PlanError::Range { line } => at_line(alloc, line, b" range", b""),
        PlanError::Twice { line, text } => at_line(alloc, line, b" twice ", text.as_bytes()),
        PlanError::NoName { line, name } => {
            at_line(alloc, line, b" name ", name.as_str().as_bytes())
        }
        PlanError::NoLetter { line, word } => at_line(alloc, line, b" letter ", word.as_bytes()),
        PlanError::NoDeadline => b"deadline".to_vec(alloc),
        PlanError::Net { error, names } => network_fault(alloc, error, &names),
        PlanError::Lift { error, names } => label_fault(alloc, error, &names),
        PlanError::Memory(e) => Err(e),
    }
}

// That the first words of a line, so many, are the beginning of no line.
fn at_word(alloc: Global, line: u32, word: usize) -> Result<Vec<u8>, AllocError>
    ensures why { IfOk result (λ why. why.items ≡ at_line line (codes " word " ++ decimal word)) }
{
    let why = format!(in alloc; "line {line} word {word}")?;
    Ok(why.into_bytes())
}

// What is wrong with a line, and a text of it in the printed form of names.
fn at_line(alloc: Global, line: u32, what: &[u8], text: &[u8]) -> Result<Vec<u8>, AllocError>
    ensures why { IfOk result (λ why. why.items ≡ at_line line (what.now ++ printed_name text.now)) }
{
    let place = format!(in alloc; "line {line}")?;
    let mut why = place.into_bytes();
    why.extend_from_slice(what)?;
    push_printed(&mut why, text)?;
    Ok(why)
}
