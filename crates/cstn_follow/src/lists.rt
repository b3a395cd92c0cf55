// What a session says that lists names, letters or ids.
ghost use Rattle.std.specs.Prelude.{◌≡◌, ◌++◌, ◌∷◌, [], map, IfOk, codes, decimal};
ghost use Rattle.cstn_label.specs.Letters.{letter_of};
ghost use Rattle.cstn_text.specs.PrintedNames.{printed_name};
ghost use Rattle.cstn_reply.specs.Texts.{line};
ghost use Rattle.cstn_follow.specs.ForgivingLines.{forgiven_line};
ghost use Rattle.cstn_follow.specs.Questions.{names_text, steps_to_do_text, outcomes_text, next_text};
ghost use Rattle.cstn_follow.specs.Searches.{by_line, ids_text};

use crate::texts::{ROOM, name_of_point};
use cstn_label::{NodeId, Prop};
use cstn_next::NextMoment;
use cstn_text::{Names, print_name};
use itoa::Buffer;
use std::alloc::{AllocError, Global};

/// The line that tells what is next.
pub fn next_line(alloc: Global, names: &Names, next: &NextMoment) -> Result<Vec<u8>, AllocError>
    ensures line { IfOk result (λ text. text.items
        ≡ line (next_text names.now next.now.moment (map (λ x. x.0) next.now.named.items) (map (λ p. p.index) next.now.awaited.items))) }
{
    let mut text = Vec::with_capacity(alloc, ROOM)?;
    put_moment(&mut text, next.moment)?;
    put_steps(alloc, &mut text, names, &next.named)?;
    put_outcomes(&mut text, &next.awaited)?;
    text.push(b'\n')?;
    Ok(text)
}

// Puts the word and the moment of what is next.
fn put_moment(text: &mut Vec<u8>, moment: u32) -> Result<(), AllocError>
    ensures { IfOk result (λ _. text.new.items ≡ text.old.items ++ codes "next " ++ decimal moment) }
{
    let mut digits = Buffer::new();
    text.extend_from_slice(b"next ")?;
    text.extend_from_slice(digits.format(moment).as_bytes())
}

// Puts the names of the time-points that are to be executed.
fn put_steps(
    alloc: Global,
    text: &mut Vec<u8>,
    names: &Names,
    nodes: &[NodeId],
) -> Result<(), AllocError>
    ensures { IfOk result (λ _. text.new.items ≡ text.old.items ++ steps_to_do_text names.now (map (λ x. x.0) nodes.now)) }
{
    if nodes.is_empty() {
        return Ok(());
    }
    text.extend_from_slice(b" do")?;
    put_names(alloc, text, names, nodes)
}

// Puts names, each behind a space.
fn put_names(
    alloc: Global,
    text: &mut Vec<u8>,
    names: &Names,
    nodes: &[NodeId],
) -> Result<(), AllocError>
    ensures { IfOk result (λ _. text.new.items ≡ text.old.items ++ names_text names.now (map (λ x. x.0) nodes.now)) }
{
    for x in nodes {
        put_name(alloc, text, name_of_point(names, *x))?;
    }
    Ok(())
}

fn put_name(alloc: Global, text: &mut Vec<u8>, name: &str) -> Result<(), AllocError>
    ensures { IfOk result (λ _. text.new.items ≡ text.old.items ++ 32 ∷ printed_name name.now) }
{
    text.push(b' ')?;
    text.extend_from_slice(print_name(alloc, name)?.as_bytes())
}

// Puts the letters of the propositions whose outcomes are awaited.
fn put_outcomes(text: &mut Vec<u8>, props: &[Prop]) -> Result<(), AllocError>
    ensures { IfOk result (λ _. text.new.items ≡ text.old.items ++ outcomes_text (map (λ p. p.index) props.now)) }
{
    if props.is_empty() {
        return Ok(());
    }
    text.extend_from_slice(b" wait ")?;
    put_letters(text, props)
}

fn put_letters(text: &mut Vec<u8>, props: &[Prop]) -> Result<(), AllocError>
    ensures { IfOk result (λ _. text.new.items ≡ text.old.items ++ map letter_of (map (λ p. p.index) props.now)) }
{
    for p in props {
        text.push(p.letter())?;
    }
    Ok(())
}

/// The line of the moment, in ticks, until which a time-point can wait.
pub fn by_line(alloc: Global, names: &Names, moment: u32, x: NodeId) -> Result<Vec<u8>, AllocError>
    ensures line { IfOk result (λ text. text.items ≡ by_line names.now moment x.0) }
{
    let mut digits = Buffer::new();
    let mut text = Vec::with_capacity(alloc, ROOM)?;
    text.extend_from_slice(b"by ")?;
    text.extend_from_slice(digits.format(moment).as_bytes())?;
    put_name(alloc, &mut text, name_of_point(names, x))?;
    text.push(b'\n')?;
    Ok(text)
}

/// The line of the moment, in ticks, until which the outcome of a proposition may be late.
pub fn late_line(alloc: Global, moment: u32, p: Prop) -> Result<Vec<u8>, AllocError>
    ensures line { IfOk result (λ text. text.items ≡ line (codes "late " ++ decimal moment ++ 32 ∷ letter_of p.index ∷ [])) }
{
    let mut digits = Buffer::new();
    let mut text = Vec::with_capacity(alloc, ROOM)?;
    text.extend_from_slice(b"late ")?;
    text.extend_from_slice(digits.format(moment).as_bytes())?;
    text.push(b' ')?;
    text.push(p.letter())?;
    text.push(b'\n')?;
    Ok(text)
}

/// The line of the ids of the constraints that are to blame.
pub fn blame_line(alloc: Global, ids: &[u32]) -> Result<Vec<u8>, AllocError>
    ensures line { IfOk result (λ text. text.items ≡ line (codes "blame" ++ ids_text ids.now)) }
{
    let mut text = Vec::with_capacity(alloc, ROOM)?;
    text.extend_from_slice(b"blame")?;
    put_ids(&mut text, ids)?;
    text.push(b'\n')?;
    Ok(text)
}

/// The line of the ids of the constraints that are forgiven.
pub fn forgiven_line(alloc: Global, ids: &[u32]) -> Result<Vec<u8>, AllocError>
    ensures line { IfOk result (λ text. text.items ≡ forgiven_line ids.now) }
{
    let mut text = Vec::with_capacity(alloc, ROOM)?;
    text.extend_from_slice(b"forgiven")?;
    put_ids(&mut text, ids)?;
    text.push(b'\n')?;
    Ok(text)
}

// Puts ids, each behind a space.
fn put_ids(text: &mut Vec<u8>, ids: &[u32]) -> Result<(), AllocError>
    ensures { IfOk result (λ _. text.new.items ≡ text.old.items ++ ids_text ids.now) }
{
    for id in ids {
        put_id(text, *id)?;
    }
    Ok(())
}

fn put_id(text: &mut Vec<u8>, id: u32) -> Result<(), AllocError>
    ensures { IfOk result (λ _. text.new.items ≡ text.old.items ++ 32 ∷ decimal id) }
{
    let mut digits = Buffer::new();
    text.push(b' ')?;
    text.extend_from_slice(digits.format(id).as_bytes())
}
