// What a session says.
ghost use Rattle.std.specs.Prelude.{◌≡◌, ◌≤◌, ◌++◌, ◌∷◌, [], length, vec_capacity, IfOk, codes, decimal};
ghost use Rattle.cstn_label.specs.Letters.{letter_of};
ghost use Rattle.cstn_history.specs.Read.{the_fact_refusal};
ghost use Rattle.cstn_reply.specs.Texts.{line};
ghost use Rattle.cstn_follow.specs.Following.{verdict_line, too_many, name_of_point};
ghost use Rattle.cstn_follow.specs.FactLines.{refused_fact, unknown_name};
ghost use Rattle.cstn_text.specs.PrintedNames.{printed_name};
ghost use Rattle.cstn_lines.specs.LiveLines.{printed_truth};

use cstn_check::Verdict;
use cstn_history::FactError;
use cstn_label::{NodeId, Prop};
use cstn_log::Cap;
use cstn_reply::truth_word;
use cstn_text::{Names, print_name};
use itoa::Buffer;
use std::alloc::{AllocError, Global};

/// How many bytes an answer without names has at most.
pub const ROOM: usize = 64;

/// Room for an answer without names.
pub fn room(alloc: Global) -> Result<Vec<u8>, AllocError>
    ensures empty { IfOk result (λ text. text.items ≡ []) }
    ensures room { IfOk result (λ text. 64 ≤ vec_capacity text) }
{
    Vec::with_capacity(alloc, ROOM)
}

/// The line of a verdict, in room that was taken before.
pub fn verdict_in(room: Vec<u8>, cap: Cap, verdict: Verdict) -> Vec<u8>
    requires empty { room.items ≡ [] }
    requires room { 64 ≤ vec_capacity room }
    ensures line { result.items ≡ verdict_line cap.entries verdict }
{
    match verdict {
        Verdict::Yes { load } => number_in(room, b"yes ", load),
        Verdict::No { load } => number_in(room, b"no ", load),
        Verdict::Full => number_in(room, b"full ", cap.entries),
    }
}

// A line that ends with a number, in room that was taken before.
fn number_in(mut room: Vec<u8>, word: &[u8], number: u32) -> Vec<u8>
    requires empty { room.items ≡ [] }
    requires room { 64 ≤ vec_capacity room }
    requires short { length word.now ≤ 8 }
    ensures line { result.items ≡ line (word.now ++ decimal number) }
{
    let mut digits = Buffer::new();
    room.extend_from_slice(word).unwrap();
    room.extend_from_slice(digits.format(number).as_bytes())
        .unwrap();
    room.push(b'\n').unwrap();
    room
}

/// The line of a verdict.
pub fn verdict_line(alloc: Global, cap: Cap, verdict: Verdict) -> Result<Vec<u8>, AllocError>
    ensures line { IfOk result (λ text. text.items ≡ verdict_line cap.entries verdict) }
{
    let room = room(alloc)?;
    Ok(verdict_in(room, cap, verdict))
}

/// A line that is a word.
pub fn word_line(alloc: Global, word: &[u8]) -> Result<Vec<u8>, AllocError>
    ensures line { IfOk result (λ text. text.items ≡ line word.now) }
{
    line_of(alloc, word, b"")
}

/// A line that ends with a number.
pub fn number_line(alloc: Global, word: &[u8], number: u32) -> Result<Vec<u8>, AllocError>
    ensures line { IfOk result (λ text. text.items ≡ line (word.now ++ decimal number)) }
{
    let mut digits = Buffer::new();
    line_of(alloc, word, digits.format(number).as_bytes())
}

/// A line that ends with a proposition.
pub fn prop_line(alloc: Global, word: &[u8], prop: Prop) -> Result<Vec<u8>, AllocError>
    ensures line { IfOk result (λ text. text.items ≡ line (word.now ++ letter_of prop.index ∷ [])) }
{
    line_of(alloc, word, &[prop.letter()])
}

// A line of a word and what follows it.
fn line_of(alloc: Global, word: &[u8], rest: &[u8]) -> Result<Vec<u8>, AllocError>
    ensures { IfOk result (λ text. text.items ≡ line (word.now ++ rest.now)) }
{
    let mut text = Vec::with_capacity(alloc, ROOM)?;
    text.extend_from_slice(word)?;
    text.extend_from_slice(rest)?;
    text.push(b'\n')?;
    Ok(text)
}

/// The line that too many constraints would be left.
pub fn too_many(alloc: Global) -> Result<Vec<u8>, AllocError>
    ensures line { IfOk result (λ text. text.items ≡ too_many) }
{
    word_line(alloc, b"refused F8")
}

/// The line that no time-point has the name.
pub fn unknown_name(alloc: Global, name: &str) -> Result<Vec<u8>, AllocError>
    ensures line { IfOk result (λ text. text.items ≡ line (unknown_name name.now)) }
{
    let text = format!(in alloc; "refused F3 {}\n", print_name(alloc, name)?)?;
    Ok(text.into_bytes())
}

/// The name of a time-point, or no text where there is none.
pub fn name_of_point(names: &Names, x: NodeId) -> &str
    ensures { result.now ≡ name_of_point names.now x.0 }
{
    if x.0 as u32 >= names.count() {
        return "";
    }
    names.name(x)
}

/// The line that refuses a fact.
pub fn refused_fact(alloc: Global, names: &Names, error: FactError) -> Result<Vec<u8>, AllocError>
    ensures line { IfOk result (λ text. text.items ≡ line (refused_fact names.now (the_fact_refusal error))) }
{
    match error {
        FactError::Past { now } => number_line(alloc, b"refused F1 ", now),
        FactError::OutOfRange { moment } => number_line(alloc, b"refused F2 ", moment),
        FactError::NoSuch { node } => unknown_name(alloc, name_of_point(names, node)),
        FactError::Done { node, moment } => done_line(alloc, name_of_point(names, node), moment),
        FactError::Undecided { node } => undecided_line(alloc, name_of_point(names, node)),
        FactError::NotObserved { prop } => prop_line(alloc, b"refused F6 ", prop),
        FactError::Told { prop, value } => told_line(alloc, prop, value),
    }
}

fn done_line(alloc: Global, name: &str, moment: u32) -> Result<Vec<u8>, AllocError>
    ensures { IfOk result (λ text. text.items ≡ line (codes "refused F4 " ++ printed_name name.now ++ 32 ∷ decimal moment)) }
{
    let mut text = Vec::with_capacity(alloc, ROOM)?;
    text.extend_from_slice(b"refused F4 ")?;
    text.extend_from_slice(print_name(alloc, name)?.as_bytes())?;
    put_moment(&mut text, moment)?;
    Ok(text)
}

// Puts a space, a moment and the end of the line.
fn put_moment(text: &mut Vec<u8>, moment: u32) -> Result<(), AllocError>
    ensures { IfOk result (λ _. text.new.items ≡ text.old.items ++ 32 ∷ line (decimal moment)) }
{
    let mut digits = Buffer::new();
    text.push(b' ')?;
    text.extend_from_slice(digits.format(moment).as_bytes())?;
    text.push(b'\n')?;
    Ok(())
}

fn undecided_line(alloc: Global, name: &str) -> Result<Vec<u8>, AllocError>
    ensures { IfOk result (λ text. text.items ≡ line (codes "refused F5 " ++ printed_name name.now)) }
{
    let text = format!(in alloc; "refused F5 {}\n", print_name(alloc, name)?)?;
    Ok(text.into_bytes())
}

fn told_line(alloc: Global, prop: Prop, value: bool) -> Result<Vec<u8>, AllocError>
    ensures { IfOk result (λ text. text.items ≡ line (codes "refused F7 " ++ letter_of prop.index ∷ 32 ∷ printed_truth value)) }
{
    let mut text = Vec::with_capacity(alloc, ROOM)?;
    text.extend_from_slice(b"refused F7 ")?;
    text.push(prop.letter())?;
    text.push(b' ')?;
    text.extend_from_slice(truth_word(value))?;
    text.push(b'\n')?;
    Ok(text)
}
