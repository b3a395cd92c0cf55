// The parts of a tree's line.
ghost use Rattle.std.specs.Prelude.{ℕ, ◌≡◌, ◌<◌, ◌≤◌, IfSome, IfOk, IfNone, None, Some, [], length, map};
ghost use Rattle.std.specs.List.{All};
ghost use Rattle.std.specs.Option.{option_map};
ghost use Rattle.cstn_label.specs.Limits.{most_ids};
ghost use Rattle.cstn_outline.specs.Trees.{names_on};
ghost use Rattle.cstn_outline.specs.Texts.{tree_names_read, at_read, ask_read, tree_word_read, tree_line_read};
ghost use Rattle.cstn_outline.specs.Read.{the_tree_line};

use crate::trees::{Line, Named};
use cstn_label::Prop;
use cstn_text::{Names, part, read_node, read_number_within};
use std::alloc::{AllocError, Global};

// The time-points of one name or more, with a space between names; none where the text isn't of that form.
fn read_names(alloc: Global, names: &Names, bytes: &[u8]) -> Result<Option<Named>, AllocError>
    requires few { length names.now ≤ most_ids }
    ensures read { IfOk result (λ named. option_map (λ n. n) named ≡ tree_names_read names.now bytes.now) }
    ensures inside { IfOk result (λ named. IfSome named (λ n. All (λ x. x < length names.now) n)) }
{
    let mut nodes = Vec::new(alloc);
    let mut left = bytes;
    while let Some((name, rest)) = part(left) {
        let Some(x) = read_node(names, name) else {
            return Ok(None);
        };
        nodes.push(x)?;
        left = rest;
    }
    let Some(x) = read_node(names, left) else {
        return Ok(None);
    };
    nodes.push(x)?;
    Ok(Some(Named { nodes }))
}

fn read_at(alloc: Global, names: &Names, bytes: &[u8]) -> Result<Option<Line>, AllocError>
    requires few { length names.now ≤ most_ids }
    ensures read { IfOk result (λ line. option_map the_tree_line line ≡ at_read names.now bytes.now) }
    ensures inside { IfOk result (λ line. IfSome line (λ l. All (λ x. x < length names.now) (names_on (the_tree_line l)))) }
{
    let Some((moment, rest)) = part(bytes) else {
        return Ok(None);
    };
    let Some(moment) = read_number_within(0, u32::MAX, moment) else {
        return Ok(None);
    };
    match read_names(alloc, names, rest)? {
        Some(named) => Ok(Some(Line::At { moment, named })),
        None => Ok(None),
    }
}

fn read_ask(bytes: &[u8]) -> Option<Line>
    ensures read { option_map the_tree_line result ≡ ask_read bytes.now }
    ensures names { IfSome result (λ l. names_on (the_tree_line l) ≡ []) }
{
    match bytes {
        [letter] => {
            let prop = Prop::from_letter(*letter)?;
            Some(Line::Ask { prop })
        }
        _ => None,
    }
}

fn read_word(
    alloc: Global,
    names: &Names,
    word: &[u8],
    rest: &[u8],
) -> Result<Option<Line>, AllocError>
    requires few { length names.now ≤ most_ids }
    ensures read { IfOk result (λ line. option_map the_tree_line line ≡ tree_word_read names.now word.now rest.now) }
    ensures inside { IfOk result (λ line. IfSome line (λ l. All (λ x. x < length names.now) (names_on (the_tree_line l)))) }
{
    if word == b"at".as_slice() {
        return read_at(alloc, names, rest);
    }
    if word == b"ask".as_slice() {
        return Ok(read_ask(rest));
    }
    Ok(None)
}

/// The line of a tree that a text is, if it is one. Fails for want of memory alone.
pub fn read_line(alloc: Global, names: &Names, bytes: &[u8]) -> Result<Option<Line>, AllocError>
    requires few { length names.now ≤ most_ids }
    ensures read { IfOk result (λ line. option_map the_tree_line line ≡ tree_line_read names.now bytes.now) }
    ensures inside { IfOk result (λ line. IfSome line (λ l. All (λ x. x < length names.now) (names_on (the_tree_line l)))) }
{
    if bytes == b"done".as_slice() {
        return Ok(Some(Line::Done));
    }
    match part(bytes) {
        Some((word, rest)) => read_word(alloc, names, word, rest),
        None => Ok(None),
    }
}
