// Trees as texts.
ghost use Rattle.std.specs.Prelude.{ℕ, ◌≡◌, ◌<◌, ◌≤◌, ◌++◌, ◌∷◌, [], length, map, flat_map, slice_index_or, string_bytes, IfOk, OnOk, codes};
ghost use Rattle.std.specs.List.{All};
ghost use Rattle.cstn_net.specs.Limits.{most_load};
ghost use Rattle.cstn_text.specs.Names.{AreNames};
ghost use Rattle.cstn_text.specs.Numbers.{printed_number};
ghost use Rattle.cstn_text.specs.PrintedNames.{printed_name};
ghost use Rattle.cstn_outline.specs.Trees.{IsAmong, names_on};
ghost use Rattle.cstn_outline.specs.Texts.{tree_shown, printed_line, tree_told, tells};
ghost use Rattle.cstn_outline.specs.Written.{TreeFitsText, IsPrintableLine};
ghost use Rattle.cstn_outline.specs.Read.{the_tree_line, the_tree};
ghost use Rattle.cstn_outline.specs.Read.{node_numbers};

use crate::trees::{Line, Tree};
use cstn_label::NodeId;
use cstn_text::{Names, print_name, push_load, push_number};
use std::alloc::{AllocError, Global};

/// The text of a tree: a line for the load, and one for each line of the tree.
///
/// Where each `at` names a time-point and no branch has more than 2,100 lines, the text is read again as the same tree.
/// Beside the text it takes memory for one name at a time. Fails for want of memory alone.
pub fn print(alloc: Global, tree: &Tree, load: u32, names: &Names) -> Result<String, AllocError>
    requires named { IsAmong (length names.now) (the_tree tree.now) }
    requires load { (1 ≤ load) × (load ≤ most_load) }
    ensures shown { IfOk result (λ text. string_bytes text ≡ tree_shown names.now load tree.now) }
    ensures back { TreeFitsText (the_tree tree.now) → IfOk result (λ text. tree_told names.now (string_bytes text) ≡ tells tree.now) }
{
    // The names are different, and each is one of 1 to 64 bytes.
    names.count();
    let lines = tree.lines();
    let mut text = String::new(alloc);
    push_load(&mut text, "yes", load)?;
    for k in 0..lines.len() {
        push_line(alloc, &mut text, names, &lines[k])?;
        text.push('\n')?;
    }
    Ok(text)
}

// Appends a line of the tree, without its LF.
fn push_line(alloc: Global, text: &mut String, names: &Names, line: &Line) -> Result<(), AllocError>
    requires named { All (λ x. x < length names.now) (names_on (the_tree_line line.now)) }
    ensures pushed { OnOk result (string_bytes text.new ≡ string_bytes text.old ++ printed_line names.now (the_tree_line line.now)) }
    ensures written { OnOk result (IsPrintableLine names.now (the_tree_line line.now)) }
{
    match line {
        Line::At { moment, named } => {
            text.push_str("at ")?;
            push_number(text, *moment as u64)?;
            push_names(alloc, text, names, named.as_slice())
        }
        Line::Ask { prop } => {
            text.push_str("ask ")?;
            text.push(char::from(prop.letter()))
        }
        Line::Done => text.push_str("done"),
    }
}

// Appends the names of time-points, each after a space.
fn push_names(
    alloc: Global,
    text: &mut String,
    names: &Names,
    named: &[NodeId],
) -> Result<(), AllocError>
    requires named { All (λ x. x.0 < length names.now) named.now }
    ensures pushed { OnOk result (string_bytes text.new ≡ string_bytes text.old
        ++ flat_map (λ x. 32 ∷ printed_name (slice_index_or names.now x [])) (node_numbers named.now)) }
{
    for x in named {
        text.push(' ')?;
        let name = print_name(alloc, names.name(*x))?;
        text.push_str(&name)?;
    }
    Ok(())
}
