// The check of a tree's text.
ghost use Rattle.std.specs.Prelude.{◌≡◌, ◌≤◌, ◌<◌, ◌+◌, ◌^◌, ◌++◌, ℕ, List, length, IfOk, codes, decimal};
ghost use Rattle.cstn_label.specs.Limits.{most_ids};
ghost use Rattle.cstn_net.specs.Networks.{count};
ghost use Rattle.cstn_net.specs.Read.{the_network};
ghost use Rattle.cstn_text.specs.Limits.{most_text};
ghost use Rattle.cstn_reply.specs.Read.{the_said};
ghost use Rattle.cstn_reply.specs.Texts.{say};
ghost use Rattle.cstn_tree.specs.Checked.{told_of_line, tree_checked};
ghost use Rattle.cstn_tree.specs.Good.{first_broken};
ghost use Rattle.cstn_outline.specs.Read.{the_tree};
ghost use Rattle.cstn_outline.specs.Trees.{IsAmong};

use crate::{TreeAnswer, check};
use cstn_net::Network;
use cstn_outline::{Tree, TreeError, read};
use cstn_reply::{Outcome, Said, accepted, wrong_line};
use cstn_text::Names;
use std::alloc::{AllocError, Global};

/// Says that the tree of a text is good for the network, or which line of it breaks first; of a text that isn't of the form,
/// the first line that is wrong. Fails for want of memory alone.
pub fn treecheck_text(
    alloc: Global,
    network: &Network,
    names: &Names,
    text: &[u8],
) -> Result<Said, AllocError>
    requires named { length names.now ≡ count (the_network network.now) }
    requires few { length names.now ≤ most_ids }
    requires short { length text.now ≤ most_text }
    ensures said { IfOk result (λ said. the_said said ≡ tree_checked text.now names.now (the_network network.now)) }
{
    match read(alloc, names, text) {
        Ok(tree) => check_lines(alloc, network, &tree),
        Err(TreeError::Line { line }) => wrong_line(alloc, line),
        Err(TreeError::Memory(error)) => Err(error),
    }
}

// The check of a tree for a network.
fn check_lines(alloc: Global, network: &Network, tree: &Tree) -> Result<Said, AllocError>
    requires among { IsAmong (count (the_network network.now)) (the_tree tree.now) }
    requires few { length tree.now + 1 < 2 ^ 32 }
    ensures said { IfOk result (λ said. the_said said ≡ told_of_line (first_broken (the_network network.now) (the_tree tree.now))) }
{
    match check(alloc, network, tree) {
        Ok(TreeAnswer::Accepted) => accepted(alloc),
        Ok(TreeAnswer::Rejected { line }) => rejected(alloc, line),
        Err(error) => Err(error),
    }
}

fn rejected(alloc: Global, line: u32) -> Result<Said, AllocError>
    ensures said { IfOk result (λ said. the_said said ≡ say Outcome.Bad (codes "rejected " ++ decimal line)) }
{
    let text = format!(in alloc; "rejected {line}\n")?;
    Ok(Said {
        outcome: Outcome::Bad,
        text: text.into_bytes(),
    })
}
