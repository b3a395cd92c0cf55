// The check of a tree: the first line that breaks, found in one walk along the lines.
ghost use Rattle.std.specs.Prelude.{ℕ, ◌≡◌, ◌<◌, ◌+◌, ◌^◌, ◌∷◌, [], ◌↔◌, length, map, IfOk, Option, Some, None};
ghost use Rattle.std.specs.List.{All};
ghost use Rattle.cstn_net.specs.Networks.{count, IsWellFormed};
ghost use Rattle.cstn_net.specs.Strategies.{IsStrategy, IsConsistent};
ghost use Rattle.cstn_net.specs.Read.{the_network};
ghost use Rattle.cstn_tree.specs.declared.checking.TreeAnswer.TheVariants.{Accepted};
ghost use Rattle.cstn_outline.specs.Trees.{Tree, IsAmong, lines_of_tree, names_on, table_of};
ghost use Rattle.cstn_tree.specs.Good.{branch_begun, first_broken, IsUnbroken};
ghost use Rattle.cstn_tree.specs.Walks.{first_broken_in};
ghost use Rattle.cstn_outline.specs.Read.{the_tree_line, the_tree};
ghost use Rattle.cstn_tree.specs.Branches.{the_answer};

use crate::starts::Starts;
use crate::walks::{Step, Walk};
use cstn_net::Network;
use cstn_outline::{Line, Tree};
use std::alloc::{AllocError, Global};

/// What a check of a tree answers.
#[derive(Clone, Copy, Debug, PartialEq, Eq)]
pub enum TreeAnswer {
    /// No line breaks.
    Accepted,
    /// The first line of the tree's text that breaks. Lines are counted from 1, and line 1 is that of the load.
    Rejected { line: u32 },
}

/// Whether the tree is good for the network. A tree that is accepted stands for a strategy. Fails for want of memory alone.
///
/// Takes time in proportion to the constraints at the time-points that are named on each `at`, and to the time-points for each
/// `ask` and `done`. Before that, each constraint is looked at once.
pub fn check(alloc: Global, net: &Network, tree: &Tree) -> Result<TreeAnswer, AllocError>
    requires among { IsAmong (count (the_network net.now)) (the_tree tree.now) }
    requires few { length tree.now + 1 < 2 ^ 32 }
    ensures accepted { IfOk result (λ a. (a ≡ Accepted) ↔ IsUnbroken (the_network net.now) (the_tree tree.now)) }
    ensures first { IfOk result (λ a. the_answer a ≡ first_broken (the_network net.now) (the_tree tree.now)) }
    ensures strategy { IfOk result (λ a. a ≡ Accepted → IsStrategy (the_network net.now) (table_of (the_tree tree.now))) }
    ensures consistent { IfOk result (λ a. a ≡ Accepted → IsConsistent (the_network net.now)) }
{
    net.count();
    let broken = first_broken(alloc, net, tree.lines())?;
    Ok(answer(broken))
}

fn answer(broken: Option<u32>) -> TreeAnswer
    ensures { the_answer result ≡ broken }
{
    match broken {
        Some(line) => TreeAnswer::Rejected { line },
        None => TreeAnswer::Accepted,
    }
}

// The first line that breaks among lines in preorder. They are counted from 2, since the line of the load is 1.
fn first_broken(alloc: Global, net: &Network, lines: &[Line]) -> Result<Option<u32>, AllocError>
    requires among { All (λ l. All (λ x. x < count (the_network net.now)) (names_on l)) (map the_tree_line lines.now) }
    requires few { length lines.now + 1 < 2 ^ 32 }
    ensures first { IfOk result (λ line. line ≡ first_broken_in (the_network net.now) (branch_begun ∷ []) (map the_tree_line lines.now) 2) }
{
    let starts = Starts::of(alloc, net)?;
    let mut walk = Walk::start(alloc, net)?;
    for k in 0..lines.len() {
        match walk.step(alloc, net, &starts, &lines[k])? {
            Step::Broken => return Ok(Some(k as u32 + 2)),
            Step::On => {}
            Step::End => return Ok(None),
        }
    }
    Ok(None)
}
