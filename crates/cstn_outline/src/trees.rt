// Trees, as their lines.
ghost use Rattle.std.specs.Prelude.{◌≡◌, map};
ghost use Rattle.cstn_outline.specs.Trees.{lines_of_tree};
ghost use Rattle.cstn_outline.specs.Read.{the_tree_line, the_tree, AreWhole};

use cstn_label::{NodeId, Prop};
use std::marker::Model;

/// The time-points that a line names.
#[derive(Debug, Drop)]
pub struct Named {
    pub(crate) nodes: Vec<NodeId>,
}

impl Model for Named {
    ghost use Rattle.std.specs.Prelude.{ℕ, List, map};

    ghost Value = { List ℕ };

    ghost view = { λ n. map (λ x. x.0) n.nodes.items };
}

impl Named {
    /// These time-points, in this order.
    pub fn new(nodes: Vec<NodeId>) -> Named
        ensures nodes { result ≡ map (λ x. x.0) nodes.items }
    {
        Named { nodes }
    }

    /// The time-points, in the order of the line.
    pub fn as_slice(&self) -> &[NodeId]
        ensures nodes { map (λ x. x.0) result.now ≡ self.now }
    {
        &self.nodes
    }
}

/// A line of a tree.
#[derive(Debug, Drop)]
pub enum Line {
    /// These time-points are executed at a moment, in ticks.
    At { moment: u32, named: Named },
    /// What follows goes by the outcome of a proposition: first the lines for true, and then those for false.
    Ask { prop: Prop },
    /// All is executed.
    Done,
}

/// A tree that says when each time-point is executed, by the outcomes that were seen before: its lines in preorder.
#[derive(Debug, Drop)]
pub struct Tree {
    pub(crate) lines: Vec<Line>,
}

impl Model for Tree {
    ghost use Rattle.std.specs.Prelude.{List, map};
    ghost use Rattle.cstn_outline.specs.Trees.{TreeLine};
    ghost use Rattle.cstn_outline.specs.Read.{the_tree_line, AreWhole};

    ghost Value = { List TreeLine };

    ghost view = { λ t. map the_tree_line t.lines.items };

    ghost invariant = { λ t. AreWhole (map the_tree_line t.lines.items) };
}

impl Tree {
    /// The tree of these lines.
    pub fn new(lines: Vec<Line>) -> Tree
        requires whole { AreWhole (map the_tree_line lines.items) }
        ensures lines { result ≡ map the_tree_line lines.items }
    {
        Tree { lines }
    }

    /// The lines in preorder.
    #[tactic(auto, using(crate::proofs::TreeLemmas::whole_back))]
    pub fn lines(&self) -> &[Line]
        ensures lines { map the_tree_line result.now ≡ self.now }
        ensures whole { self.now ≡ lines_of_tree (the_tree self.now) }
    {
        &self.lines
    }
}
