// Laws of trees.
ghost use Rattle.std.specs.Prelude.{ℕ, ◌≡◌, ◌<◌, ◌≤◌, ◌↔◌, [], ◌∷◌, List, length, map, None, Some};
ghost use Rattle.cstn_label.specs.Labels.{Scenario};
ghost use Rattle.cstn_label.specs.Bounds.{Bound};
ghost use Rattle.cstn_net.specs.Limits.{most_load};
ghost use Rattle.cstn_net.specs.Networks.{Network, IsNetwork, IsWellFormed, count};
ghost use Rattle.cstn_net.specs.Strategies.{Table, IsStrategy, IsConsistent, IsLeast};
ghost use Rattle.cstn_net.specs.Examples.{branch};
ghost use Rattle.cstn_text.specs.Limits.{most_text};
ghost use Rattle.cstn_plan.specs.Plans.{IsEarliest};
ghost use Rattle.cstn_text.specs.Names.{AreNames};
ghost use Rattle.cstn_tree.specs.Limits.{most_observed};
ghost use Rattle.cstn_outline.specs.Trees.{Tree, TreeLine, IsAmong, at, done, lines_of_tree, table_of};
ghost use Rattle.cstn_tree.specs.Good.{first_broken, IsUnbroken};
ghost use Rattle.cstn_tree.specs.Breaks.{IsFirstBreak, on_branches};
ghost use Rattle.cstn_tree.specs.Made.{IsTreeOf, IsTheTree};
ghost use Rattle.cstn_outline.specs.Texts.{tree_shown, tells, tree_told};
ghost use Rattle.cstn_tree.specs.Unfolded.{how_many_observed};
ghost use Rattle.cstn_outline.specs.Written.{IsTreeWritten, TreeFitsText, IsTextOfTree};
ghost use Rattle.cstn_outline.specs.Read.{the_tree};
ghost use Rattle.cstn_tree.specs.Examples.{branch_tree, asked_first, named_twice, left_out_tree, slow_branch_tree, crossed_waits, crossed_tree, lone_origin};

use cstn_exec::due_is_exact;

/// The table that a good tree stands for is a strategy, so a network that has a good tree is consistent.
#[tactic(auto, using(crate::proofs::Strategies::good_is_strategy))]
pub fn good_trees_are_strategies()
    ensures strategy { (net : Network) (tree : Tree) → IsNetwork net → IsUnbroken net tree → IsStrategy net (table_of tree) }
    ensures consistent { (net : Network) (tree : Tree) → IsNetwork net → IsUnbroken net tree → IsConsistent net }
{}

/// The tree of a network, by bounds that have a strategy with each time-point at the least moment that they leave it: no line
/// of it breaks, its table has each time-point at its least moment, and a text can say it with a load and names in their ranges.
pub fn made_trees_are_good()
    ensures good { (net : Network) (bounds : List Bound) (table : Table) → IsWellFormed net → IsEarliest net bounds table → (tree : Tree)
        → IsTreeOf net bounds tree → IsUnbroken net tree }
    ensures least { (net : Network) (bounds : List Bound) (table : Table) → IsWellFormed net → IsEarliest net bounds table → (tree : Tree)
        → IsTreeOf net bounds tree → (s : Scenario) (x : ℕ) → x < count net → IsLeast net s x (table_of tree s x) }
    ensures among { (net : Network) (bounds : List Bound) (tree : Tree) → IsTreeOf net bounds tree → IsAmong (count net) tree }
    ensures fits { (net : Network) (bounds : List Bound) (table : Table) → IsWellFormed net → IsEarliest net bounds table → (tree : Tree)
        → IsTreeOf net bounds tree → TreeFitsText tree }
    ensures written { (names : List (List ℕ)) (load : ℕ) (net : Network) (bounds : List Bound) (table : Table) → IsWellFormed net → IsEarliest net bounds table
        → length names ≡ count net → 1 ≤ load → load ≤ most_load → (tree : Tree) → IsTreeOf net bounds tree → IsTreeWritten names load tree }
{}

/// A network has one tree by given bounds at most, and one by bounds that have a strategy with each time-point at the least moment
/// that they leave it. Which of these bounds it is makes no difference. So a network has one tree where it is consistent, and
/// else none.
pub fn networks_have_one_tree()
    ensures one { (net : Network) (bounds : List Bound) (tree other : Tree) → IsTreeOf net bounds tree → IsTreeOf net bounds other → tree ≡ other }
    ensures some { (net : Network) (bounds : List Bound) (table : Table) → IsWellFormed net → IsEarliest net bounds table
        → (tree : Tree) × IsTreeOf net bounds tree }
    ensures same { (net : Network) (tree other : Tree) → IsWellFormed net → IsTheTree net tree → IsTheTree net other → tree ≡ other }
    ensures consistent { (net : Network) → IsWellFormed net → (IsConsistent net ↔ ((tree : Tree) × IsTheTree net tree)) }
{
    due_is_exact();
}

/// The text of the tree of a network in which at most 10 propositions are observed has at most as many bytes as a text of evidence
/// may have: each of its branches names each time-point once, and it has a branch for each outcome of these propositions at most.
pub fn made_texts_are_short()
    ensures short { (names : List (List ℕ)) (load : ℕ) (net : Network) (bounds : List Bound) (table : Table) → AreNames names → length names ≡ count net
        → load ≤ most_load
        → how_many_observed net ≤ most_observed → IsWellFormed net → IsEarliest net bounds table → (tree : Tree) → IsTreeOf net bounds tree
        → length (tree_shown names load (lines_of_tree tree)) ≤ most_text }
{}

/// The line that a check finds is the first that breaks by what stands above it on its branch; where it finds none, no line breaks.
pub fn the_first_that_breaks_is_found()
    ensures first { (net : Network) (tree : Tree) → IsWellFormed net → IsFirstBreak net 2 (on_branches [] tree) (first_broken net tree) }
    ensures lines { (tree : Tree) → map (λ l. l.1) (on_branches [] tree) ≡ lines_of_tree tree }
{}

/// Which line of some small trees is the first that breaks, if any does.
pub fn broken_lines_are_known()
    ensures branch { first_broken branch (branch_tree 10 1) ≡ None }
    ensures early { first_broken branch (branch_tree 9 1) ≡ Some 4 }
    ensures at_once { first_broken branch (branch_tree 10 0) ≡ Some 6 }
    ensures asked_first { first_broken branch asked_first ≡ Some 2 }
    ensures named_twice { first_broken branch named_twice ≡ Some 2 }
    ensures left_out { first_broken branch left_out_tree ≡ Some 6 }
    ensures unknown { first_broken slow_branch_tree (branch_tree 10 1) ≡ Some 6 }
    ensures known { first_broken slow_branch_tree (branch_tree 10 2) ≡ None }
    ensures crossed { first_broken crossed_waits crossed_tree ≡ None }
    ensures alone { first_broken lone_origin (at 0 (0 ∷ []) done) ≡ None }
    ensures above_the_limit { first_broken lone_origin (at 1 (0 ∷ []) done) ≡ Some 2 }
{}
