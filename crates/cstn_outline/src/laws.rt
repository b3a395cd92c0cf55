// Laws of texts of trees.
ghost use Rattle.std.specs.Prelude.{ℕ, ◌≡◌, List};
ghost use Rattle.cstn_text.specs.Names.{AreNames};
ghost use Rattle.cstn_outline.specs.Trees.{Tree, TreeLine, lines_of_tree};
ghost use Rattle.cstn_outline.specs.Texts.{tree_shown, tells, tree_told};
ghost use Rattle.cstn_outline.specs.Written.{IsTreeWritten, IsTextOfTree};
ghost use Rattle.cstn_outline.specs.Read.{the_tree};

/// The text of a load and a tree is read back as the tree, where each `at` names a time-point, no branch has more than 2,100
/// lines, the time-points have names and the numbers are in their ranges.
pub fn tree_texts_are_read_back()
    ensures back { (names : List (List ℕ)) (load : ℕ) (tree : Tree) → AreNames names → IsTreeWritten names load tree
        → tree_told names (tree_shown names load (lines_of_tree tree)) ≡ tells (lines_of_tree tree) }
{}

/// The texts that are read as trees are exactly those that are printed of a load and a tree that can be written.
pub fn tree_texts_are_the_shown_ones()
    ensures said { (names : List (List ℕ)) (bytes : List ℕ) (lines : List TreeLine) → tree_told names bytes ≡ tells lines → IsTextOfTree names lines bytes }
    ensures says { (names : List (List ℕ)) (bytes : List ℕ) (lines : List TreeLine) → AreNames names → IsTextOfTree names lines bytes
        → tree_told names bytes ≡ tells lines }
{}

/// The lines of a tree are read back as the same tree, so different trees have different lines.
#[tactic(auto, using(crate::proofs::TreeLemmas::tree_back))]
pub fn trees_are_their_lines()
    ensures back { (tree : Tree) → the_tree (lines_of_tree tree) ≡ tree }
{}
