// Trees read from their texts.
ghost use Rattle.std.specs.Prelude.{ℕ, ◌≡◌, ◌<◌, ◌≤◌, ◌+◌, ◌^◌, ◌∷◌, [], List, Some, length, map, reverse, IfOk, IfErr, IfSome, OnOk, OnErr, ◌++◌};
ghost use Rattle.std.specs.List.{All};
ghost use Rattle.std.specs.Option.{option_map};
ghost use Rattle.cstn_label.specs.Limits.{most_ids};
ghost use Rattle.cstn_outline.specs.Trees.{IsAmong, names_on};
ghost use Rattle.cstn_text.specs.Parts.{parts_at};
ghost use Rattle.cstn_text.specs.Listings.{at_end, told_after};
ghost use Rattle.cstn_outline.specs.Texts.{TreeTold, tells, without_load, tree_lines, is_whole, tree_told, line_within, ahead_after};
ghost use Rattle.cstn_outline.specs.Written.{TreeFitsText};
ghost use Rattle.cstn_outline.specs.Read.{the_tree_line, the_tree};
ghost use Rattle.cstn_outline.specs.Reading.{the_ahead, the_lines, IsReader, IsWrongTreeLine};

use crate::errors::TreeError;
use crate::parts::read_line;
use crate::trees::{Line, Tree};
use cstn_net::MAX_LOAD;
use cstn_text::{Names, cut_at, read_start};
use std::alloc::{AllocError, Global};

/// How many lines there may be on a branch, with its last one.
const MOST_DEPTH: u16 = 2100;

/// Reads a tree from its text. Refuses with the first line that isn't of the form, counted from 1: also with the missing or
/// cut line where the text ends within the tree, with a line after the tree, and with the 2,101st line of a branch. A tree that
/// was read is printed as a text that is read again.
pub fn read(alloc: Global, names: &Names, bytes: &[u8]) -> Result<Tree, TreeError>
    requires few { length names.now ≤ most_ids }
    requires short { length bytes.now < 2 ^ 32 }
    ensures accepted { IfOk result (λ t. tree_told names.now bytes.now ≡ tells t) }
    ensures line { IfErr result (IsWrongTreeLine (tree_told names.now bytes.now)) }

    ensures named { IfOk result (λ t. IsAmong (length names.now) (the_tree t)) }
    ensures few { IfOk result (λ t. length t + 1 < 2 ^ 32) }
    ensures fits { IfOk result (λ t. TreeFitsText (the_tree t)) }
{
    let Some((_load, rest)) = read_start("yes", MAX_LOAD, bytes) else {
        return Err(TreeError::Line { line: 1 });
    };
    read_lines(alloc, names, rest)
}

// The tree of the lines that follow the line of the load.
fn read_lines(alloc: Global, names: &Names, bytes: &[u8]) -> Result<Tree, TreeError>
    requires few { length names.now ≤ most_ids }
    requires short { length bytes.now + 2 < 2 ^ 32 }
    ensures accepted { IfOk result (λ t. (load : ℕ)
        → without_load (told_after (tree_lines names.now) load [] (parts_at 10 bytes.now).0 (parts_at 10 bytes.now).1) ≡ tells t) }
    ensures line { IfErr result (λ e. (load : ℕ)
        → IsWrongTreeLine (without_load (told_after (tree_lines names.now) load [] (parts_at 10 bytes.now).0 (parts_at 10 bytes.now).1)) e) }
    ensures named { IfOk result (λ t. IsAmong (length names.now) (the_tree t)) }
    ensures few { IfOk result (λ t. length t + 1 < 2 ^ 32) }
{
    let mut reader = match Reader::start(alloc) {
        Ok(reader) => reader,
        Err(e) => return Err(TreeError::Memory(e)),
    };
    let mut left = bytes;
    while let Some((line, rest)) = cut_at(left, b'\n') {
        match reader.take(alloc, names, line) {
            Ok(()) => left = rest,
            Err(e) => return Err(e),
        }
    }
    reader.finish(left)
}

// The lines that were read, and for each tree that is still to come the depth of its first line, the next tree's last. The
// depth of a line is how many lines its branch has down to it, which is counted as well.
#[derive(Drop)]
struct Reader {
    lines: Vec<Line>,
    ahead: Vec<u16>,
}

impl Reader {
    fn start(alloc: Global) -> Result<Reader, AllocError>
        ensures ahead { IfOk result (λ r. the_ahead r ≡ 1 ∷ []) }
        ensures lines { IfOk result (λ r. the_lines r ≡ []) }
        ensures count { IfOk result (λ r. length r.lines.items ≡ 0) }
        ensures reader { IfOk result (λ r. (n : ℕ) → IsReader n r) }
    {
        let mut ahead = Vec::new(alloc);
        ahead.push(1)?;
        Ok(Reader {
            lines: Vec::new(alloc),
            ahead,
        })
    }

    // Reads the next line of the tree. Refuses where no tree is still to come, or the line isn't of the form or too deep.
    fn take(&mut self, alloc: Global, names: &Names, text: &[u8]) -> Result<(), TreeError>
        requires few { length names.now ≤ most_ids }
        requires reader { IsReader (length names.now) self.old }
        requires short { length self.old.lines.items + 2 < 2 ^ 32 }
        ensures next { OnOk result ((load : ℕ) (texts : List (List ℕ)) (tail : List ℕ)
            → told_after (tree_lines names.now) load (the_lines self.old) (text.now ∷ texts) tail
            ≡ told_after (tree_lines names.now) load (the_lines self.new) texts tail) }
        ensures wrong { IfErr result (λ e. (load : ℕ) (texts : List (List ℕ)) (tail : List ℕ)
            → IsWrongTreeLine (without_load (told_after (tree_lines names.now) load (the_lines self.old) (text.now ∷ texts) tail)) e) }
        ensures reader { OnOk result (IsReader (length names.now) self.new) }
        ensures count { OnOk result (length self.new.lines.items ≡ length self.old.lines.items + 1) }
    {
        let number = self.lines.len() as u32 + 2;
        let Some(depth) = self.ahead.pop() else {
            return Err(TreeError::Line { line: number });
        };
        let read = match read_within(alloc, names, depth, text) {
            Ok(read) => read,
            Err(e) => return Err(TreeError::Memory(e)),
        };
        let Some(line) = read else {
            return Err(TreeError::Line { line: number });
        };
        match self.put(depth, line) {
            Ok(()) => Ok(()),
            Err(e) => Err(TreeError::Memory(e)),
        }
    }

    // Puts a line of this depth, with which the next tree begins, behind the others.
    fn put(&mut self, depth: u16, line: Line) -> Result<(), AllocError>
        requires { depth ≤ 2100 }
        ensures ahead { OnOk result (the_ahead self.new ≡ ahead_after depth (the_ahead self.old) (the_tree_line line)) }
        ensures lines { OnOk result (self.new.lines.items ≡ self.old.lines.items ++ line ∷ []) }
    {
        self.open(depth, &line)?;
        self.lines.push(line)?;
        Ok(())
    }

    // Notes the trees that come after a line.
    fn open(&mut self, depth: u16, line: &Line) -> Result<(), AllocError>
        requires { depth ≤ 2100 }
        ensures ahead { OnOk result (the_ahead self.new ≡ ahead_after depth (the_ahead self.old) (the_tree_line line.now)) }
        ensures lines { self.new.lines ≡ self.old.lines }
    {
        match line {
            Line::At { .. } => {
                self.ahead.push(depth + 1)?;
                Ok(())
            }
            Line::Ask { .. } => {
                self.ahead.push(depth + 1)?;
                self.ahead.push(depth + 1)?;
                Ok(())
            }
            Line::Done => Ok(()),
        }
    }

    // The tree of the lines, where no tree is still to come and no text is left after the last LF.
    fn finish(self, left: &[u8]) -> Result<Tree, TreeError>
        requires reader { (n : ℕ) × IsReader n self }
        requires short { length self.lines.items + 2 < 2 ^ 32 }
        ensures accepted { IfOk result (λ t. (load : ℕ) → without_load (at_end is_whole load (the_lines self) left.now) ≡ tells t) }
        ensures line { IfErr result (λ e. (load : ℕ) → IsWrongTreeLine (without_load (at_end is_whole load (the_lines self) left.now)) e) }
        ensures lines { IfOk result (λ t. t ≡ the_lines self) }
        ensures named { (n : ℕ) → IsReader n self → IfOk result (λ t. IsAmong n (the_tree t)) }
    {
        if !self.ahead.is_empty() || !left.is_empty() {
            let line = self.lines.len() as u32 + 2;
            return Err(TreeError::Line { line });
        }
        Ok(Tree { lines: self.lines })
    }
}

// The line of a tree that a text is; none where it isn't of the form or its depth is above 2,100.
fn read_within(
    alloc: Global,
    names: &Names,
    depth: u16,
    text: &[u8],
) -> Result<Option<Line>, AllocError>
    requires few { length names.now ≤ most_ids }
    ensures read { IfOk result (λ line. option_map the_tree_line line ≡ line_within names.now depth text.now) }
    ensures inside { IfOk result (λ line. IfSome line (λ l. All (λ x. x < length names.now) (names_on (the_tree_line l)))) }
    ensures depth { IfOk result (λ line. IfSome line (λ l. depth ≤ 2100)) }
{
    if depth > MOST_DEPTH {
        return Ok(None);
    }
    read_line(alloc, names, text)
}
