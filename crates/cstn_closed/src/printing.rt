// Lists of bounds as texts.
ghost use Rattle.std.specs.Prelude.{◌≡◌, ◌++◌, ◌∷◌, [], map, string_bytes, IfOk, OnOk, codes};
ghost use Rattle.std.specs.List.{All};
ghost use Rattle.cstn_label.specs.Read.{marks};
ghost use Rattle.cstn_text.specs.Names.{AreNames};
ghost use Rattle.cstn_text.specs.Numbers.{printed_number, printed_value};
ghost use Rattle.cstn_text.specs.PrintedLabels.{printed_label};
ghost use Rattle.cstn_text.specs.PrintedNames.{printed_name};
ghost use Rattle.cstn_closed.specs.Closed.{the_listed_bounds};
ghost use Rattle.cstn_closed.specs.Texts.{closed_shown, closed_told, tells};
ghost use Rattle.cstn_closed.specs.Written.{BoundsFitText, IsNamedBound};

use crate::lists::Closed;
use cstn_label::{Bound, labels_are_their_marks};
use cstn_text::{Names, print_names, push_label, push_load, push_value};
use std::alloc::{AllocError, Global};

// The bytes that are reserved for each line. Where lines are longer, more memory is taken as they come.
const USUAL_LINE: usize = 24;

impl Closed {
    /// The text of the list: a line for its load, and one for each bound.
    ///
    /// Where the load is from 1 to 4,194,304 and there are 1 to 4,194,304 bounds, the text is read again as the same list.
    /// Beside the text it takes memory for the printed names, and none for a line. Fails where memory is refused.
    pub fn print(&self, alloc: Global, names: &Names) -> Result<String, AllocError>
        requires named { All (IsNamedBound names.now) self.now.bounds }
        ensures shown { IfOk result (λ text. string_bytes text ≡ closed_shown names.now self.now.load (the_listed_bounds self.now)) }
        ensures back { BoundsFitText self.now → IfOk result (λ text. closed_told names.now (string_bytes text)
            ≡ tells self.now.load (the_listed_bounds self.now)) }
    {
        labels_are_their_marks();
        let printed = print_names(alloc, names)?;
        let bounds = self.bounds();
        let mut text = String::with_capacity(alloc, USUAL_LINE * (bounds.len() + 1))?;
        push_load(&mut text, "yes", self.load())?;
        for bound in bounds {
            push_bound(&mut text, *bound, &printed[bound.node.index()])?;
        }
        Ok(text)
    }
}

// Appends the line of a bound; `name` is the printed name of its time-point.
fn push_bound(text: &mut String, bound: Bound, name: &str) -> Result<(), AllocError>
    ensures pushed { OnOk result (string_bytes text.new ≡ string_bytes text.old
        ++ (codes "bound " ++ (name.now ++ 32 ∷ printed_value bound.least ++ 32 ∷ printed_label (marks bound.label)) ++ 10 ∷ [])) }
{
    text.push_str("bound ")?;
    text.push_str(name)?;
    text.push(' ')?;
    push_value(text, bound.least)?;
    text.push(' ')?;
    push_label(text, bound.label)?;
    text.push('\n')
}
