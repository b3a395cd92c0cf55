// Laws of lists of bounds. The functions do nothing: their contracts are the laws.
ghost use Rattle.std.specs.Prelude.{ℕ, ◌≡◌, List};
ghost use Rattle.std.specs.List.{Contains};
ghost use Rattle.cstn_label.specs.Bounds.{Bound};
ghost use Rattle.cstn_net.specs.Networks.{Network};
ghost use Rattle.cstn_rules.specs.Closed.{IsClosed};
ghost use Rattle.cstn_rules.specs.Rules.{IsBoundOf};
ghost use Rattle.cstn_text.specs.Names.{AreNames};
ghost use Rattle.cstn_closed.specs.Faults.{Fault, IsFirstFault, IsFaultless};
ghost use Rattle.cstn_closed.specs.Texts.{tells, closed_told, closed_shown};
ghost use Rattle.cstn_closed.specs.Orders.{IsTextOfBounds};
ghost use Rattle.cstn_closed.specs.Written.{AreBoundsWritten};

/// A closed list whose least values are from 0 to the limit + 1 has no fault. A list has at most one first fault.
pub fn closed_lists_are_accepted()
    ensures accepted { (net : Network) (bounds : List Bound) → IsClosed net bounds → ((b : Bound) → Contains bounds b → IsBoundOf net b)
        → IsFaultless net bounds }
    ensures one { (net : Network) (bounds : List Bound) (f g : Fault) → IsFirstFault net bounds f → IsFirstFault net bounds g → f ≡ g }
{}

/// The text of a load and bounds is read as them, where each bound's time-point has a name and the numbers are in their ranges.
/// What is read of any text is in these ranges.
pub fn closed_texts_are_read_back()
    ensures back { (names : List (List ℕ)) (load : ℕ) (bounds : List Bound) → AreNames names → AreBoundsWritten names load bounds
        → closed_told names (closed_shown names load bounds) ≡ tells load bounds }
    ensures ranges { (names : List (List ℕ)) (bytes : List ℕ) (load : ℕ) (bounds : List Bound) → closed_told names bytes ≡ tells load bounds
        → AreBoundsWritten names load bounds }
{}

/// The texts that are read as a load and bounds are exactly the printed one and those that differ from it in the order of the
/// marks in labels alone.
pub fn closed_texts_are_the_shown_ones()
    ensures said { (names : List (List ℕ)) (bytes : List ℕ) (load : ℕ) (bounds : List Bound) → closed_told names bytes ≡ tells load bounds
        → IsTextOfBounds names load bounds bytes }
    ensures says { (names : List (List ℕ)) (load : ℕ) (bounds : List Bound) (bytes : List ℕ) → AreNames names → AreBoundsWritten names load bounds
        → IsTextOfBounds names load bounds bytes → closed_told names bytes ≡ tells load bounds }
{}
