//! What holds of reading elements one after the other. The calls do nothing: their contracts are the laws.

ghost use Rattle.cstn_element.specs.InTurn.{GoesOnBehind, IsRefusedInside, IsRefusedNext, IsEnded, LeavesState, GoesOnInDocument, IsRefusedInDocument};
ghost use Rattle.cstn_element.specs.InTurn.{PassesBlank};
ghost use Rattle.cstn_element.specs.InTurn.{IsRefusedAt, IsFinished};

/// A way to read the content of an element or of the document, in which only elements and white space may stand. `State` is the
/// type of its states, `Found` that of what the end makes of a state, and `Answer` that of the program's answer, seen as a
/// `Found`. A type without fields implements it, so that the laws can be stated of it.
pub trait ElementReading {
    ghost use Rattle.cstn_element.specs.Elements.{Reading};
    ghost use Rattle.cstn_element.specs.InTurn.{PassesBlanks};

    ghost State: { Type 0 };

    ghost Found: { Type 0 };

    ghost Answer: { Type 0 };

    ghost seen: { Answer → Found };

    ghost reading: { Reading State Found };

    ghost blanks: { PassesBlanks State Found reading };
}

/// An element is read one child after the other. Behind a child that was read, the reading goes on in the state that the child
/// made. Where a child is refused, so is the element. A token that isn't allowed between the children has the element refused
/// at the token's place. At its end the answer for the element is what the end makes of the state.
pub fn elements_are_read_in_turn<R: ElementReading>()
    ensures child { GoesOnBehind R.State R.Found R.reading }
    ensures refused { IsRefusedInside R.State R.Found R.Answer R.reading R.seen }
    ensures wrong { IsRefusedNext R.State R.Found R.Answer R.reading R.seen }
    ensures end { IsEnded R.State R.Found R.Answer R.reading R.seen }
{}

/// An element that is passed over is read as a child that leaves the state as it is.
pub fn elements_passed_over_leave_the_state<R: ElementReading>()
    ensures passed { LeavesState R.State }
{}

/// A document is read one element after the other, as an element is. White space is passed. Any other text, an end tag, or a
/// token that isn't of its form has the document refused at its place. At the end of the document the answer is what the end
/// makes of the state.
pub fn documents_are_read_in_turn<R: ElementReading>()
    ensures child { GoesOnInDocument R.State R.Found R.reading }
    ensures refused { IsRefusedInDocument R.State R.Found R.reading }
    ensures blank { PassesBlank R.State R.Found R.reading }
    ensures stray { IsRefusedAt R.State R.Found R.reading }
    ensures end { IsFinished R.State R.Found R.reading }
{}
