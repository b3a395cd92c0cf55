//! What stands next in an element.

ghost use Rattle.std.specs.Prelude.{ℕ, List, length, ◌<◌};
ghost use Rattle.cstn_element.specs.Children.{BeginsWithPart, TakesTokens};

use crate::is_blank;
use cstn_markup::{Attributes, Kind, Scanner, Token};

/// The start tag of an element.
#[derive(Drop)]
pub struct Start<'a> {
    pub at: usize,
    pub name: &'a [u8],
    pub attributes: Attributes<'a>,
    pub closed: bool,
}

/// What stands next in an element that holds elements and white space alone.
#[derive(Drop)]
pub enum Next<'a> {
    /// An element, of which the start tag was read.
    Child(Start<'a>),
    /// The end, which was read.
    End { at: usize },
    /// A token that isn't allowed there.
    Wrong { at: usize },
}

/// Reads what stands next in the element of this name, behind white space. The contract speaks of an element with fewer than 31
/// others open around it.
pub fn next_child<'a>(scanner: &mut Scanner<'a>, name: &[u8]) -> Next<'a>
    ensures next { (others : List (List ℕ)) → length others < 31 → BeginsWithPart result name.now others scanner.old scanner.new }
    ensures takes { TakesTokens result (length scanner.old) (length scanner.new) }
{
    loop {
        let Token { at, kind } = scanner.step();
        match kind {
            Kind::Start {
                name,
                attributes,
                closed,
            } => {
                return Next::Child(Start {
                    at,
                    name,
                    attributes,
                    closed,
                });
            }
            Kind::End { name: last } => {
                if last == name {
                    return Next::End { at };
                }
                return Next::Wrong { at };
            }
            Kind::Text { raw } => {
                if !is_blank(raw) {
                    return Next::Wrong { at };
                }
            }
            Kind::Wrong => return Next::Wrong { at },
            Kind::Finish => return Next::Wrong { at },
        }
    }
}
