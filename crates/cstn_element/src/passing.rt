//! Elements that are passed over.

ghost use Rattle.std.specs.Prelude.{◌≡◌, ℕ, List, ◌≤◌, ◌<◌, ◌+◌, length};
ghost use Rattle.cstn_element.specs.Elements.{passed};
ghost use Rattle.cstn_element.specs.Reads.{ReadsRest, raised};
ghost use Rattle.cstn_element.specs.Children.{ReadsChild};

use crate::children::Start;
use crate::errors::Fault;
use crate::open_names::OpenNames;
use cstn_markup::{Kind, Scanner, Token};

/// Passes over the rest of the element of this name. A fault is the first token that isn't of its form, is nested wrongly or
/// too deep.
fn pass_over<'a>(scanner: &mut Scanner<'a>, name: &'a [u8], depth: usize) -> Result<(), Fault>
    requires { depth < 32 }
    ensures reads { ReadsRest depth (λ u. u) passed name.now scanner.old scanner.new (raised result) }
    ensures less { length scanner.new ≤ length scanner.old }
{
    let mut open_names = OpenNames::new(name);
    while !open_names.is_empty() {
        let Token { at, kind } = scanner.step();
        match kind {
            Kind::Start {
                name: child,
                attributes: _,
                closed,
            } => {
                if depth + open_names.len() >= 32 {
                    return Err(Fault::Shape { at });
                }
                if !closed {
                    open_names.push(child);
                }
            }
            Kind::End { name: last } => {
                if last != open_names.pop() {
                    return Err(Fault::Shape { at });
                }
            }
            Kind::Text { raw: _ } => {}
            Kind::Wrong => return Err(Fault::Shape { at }),
            Kind::Finish => return Err(Fault::Shape { at }),
        }
    }
    Ok(())
}

/// Passes over the rest of an element, whose start tag was read and around which `depth` elements are open. A fault is the
/// first token that isn't of its form, is nested wrongly or too deep.
pub fn pass_element<'a>(
    scanner: &mut Scanner<'a>,
    start: &Start<'a>,
    depth: usize,
) -> Result<(), Fault>
    requires { depth < 32 }
    ensures reads { ReadsChild depth (λ u. u) (λ tag. passed) start.now scanner.old scanner.new (raised result) }
    ensures less { length scanner.new ≤ length scanner.old }
{
    if start.closed {
        return Ok(());
    }
    pass_over(scanner, start.name, depth)
}
