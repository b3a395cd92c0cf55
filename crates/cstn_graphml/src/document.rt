//! Reading the whole document: its root, and what may stand around the root.

ghost use Rattle.std.specs.Prelude.{◌≡◌, [], ◌≤◌, length, option_map};
ghost use Rattle.cstn_element.specs.Contents.{content_of};
ghost use Rattle.cstn_graphml.specs.Kept.{kept_document_reading, in_kept_document};
ghost use Rattle.cstn_element.specs.Children.{tag_seen};
ghost use Rattle.cstn_graphml.specs.DrawnGraphSeen.{graph_seen};
ghost use Rattle.cstn_element.specs.Reads.{Gives, ReadsWhole};

use crate::drawn_graph::DrawnGraph;
use crate::in_turn::DocumentReading;
use crate::root::read_whole_root;
use cstn_element::{DocError, Start, documents_are_read_in_turn, is_blank};
use cstn_markup::{Kind, Scanner, Token};
use cstn_text::NameKey;
use std::alloc::Global;

/// Reads an element of the document, whose start tag was read, and puts its graph in `seen`. Refused with `Shape` where its
/// name isn't `graphml`, or where `seen` has a graph already.
fn read_document_child(
    alloc: Global,
    key: NameKey,
    scanner: &mut Scanner,
    start: &Start,
    seen: &mut Option<DrawnGraph>,
) -> Result<(), DocError>
    ensures reads { ReadsWhole (λ u. option_map graph_seen seen.new) (kept_document_reading.elements (option_map graph_seen seen.old) (tag_seen start.now))
        start.now.closed start.now.at start.now.name.now [] scanner.old scanner.new result }
    ensures less { length scanner.new ≤ length scanner.old }
{
    let at = start.at;
    let None = seen else {
        return Err(DocError::Shape { at });
    };
    if start.name != b"graphml".as_slice() {
        return Err(DocError::Shape { at });
    }
    let graph = read_whole_root(alloc, key, scanner, start)?;
    *seen = Some(graph);
    Ok(())
}

/// Reads the document, of which no token was read yet, to its end. Returns its graph, whose names are hashed with the key, or
/// the first refusal; a document without a root is refused with `Shape` at its end.
pub fn read_document(
    alloc: Global,
    key: NameKey,
    scanner: &mut Scanner,
) -> Result<DrawnGraph, DocError>
    ensures { Gives graph_seen result (in_kept_document (content_of scanner.old)) }
{
    documents_are_read_in_turn::<DocumentReading>();
    let mut seen = None;
    loop {
        let Token { at, kind } = scanner.step();
        match kind {
            Kind::Start {
                name,
                attributes,
                closed,
            } => {
                let start = Start {
                    at,
                    name,
                    attributes,
                    closed,
                };
                read_document_child(alloc, key, scanner, &start, &mut seen)?;
            }
            Kind::End { name: _ } => return Err(DocError::Shape { at }),
            Kind::Text { raw } => {
                if !is_blank(raw) {
                    return Err(DocError::Shape { at });
                }
            }
            Kind::Wrong => return Err(DocError::Shape { at }),
            Kind::Finish => {
                return match seen {
                    Some(graph) => Ok(graph),
                    None => Err(DocError::Shape { at }),
                };
            }
        }
    }
}
