//! What tests of several calls use: a document of two time-points, and the network of a document.

use cstn_graphml::read;
use cstn_lift::Labelled;
use cstn_text::Names;
use std::alloc::Global;
use std::process::Abort;

pub const PAIR: &str = concat!(
    "<graphml><graph><node id=\"Z\"/><node id=\"X\"/><edge source=\"X\" target=\"Z\">",
    "<data key=\"LabeledValues\">{(-5, ⊡)}</data></edge></graph></graphml>",
);

// The labelled network of the document and its names.
pub fn accepted(
    rt: &impl Abort,
    alloc: Global,
    text: &str,
    deadline: Option<u32>,
) -> (Labelled, Names) {
    read(alloc, text.as_bytes(), deadline).expect(rt, "a network")
}
