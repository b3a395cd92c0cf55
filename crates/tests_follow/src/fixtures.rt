// Sessions that follow a plan, and what they say.
ghost use Rattle.std.specs.Prelude.{◌<◌, ◌^◌};
ghost use Rattle.std.specs.List.{All};

use cstn_follow::{Following, Heard, Marked, read_saying, read_spoken};
use cstn_graphml::read;
use cstn_log::Cap;
use cstn_net::{MAX_LOAD, Network};
use cstn_reply::{AnswerText, Outcome};
use std::alloc::Global;
use std::process::Abort;

/// A sample tells whether there is an infection, 60 minutes later; then come an antibiotic, where there is one, a review and
/// the discharge.
pub(super) const CLINICAL: &str = concat!(
    "<graphml><graph><data key=\"Deadline\">360</data><node id=\"Z\"/>",
    "<node id=\"Sample\"><data key=\"Obs\">i</data><data key=\"Reaction\">60</data></node>",
    "<node id=\"Antibiotic\"><data key=\"Label\">i</data></node><node id=\"Review\"/><node id=\"Discharge\"/>",
    "<edge source=\"Z\" target=\"Sample\"><data key=\"LabeledValues\">{(15, ⊡)}</data></edge>",
    "<edge source=\"Antibiotic\" target=\"Sample\"><data key=\"LabeledValues\">{(-65, i)}</data></edge>",
    "<edge source=\"Sample\" target=\"Antibiotic\"><data key=\"LabeledValues\">{(90, i)}</data></edge>",
    "<edge source=\"Review\" target=\"Antibiotic\"><data key=\"LabeledValues\">{(-120, i)}</data></edge>",
    "<edge source=\"Review\" target=\"Sample\"><data key=\"LabeledValues\">{(-80, ¬i)}</data></edge>",
    "<edge source=\"Sample\" target=\"Review\"><data key=\"LabeledValues\">{(120, ¬i)}</data></edge>",
    "<edge source=\"Discharge\" target=\"Review\"><data key=\"LabeledValues\">{(-10, ⊡)}</data></edge>",
    "<edge source=\"Z\" target=\"Discharge\"><data key=\"LabeledValues\">{(360, ⊡)}</data></edge></graph></graphml>",
);

/// A scan tells whether there is a bleeding; then come a drip, a test whether the patient can swallow, and a meal.
pub(super) const STROKE: &str = concat!(
    "<graphml><graph><data key=\"Deadline\">240</data><node id=\"Z\"/>",
    "<node id=\"Scan\"><data key=\"Obs\">b</data><data key=\"Reaction\">5</data></node><node id=\"Drip\"/>",
    "<node id=\"Swallow\"><data key=\"Obs\">s</data></node><node id=\"Meal\"/>",
    "<edge source=\"Z\" target=\"Scan\"><data key=\"LabeledValues\">{(25, ⊡)}</data></edge>",
    "<edge source=\"Z\" target=\"Drip\"><data key=\"LabeledValues\">{(60, ¬b)}</data></edge>",
    "<edge source=\"Drip\" target=\"Scan\"><data key=\"LabeledValues\">{(-10, ¬b)}</data></edge>",
    "<edge source=\"Swallow\" target=\"Drip\"><data key=\"LabeledValues\">{(-30, ¬b)}</data></edge>",
    "<edge source=\"Swallow\" target=\"Z\"><data key=\"LabeledValues\">{(-90, b)}</data></edge>",
    "<edge source=\"Swallow\" target=\"Meal\"><data key=\"LabeledValues\">{(20, s)}</data></edge>",
    "<edge source=\"Meal\" target=\"Swallow\"><data key=\"LabeledValues\">{(-60, ¬s)}</data></edge>",
    "<edge source=\"Meal\" target=\"Swallow\"><data key=\"LabeledValues\">{(-1, ⊡)}</data></edge>",
    "<edge source=\"Drip\" target=\"Scan\"><data key=\"LabeledValues\">{(-5, ⊡)}</data></edge></graph></graphml>",
);

/// The origin tells p; then comes A, by 3,000 where p is true.
pub(super) const ORIGIN: &str = concat!(
    "<graphml><graph><data key=\"Deadline\">5000</data>",
    "<node id=\"Z\"><data key=\"Obs\">p</data><data key=\"Reaction\">10</data></node><node id=\"A\"/>",
    "<edge source=\"Z\" target=\"A\"><data key=\"LabeledValues\">{(3000, p)}</data></edge>",
    "<edge source=\"A\" target=\"Z\"><data key=\"LabeledValues\">{(-2000, ⊡)}</data></edge></graph></graphml>",
);

/// X tells p, which nothing needs; then comes Y.
pub(super) const NEEDLESS: &str = concat!(
    "<graphml><graph><data key=\"Deadline\">100</data><node id=\"Z\"/>",
    "<node id=\"X\"><data key=\"Obs\">p</data><data key=\"Reaction\">5</data></node><node id=\"Y\"/>",
    "<edge source=\"Y\" target=\"X\"><data key=\"LabeledValues\">{(-7, ⊡)}</data></edge></graph></graphml>",
);

// Asserts that the ids of the constraints are below 2,147,483,648.
fn have_small_ids(rt: &impl Abort, net: &Network)
    ensures { All (λ c. c.id < 2 ^ 31) net.now.constraints }
{
    assert!(rt; net.constraints().iter().all(|c| c.id < 2_147_483_648));
}

/// The session of a document, which begins with this verdict.
pub(super) fn begun(rt: &impl Abort, alloc: Global, document: &str, verdict: &str) -> Following {
    let (network, names) = read(alloc, document.as_bytes(), None).expect(rt, "a network");
    let net = network.base();
    assert!(rt; names.count() == net.count() as u32);
    have_small_ids(rt, net);
    let cap = Cap { entries: MAX_LOAD };
    let session = Following::start(alloc, network, names, cap).expect(rt, "memory");
    let line = session.verdict_line().expect(rt, "memory");
    assert!(rt; line.as_slice() == verdict.as_bytes());
    drop(line);
    session
}

/// The session answers this to a line.
pub(super) fn says(
    rt: &impl Abort,
    alloc: Global,
    session: &mut Following,
    line: &str,
    answer: &str,
) {
    let read = read_spoken(alloc, line.as_bytes()).expect(rt, "memory");
    match session.hear(read).expect(rt, "memory") {
        Heard::Text(text) => assert!(rt; text.as_slice() == answer.as_bytes(), "{line}"),
        Heard::Rest { .. } => panic!(rt; "{line}: a document"),
        Heard::Digest { .. } => panic!(rt; "{line}: a digest"),
    }
}

/// The session answers to `rest` with a network of these sizes.
pub(super) fn leaves(
    rt: &impl Abort,
    alloc: Global,
    session: &mut Following,
    points: u16,
    constraints: usize,
) {
    let read = read_spoken(alloc, b"rest").expect(rt, "memory");
    match session.hear(read).expect(rt, "memory") {
        Heard::Text(_) => panic!(rt; "a text"),
        Heard::Rest { network, names } => {
            assert!(rt; names.count() == points as u32);
            assert!(rt; network.base().count() == points);
            assert!(rt; network.base().constraints().len() == constraints);
        }
        Heard::Digest { .. } => panic!(rt; "a digest"),
    }
}

/// The session answers to `digest` with a network of these sizes.
pub(super) fn has_digest_of(
    rt: &impl Abort,
    alloc: Global,
    session: &mut Following,
    points: u16,
    constraints: usize,
) {
    let read = read_spoken(alloc, b"digest").expect(rt, "memory");
    match session.hear(read).expect(rt, "memory") {
        Heard::Text(_) => panic!(rt; "a text"),
        Heard::Rest { .. } => panic!(rt; "a document"),
        Heard::Digest { network, names } => {
            assert!(rt; names.count() == points as u32);
            assert!(rt; network.base().count() == points);
            assert!(rt; network.base().constraints().len() == constraints);
        }
    }
}

/// The session ends so.
pub(super) fn ends(
    rt: &impl Abort,
    alloc: Global,
    session: Following,
    outcome: Outcome,
    answer: &str,
) {
    let mut text = AnswerText::new(alloc).expect(rt, "memory");
    let ended = session.ending(&mut text);
    assert!(rt; text.as_bytes() == answer.as_bytes());
    assert!(rt; ended == outcome);
    drop(text);
    drop(session);
}

/// The session with marks of a document, with this deadline if there is one.
pub(super) fn begun_marked(
    rt: &impl Abort,
    alloc: Global,
    document: &str,
    deadline: Option<u32>,
) -> Marked {
    let (network, names) = read(alloc, document.as_bytes(), deadline).expect(rt, "a network");
    let net = network.base();
    assert!(rt; names.count() == net.count() as u32);
    have_small_ids(rt, net);
    let cap = Cap { entries: MAX_LOAD };
    Marked::start(alloc, network, names, cap).expect(rt, "memory")
}

/// The session with marks answers this to a line.
pub(super) fn says_marked(
    rt: &impl Abort,
    alloc: Global,
    session: &mut Marked,
    line: &str,
    answer: &str,
) {
    let read = read_saying(alloc, line.as_bytes()).expect(rt, "memory");
    match session.hear(read).expect(rt, "memory") {
        Heard::Text(text) => assert!(rt; text.as_slice() == answer.as_bytes(), "{line}"),
        Heard::Rest { .. } => panic!(rt; "{line}: a document"),
        Heard::Digest { .. } => panic!(rt; "{line}: a digest"),
    }
}

/// The session with marks ends so.
pub(super) fn ends_marked(
    rt: &impl Abort,
    alloc: Global,
    session: Marked,
    outcome: Outcome,
    answer: &str,
) {
    let mut text = AnswerText::new(alloc).expect(rt, "memory");
    let ended = session.ending(&mut text);
    assert!(rt; text.as_bytes() == answer.as_bytes());
    assert!(rt; ended == outcome);
    drop(text);
    drop(session);
}
