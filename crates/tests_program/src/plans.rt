// Plans in sentences: their documents, why they are refused, and documents in sentences.
use crate::documents::PATHWAY;
use crate::requests::{Faults, Row, WELL, expect_by_bytes, expect_end};
use cstn_top::Status;
use std::alloc::Global;
use std::process::Abort;
use std::test::Fail;

// The pathway of a fever.
const FEVER: &str = "# A patient comes with fever. Minutes from the arrival.
deadline 360
step Sample observes infection as i after 60     # the laboratory takes up to 60
step Antibiotic if infection
step Review
step Discharge
Sample by 15
Antibiotic 65..90 after Sample if infection
Review 120.. after Antibiotic if infection
Review 80..120 after Sample if not infection
Discharge 10.. after Review
Discharge by 360
";

// The pathway of a fever, as its document is written in sentences.
const FEVER_AGAIN: &str = "deadline 360
step Sample observes i after 60
step Antibiotic if i
step Review
step Discharge
Sample by 15
Antibiotic 65..90 after Sample if i
Review 120.. after Antibiotic if i
Review 80..120 after Sample if not i
Discharge 10.. after Review
Discharge by 360
";

// The canonical document of the pathway of a fever.
const FEVER_DOCUMENT: &str = "<?xml version=\"1.0\" encoding=\"UTF-8\"?>
<graphml>
<graph edgedefault=\"directed\">
<data key=\"Deadline\">360</data>
<node id=\"Z\"/>
<node id=\"Sample\"><data key=\"Obs\">i</data><data key=\"Reaction\">60</data></node>
<node id=\"Antibiotic\"><data key=\"Label\">i</data></node>
<node id=\"Review\"/>
<node id=\"Discharge\"/>
<edge source=\"Z\" target=\"Sample\"><data key=\"Type\">requirement</data><data key=\"LabeledValues\">{(15, ⊡)}</data></edge>
<edge source=\"Antibiotic\" target=\"Sample\"><data key=\"Type\">requirement</data><data key=\"LabeledValues\">{(-65, i)}</data></edge>
<edge source=\"Sample\" target=\"Antibiotic\"><data key=\"Type\">requirement</data><data key=\"LabeledValues\">{(90, i)}</data></edge>
<edge source=\"Review\" target=\"Antibiotic\"><data key=\"Type\">requirement</data><data key=\"LabeledValues\">{(-120, i)}</data></edge>
<edge source=\"Review\" target=\"Sample\"><data key=\"Type\">requirement</data><data key=\"LabeledValues\">{(-80, ¬i)}</data></edge>
<edge source=\"Sample\" target=\"Review\"><data key=\"Type\">requirement</data><data key=\"LabeledValues\">{(120, ¬i)}</data></edge>
<edge source=\"Discharge\" target=\"Review\"><data key=\"Type\">requirement</data><data key=\"LabeledValues\">{(-10, ⊡)}</data></edge>
<edge source=\"Z\" target=\"Discharge\"><data key=\"Type\">requirement</data><data key=\"LabeledValues\">{(360, ⊡)}</data></edge>
</graph>
</graphml>
";

// A task, a result that a word stands for, and several moments behind `after`.
const TASK: &str = "deadline 9
step S observes damage as d after 0:05
task T 3..4
step X
X within 2 after result of damage and T
T by 8
T after S
end of T 1.. after start of T if not damage
X with S
";

const TASK_DOCUMENT: &str = "<?xml version=\"1.0\" encoding=\"UTF-8\"?>
<graphml>
<graph edgedefault=\"directed\">
<data key=\"Deadline\">9</data>
<node id=\"Z\"/>
<node id=\"S\"><data key=\"Obs\">d</data><data key=\"Reaction\">5</data></node>
<node id=\"T\"/>
<node id=\"T.end\"/>
<node id=\"X\"/>
<edge source=\"T.end\" target=\"T\"><data key=\"Type\">requirement</data><data key=\"LabeledValues\">{(-3, ⊡)}</data></edge>
<edge source=\"T\" target=\"T.end\"><data key=\"Type\">requirement</data><data key=\"LabeledValues\">{(4, ⊡)}</data></edge>
<edge source=\"X\" target=\"S\"><data key=\"Type\">requirement</data><data key=\"LabeledValues\">{(-5, ⊡)}</data></edge>
<edge source=\"S\" target=\"X\"><data key=\"Type\">requirement</data><data key=\"LabeledValues\">{(7, ⊡)}</data></edge>
<edge source=\"X\" target=\"T.end\"><data key=\"Type\">requirement</data><data key=\"LabeledValues\">{(0, ⊡)}</data></edge>
<edge source=\"T.end\" target=\"X\"><data key=\"Type\">requirement</data><data key=\"LabeledValues\">{(2, ⊡)}</data></edge>
<edge source=\"Z\" target=\"T.end\"><data key=\"Type\">requirement</data><data key=\"LabeledValues\">{(8, ⊡)}</data></edge>
<edge source=\"T\" target=\"S\"><data key=\"Type\">requirement</data><data key=\"LabeledValues\">{(0, ⊡)}</data></edge>
<edge source=\"T.end\" target=\"T\"><data key=\"Type\">requirement</data><data key=\"LabeledValues\">{(-1, ¬d)}</data></edge>
<edge source=\"X\" target=\"S\"><data key=\"Type\">requirement</data><data key=\"LabeledValues\">{(0, ⊡)}</data></edge>
<edge source=\"S\" target=\"X\"><data key=\"Type\">requirement</data><data key=\"LabeledValues\">{(0, ⊡)}</data></edge>
</graph>
</graphml>
";

// A clock that shows 22:00 at tick 0.
const CLOCK: &str = "start 22:00
deadline 6:00
step X
X by 5:30
X at 23:00..1:00
X 1:00.. after Z
";

const CLOCK_DOCUMENT: &str = "<?xml version=\"1.0\" encoding=\"UTF-8\"?>
<graphml>
<graph edgedefault=\"directed\">
<data key=\"Deadline\">480</data>
<node id=\"Z\"/>
<node id=\"X\"/>
<edge source=\"Z\" target=\"X\"><data key=\"Type\">requirement</data><data key=\"LabeledValues\">{(450, ⊡)}</data></edge>
<edge source=\"X\" target=\"Z\"><data key=\"Type\">requirement</data><data key=\"LabeledValues\">{(-60, ⊡)}</data></edge>
<edge source=\"Z\" target=\"X\"><data key=\"Type\">requirement</data><data key=\"LabeledValues\">{(180, ⊡)}</data></edge>
<edge source=\"X\" target=\"Z\"><data key=\"Type\">requirement</data><data key=\"LabeledValues\">{(-60, ⊡)}</data></edge>
</graph>
</graphml>
";

// X is at 5 or later.
const BOUND: &str = "deadline 9
step X
X at 5..
";

const BOUND_DOCUMENT: &str = "<?xml version=\"1.0\" encoding=\"UTF-8\"?>
<graphml>
<graph edgedefault=\"directed\">
<data key=\"Deadline\">9</data>
<node id=\"Z\"/>
<node id=\"X\"/>
<edge source=\"X\" target=\"Z\"><data key=\"Type\">requirement</data><data key=\"LabeledValues\">{(-5, ⊡)}</data></edge>
</graph>
</graphml>
";

// The canonical document of the origin alone, by the deadline 0.
const ALONE_DOCUMENT: &str = "<?xml version=\"1.0\" encoding=\"UTF-8\"?>
<graphml>
<graph edgedefault=\"directed\">
<data key=\"Deadline\">0</data>
<node id=\"Z\"/>
</graph>
</graphml>
";

// The request is answered so, however many bytes a call takes.
fn expect(
    rt: &impl Abort,
    alloc: Global,
    words: &[&str],
    file: &str,
    status: Status,
    text: &str,
) -> Result<(), Fail> {
    let row = Row {
        name: file,
        words,
        file,
        other: "",
        live: "moment 0\n",
        status,
        text,
        left: "moment 0\n",
    };
    expect_by_bytes(rt, alloc, &row)?;
    let faults = Faults { most: 200, ..WELL };
    expect_end(rt, alloc, &row, &faults)
}

// This is the document of the plan.
fn expect_document(rt: &impl Abort, alloc: Global, file: &str, text: &str) -> Result<(), Fail> {
    expect(rt, alloc, &["plan", "f"], file, Status::Good, text)
}

// The plan is refused so.
fn expect_refused(rt: &impl Abort, alloc: Global, file: &str, text: &str) -> Result<(), Fail> {
    expect(rt, alloc, &["plan", "f"], file, Status::Document, text)
}

#[test]
fn plans_have_documents(rt: HostRuntime) -> Result<(), Fail> {
    let alloc = rt.alloc();
    expect_document(&rt, alloc, FEVER, FEVER_DOCUMENT)?;
    expect_document(&rt, alloc, TASK, TASK_DOCUMENT)?;
    expect_document(&rt, alloc, CLOCK, CLOCK_DOCUMENT)?;
    expect_document(&rt, alloc, BOUND, BOUND_DOCUMENT)?;
    let words = ["plan", "f", "--deadline", "0"];
    expect(&rt, alloc, &words, "", Status::Good, ALONE_DOCUMENT)
}

#[test]
fn plans_are_refused(rt: HostRuntime) -> Result<(), Fail> {
    let alloc = rt.alloc();
    expect_refused(&rt, alloc, "", "plan deadline\n")?;
    expect_refused(
        &rt,
        alloc,
        "deadline 9\nstep X\nX at 6..5\n",
        "plan line 3 range\n",
    )?;
    expect_refused(
        &rt,
        alloc,
        "deadline 9\nstep X\nY at 5\n",
        "plan line 3 name Y\n",
    )?;
    expect_refused(
        &rt,
        alloc,
        "deadline 9\nstep X\nstep X\n",
        "plan line 3 twice X\n",
    )?;
    expect_refused(
        &rt,
        alloc,
        "deadline 9\nstep X\nX at five\n",
        "plan line 3 word 3\n",
    )?;
    expect_refused(
        &rt,
        alloc,
        "deadline 9\nX ..30 after Y\n",
        "plan line 2 word 2\n",
    )?;
    expect_refused(&rt, alloc, "deadline 9\nX by -3\n", "plan line 2 word 4\n")?;
    expect_refused(
        &rt,
        alloc,
        "deadline 9\nstep Log book\n",
        "plan line 2 word 3\n",
    )?;
    expect_refused(
        &rt,
        alloc,
        "deadline 9\nstep X if b\nstep Y if b !l\n",
        "plan line 3 word 5\n",
    )?;
    expect_refused(
        &rt,
        alloc,
        "deadline 9\nstep X observes damage\n",
        "plan line 2 word 5\n",
    )?;
    expect_refused(
        &rt,
        alloc,
        "deadline 9\nstep X if damage\n",
        "plan line 2 letter damage\n",
    )?;
    expect_refused(
        &rt,
        alloc,
        "deadline 9\nstep X\nend of X by 3\n",
        "plan line 3 name X\n",
    )?;
    expect_refused(
        &rt,
        alloc,
        "deadline 9\nstep X\nX after result of p\n",
        "plan line 3 letter p\n",
    )?;
    expect_refused(
        &rt,
        alloc,
        "deadline 9\nstep X\nX 5 after X if p\n",
        "plan N6 p\n",
    )?;
    expect_refused(
        &rt,
        alloc,
        "deadline 9\nstep \"X\"\n",
        "plan line 2 word 2\n",
    )?;
    expect_refused(
        &rt,
        alloc,
        "deadline 9\ndeadline 8\n",
        "plan line 2 twice deadline\n",
    )?;
    expect_refused(
        &rt,
        alloc,
        "deadline 9\nstep \"A b\"\nstep \"A b\"\n",
        "plan line 3 twice A%20b\n",
    )?;
    expect_refused(&rt, alloc, "deadline 9\ntask Z 3\n", "plan line 2 name Z\n")?;
    expect_refused(
        &rt,
        alloc,
        "deadline 9\nstep P observes p\nstep Q observes p\n",
        "plan N7 p P Q\n",
    )?;
    expect_refused(&rt, alloc, "deadline 9\nstep Z if p\n", "plan L1\n")?;
    expect_refused(&rt, alloc, "deadline 9\nstep X if q\n", "plan L3 X q\n")?;
    expect_refused(
        &rt,
        alloc,
        "deadline 9\nstep P observes p if p\n",
        "plan L4 P\n",
    )?;
    Ok(())
}

#[test]
fn documents_are_put_into_sentences(rt: HostRuntime) -> Result<(), Fail> {
    let alloc = rt.alloc();
    let words = ["sentences", "f"];
    expect(&rt, alloc, &words, PATHWAY, Status::Good, FEVER_AGAIN)?;
    expect(
        &rt,
        alloc,
        &words,
        FEVER_DOCUMENT,
        Status::Good,
        FEVER_AGAIN,
    )?;
    expect(
        &rt,
        alloc,
        &words,
        "",
        Status::Document,
        "document X2 at 0\n",
    )
}

#[test]
fn other_words_are_no_request(rt: HostRuntime) -> Result<(), Fail> {
    let alloc = rt.alloc();
    expect(&rt, alloc, &["plan"], "", Status::Words, "words\n")?;
    let capped = ["plan", "f", "--cap", "9"];
    expect(&rt, alloc, &capped, "", Status::Words, "words\n")?;
    let several = ["sentences", "f", "g"];
    expect(&rt, alloc, &several, "", Status::Words, "words\n")
}
