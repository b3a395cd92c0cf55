use crate::documents::{BRANCH, LAST, LATE, PAIR, PROOF};
use crate::requests::{Faults, Row, expect_ends};
use cstn_top::Status;
use std::test::Fail;

// The first read of lines fails.
const FIRST_READ: [Row<'static>; 2] = [
    Row {
        name: "run",
        words: &["run", "f", "--deadline", "10"],
        file: BRANCH,
        other: "",
        live: "moment 0\nsee p true\n",
        status: Status::ReadFault,
        text: "yes 5\nread fault\n",
        left: "moment 0\nsee p true\n",
    },
    Row {
        name: "edit",
        words: &["edit", "f", "--deadline", "10"],
        file: BRANCH,
        other: "",
        live: "check\nremove 0\ncheck\n",
        status: Status::ReadFault,
        text: "read fault\n",
        left: "check\nremove 0\ncheck\n",
    },
];

// The second read of lines fails, after nine bytes.
const SECOND_READ: [Row<'static>; 3] = [
    Row {
        name: "run",
        words: &["run", "f", "--deadline", "10"],
        file: BRANCH,
        other: "",
        live: "moment 0\nsee p true\n",
        status: Status::ReadFault,
        text: "yes 5\nat 0 Z P\nread fault\n",
        left: "see p true\n",
    },
    Row {
        name: "edit",
        words: &["edit", "f", "--deadline", "10"],
        file: BRANCH,
        other: "",
        live: "check\nremove 0\ncheck\n",
        status: Status::ReadFault,
        text: "yes 5\nread fault\n",
        left: "ove 0\ncheck\n",
    },
    Row {
        name: "host",
        words: &["host", "--deadline", "10", "f"],
        file: BRANCH,
        other: "",
        live: "open 0 0\non 0 moment 0\n",
        status: Status::ReadFault,
        text: "yes 5\nopened 0\nread fault\n",
        left: "on 0 moment 0\n",
    },
];

// The first call of the shelf fails.
const OPENING: [Row<'static>; 2] = [
    Row {
        name: "check",
        words: &["check", "f", "--deadline", "5"],
        file: PAIR,
        other: "",
        live: "",
        status: Status::ReadFault,
        text: "read fault\n",
        left: "",
    },
    Row {
        name: "host",
        words: &["host", "--deadline", "10", "f"],
        file: BRANCH,
        other: "",
        live: "open 0 0\non 0 moment 0\n",
        status: Status::ReadFault,
        text: "read fault\n",
        left: "open 0 0\non 0 moment 0\n",
    },
];

// The fourth call of the shelf fails, after eighteen bytes of the file.
const FILE_READ: [Row<'static>; 1] = [Row {
    name: "check",
    words: &["check", "f", "--deadline", "5"],
    file: PAIR,
    other: "",
    live: "",
    status: Status::ReadFault,
    text: "read fault\n",
    left: "",
}];

// The first call of the sink fails.
const FIRST_WRITE: [Row<'static>; 2] = [
    Row {
        name: "a yes",
        words: &["check", "f", "--deadline", "5"],
        file: PAIR,
        other: "",
        live: "",
        status: Status::WriteFault,
        text: "",
        left: "",
    },
    Row {
        name: "words that are none",
        words: &["check"],
        file: PAIR,
        other: "",
        live: "",
        status: Status::WriteFault,
        text: "",
        left: "",
    },
];

// The second call of the sink fails.
const FIRST_FLUSH: [Row<'static>; 1] = [Row {
    name: "a yes",
    words: &["check", "f", "--deadline", "5"],
    file: PAIR,
    other: "",
    live: "",
    status: Status::WriteFault,
    text: "yes 3\n",
    left: "",
}];

// The third call of the sink fails, after a line and its flush.
const SECOND_LINE: [Row<'static>; 2] = [
    Row {
        name: "the answer to a live line",
        words: &["run", "f", "--deadline", "10"],
        file: BRANCH,
        other: "",
        live: "moment 0\nsee p true\n",
        status: Status::WriteFault,
        text: "yes 5\n",
        left: "see p true\n",
    },
    Row {
        name: "the answer to a host line",
        words: &["host", "--deadline", "10", "f"],
        file: BRANCH,
        other: "",
        live: "open 0 0\non 0 moment 0\n",
        status: Status::WriteFault,
        text: "yes 5\n",
        left: "on 0 moment 0\n",
    },
];

// The fifth call of the sink fails, after nine bytes of a line.
const LONG_LINE: [Row<'static>; 1] = [Row {
    name: "the answer to an edit line",
    words: &["edit", "f", "--deadline", "10"],
    file: BRANCH,
    other: "",
    live: "check\nremove 0\ncheck\n",
    status: Status::WriteFault,
    text: "yes 5\nremoved 0",
    left: "ck\n",
}];

// Files that the shelf lacks.
const MISSING: [Row<'static>; 11] = [
    Row {
        name: "no file",
        words: &["check", "missing", "--deadline", "5"],
        file: PAIR,
        other: "",
        live: "",
        status: Status::ReadFault,
        text: "read fault\n",
        left: "",
    },
    Row {
        name: "no text for replay",
        words: &["replay", "f", "missing", "--deadline", "10"],
        file: BRANCH,
        other: "",
        live: "",
        status: Status::ReadFault,
        text: "read fault\n",
        left: "",
    },
    Row {
        name: "no text for closedcheck",
        words: &["closedcheck", "f", "missing", "--deadline", "10"],
        file: BRANCH,
        other: "",
        live: "",
        status: Status::ReadFault,
        text: "read fault\n",
        left: "",
    },
    Row {
        name: "no text for treecheck",
        words: &["treecheck", "f", "missing", "--deadline", "10"],
        file: BRANCH,
        other: "",
        live: "",
        status: Status::ReadFault,
        text: "read fault\n",
        left: "",
    },
    Row {
        name: "no text for replay, and no deadline",
        words: &["replay", "f", "missing"],
        file: BRANCH,
        other: "",
        live: "",
        status: Status::Document,
        text: "document X9\n",
        left: "",
    },
    Row {
        name: "no text for closedcheck, and no deadline",
        words: &["closedcheck", "f", "missing"],
        file: BRANCH,
        other: "",
        live: "",
        status: Status::Document,
        text: "document X9\n",
        left: "",
    },
    Row {
        name: "no text for treecheck, and no deadline",
        words: &["treecheck", "f", "missing"],
        file: BRANCH,
        other: "",
        live: "",
        status: Status::Document,
        text: "document X9\n",
        left: "",
    },
    Row {
        name: "no second file for host",
        words: &["host", "--deadline", "10", "f", "missing"],
        file: BRANCH,
        other: "",
        live: "open 0 0\non 0 moment 0\n",
        status: Status::ReadFault,
        text: "read fault\n",
        left: "open 0 0\non 0 moment 0\n",
    },
    Row {
        name: "no second file for host after a no",
        words: &["host", "--deadline", "10", "f", "missing"],
        file: LATE,
        other: "",
        live: "open 0 0\non 0 moment 0\n",
        status: Status::ReadFault,
        text: "read fault\n",
        left: "open 0 0\non 0 moment 0\n",
    },
    Row {
        name: "no second file for host, and a first one that is refused",
        words: &["host", "--deadline", "10", "f", "missing"],
        file: "",
        other: "",
        live: "open 0 0\non 0 moment 0\n",
        status: Status::Document,
        text: "document X2 at 0\n",
        left: "open 0 0\non 0 moment 0\n",
    },
    Row {
        name: "no second file for host, and no deadline",
        words: &["host", "f", "missing"],
        file: BRANCH,
        other: "",
        live: "open 0 0\non 0 moment 0\n",
        status: Status::Document,
        text: "document X9\n",
        left: "open 0 0\non 0 moment 0\n",
    },
];

// No file is asked for, and no line is read.
const WITHOUT_FILES: [Row<'static>; 5] = [
    Row {
        name: "words that are none",
        words: &["check"],
        file: PAIR,
        other: "",
        live: "due\n",
        status: Status::Words,
        text: "words\n",
        left: "due\n",
    },
    Row {
        name: "a drill",
        words: &["drill", "0"],
        file: "",
        other: "",
        live: "due\n",
        status: Status::Good,
        text: "small 64 yes 59 no 5 differ 0\nlarge 48 yes 352\n",
        left: "due\n",
    },
    Row {
        name: "the version",
        words: &["--version"],
        file: "",
        other: "",
        live: "due\n",
        status: Status::Good,
        text: "release 4294967295\nlines 0\n",
        left: "due\n",
    },
    Row {
        name: "the version and a word more",
        words: &["--version", "f"],
        file: PAIR,
        other: "",
        live: "due\n",
        status: Status::Words,
        text: "words\n",
        left: "due\n",
    },
    Row {
        name: "help",
        words: &["--help"],
        file: "",
        other: "",
        live: "due\n",
        status: Status::Words,
        text: "words\n",
        left: "due\n",
    },
];

// Three calls read one file, no other file is asked for, and no line is read.
const ONE_FILE: [Row<'static>; 4] = [
    Row {
        name: "a check",
        words: &["check", "f", "--deadline", "5"],
        file: PAIR,
        other: "",
        live: "due\n",
        status: Status::Good,
        text: "yes 3\n",
        left: "due\n",
    },
    Row {
        name: "a refused file before its text",
        words: &["replay", "f", "g"],
        file: LATE,
        other: PROOF,
        live: "due\n",
        status: Status::Document,
        text: "document X9\n",
        left: "due\n",
    },
    Row {
        name: "a refused file before a second one",
        words: &["host", "f", "g"],
        file: BRANCH,
        other: LAST,
        live: "due\n",
        status: Status::Document,
        text: "document X9\n",
        left: "due\n",
    },
    Row {
        name: "a run after no",
        words: &["run", "f", "--deadline", "10"],
        file: LATE,
        other: "",
        live: "due\n",
        status: Status::Bad,
        text: PROOF,
        left: "due\n",
    },
];

// Three calls read each of two files, and no line is read.
const TWO_FILES: [Row<'static>; 2] = [
    Row {
        name: "a file and its text",
        words: &["replay", "f", "g", "--deadline", "10"],
        file: LATE,
        other: PROOF,
        live: "due\n",
        status: Status::Good,
        text: "accepted\n",
        left: "due\n",
    },
    Row {
        name: "a second file that is no",
        words: &["host", "--deadline", "10", "f", "g"],
        file: BRANCH,
        other: LATE,
        live: "due\n",
        status: Status::Bad,
        text: PROOF,
        left: "due\n",
    },
];

// Rows, and the calls that fail in each.
struct Case {
    rows: &'static [Row<'static>],
    faults: Faults<'static>,
}

const CASES: [Case; 12] = [
    Case {
        rows: &FIRST_READ,
        faults: Faults {
            shelf: &[],
            live: &[0],
            out: &[],
            most: 9,
        },
    },
    Case {
        rows: &SECOND_READ,
        faults: Faults {
            shelf: &[],
            live: &[1],
            out: &[],
            most: 9,
        },
    },
    Case {
        rows: &OPENING,
        faults: Faults {
            shelf: &[0],
            live: &[],
            out: &[],
            most: 9,
        },
    },
    Case {
        rows: &FILE_READ,
        faults: Faults {
            shelf: &[3],
            live: &[],
            out: &[],
            most: 9,
        },
    },
    Case {
        rows: &FIRST_WRITE,
        faults: Faults {
            shelf: &[],
            live: &[],
            out: &[0],
            most: 9,
        },
    },
    Case {
        rows: &FIRST_FLUSH,
        faults: Faults {
            shelf: &[],
            live: &[],
            out: &[1],
            most: 9,
        },
    },
    Case {
        rows: &SECOND_LINE,
        faults: Faults {
            shelf: &[],
            live: &[],
            out: &[2],
            most: 9,
        },
    },
    Case {
        rows: &LONG_LINE,
        faults: Faults {
            shelf: &[],
            live: &[],
            out: &[4],
            most: 9,
        },
    },
    Case {
        rows: &MISSING,
        faults: Faults {
            shelf: &[],
            live: &[],
            out: &[],
            most: 400,
        },
    },
    Case {
        rows: &WITHOUT_FILES,
        faults: Faults {
            shelf: &[0],
            live: &[0],
            out: &[],
            most: 400,
        },
    },
    Case {
        rows: &ONE_FILE,
        faults: Faults {
            shelf: &[3, 4],
            live: &[0],
            out: &[],
            most: 400,
        },
    },
    Case {
        rows: &TWO_FILES,
        faults: Faults {
            shelf: &[6, 7],
            live: &[0],
            out: &[],
            most: 400,
        },
    },
];

#[test]
fn calls_fail(rt: HostRuntime) -> Result<(), Fail> {
    for case in &CASES {
        expect_ends(&rt, rt.alloc(), case.rows, &case.faults)?;
    }
    Ok(())
}
