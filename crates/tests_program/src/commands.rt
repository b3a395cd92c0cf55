use crate::documents::{BOUNDS, BRANCH, LAST, LATE, ORIGIN, PROOF, SAVED, TREE};
use crate::requests::{Faults, Row, WELL, expect_by_bytes, expect_whole, outcome_of};
use cstn_top::Status;
use std::alloc::Global;
use std::process::Abort;
use std::test::Fail;

// Each command with files for it, and what the program is.
const COMMANDS: [Row<'static>; 17] = [
    Row {
        name: "check",
        words: &["check", "f", "--deadline", "10"],
        file: LATE,
        other: "",
        live: "moment 0\n",
        status: Status::Bad,
        text: PROOF,
        left: "moment 0\n",
    },
    Row {
        name: "run",
        words: &["run", "f", "--deadline", "10"],
        file: BRANCH,
        other: "",
        live: "moment 0\nsee p false\nmoment 1\ndue\n",
        status: Status::Good,
        text: "yes 5\nat 0 Z P\nseen p false\nat 1 X\ndone\n",
        left: "due\n",
    },
    Row {
        name: "edit",
        words: &["edit", "f", "--deadline", "10"],
        file: LAST,
        other: "",
        live: "check\nadd P Z -1 -\ncheck\nremove 9\n",
        status: Status::Good,
        text: "yes 6\nadded 3\nyes 6\nrefused S2 9\n",
        left: "",
    },
    Row {
        name: "save",
        words: &["save", "f", "--deadline", "10"],
        file: BRANCH,
        other: "",
        live: "moment 0\n",
        status: Status::Good,
        text: SAVED,
        left: "moment 0\n",
    },
    Row {
        name: "sentences",
        words: &["sentences", "f", "--deadline", "10"],
        file: BRANCH,
        other: "",
        live: "moment 0\n",
        status: Status::Good,
        text: "deadline 10\nstep P observes p\nstep X\nX at 10.. if p\nX by 3 if not p\n",
        left: "moment 0\n",
    },
    Row {
        name: "plan",
        words: &["plan", "f", "--deadline", "10"],
        file: "step P observes p\nstep X\nX at 10.. if p\nX by 3 if not p\n",
        other: "",
        live: "moment 0\n",
        status: Status::Good,
        text: SAVED,
        left: "moment 0\n",
    },
    Row {
        name: "replay",
        words: &["replay", "f", "g", "--deadline", "10"],
        file: LATE,
        other: PROOF,
        live: "moment 0\n",
        status: Status::Good,
        text: "accepted\n",
        left: "moment 0\n",
    },
    Row {
        name: "closed",
        words: &["closed", "f", "--deadline", "10"],
        file: BRANCH,
        other: "",
        live: "moment 0\n",
        status: Status::Good,
        text: BOUNDS,
        left: "moment 0\n",
    },
    Row {
        name: "closedcheck",
        words: &["closedcheck", "f", "g", "--deadline", "10"],
        file: BRANCH,
        other: BOUNDS,
        live: "moment 0\n",
        status: Status::Good,
        text: "accepted\n",
        left: "moment 0\n",
    },
    Row {
        name: "tight",
        words: &["tight", "f", "--deadline", "2"],
        file: ORIGIN,
        other: "",
        live: "moment 0\n",
        status: Status::Good,
        text: "least 0\nyes 1\nbound Z 0 -\n",
        left: "moment 0\n",
    },
    Row {
        name: "conflict",
        words: &["conflict", "f", "--deadline", "10"],
        file: LATE,
        other: "",
        live: "moment 0\n",
        status: Status::Bad,
        text: "conflict 0 1 2\nno 7\n0 base Z 0 -\n1 chain 0 0 X 10 p\n2 chain 2 0 P 3 -\n\
            3 wait 2 1 X 4 -\n4 chain 1 3 Z 1 !p\n",
        left: "moment 0\n",
    },
    Row {
        name: "tree",
        words: &["tree", "f", "--deadline", "10"],
        file: BRANCH,
        other: "",
        live: "moment 0\n",
        status: Status::Good,
        text: TREE,
        left: "moment 0\n",
    },
    Row {
        name: "cases",
        words: &["cases", "f", "--deadline", "10"],
        file: BRANCH,
        other: "",
        live: "moment 0\n",
        status: Status::Good,
        text: TREE,
        left: "moment 0\n",
    },
    Row {
        name: "treecheck",
        words: &["treecheck", "f", "g", "--deadline", "10"],
        file: BRANCH,
        other: TREE,
        live: "moment 0\n",
        status: Status::Good,
        text: "accepted\n",
        left: "moment 0\n",
    },
    Row {
        name: "drill",
        words: &["drill", "0"],
        file: "",
        other: "",
        live: "moment 0\n",
        status: Status::Good,
        text: "small 64 yes 59 no 5 differ 0\nlarge 48 yes 352\n",
        left: "moment 0\n",
    },
    Row {
        name: "host",
        words: &["host", "--deadline", "10", "f"],
        file: BRANCH,
        other: "",
        live: "open 9 0\non 9 moment 0\n",
        status: Status::Unfinished,
        text: "yes 5\nopened 9\n9 at 0 Z P\nunfinished 9 1\n",
        left: "",
    },
    Row {
        name: "--version",
        words: &["--version"],
        file: "",
        other: "",
        live: "moment 0\n",
        status: Status::Good,
        text: "release 4294967295\nlines 0\n",
        left: "moment 0\n",
    },
];

// How many calls of each form are to fail in turn.
const CALLS: u64 = 14;

// Where a call of the shelf fails nothing but the fault is told, or the call isn't made.
fn expect_shelf(rt: &impl Abort, alloc: Global, row: &Row<'_>, call: u64) -> Result<(), Fail> {
    let faults = Faults {
        shelf: &[call],
        most: 200,
        ..WELL
    };
    let outcome = outcome_of(alloc, row, &faults)?;
    if outcome.status != Status::ReadFault {
        return expect_whole(rt, row, &outcome);
    }
    assert_eq!(rt; outcome.text.as_str(), "read fault\n", "{}", row.name);
    Ok(())
}

// Where a read of live lines or a call of the sink fails, the request ends with this status after a first part of the answer
// and this text, or the call isn't made.
fn expect_cut(
    rt: &impl Abort,
    alloc: Global,
    row: &Row<'_>,
    faults: &Faults<'_>,
    status: Status,
    told: &str,
) -> Result<(), Fail> {
    let outcome = outcome_of(alloc, row, faults)?;
    if outcome.status != status {
        return expect_whole(rt, row, &outcome);
    }
    let before = outcome.text.strip_suffix(told).ok_or("no fault is told")?;
    assert!(rt; row.text.starts_with(before), "{}", row.name);
    Ok(())
}

// Each of the first calls of the shelf, of the live source and of the sink fails in turn.
fn expect_faults(rt: &impl Abort, alloc: Global, row: &Row<'_>) -> Result<(), Fail> {
    for call in 0..CALLS {
        let failing = [call];
        let live = Faults {
            live: &failing,
            most: 9,
            ..WELL
        };
        let out = Faults {
            out: &failing,
            most: 9,
            ..WELL
        };
        expect_shelf(rt, alloc, row, call)?;
        expect_cut(rt, alloc, row, &live, Status::ReadFault, "read fault\n")?;
        expect_cut(rt, alloc, row, &out, Status::WriteFault, "")?;
    }
    Ok(())
}

// However many bytes a call takes, the request is answered.
fn expect_answer(rt: &impl Abort, alloc: Global, row: &Row<'_>) -> Result<(), Fail> {
    expect_by_bytes(rt, alloc, row)?;
    let faults = Faults { most: 200, ..WELL };
    let outcome = outcome_of(alloc, row, &faults)?;
    expect_whole(rt, row, &outcome)
}

#[test]
fn commands_are_answered(rt: HostRuntime) -> Result<(), Fail> {
    for row in &COMMANDS {
        expect_answer(&rt, rt.alloc(), row)?;
    }
    Ok(())
}

#[test]
fn commands_fail_at_each_call(rt: HostRuntime) -> Result<(), Fail> {
    for row in &COMMANDS {
        expect_faults(&rt, rt.alloc(), row)?;
    }
    Ok(())
}
