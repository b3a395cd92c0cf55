//! The lines of a source, and a line that edits.
ghost use Rattle.std.specs.Prelude.{◌<◌};

use cstn_io::MemorySource;
use cstn_label::{Label, Mark, Prop};
use cstn_lines::{EditLine, Lines, Next, read_edit};
use std::alloc::Global;
use std::process::Abort;

// A source of these bytes that hands out at most `most` a call, and whose calls numbered in `failing`, from 0, fail.
fn source_of(
    rt: &impl Abort,
    alloc: Global,
    bytes: &[u8],
    failing: &[u64],
    most: usize,
) -> MemorySource
    requires { 0 < most }
{
    let bytes = bytes.to_vec(alloc).expect(rt, "memory");
    let failing = failing.to_vec(alloc).expect(rt, "memory");
    MemorySource::new(bytes, failing, most)
}

fn started(rt: &impl Abort, alloc: Global) -> Lines {
    Lines::start(alloc).expect(rt, "memory")
}

// The next step answers `next`.
fn expect_step(rt: &impl Abort, lines: &mut Lines, source: &mut MemorySource, next: Next) {
    assert!(rt; lines.step(source) == next);
}

// The next step hands out this line.
fn expect_line(
    rt: &impl Abort,
    lines: &mut Lines,
    source: &mut MemorySource,
    number: u32,
    line: &[u8],
) {
    expect_step(rt, lines, source, Next::Line { number });
    assert!(rt; lines.line() == line, "line {number}");
}

// The source is at its end, and stays there.
fn expect_end(rt: &impl Abort, mut lines: Lines, mut source: MemorySource) {
    expect_step(rt, &mut lines, &mut source, Next::End);
    expect_step(rt, &mut lines, &mut source, Next::End);
    drop(lines);
    drop(source);
}

// Three lines are read from a source that hands out at most `most` bytes a call.
fn expect_three(rt: &impl Abort, alloc: Global, most: usize)
    requires { 0 < most }
{
    let mut source = source_of(rt, alloc, b"due\n\nmoment 0", &[], most);
    let mut lines = started(rt, alloc);
    expect_line(rt, &mut lines, &mut source, 1, b"due");
    expect_line(rt, &mut lines, &mut source, 2, b"");
    expect_line(rt, &mut lines, &mut source, 3, b"moment 0");
    expect_end(rt, lines, source);
}

#[test]
fn lines_in_any_pieces(rt: HostRuntime) {
    for most in [1, 3, 100] {
        expect_three(&rt, rt.alloc(), most);
    }
}

const LONGEST: [u8; 4096] = [b'x'; 4096];

#[test]
fn longest_lines(rt: HostRuntime) {
    let alloc = rt.alloc();
    let mut twice = vec![in alloc; b'x'; 8193].expect(&rt, "memory");
    twice[4096] = b'\n';
    let mut source = source_of(&rt, alloc, &twice, &[], 1000);
    let mut lines = started(&rt, alloc);
    expect_line(&rt, &mut lines, &mut source, 1, &LONGEST);
    expect_line(&rt, &mut lines, &mut source, 2, &LONGEST);
    expect_end(&rt, lines, source);
    drop(twice);
}

#[test]
fn longer_line(rt: HostRuntime) {
    let alloc = rt.alloc();
    let mut source = source_of(&rt, alloc, &[b'x'; 4097], &[], 1000);
    let mut lines = started(&rt, alloc);
    expect_step(&rt, &mut lines, &mut source, Next::Wrong { number: 1 });
    expect_step(&rt, &mut lines, &mut source, Next::Wrong { number: 1 });
    drop(lines);
    drop(source);
}

#[test]
fn fault_in_a_line(rt: HostRuntime) {
    let alloc = rt.alloc();
    let mut source = source_of(&rt, alloc, b"see p true\n", &[1], 5);
    let mut lines = started(&rt, alloc);
    expect_step(&rt, &mut lines, &mut source, Next::Fault);
    expect_line(&rt, &mut lines, &mut source, 1, b"see p true");
    drop(lines);
    drop(source);
}

// The bytes add a constraint between these names, with this value and label.
fn expect_added(
    rt: &impl Abort,
    alloc: Global,
    bytes: &[u8],
    ends: [&str; 2],
    value: i32,
    marks: Label,
) {
    let line = read_edit(alloc, bytes).expect(rt, "memory");
    let Some(
        EditLine::Add {
            from,
            to,
            most,
            label,
        },
    ) = line
    else {
        panic!(rt; "a line that adds");
    };
    assert!(rt; from.as_str() == ends[0] && to.as_str() == ends[1]);
    assert!(rt; most == value && label == marks);
    drop(to);
    drop(from);
}

// Names of 64 bytes, in as many bytes as they may take in a line.
#[test]
fn an_edit_line_with_the_longest_names(rt: HostRuntime) {
    let alloc = rt.alloc();
    let from = "%".repeat(alloc, 64).expect(&rt, "memory");
    let printed = "%25".repeat(alloc, 64).expect(&rt, "memory");
    let line = format!(in alloc; "add {printed} Z -3 ?p").expect(&rt, "memory");
    let unknown = Label::empty().with(Prop { index: 41 }, Mark::Unknown);
    expect_added(
        &rt,
        alloc,
        line.as_bytes(),
        [from.as_str(), "Z"],
        -3,
        unknown,
    );
    drop(line);
    drop(printed);
    drop(from);
}
