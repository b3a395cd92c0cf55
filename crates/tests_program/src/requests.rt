// Requests on files and live lines in memory, and their answers.
use cstn_io::{MemoryFile, MemoryShelf, MemorySink, MemorySource};
use cstn_request::Release;
use cstn_top::{Status, run};
use std::alloc::{AllocError, Global};
use std::process::Abort;
use std::test::Fail;

/// The words of a request, the files `f` and `g`, live lines, how the request ends, what it writes, and what it leaves of the
/// live lines.
#[derive(Clone, Copy)]
pub(crate) struct Row<'a> {
    pub(crate) name: &'a str,
    pub(crate) words: &'a [&'a str],
    pub(crate) file: &'a str,
    pub(crate) other: &'a str,
    pub(crate) live: &'a str,
    pub(crate) status: Status,
    pub(crate) text: &'a str,
    pub(crate) left: &'a str,
}

/// Which calls of the shelf, the live source and the sink fail, by number, and how many bytes a call takes at most.
#[derive(Clone, Copy)]
pub(crate) struct Faults<'a> {
    pub(crate) shelf: &'a [u64],
    pub(crate) live: &'a [u64],
    pub(crate) out: &'a [u64],
    pub(crate) most: usize,
}

/// No call fails, and each takes one byte.
pub(crate) const WELL: Faults<'static> = Faults {
    shelf: &[],
    live: &[],
    out: &[],
    most: 1,
};

/// How a request ended, what it wrote, and what it left of the live lines.
#[derive(Drop)]
pub(crate) struct Outcome {
    pub(crate) status: Status,
    pub(crate) text: String,
    pub(crate) left: String,
}

// How many bytes can be written.
const ROOM: usize = 4000;

// The release of the program that is asked.
const RELEASE: Release = Release {
    number: 4_294_967_295,
    lines: 0,
};

fn words_of(alloc: Global, words: &[&str]) -> Result<Vec<String>, AllocError> {
    let mut owned = Vec::new(alloc);
    for word in words {
        owned.push(String::from_str(alloc, word)?)?;
    }
    Ok(owned)
}

fn named(alloc: Global, name: &str, text: &str) -> Result<MemoryFile, AllocError> {
    let name = String::from_str(alloc, name)?;
    let bytes = text.as_bytes().to_vec(alloc)?;
    Ok(MemoryFile::new(name, bytes))
}

fn shelf_of(alloc: Global, row: &Row<'_>, faults: &Faults<'_>) -> Result<MemoryShelf, AllocError> {
    let mut files = Vec::new(alloc);
    files.push(named(alloc, "f", row.file)?)?;
    files.push(named(alloc, "g", row.other)?)?;
    let failing = faults.shelf.to_vec(alloc)?;
    Ok(MemoryShelf::new(files, failing, faults.most.max(1)))
}

fn live_of(alloc: Global, row: &Row<'_>, faults: &Faults<'_>) -> Result<MemorySource, AllocError> {
    let bytes = row.live.as_bytes().to_vec(alloc)?;
    let failing = faults.live.to_vec(alloc)?;
    Ok(MemorySource::new(bytes, failing, faults.most.max(1)))
}

fn out_of(alloc: Global, faults: &Faults<'_>) -> Result<MemorySink, AllocError> {
    let failing = faults.out.to_vec(alloc)?;
    MemorySink::start(alloc, ROOM, failing, faults.most.max(1))
}

// The top call.
fn answer(
    alloc: Global,
    words: &[String],
    shelf: &mut MemoryShelf,
    live: &mut MemorySource,
    out: &mut MemorySink,
) -> Status {
    run(alloc, RELEASE, words, shelf, live, out)
}

// What stands in the sink and in the live source.
fn outcome_after(
    alloc: Global,
    status: Status,
    out: &MemorySink,
    live: &MemorySource,
) -> Result<Outcome, AllocError> {
    let text = String::from_utf8_lossy(alloc, out.written())?;
    let left = String::from_utf8_lossy(alloc, live.left())?;
    Ok(Outcome { status, text, left })
}

/// What comes of a request where these calls fail.
pub(crate) fn outcome_of(
    alloc: Global,
    row: &Row<'_>,
    faults: &Faults<'_>,
) -> Result<Outcome, AllocError> {
    let words = words_of(alloc, row.words)?;
    let mut shelf = shelf_of(alloc, row, faults)?;
    let mut live = live_of(alloc, row, faults)?;
    let mut out = out_of(alloc, faults)?;
    let status = answer(alloc, &words, &mut shelf, &mut live, &mut out);
    outcome_after(alloc, status, &out, &live)
}

/// The request ends and is answered as its row says.
pub(crate) fn expect_whole(rt: &impl Abort, row: &Row<'_>, outcome: &Outcome) -> Result<(), Fail> {
    assert_eq!(rt; outcome.status, row.status, "{}", row.name);
    assert_eq!(rt; outcome.text.as_str(), row.text, "{}", row.name);
    Ok(())
}

/// Where these calls fail the request ends, is answered and leaves live lines as its row says.
pub(crate) fn expect_end(
    rt: &impl Abort,
    alloc: Global,
    row: &Row<'_>,
    faults: &Faults<'_>,
) -> Result<(), Fail> {
    let outcome = outcome_of(alloc, row, faults)?;
    expect_whole(rt, row, &outcome)?;
    assert_eq!(rt; outcome.left.as_str(), row.left, "{}", row.name);
    Ok(())
}

/// The same of each of these rows.
pub(crate) fn expect_ends(
    rt: &impl Abort,
    alloc: Global,
    rows: &[Row<'_>],
    faults: &Faults<'_>,
) -> Result<(), Fail> {
    for row in rows {
        expect_end(rt, alloc, row, faults)?;
    }
    Ok(())
}

// The number of the first read of live lines that isn't made where each takes one byte: that of the first byte that is left,
// or the second one at the end.
fn unread(row: &Row<'_>) -> u64 {
    if row.left.is_empty() {
        return row.live.len().saturating_add(1) as u64;
    }
    row.live.len().saturating_sub(row.left.len()) as u64
}

/// Where each call takes one byte, and a read that isn't to be made would fail, the request comes to what its row says.
pub(crate) fn expect_by_bytes(rt: &impl Abort, alloc: Global, row: &Row<'_>) -> Result<(), Fail> {
    let failing = [unread(row)];
    let faults = Faults {
        live: &failing,
        ..WELL
    };
    expect_end(rt, alloc, row, &faults)
}

/// The same of each of these rows.
pub(crate) fn expect_all_by_bytes(
    rt: &impl Abort,
    alloc: Global,
    rows: &[Row<'_>],
) -> Result<(), Fail> {
    for row in rows {
        expect_by_bytes(rt, alloc, row)?;
    }
    Ok(())
}
