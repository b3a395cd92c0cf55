//! Checks conditional simple temporal networks.
#![tactic(auto)]

use cstn_io::{FileShelf, InputSource, OutputSink};
use cstn_request::Release;
use cstn_top::run;
use std::alloc::{AllocError, Global};
use std::process::ExitCode;
use std::{env, io};

// The number of this release: each program that is released has a higher one than those before it.
const RELEASE: u32 = 7;

// The version of the lines that the program takes and answers: another one where a line or an answer changes its form or meaning.
const LINES: u32 = 1;

// The exit status where memory was refused before a request was read: that of `Status::Memory`.
const NO_MEMORY: u8 = 7;

// The exit status where the system refused the words. No `Status` has this number.
const NO_WORDS: u8 = 11;

fn main(rt: HostRuntime) -> ExitCode {
    let words = match env::args(&rt) {
        Ok(words) => words,
        Err(e) if e.kind() == io::ErrorKind::OutOfMemory => return ExitCode::from(NO_MEMORY),
        Err(_) => return ExitCode::from(NO_WORDS),
    };
    let Ok(words) = after_first(rt.alloc(), words) else {
        return ExitCode::from(NO_MEMORY);
    };
    let mut shelf = FileShelf::new(rt);
    let mut live = InputSource::new(rt.stdin());
    let mut out = OutputSink::new(io::writer(&rt));
    let release = Release {
        number: RELEASE,
        lines: LINES,
    };
    let status = run(rt.alloc(), release, &words, &mut shelf, &mut live, &mut out);
    ExitCode::from(status.number())
}

// The words after the program's name.
fn after_first(alloc: Global, args: env::Args) -> Result<Vec<String>, AllocError> {
    args.skip(1).collect(alloc)
}
