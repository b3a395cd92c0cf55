//! Files, sources and sinks, in memory and of the system, also where calls of them fail.
ghost use Rattle.std.specs.Prelude.{◌<◌, length};

use cstn_io::{
    Failed, FileShelf, InputSource, MemoryFile, MemoryShelf, MemorySink, MemorySource, OutputSink,
    Sink, Source, TakeError, put_all, take_all,
};
use std::alloc::Global;
use std::io;
use std::process::Abort;

const DOCUMENT: [u8; 141] = [b'x'; 141];

fn file(rt: &impl Abort, alloc: Global, name: &str, bytes: &[u8]) -> MemoryFile {
    let name = String::from_str(alloc, name).expect(rt, "memory");
    MemoryFile::new(name, bytes.to_vec(alloc).expect(rt, "memory"))
}

// A shelf of two files named f, of which the first has five bytes, of an empty one named e, and of one named d of 141 bytes.
fn shelf_of(rt: &impl Abort, alloc: Global, failing: &[u64], most: usize) -> MemoryShelf
    requires { 0 < most }
{
    let files = vec![in alloc;
        file(rt, alloc, "f", b"12345"),
        file(rt, alloc, "f", b"other"),
        file(rt, alloc, "e", b""),
        file(rt, alloc, "d", &DOCUMENT),
    ]
    .expect(rt, "memory");
    let failing = failing.to_vec(alloc).expect(rt, "memory");
    MemoryShelf::new(files, failing, most)
}

// What was taken is what is wanted of the case of this name.
fn expect_taken(
    rt: &impl Abort,
    name: &str,
    taken: Result<Vec<u8>, TakeError>,
    wanted: Result<&[u8], TakeError>,
) {
    match &taken {
        Ok(bytes) => assert!(rt; wanted == Ok(bytes.as_slice()), "{name}"),
        Err(error) => assert!(rt; wanted == Err(*error), "{name}"),
    }
    drop(taken);
}

// A name, a limit, and what comes of taking the file.
struct Case {
    name: &'static str,
    limit: usize,
    wanted: Result<&'static [u8], TakeError>,
}

const FILES: [Case; 10] = [
    Case {
        name: "f",
        limit: 8_388_608,
        wanted: Ok(b"12345"),
    },
    Case {
        name: "f",
        limit: 5,
        wanted: Ok(b"12345"),
    },
    Case {
        name: "f",
        limit: 6,
        wanted: Ok(b"12345"),
    },
    Case {
        name: "f",
        limit: 4,
        wanted: Err(TakeError::TooLong),
    },
    Case {
        name: "f",
        limit: 0,
        wanted: Err(TakeError::TooLong),
    },
    Case {
        name: "e",
        limit: 0,
        wanted: Ok(b""),
    },
    Case {
        name: "d",
        limit: 140,
        wanted: Err(TakeError::TooLong),
    },
    Case {
        name: "d",
        limit: 141,
        wanted: Ok(&DOCUMENT),
    },
    Case {
        name: "d",
        limit: 142,
        wanted: Ok(&DOCUMENT),
    },
    Case {
        name: "g",
        limit: 5,
        wanted: Err(TakeError::ReadFault),
    },
];

// Taking the file has this answer, however few bytes a call reads.
fn expect_file(rt: &impl Abort, alloc: Global, case: &Case) {
    for most in [1, 2, 100] {
        let mut shelf = shelf_of(rt, alloc, &[], most);
        let taken = take_all(alloc, &mut shelf, case.name, case.limit);
        expect_taken(rt, case.name, taken, case.wanted);
    }
}

#[test]
fn files_and_limits(rt: HostRuntime) {
    for case in &FILES {
        expect_file(&rt, rt.alloc(), case);
    }
}

// A file that no single read gives whole.
#[test]
fn long_file(rt: HostRuntime) {
    let alloc = rt.alloc();
    let bytes = vec![in alloc; b'x'; 150_000].expect(&rt, "memory");
    let files = vec![in alloc; file(&rt, alloc, "l", &bytes)].expect(&rt, "memory");
    let mut shelf = MemoryShelf::new(files, Vec::new(alloc), 50_000);
    let taken = take_all(alloc, &mut shelf, "l", 150_000);
    expect_taken(&rt, "whole", taken, Ok(&bytes));
    let taken = take_all(alloc, &mut shelf, "l", 149_999);
    expect_taken(&rt, "too long", taken, Err(TakeError::TooLong));
}

// Taking the file of five bytes two at a time has this answer where the call numbered `failing` fails.
fn expect_failing(
    rt: &impl Abort,
    alloc: Global,
    limit: usize,
    failing: u64,
    wanted: Result<&[u8], TakeError>,
) {
    let mut shelf = shelf_of(rt, alloc, &[failing], 2);
    let taken = take_all(alloc, &mut shelf, "f", limit);
    expect_taken(rt, "f", taken, wanted);
}

// The file is taken by one choice, three reads and one that answers 0, also where the limit is its length.
#[test]
fn failing_calls_of_a_shelf(rt: HostRuntime) {
    let alloc = rt.alloc();
    for limit in [5, 9] {
        for failing in 0..5 {
            expect_failing(&rt, alloc, limit, failing, Err(TakeError::ReadFault));
        }
        expect_failing(&rt, alloc, limit, 5, Ok(b"12345"));
    }
}

// A file of the system, and openings and reads that the system refuses: a name with a NUL byte, and a directory, which is
// opened and then can't be read.
#[test]
fn real_files(rt: HostRuntime) {
    let alloc = rt.alloc();
    std::fs::write(&rt, "five.txt", "12345").expect(&rt, "a file");
    std::fs::create_dir(&rt, "folder").expect(&rt, "a folder");
    let mut shelf = FileShelf::new(rt.clone().expect(&rt, "a runtime"));
    let taken = take_all(alloc, &mut shelf, "five.txt", 5);
    expect_taken(&rt, "five.txt", taken, Ok(b"12345"));
    for name in ["five.txt\0", "folder"] {
        let taken = take_all(alloc, &mut shelf, name, 9);
        expect_taken(&rt, name, taken, Err(TakeError::ReadFault));
    }
}

fn expect_put(rt: &impl Abort, sink: &mut impl Sink, bytes: &[u8], wanted: Result<(), Failed>) {
    assert!(rt; put_all(sink, bytes) == wanted);
}

fn expect_flush(rt: &impl Abort, sink: &mut impl Sink, wanted: Result<(), Failed>) {
    assert!(rt; sink.flush() == wanted);
}

// A sink that takes at most two bytes a call.
fn sink_of(rt: &impl Abort, alloc: Global, room: usize, failing: &[u64]) -> MemorySink {
    let failing = failing.to_vec(alloc).expect(rt, "memory");
    MemorySink::start(alloc, room, failing, 2).expect(rt, "memory")
}

// Writing six bytes to a sink of this room, whose calls numbered in `failing` fail, has this answer and leaves these bytes.
fn expect_written(
    rt: &impl Abort,
    alloc: Global,
    room: usize,
    failing: &[u64],
    answer: Result<(), Failed>,
    written: &[u8],
) {
    let mut sink = sink_of(rt, alloc, room, failing);
    expect_put(rt, &mut sink, b"yes 3\n", answer);
    assert!(rt; sink.written() == written);
    expect_flush(rt, &mut sink, Ok(()));
}

#[test]
fn sinks_by_room_and_failing_calls(rt: HostRuntime) {
    let alloc = rt.alloc();
    expect_written(&rt, alloc, 100, &[], Ok(()), b"yes 3\n");
    expect_written(&rt, alloc, 3, &[], Err(Failed), b"yes");
    expect_written(&rt, alloc, 100, &[1], Err(Failed), b"ye");
    // Writing no bytes makes no call, so the first call is the flush.
    let mut sink = sink_of(&rt, alloc, 100, &[0]);
    expect_put(&rt, &mut sink, b"", Ok(()));
    expect_flush(&rt, &mut sink, Err(Failed));
}

// The next read gives these bytes or fails.
fn expect_read(
    rt: &impl Abort,
    source: &mut impl Source,
    piece: &mut [u8],
    wanted: Result<&[u8], Failed>,
)
    requires { 0 < length piece.old }
{
    match source.read(piece) {
        Ok(count) => assert!(rt; wanted == Ok(&piece[..count])),
        Err(Failed) => assert!(rt; wanted == Err(Failed)),
    }
}

#[test]
fn source_in_memory(rt: HostRuntime) {
    let alloc = rt.alloc();
    let bytes = b"abc".to_vec(alloc).expect(&rt, "memory");
    let mut source = MemorySource::new(bytes, Vec::new(alloc), 2);
    let mut piece = [0u8; 3];
    expect_read(&rt, &mut source, &mut piece, Ok(b"ab"));
    assert!(rt; source.left() == b"c".as_slice());
    expect_read(&rt, &mut source, &mut piece, Ok(b"c"));
    assert!(rt; source.left().is_empty());
    expect_read(&rt, &mut source, &mut piece, Ok(b""));
}

// A reader and writer whose calls numbered in `failing`, from 0, fail. The others move at most two bytes.
#[derive(Drop)]
struct Breaking {
    bytes: &'static [u8],
    calls: usize,
    failing: [usize; 2],
}

impl Breaking {
    fn new(failing: [usize; 2]) -> Breaking {
        Breaking {
            bytes: b"abcde",
            calls: 0,
            failing,
        }
    }

    // Counts a call, and fails where it is to fail.
    fn breaks(&mut self) -> io::Result<()> {
        let number = self.calls;
        self.calls = self.calls.saturating_add(1);
        if number == self.failing[0] || number == self.failing[1] {
            return Err(io::Error::from(io::ErrorKind::Interrupted));
        }
        Ok(())
    }
}

impl io::Read for Breaking {
    fn read(&mut self, into: &mut [u8]) -> io::Result<usize> {
        self.breaks()?;
        let most = into.len().min(2);
        io::Read::read(&mut self.bytes, &mut into[..most])
    }
}

impl io::Write for Breaking {
    fn write(&mut self, piece: &[u8]) -> io::Result<usize> {
        self.breaks()?;
        Ok(piece.len().min(2))
    }

    fn flush(&mut self) -> io::Result<()> {
        self.breaks()
    }
}

// A read that fails takes nothing and isn't the end; the next call goes on.
#[test]
fn real_input_that_fails(rt: HostRuntime) {
    let mut source = InputSource::new(Breaking::new([1, 3]));
    let mut piece = [0u8; 9];
    expect_read(&rt, &mut source, &mut piece, Ok(b"ab"));
    expect_read(&rt, &mut source, &mut piece, Err(Failed));
    expect_read(&rt, &mut source, &mut piece, Ok(b"cd"));
    expect_read(&rt, &mut source, &mut piece, Err(Failed));
    expect_read(&rt, &mut source, &mut piece, Ok(b"e"));
    expect_read(&rt, &mut source, &mut piece, Ok(b""));
}

#[test]
fn real_output_that_fails(rt: HostRuntime) {
    let mut sink = OutputSink::new(Breaking::new([1, 4]));
    expect_put(&rt, &mut sink, b"yes 3", Err(Failed));
    expect_put(&rt, &mut sink, b"no 7", Ok(()));
    expect_flush(&rt, &mut sink, Err(Failed));
    expect_flush(&rt, &mut sink, Ok(()));
}

// A writer that has no room takes no byte.
#[test]
fn real_output_without_room(rt: HostRuntime) {
    let mut room = [0u8; 3];
    let mut sink = OutputSink::new(room.as_mut_slice());
    assert!(rt; sink.write(b"ab") == Ok(2));
    expect_put(&rt, &mut sink, b"cd", Err(Failed));
}
