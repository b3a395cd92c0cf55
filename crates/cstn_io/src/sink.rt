// A sink of bytes.
ghost use Rattle.std.specs.Prelude.{◌≡◌, ◌<◌, ℕ, List, Option, length, is_some, OnOk, OnErr};
ghost use Rattle.std.specs.Option.{option_map};
ghost use Rattle.cstn_io.specs.Causes.{HasCause};
ghost use Rattle.cstn_io.specs.Contents.{Adds};

use crate::Failed;

/// A sink of bytes. Failures are counted. A sink tells contracts the bytes written either always, as one in memory does, or
/// never.
pub trait Sink {
    /// How many calls failed. The count stops at 2^64 - 1.
    ghost faults: { Self → ℕ };

    /// The bytes written, where they are told.
    ghost written: { Self → Option (List ℕ) };

    /// How many of them were flushed, where that is told.
    ghost flushed: { Self → Option ℕ };

    /// Adds bytes from the front of the piece, at least one, and answers how many. A write that fails adds none.
    fn write(&mut self, piece: &[u8]) -> Result<usize, Failed>
        requires { 0 < length piece.now }
        ensures bytes { Adds (written self.old) (written self.new) result piece.now }
        ensures flushed { flushed self.new ≡ flushed self.old }
        ensures cause { HasCause (faults self.old) (faults self.new) result };

    /// Flushes all bytes that were written. A flush that fails leaves the number of flushed bytes as it was.
    fn flush(&mut self) -> Result<(), Failed>
        ensures bytes { written self.new ≡ written self.old }
        ensures flushed { OnOk result (flushed self.new ≡ option_map length (written self.new)) }
        ensures refused { OnErr result (flushed self.new ≡ flushed self.old) }
        ensures cause { HasCause (faults self.old) (faults self.new) result };

    /// A sink that tells what was written tells how much of it was flushed.
    ghost told: { (sink : Self) → is_some (flushed sink) ≡ is_some (written sink) };
}
