// What is written for a request. Every command writes through here.
ghost use Rattle.std.specs.Prelude.{◌≡◌, ◌≢◌, ◌⊎◌, ◌≤◌, ℕ, length, take, OnOk, OnErr};
ghost use Rattle.std.specs.Option.{option_map};
ghost use Rattle.cstn_io.specs.Causes.{Rose};
ghost use Rattle.cstn_io.specs.Contents.{with_bytes};
ghost use Rattle.cstn_reply.specs.Statuses.{status_of};
ghost use Rattle.cstn_reply.specs.Written.{IsWritten};

use crate::Status;
use cstn_io::{Failed, Sink, put_all};
use std::alloc::AllocError;

/// How the output ends, where nothing failed.
#[derive(Clone, Copy, Debug, PartialEq, Eq)]
pub enum Outcome {
    /// Yes, carried out, saved, accepted or drilled.
    Good,
    /// No, or rejected.
    Bad,
    /// The words are no request.
    Words,
    /// The document is refused.
    Document,
    /// A log has more entries than it may.
    Full,
    /// The lines ended before all was carried out.
    Unfinished,
    /// A line, or a text that was handed in, is not of its form.
    Script,
    /// More propositions are observed than a tree is made for.
    Wide,
}

impl Outcome {
    /// The status of the same name.
    pub fn status(self) -> Status
        ensures status { result ≡ status_of self }
        ensures read { result ≢ Status.ReadFault }
        ensures write { result ≢ Status.WriteFault }
        ensures memory { result ≢ Status.Memory }
    {
        match self {
            Outcome::Good => Status::Good,
            Outcome::Bad => Status::Bad,
            Outcome::Words => Status::Words,
            Outcome::Document => Status::Document,
            Outcome::Full => Status::Full,
            Outcome::Unfinished => Status::Unfinished,
            Outcome::Script => Status::Script,
            Outcome::Wide => Status::Wide,
        }
    }
}

/// The text that ends a request, and how the request ends.
#[derive(Drop)]
pub struct Said {
    pub outcome: Outcome,
    pub text: Vec<u8>,
}

/// Why nothing can be said for a request.
#[derive(Clone, Copy, Debug, PartialEq, Eq)]
pub enum Refused {
    /// A file couldn't be read.
    ReadFault,
    /// Memory was refused.
    Memory,
}

impl From<AllocError> for Refused {
    ghost use Rattle.cstn_reply.specs.declared.output.Refused.TheVariants.{Memory};

    ghost from_gives = { λ _ e. e ≡ Memory };

    fn from(_: AllocError) -> Refused {
        Refused::Memory
    }
}

/// Writes a text and flushes it. Fails where the sink does; then a prefix of the text is written.
pub(crate) fn send<K: Sink>(out: &mut K, text: &[u8]) -> Result<(), Failed>
    ensures whole { OnOk result (K.written out.new ≡ with_bytes (K.written out.old) text.now) }
    ensures flushed { OnOk result (K.flushed out.new ≡ option_map length (K.written out.new)) }
    ensures prefix { OnErr result ((n : ℕ) × (K.written out.new ≡ with_bytes (K.written out.old) (take n text.now))) }
    ensures cause { OnErr result (Rose (K.faults out.old) (K.faults out.new)) }
    ensures later { K.faults out.old ≤ K.faults out.new }
{
    put_all(out, text)?;
    out.flush()
}

/// Writes the last text and flushes it. Returns the given status, or `WriteFault` where the sink fails.
pub fn finish<K: Sink>(out: &mut K, text: &[u8], status: Status) -> Status
    ensures written { IsWritten (K.written out.old) (K.written out.new) text.now status result }
    ensures status { (result ≡ status) ⊎ (result ≡ Status.WriteFault) }
    ensures flushed { result ≢ Status.WriteFault → K.flushed out.new ≡ option_map length (K.written out.new) }
    ensures cause { result ≡ Status.WriteFault → (status ≡ Status.WriteFault) ⊎ Rose (K.faults out.old) (K.faults out.new) }
    ensures later { K.faults out.old ≤ K.faults out.new }
{
    match send(out, text) {
        Ok(()) => status,
        Err(Failed) => Status::WriteFault,
    }
}
