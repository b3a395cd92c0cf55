// Statuses of requests.
ghost use Rattle.std.specs.Prelude.{◌≡◌};
ghost use Rattle.cstn_reply.specs.Statuses.{exit_status};

/// How a request ended.
#[derive(Clone, Copy, Debug, PartialEq, Eq)]
pub enum Status {
    /// Yes, or done as asked: saved, accepted or drilled.
    Good,
    /// No, or rejected.
    Bad,
    /// The words are no request.
    Words,
    /// The document is refused.
    Document,
    /// A log has more entries than its cap.
    Full,
    /// A file or the live source couldn't be read.
    ReadFault,
    /// The output couldn't be written.
    WriteFault,
    /// Memory was refused.
    Memory,
    /// The live source ended before all was executed.
    Unfinished,
    /// A line of the live source is of no grammar, too long or too late.
    Script,
    /// More propositions are observed than a tree is made for.
    Wide,
}

impl Status {
    /// The program's exit status.
    pub fn number(self) -> u8
        ensures number { result ≡ exit_status self }
    {
        match self {
            Status::Good => 0,
            Status::Bad => 1,
            Status::Words => 2,
            Status::Document => 3,
            Status::Full => 4,
            Status::ReadFault => 5,
            Status::WriteFault => 6,
            Status::Memory => 7,
            Status::Unfinished => 8,
            Status::Script => 9,
            Status::Wide => 10,
        }
    }
}
