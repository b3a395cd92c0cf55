// A shelf of files, of which one is read at a time.
ghost use Rattle.std.specs.Prelude.{◌≡◌, ◌<◌, ◌≤◌, ◌+◌, ℕ, List, [], Option, Bool, length, is_some, IsTrue, OnOk, OnErr};
ghost use Rattle.cstn_io.specs.Causes.{HasCause, HasChoiceCause};
ghost use Rattle.cstn_io.specs.Contents.{Takes, Chooses, named_if_told, taken_after};
ghost use Rattle.cstn_io.specs.Asked.{asked_after};

use crate::Failed;
use std::alloc::AllocError;
use std::io;
use std::io::ErrorKind;
use thiserror::Error;

/// Why a file wasn't chosen.
#[derive(Clone, Copy, Debug, PartialEq, Eq, Error)]
pub enum ChooseError {
    /// No file has the name, or the system failed.
    #[error("the system failed")]
    Failed,
    /// Memory was refused.
    #[error("out of memory")]
    Memory(AllocError),
}

/// An error of opening a file is `Memory` where its kind is want of memory, and else `Failed`.
impl From<io::Error> for ChooseError {
    ghost use Rattle.std.specs.IoError.{error_kind};
    ghost use Rattle.cstn_io.specs.Causes.{IsRefusalOf};

    ghost from_gives = { λ e refusal. IsRefusalOf (error_kind e) refusal };

    fn from(error: io::Error) -> ChooseError {
        if error.kind() == ErrorKind::OutOfMemory {
            return ChooseError::Memory(AllocError);
        }
        ChooseError::Failed
    }
}

/// Named files, of which one is read at a time. Failures are counted. A shelf tells contracts the bytes of its files, and which
/// names it was asked for, either always, as one in memory does, or never.
pub trait Shelf {
    /// Whether a name may be asked for.
    ghost may_ask: { Self → List ℕ → Bool };

    /// Whether a file is chosen.
    ghost is_chosen: { Self → Bool };

    /// The name of the chosen file, where files are told.
    ghost chosen: { Self → Option (List ℕ) };

    /// How many bytes were taken of the chosen file. The count stops at 2^64 - 1.
    ghost taken: { Self → ℕ };

    /// How many calls failed. The count stops at 2^64 - 1.
    ghost faults: { Self → ℕ };

    /// The bytes of each file, where they are told. A file that isn't there has none.
    ghost files: { Self → Option (List ℕ → Option (List ℕ)) };

    /// The bytes left of the chosen file, where they are told.
    ghost left: { Self → Option (List ℕ) };

    /// The names that were asked for, in their order, where they are told. Where memory was refused, nothing was asked for.
    ghost asked: { Self → Option (List (List ℕ)) };

    /// Chooses the named file, which is then read from its start. It fails where no file has the name or the system fails.
    /// Where it fails or memory is refused, the file that was chosen before stays chosen.
    fn choose(&mut self, name: &str) -> Result<(), ChooseError>
        requires { IsTrue (may_ask self.old name.now) }
        ensures chosen { OnOk result (IsTrue (is_chosen self.new)) }
        ensures named { OnOk result (chosen self.new ≡ named_if_told (files self.old) name.now) }
        ensures bytes { OnOk result (Chooses (files self.old) name.now (left self.new)) }
        ensures taken { OnOk result (taken self.new ≡ 0) }
        ensures refused_chosen { OnErr result (is_chosen self.new ≡ is_chosen self.old) }
        ensures refused_named { OnErr result (chosen self.new ≡ chosen self.old) }
        ensures refused_left { OnErr result (left self.new ≡ left self.old) }
        ensures refused_taken { OnErr result (taken self.new ≡ taken self.old) }
        ensures asked { asked self.new ≡ asked_after (asked self.old) name.now result }
        ensures names { may_ask self.new ≡ may_ask self.old }
        ensures files { files self.new ≡ files self.old }
        ensures cause { HasChoiceCause (faults self.old) (faults self.new) result };

    /// Takes bytes from the chosen file into the front of `into` and answers how many, 0 at its end alone. A read that fails
    /// takes none.
    fn read(&mut self, into: &mut [u8]) -> Result<usize, Failed>
        requires chosen { IsTrue (is_chosen self.old) }
        requires room { 0 < length into.old }
        ensures bytes { Takes (left self.old) (left self.new) result into.new }
        ensures taken { taken self.new ≡ taken_after (taken self.old) result }
        ensures chosen { is_chosen self.new ≡ is_chosen self.old }
        ensures named { chosen self.new ≡ chosen self.old }
        ensures asked { asked self.new ≡ asked self.old }
        ensures names { may_ask self.new ≡ may_ask self.old }
        ensures files { files self.new ≡ files self.old }
        ensures cause { HasCause (faults self.old) (faults self.new) result };

    /// A shelf that tells the bytes of its files tells the bytes left of the chosen one.
    ghost told: { (shelf : Self) → is_some (left shelf) ≡ is_some (files shelf) };
}
