// A live source of bytes.
ghost use Rattle.std.specs.Prelude.{◌≡◌, ◌<◌, ℕ, List, Option, length};
ghost use Rattle.cstn_io.specs.Calls.{one_more};
ghost use Rattle.cstn_io.specs.Causes.{HasCause};
ghost use Rattle.cstn_io.specs.Contents.{Takes};

use crate::Failed;

/// A live source of bytes. Reads and failures are counted. A source tells contracts the bytes left either always, as one in
/// memory does, or never.
pub trait Source {
    /// How many calls failed. The count stops at 2^64 - 1.
    ghost faults: { Self → ℕ };

    /// How many reads were made. The count stops at 2^64 - 1.
    ghost reads: { Self → ℕ };

    /// The bytes left, where they are told.
    ghost left: { Self → Option (List ℕ) };

    /// Takes bytes into the front of `into` and answers how many, 0 at the end alone. A read that fails takes none.
    fn read(&mut self, into: &mut [u8]) -> Result<usize, Failed>
        requires { 0 < length into.old }
        ensures bytes { Takes (left self.old) (left self.new) result into.new }
        ensures count { reads self.new ≡ one_more (reads self.old) }
        ensures cause { HasCause (faults self.old) (faults self.new) result };
}
