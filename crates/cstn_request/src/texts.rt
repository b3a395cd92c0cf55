// The texts of files that hold a refutation, a list of bounds or a tree, and of those that hold a plan in sentences.
ghost use Rattle.std.specs.Prelude.{◌≡◌, ◌≤◌, length, IfOk, IsTrue, IsErrOf, Err, codes};
ghost use Rattle.cstn_io.specs.Causes.{Rose};
ghost use Rattle.cstn_reply.specs.declared.output.Said.{Said as SaidText};
ghost use Rattle.cstn_reply.specs.Read.{the_said};
ghost use Rattle.cstn_reply.specs.Texts.{say};
ghost use Rattle.cstn_request.specs.Opened.{HasFile, IsProofText, IsLongText, IsSentencesOf, IsLongPlan};
ghost use Rattle.cstn_request.specs.Asked.{AsksFileOnce};

use crate::Unread;
use crate::refusals::refusal;
use cstn_io::{Shelf, TakeError, take_all};
use cstn_reply::{Outcome, Said};
use std::alloc::{AllocError, Global};

const MAX_TEXT: usize = 1_476_395_008;

const MAX_PLAN: usize = 8_388_608;

/// Reads the text of a file. Fails where it has more than 1,476,395,008 bytes, where the file can't be read, and for want of
/// memory.
pub fn read_text<F: Shelf>(alloc: Global, file: &str, shelf: &mut F) -> Result<Vec<u8>, Unread>
    requires may_ask { IsTrue (F.may_ask shelf.old file.now) }
    ensures text { IfOk result (λ text. HasFile (F.files shelf.old) file.now (IsProofText text.items)) }
    ensures refused { (said : SaidText) → result ≡ Err (Unread.Told said) → HasFile (F.files shelf.old) file.now (IsLongText said) }
    ensures once { AsksFileOnce file.now (F.asked shelf.old) (F.asked shelf.new) result }
    ensures names { F.may_ask shelf.new ≡ F.may_ask shelf.old }
    ensures files { F.files shelf.new ≡ F.files shelf.old }
    ensures later { F.faults shelf.old ≤ F.faults shelf.new }
    ensures fault { IsErrOf result Unread.ReadFault → Rose (F.faults shelf.old) (F.faults shelf.new) }
{
    match take_all(alloc, shelf, file, MAX_TEXT) {
        Ok(text) => Ok(text),
        Err(TakeError::TooLong) => {
            let said = too_long(alloc)?;
            Err(Unread::Told(said))
        }
        Err(TakeError::ReadFault) => Err(Unread::ReadFault),
        Err(TakeError::Memory(error)) => Err(Unread::from(error)),
    }
}

// What is said of a text that is too long.
fn too_long(alloc: Global) -> Result<Said, AllocError>
    ensures said { IfOk result (λ said. the_said said ≡ say Outcome.Script (codes "script long")) }
{
    let text = b"script long\n".to_vec(alloc)?;
    Ok(Said {
        outcome: Outcome::Script,
        text,
    })
}

/// Reads the text of a plan in sentences. Fails where the file has more than 8,388,608 bytes, where it can't be read, and for want of
/// memory.
pub fn read_sentences<F: Shelf>(alloc: Global, file: &str, shelf: &mut F) -> Result<Vec<u8>, Unread>
    requires may_ask { IsTrue (F.may_ask shelf.old file.now) }
    ensures text { IfOk result (λ text. HasFile (F.files shelf.old) file.now (IsSentencesOf text.items)) }
    ensures refused { (said : SaidText) → result ≡ Err (Unread.Told said) → HasFile (F.files shelf.old) file.now (IsLongPlan said) }
    ensures once { AsksFileOnce file.now (F.asked shelf.old) (F.asked shelf.new) result }
    ensures names { F.may_ask shelf.new ≡ F.may_ask shelf.old }
    ensures files { F.files shelf.new ≡ F.files shelf.old }
    ensures later { F.faults shelf.old ≤ F.faults shelf.new }
    ensures fault { IsErrOf result Unread.ReadFault → Rose (F.faults shelf.old) (F.faults shelf.new) }
{
    match take_all(alloc, shelf, file, MAX_PLAN) {
        Ok(text) => Ok(text),
        Err(TakeError::TooLong) => {
            let said = refusal(alloc, b"plan ", b"long")?;
            Err(Unread::Told(said))
        }
        Err(TakeError::ReadFault) => Err(Unread::ReadFault),
        Err(TakeError::Memory(error)) => Err(Unread::from(error)),
    }
}
