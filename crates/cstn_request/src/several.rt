// The documents of several files.
ghost use Rattle.std.specs.Prelude.{◌≡◌, ◌≤◌, length, map, string_bytes, IfOk, OnOk, IsTrue, IsErr, IsErrOf, Err};
ghost use Rattle.std.specs.List.{All, list_all};
ghost use Rattle.cstn_io.specs.Causes.{Rose};
ghost use Rattle.cstn_io.specs.Asked.{and_names};
ghost use Rattle.cstn_reply.specs.declared.output.Said.{Said as SaidText};
ghost use Rattle.cstn_request.specs.Asked.{AskedFirst};
ghost use Rattle.cstn_request.specs.Several.{HasRead, HasRefusedFile, IsSoundNetwork};

use crate::{Asked, NamedNetwork, Unread, open};
use cstn_io::Shelf;
use std::alloc::Global;

/// Reads the documents of the files, one after another. Fails at the first that is refused, where a file can't be read, and for
/// want of memory.
pub fn open_all<F: Shelf>(
    alloc: Global,
    files: &[String],
    deadline: Option<u32>,
    shelf: &mut F,
) -> Result<Vec<NamedNetwork>, Unread>
    requires may_ask { IsTrue (list_all (F.may_ask shelf.old) (map string_bytes files.now)) }
    ensures read { IfOk result (λ documents. HasRead (F.files shelf.old) deadline (map string_bytes files.now) documents.items) }
    ensures many { IfOk result (λ documents. length documents.items ≡ length files.now) }
    ensures sound { IfOk result (λ documents. All IsSoundNetwork documents.items) }
    ensures refused { (said : SaidText) → result ≡ Err (Unread.Told said) → HasRefusedFile (F.files shelf.old) (F.asked shelf.old) (F.asked shelf.new)
        deadline (map string_bytes files.now) said }
    ensures once { OnOk result (F.asked shelf.new ≡ and_names (F.asked shelf.old) (map string_bytes files.now)) }
    ensures first { IsErr result → AskedFirst (F.files shelf.old) (F.asked shelf.old) (F.asked shelf.new) (map string_bytes files.now) }
    ensures names { F.may_ask shelf.new ≡ F.may_ask shelf.old }
    ensures files { F.files shelf.new ≡ F.files shelf.old }
    ensures later { F.faults shelf.old ≤ F.faults shelf.new }
    ensures fault { IsErrOf result Unread.ReadFault → Rose (F.faults shelf.old) (F.faults shelf.new) }
{
    let mut documents = Vec::new(alloc);
    for file in files {
        let asked = Asked {
            file: file.as_str(),
            deadline,
        };
        let document = open(alloc, asked, shelf)?;
        let Ok(()) = documents.push(document) else {
            return Err(Unread::Memory);
        };
    }
    Ok(documents)
}
