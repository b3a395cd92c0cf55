// What is prepared for each request, before anything is written.
ghost use Rattle.std.specs.Prelude.{◌≡◌, ◌≤◌, [], IfOk, IsTrue, IsErr, IsErrOf};
ghost use Rattle.std.specs.List.{list_all};
ghost use Rattle.cstn_io.specs.Causes.{Rose};
ghost use Rattle.cstn_request.specs.Requests.{files_of};
ghost use Rattle.cstn_request.specs.Read.{the_request};
ghost use Rattle.cstn_top.specs.Prepared.{the_plan, Planned, FitsKind, TellsRefused, AsksEnough};
ghost use Rattle.cstn_top.specs.Dispatch.{request_kind};
ghost use Rattle.cstn_request.specs.Asked.{AskedFirst};

mod answers;
mod closed;
mod drill;
mod follow;
mod host;
mod plan;
mod questions;
mod run;
mod save;
mod sentences;
mod version;

use answers::answer;
use cstn_edit::Editing;
use cstn_io::Shelf;
use cstn_reply::{Refused, Said};
use cstn_request::{Request, Unread};
use cstn_run::{HostSession, RunSession};
use follow::Follower;
use questions::ask;
use std::alloc::Global;

/// What is to be written for a request.
#[derive(Drop)]
pub(crate) enum Prepared {
    /// A text and no more.
    Says(Said),
    /// The line that says yes, and then the answers to the live lines.
    Runs {
        opening: Vec<u8>,
        session: RunSession,
    },
    /// The answers to the edit lines.
    Edits(Editing),
    /// The version of the lines and the verdict, and then the answers to the lines of a session that follows.
    Follows {
        opening: Vec<u8>,
        session: Follower,
    },
    /// The lines that say yes, and then the answers to the host lines.
    Hosts {
        opening: Vec<u8>,
        session: HostSession,
    },
}

/// Reads the files of a request, and prepares what is said for it. Fails where a file can't be read, and for want of memory.
pub(crate) fn prepare<F: Shelf>(
    alloc: Global,
    request: Request<'_>,
    shelf: &mut F,
) -> Result<Prepared, Refused>
    requires may_ask { IsTrue (list_all (F.may_ask shelf.old) (files_of (the_request request))) }
    ensures plan { IfOk result (λ prepared. Planned (the_request request.entry) (F.files shelf.old) (the_plan prepared)) }
    ensures fits { IfOk result (FitsKind (request_kind (the_request request.entry))) }
    ensures refused { IfOk result (λ prepared. TellsRefused (F.files shelf.old) (F.asked shelf.old) (F.asked shelf.new) (the_request request.entry)
        (the_plan prepared)) }
    ensures asked { IfOk result (λ prepared. AsksEnough (the_request request.entry) (F.files shelf.old) (F.asked shelf.old) (F.asked shelf.new)
        (the_plan prepared)) }
    ensures first { IsErr result → AskedFirst (F.files shelf.old) (F.asked shelf.old) (F.asked shelf.new) (files_of (the_request request.entry)) }
    ensures unnamed_stand { files_of (the_request request.entry) ≡ [] → shelf.new ≡ shelf.old }
    ensures fault { IsErrOf result Refused.ReadFault → Rose (F.faults shelf.old) (F.faults shelf.new) }
    ensures names { F.may_ask shelf.new ≡ F.may_ask shelf.old }
    ensures files { F.files shelf.new ≡ F.files shelf.old }
    ensures later { F.faults shelf.old ≤ F.faults shelf.new }
{
    match ask(alloc, request, shelf) {
        Ok(question) => Ok(answer(alloc, question)?),
        Err(Unread::Told(said)) => Ok(Prepared::Says(said)),
        Err(Unread::ReadFault) => Err(Refused::ReadFault),
        Err(Unread::Memory) => Err(Refused::Memory),
    }
}
