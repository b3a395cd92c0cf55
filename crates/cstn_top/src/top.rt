// The top call.
ghost use Rattle.std.specs.Prelude.{◌≡◌, ◌≢◌, ◌⊎◌, ◌≤◌, ℕ, List, [], IsTrue, IsNone, length};
ghost use Rattle.std.specs.Option.{option_map};
ghost use Rattle.std.specs.List.{list_all};
ghost use Rattle.cstn_request.specs.Read.{request_in, named_files};
ghost use Rattle.cstn_top.specs.Plans.{PlanEnds, Untouched};
ghost use Rattle.cstn_top.specs.Meanings.{AreAsked, RefusedIsThere, MayStop};
ghost use Rattle.cstn_top.specs.Prepared.{the_plan};
ghost use Rattle.cstn_reply.specs.declared.status.Status.TheVariants.{Words, Document, ReadFault, WriteFault, Memory};
ghost use Rattle.cstn_reply.specs.Written.{view};
ghost use Rattle.cstn_top.specs.Told.{Failed, TellsOf, WordsReadLive, WroteMemory, IsToldOfCall};

use crate::commands::{Prepared, prepare};
use cstn_io::{Shelf, Sink, Source};
use cstn_reply::{Refused, Status, converse, finish};
use cstn_request::{Release, parse};
use std::alloc::Global;

/// Answers one request to a program of this release: writes what it says to `out`, and tells how it ended.
pub fn run<F: Shelf, S: Source, K: Sink>(
    alloc: Global,
    release: Release,
    words: &[String],
    shelf: &mut F,
    live: &mut S,
    out: &mut K,
) -> Status
    requires may_ask { IsTrue (list_all (F.may_ask shelf.old) (named_files release words.now)) }
    ensures told { IsToldOfCall (request_in release words.now) (F.files shelf.old) (view S.left S.faults S.reads) live.old live.new (K.written out.old)
        (K.written out.new) result }
    ensures there { AreAsked (F.files shelf.old) (F.asked shelf.old) (F.asked shelf.new) result (named_files release words.now) }
    ensures refused { result ≡ Document → TellsOf release words.now (F.files shelf.old)
        (RefusedIsThere (F.files shelf.old) (F.asked shelf.old) (F.asked shelf.new)) }
    ensures flushed { result ≢ WriteFault → K.flushed out.new ≡ option_map length (K.written out.new) }
    ensures read_fault { result ≡ ReadFault → Failed F.faults shelf.old shelf.new
        ⊎ (WordsReadLive release words.now (F.files shelf.old) × Failed S.faults live.old live.new) }
    ensures write_fault { result ≡ WriteFault → Failed K.faults out.old out.new }
    ensures live { WordsReadLive release words.now (F.files shelf.old) ⊎ (live.new ≡ live.old) }
    ensures memory { result ≡ Memory → TellsOf release words.now (F.files shelf.old) (MayStop (S.left live.old))
        ⊎ (WroteMemory K.written out.old out.new × (live.new ≡ live.old)) }
    ensures words { IsNone (request_in release words.now) → (result ≡ Words) ⊎ (result ≡ WriteFault) }
    ensures words_only { result ≡ Words → IsNone (request_in release words.now) }
    ensures unnamed_stand { named_files release words.now ≡ [] → shelf.new ≡ shelf.old }
    ensures names { F.may_ask shelf.new ≡ F.may_ask shelf.old }
    ensures files { F.files shelf.new ≡ F.files shelf.old }
    ensures later { (F.faults shelf.old ≤ F.faults shelf.new) × (S.faults live.old ≤ S.faults live.new) × (K.faults out.old ≤ K.faults out.new) }
{
    let Some(request) = parse(release, words) else {
        return finish(out, b"words\n", Status::Words);
    };
    match prepare(alloc, request, shelf) {
        Ok(prepared) => speak(alloc, prepared, live, out),
        Err(Refused::ReadFault) => finish(out, b"read fault\n", Status::ReadFault),
        Err(Refused::Memory) => finish(out, b"memory\n", Status::Memory),
    }
}

// Says what is prepared: a text, or a session over the lines of the live source.
fn speak<S: Source, K: Sink>(alloc: Global, prepared: Prepared, live: &mut S, out: &mut K) -> Status
    ensures ends { PlanEnds (the_plan prepared) (view S.left S.faults S.reads live.old) (view S.left S.faults S.reads live.new) (K.written out.old)
        (K.written out.new) result }
    ensures untouched { Untouched (the_plan prepared) live.old live.new }
    ensures flushed { result ≢ WriteFault → K.flushed out.new ≡ option_map length (K.written out.new) }
    ensures read_fault { result ≡ ReadFault → (the_plan prepared).talks × Failed S.faults live.old live.new }
    ensures write_fault { result ≡ WriteFault → Failed K.faults out.old out.new }
    ensures memory { result ≡ Memory → ((said : List ℕ) × (the_plan prepared).stops (S.left live.old) said)
        ⊎ (WroteMemory K.written out.old out.new × (live.new ≡ live.old)) }
    ensures later { (S.faults live.old ≤ S.faults live.new) × (K.faults out.old ≤ K.faults out.new) }
{
    match prepared {
        Prepared::Says(said) => finish(out, &said.text, said.outcome.status()),
        Prepared::Runs { opening, session } => converse(alloc, session, &opening, live, out),
        Prepared::Edits(session) => converse(alloc, session, b"", live, out),
        Prepared::Follows { opening, session } => converse(alloc, session, &opening, live, out),
        Prepared::Hosts { opening, session } => converse(alloc, session, &opening, live, out),
    }
}
