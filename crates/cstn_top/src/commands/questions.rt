// What a request asks, once its files are read.
ghost use Rattle.std.specs.Prelude.{◌≡◌, ◌≤◌, [], IfOk, OnOk, IsTrue, IsErr, IsErrOf, Err};
ghost use Rattle.std.specs.List.{list_all};
ghost use Rattle.cstn_io.specs.Causes.{Rose};
ghost use Rattle.cstn_io.specs.Asked.{and_names};
ghost use Rattle.cstn_reply.specs.declared.output.Said.{Said as SaidText};
ghost use Rattle.cstn_request.specs.Requests.{files_of};
ghost use Rattle.cstn_request.specs.Read.{the_request};
ghost use Rattle.cstn_top.specs.Questions.{Asks, MayRefuse, IsOfPlan, TellsInstead, IsSoundQuestion, question_kind};
ghost use Rattle.cstn_top.specs.Dispatch.{request_kind};
ghost use Rattle.cstn_request.specs.Asked.{AskedFirst};

use cstn_io::Shelf;
use cstn_log::Cap;
use cstn_request::{
    DocumentVerb, LabelledVerb, NamedLabelled, NamedNetwork, NetworkVerb, Release, Request,
    TextVerb, Unread, open_all, open_labelled, open_network, read_sentences, read_text,
};
use std::alloc::Global;

/// A request with what was read of its files. A network is that of a document without labels on its time-points, or the one that
/// a labelled network is lowered to.
#[derive(Drop)]
pub(crate) enum Question {
    OfNetwork {
        verb: NetworkVerb,
        document: NamedNetwork,
        cap: Cap,
    },
    OfLabelled {
        verb: LabelledVerb,
        document: NamedLabelled,
        cap: Cap,
    },
    OfText {
        verb: TextVerb,
        document: NamedNetwork,
        text: Vec<u8>,
    },
    OfDocument {
        verb: DocumentVerb,
        document: NamedLabelled,
    },
    OfPlan {
        text: Vec<u8>,
        deadline: Option<u32>,
    },
    Drill(u64),
    Host {
        documents: Vec<NamedNetwork>,
        cap: Cap,
    },
    Version(Release),
}

/// Reads what a request names, one file after another: none is read where an earlier one is refused. Fails where one is refused,
/// where one can't be read, and for want of memory.
pub(crate) fn ask<F: Shelf>(
    alloc: Global,
    request: Request<'_>,
    shelf: &mut F,
) -> Result<Question, Unread>
    requires may_ask { IsTrue (list_all (F.may_ask shelf.old) (files_of (the_request request))) }
    ensures asks { IfOk result (Asks (the_request request.entry) (F.files shelf.old)) }
    ensures sound { IfOk result IsSoundQuestion }
    ensures kind { IfOk result (λ question. question_kind question ≡ request_kind (the_request request.entry)) }
    ensures refused { (said : SaidText) → result ≡ Err (Unread.Told said) → TellsInstead (the_request request.entry) (F.files shelf.old) (F.asked shelf.old)
        (F.asked shelf.new) said }
    ensures accepted { IfOk result (λ question. MayRefuse question → IsOfPlan (the_request request.entry)) }
    ensures once { OnOk result (F.asked shelf.new ≡ and_names (F.asked shelf.old) (files_of (the_request request.entry))) }
    ensures first { IsErr result → AskedFirst (F.files shelf.old) (F.asked shelf.old) (F.asked shelf.new) (files_of (the_request request.entry)) }
    ensures unnamed_stand { files_of (the_request request.entry) ≡ [] → shelf.new ≡ shelf.old }
    ensures fault { IsErrOf result Unread.ReadFault → Rose (F.faults shelf.old) (F.faults shelf.new) }
    ensures names { F.may_ask shelf.new ≡ F.may_ask shelf.old }
    ensures files { F.files shelf.new ≡ F.files shelf.old }
    ensures later { F.faults shelf.old ≤ F.faults shelf.new }
{
    match request {
        Request::OfNetwork { verb, asked, cap } => {
            let document = open_network(alloc, asked, verb.takes_labels(), shelf)?;
            Ok(Question::OfNetwork {
                verb,
                document,
                cap,
            })
        }
        Request::OfLabelled { verb, asked, cap } => {
            let document = open_labelled(alloc, asked, shelf)?;
            Ok(Question::OfLabelled {
                verb,
                document,
                cap,
            })
        }
        Request::OfText { verb, asked, proof } => {
            let document = open_network(alloc, asked, verb.takes_labels(), shelf)?;
            let text = read_text(alloc, proof, shelf)?;
            Ok(Question::OfText {
                verb,
                document,
                text,
            })
        }
        Request::OfDocument { verb, asked } => {
            let document = open_labelled(alloc, asked, shelf)?;
            Ok(Question::OfDocument { verb, document })
        }
        Request::OfPlan(asked) => {
            let text = read_sentences(alloc, asked.file, shelf)?;
            Ok(Question::OfPlan {
                text,
                deadline: asked.deadline,
            })
        }
        Request::Drill(number) => Ok(Question::Drill(number)),
        Request::Host {
            files,
            deadline,
            cap,
        } => {
            let documents = open_all(alloc, files.names, deadline, shelf)?;
            Ok(Question::Host { documents, cap })
        }
        Request::Version(release) => Ok(Question::Version(release)),
    }
}
