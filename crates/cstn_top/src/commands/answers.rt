// What is answered to a question. Nothing is read here.
ghost use Rattle.std.specs.Prelude.{◌≡◌, ◌≤◌, ◌<◌, ◌^◌, length, IfOk};
ghost use Rattle.std.specs.List.{All};
ghost use Rattle.cstn_net.specs.Networks.{Constraint};
ghost use Rattle.cstn_net.specs.Read.{the_network};
ghost use Rattle.cstn_text.specs.Limits.{most_text};
ghost use Rattle.cstn_lift.specs.Read.{the_labelled};
ghost use Rattle.cstn_request.specs.Requests.{network_labels};
ghost use Rattle.cstn_request.specs.Opened.{AreDocumentNames};
ghost use Rattle.cstn_reply.specs.Read.{the_said};
ghost use Rattle.cstn_top.specs.Plans.{ComesTo};
ghost use Rattle.cstn_top.specs.Answers.{IsByText};
ghost use Rattle.cstn_top.specs.Dispatch.{network_answer, network_kind, labelled_answer, labelled_kind, IsVerbText, document_said};
ghost use Rattle.cstn_request.specs.Several.{IsSoundNetwork};
ghost use Rattle.cstn_top.specs.Prepared.{the_plan, FitsKind};
ghost use Rattle.cstn_top.specs.Questions.{the_question, HasSmallIds, IsSoundQuestion, question_kind};

use super::Prepared;
use super::closed::closed_text;
use super::drill::drill;
use super::follow::follow_session;
use super::host::host_session;
use super::plan::plan_text;
use super::questions::Question;
use super::run::run_session;
use super::save::save_text;
use super::sentences::sentences_text;
use super::version::version_text;
use cstn_cases::cases_text;
use cstn_check::check_text;
use cstn_closed::closedcheck_text;
use cstn_conflict::conflict_text;
use cstn_edit::Editing;
use cstn_log::Cap;
use cstn_replay::replay_text;
use cstn_reply::Said;
use cstn_request::{
    DocumentVerb, LabelledVerb, NamedLabelled, NamedNetwork, NetworkVerb, TextVerb,
};
use cstn_tight::tight_text;
use cstn_tree::{tree_text, treecheck_text};
use std::alloc::{AllocError, Global};

/// Prepares what is said to a question. Fails for want of memory alone.
pub(crate) fn answer(alloc: Global, question: Question) -> Result<Prepared, AllocError>
    requires sound { IsSoundQuestion question }
    ensures comes { IfOk result (λ prepared. ComesTo (the_question question) (the_plan prepared)) }
    ensures fits { IfOk result (FitsKind (question_kind question)) }
{
    match question {
        Question::OfNetwork {
            verb,
            document,
            cap,
        } => answer_network(alloc, verb, document, cap),
        Question::OfLabelled {
            verb,
            document,
            cap,
        } => answer_labelled(alloc, verb, document, cap),
        Question::OfText {
            verb,
            document,
            text,
        } => {
            let said = check_against(alloc, verb, &document, &text)?;
            Ok(Prepared::Says(said))
        }
        Question::OfDocument { verb, document } => {
            let said = document_text(alloc, verb, &document)?;
            Ok(Prepared::Says(said))
        }
        Question::OfPlan { text, deadline } => {
            let said = plan_text(alloc, &text, deadline)?;
            Ok(Prepared::Says(said))
        }
        Question::Drill(number) => {
            let said = drill(alloc, number)?;
            Ok(Prepared::Says(said))
        }
        Question::Host { documents, cap } => host_session(alloc, documents, cap),
        Question::Version(release) => {
            let said = version_text(alloc, release)?;
            Ok(Prepared::Says(said))
        }
    }
}

// What is said of a network: a text, or the answers to edit lines.
fn answer_network(
    alloc: Global,
    verb: NetworkVerb,
    document: NamedNetwork,
    cap: Cap,
) -> Result<Prepared, AllocError>
    requires sound { IsSoundNetwork document }
    requires small { HasSmallIds (network_labels verb) document }
    ensures comes { IfOk result (λ prepared. ComesTo (network_answer verb cap.entries document.names (the_network document.network)) (the_plan prepared)) }
    ensures fits { IfOk result (FitsKind (network_kind verb)) }
{
    match verb {
        NetworkVerb::Check => {
            let said = check_text(alloc, document.network, &document.names, cap)?;
            Ok(Prepared::Says(said))
        }
        NetworkVerb::Closed => {
            let said = closed_text(alloc, document.network, &document.names, cap)?;
            Ok(Prepared::Says(said))
        }
        NetworkVerb::Tight => {
            let said = tight_text(alloc, document.network, &document.names, cap)?;
            Ok(Prepared::Says(said))
        }
        NetworkVerb::Conflict => {
            let said = conflict_text(alloc, document.network, &document.names, cap)?;
            Ok(Prepared::Says(said))
        }
        NetworkVerb::Tree => {
            let said = tree_text(alloc, document.network, &document.names, cap)?;
            Ok(Prepared::Says(said))
        }
        NetworkVerb::Edit => {
            let session = Editing::start(alloc, document.network, document.names, cap)?;
            Ok(Prepared::Edits(session))
        }
    }
}

// What is said of a labelled network: the answers to the lines of a session, or a text.
fn answer_labelled(
    alloc: Global,
    verb: LabelledVerb,
    document: NamedLabelled,
    cap: Cap,
) -> Result<Prepared, AllocError>
    requires names { AreDocumentNames document.names (the_network document.labelled.base) }
    requires ids { All (λ (c : Constraint). c.id < 2 ^ 31) (the_labelled document.labelled).base.constraints }
    ensures comes { IfOk result (λ prepared. ComesTo (labelled_answer verb cap.entries document.names (the_labelled document.labelled)) (the_plan prepared)) }
    ensures fits { IfOk result (FitsKind (labelled_kind verb)) }
{
    match verb {
        LabelledVerb::Follow => { follow_session(alloc, document.labelled, document.names, cap) }
        LabelledVerb::Run => run_session(alloc, document.labelled, &document.names, cap),
        LabelledVerb::Cases => {
            let said = cases_text(alloc, document.labelled, &document.names, cap)?;
            Ok(Prepared::Says(said))
        }
    }
}

// What is said of a network by a text.
fn check_against(
    alloc: Global,
    verb: TextVerb,
    document: &NamedNetwork,
    text: &[u8],
) -> Result<Said, AllocError>
    requires sound { IsSoundNetwork document.now }
    requires short { length text.now ≤ most_text }
    ensures said { IfOk result (λ said. IsByText (IsVerbText verb document.now.names text.now (the_network document.now.network)) text.now (the_said said)) }
{
    match verb {
        TextVerb::Replay => replay_text(alloc, &document.network, &document.names, text),
        TextVerb::Closedcheck => closedcheck_text(alloc, &document.network, &document.names, text),
        TextVerb::Treecheck => treecheck_text(alloc, &document.network, &document.names, text),
    }
}

// What is said of a document alone.
fn document_text(
    alloc: Global,
    verb: DocumentVerb,
    document: &NamedLabelled,
) -> Result<Said, AllocError>
    requires names { AreDocumentNames document.now.names (the_network document.now.labelled.base) }
    ensures said { IfOk result (λ said. the_said said ≡ document_said verb document.now.names (the_labelled document.now.labelled)) }
{
    match verb {
        DocumentVerb::Save => save_text(alloc, &document.labelled, &document.names),
        DocumentVerb::Sentences => sentences_text(alloc, &document.labelled, &document.names),
    }
}
