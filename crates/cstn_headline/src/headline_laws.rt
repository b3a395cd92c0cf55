// The headline, as one law, and the laws that give its premises and what else a call tells. The calls do nothing: their contracts are the
// laws.
ghost use Rattle.std.specs.Prelude.{◌≡◌, ◌⊎◌, ◌≤◌, ◌<◌, ◌++◌, ℕ, List, Option, Some, IfSome};
ghost use Rattle.cstn_lines.specs.Pieces.{lines_of};
ghost use Rattle.cstn_request.specs.Requests.{Request};
ghost use Rattle.cstn_reply.specs.declared.status.Status.{Status};
ghost use Rattle.cstn_reply.specs.declared.status.Status.TheVariants.{Good, Bad, Full};
ghost use Rattle.cstn_top.specs.commands.Run.{run_bounds};
ghost use Rattle.cstn_headline.specs.commands.Run.{AnswersLeast};
ghost use Rattle.cstn_headline.specs.Headline.{Document, network, printed_names, DocumentHasStrategy, load, network_edited, RequestCall, CallTells};
ghost use Rattle.cstn_headline.specs.Headline.{HasContents, IsCall};
ghost use Rattle.cstn_headline.specs.Headline.{Checked, Ran, Replayed, Edited, StatusDecides, IsEditedVerdict, IsExecutedOver};
ghost use Rattle.cstn_top.specs.Meanings.{IsStopped};
ghost use Rattle.cstn_reply.specs.Written.{view};
ghost use Rattle.cstn_top.specs.Told.{IsToldOfCall};
ghost use Rattle.cstn_headline.specs.Told.{IsToldOf};

use crate::evidence_laws::evidence_is_accepted;
use cstn_io::Source;

/// For every labelled network of a document, `check` ends with Good exactly where a dynamic strategy exists and with Bad exactly
/// where none does, or with Full, where the log of the lowered network has more entries than the cap. After yes, over any lines,
/// each moment that `run` accepts is answered with exactly the time-points whose label holds and whose least moment it is in any
/// dynamic strategy; and where a run ends with Good, each time-point whose label holds was named in what was written, at its least
/// moment, and every constraint whose label holds is met, in every scenario that agrees with the outcomes that were handed in. After no the
/// written derivation passes `replay`, whose Good implies that no strategy exists. After any edit lines, each of the grammar and
/// none too long or too late, the verdict of the last check is that of the network as edited by the lines before it, or Full,
/// where its log has more entries than the cap.
pub fn the_headline()
    ensures check { (d : Document) (cap : ℕ) (c : Checked d cap) → ((c.status ≡ Full) × (cap < load d))
        ⊎ (StatusDecides c.status (DocumentHasStrategy d) × (load d ≤ cap)) }
    ensures least { (d : Document) → DocumentHasStrategy d → AnswersLeast (printed_names d) (network d) (run_bounds (network d)) }
    ensures executed { (d : Document) (cap : ℕ) (c : Ran d cap) → c.status ≡ Good
        → IsExecutedOver (printed_names d) (network d) (lines_of c.live) c.text }
    ensures derivation { (d : Document) (cap : ℕ) (c : Checked d cap) → c.status ≡ Bad → (file : List ℕ) (r : Replayed d file c.text) → r.status ≡ Good }
    ensures replay { (d : Document) (file text : List ℕ) (r : Replayed d file text) → r.status ≡ Good → DocumentHasStrategy d → ⊥ }
    ensures edits { (d : Document) (cap : ℕ) (edits : List (List ℕ)) (e : Edited d cap edits) → IsEditedVerdict cap (network_edited d edits) e.call.status }
{
    evidence_is_accepted();
}

/// A call was stopped by a fault or by want of memory, or its status and the text that was written tell, of the contents of the files
/// that its words name and of the lines of the live source, what `RequestTells` says of its request: that a network has a strategy or
/// has none, that a log is too long, that a text or a document is right, wrong or refused, and how a session ended. There is no other
/// case, and what was written as evidence is accepted.
pub fn calls_tell<S: Source>()
    ensures told { (words : Option Request) (files : Option (List ℕ → Option (List ℕ))) (before after : S) (old new : Option (List ℕ)) (status : Status)
        (told : IsToldOfCall words files (view S.left S.faults S.reads) before after old new status)
        → IfSome words (IsToldOf (view S.left S.faults S.reads before) old new status told.contents) }
    ensures call { (request : Request) (contents : List (List ℕ)) (c : RequestCall request contents)
        → CallTells request contents c }
{
    evidence_is_accepted();
}

/// What `run` tells makes a call that the headline speaks of. Where files, live source and sink tell their bytes, the words are a
/// request, and neither a fault nor want of memory stopped the call, it is a call of that request over the contents of its files.
pub fn calls_are_told<S: Source>()
    ensures call { (request : Request) (contents : List (List ℕ)) (live had : List ℕ) (words : Option Request) (files : Option (List ℕ → Option (List ℕ)))
        (before after : S) (old new : Option (List ℕ)) (status : Status) → IsToldOfCall words files (view S.left S.faults S.reads) before after old new status
        → words ≡ Some request → HasContents files request contents → S.left before ≡ Some live → old ≡ Some had → (IsStopped status → ⊥)
        → IsCall request contents live had new status }
{}
