// `follow FILE [--deadline N] [--cap CAP]`
ghost use Rattle.std.specs.Prelude.{ℕ, List, ◌≡◌, ◌<◌, ◌^◌, ◌++◌, [], true, length, slice_get, Some, IfOk, OnOk, codes};
ghost use Rattle.std.specs.List.{All};
ghost use Rattle.cstn_net.specs.Networks.{count};
ghost use Rattle.cstn_lift.specs.Read.{the_labelled};
ghost use Rattle.cstn_follow.specs.Following.{verdict_line};
ghost use Rattle.cstn_follow.specs.Marks.{Marked as MarkedState, marked_ending};
ghost use Rattle.cstn_follow.specs.MarkedRead.{the_marked};
ghost use Rattle.cstn_follow.specs.Read.{IsSaidFor};
ghost use Rattle.cstn_reply.specs.Texts.{line};
ghost use Rattle.cstn_reply.specs.Written.{EndsLine};
ghost use Rattle.cstn_top.specs.Plans.{ComesTo};
ghost use Rattle.cstn_top.specs.Prepared.{the_plan, FitsKind};
ghost use Rattle.cstn_top.specs.Kinds.{a_follow};
ghost use Rattle.cstn_top.specs.commands.Follow.{heard_text, marked_turn, follow_answer};

use super::Prepared;
use cstn_check::Verdict;
use cstn_follow::{Heard, Marked, digest_line, read_saying};
use cstn_lift::Labelled;
use cstn_log::Cap;
use cstn_reply::{Answer, AnswerText, Outcome, Talk};
use cstn_save::write;
use cstn_text::Names;
use std::alloc::{AllocError, Global};
use std::marker::Model;

/// A session that follows what happens, over the lines of the live source.
#[derive(Drop)]
pub(crate) struct Follower {
    alloc: Global,
    marked: Marked,
}

impl Model for Follower {
    ghost use Rattle.std.specs.Prelude.{◌≡◌, slice_get, Some, codes};
    ghost use Rattle.cstn_follow.specs.MarkedRead.{MarkedParts};

    ghost Value = { MarkedParts };

    ghost view = { λ f. f.marked };

    ghost invariant = { λ f. slice_get f.marked.now.names 0 ≡ Some (codes "Z") };
}

impl Talk for Follower {
    ghost State = { MarkedState };

    ghost state = { the_marked };

    ghost turn = { marked_turn };

    ghost ending = { marked_ending };

    ghost ends = { true };

    ghost may_stop = { λ _. true };

    fn ends(&self) -> bool {
        true
    }

    fn answer(&mut self, line: &[u8], text: &mut AnswerText) -> Result<Answer, AllocError> {
        let said = read_saying(self.alloc, line)?;
        let heard = self.marked.hear(said)?;
        put_heard(self.alloc, heard, text)?;
        Ok(Answer::More)
    }

    fn ending(&self, text: &mut AnswerText) -> Outcome {
        self.marked.ending(text)
    }
}

// Puts what is said to a line: a text, the canonical document of what is left, or the digest of that of the plan.
fn put_heard(alloc: Global, heard: Heard, text: &mut AnswerText) -> Result<(), AllocError>
    requires empty { text.old ≡ [] }
    requires said { (names : List (List ℕ)) × (slice_get names 0 ≡ Some (codes "Z")) × IsSaidFor names heard }
    ensures text { OnOk result (text.new ≡ heard_text heard) }
    ensures lines { OnOk result (EndsLine text.new) }
{
    match heard {
        Heard::Text(bytes) => text.extend(&bytes),
        Heard::Rest { network, names } => {
            let document = write(alloc, &network, &names)?;
            text.extend(&document)?;
            Ok(())
        }
        Heard::Digest { network, names } => {
            let document = write(alloc, &network, &names)?;
            let line = digest_line(alloc, &document)?;
            text.extend(&line)?;
            Ok(())
        }
    }
}

/// What is said of a labelled network: the version of the lines, the verdict, and then the answers to the lines. Fails for want
/// of memory alone.
pub(crate) fn follow_session(
    alloc: Global,
    labelled: Labelled,
    names: Names,
    cap: Cap,
) -> Result<Prepared, AllocError>
    requires named { length names ≡ count (the_labelled labelled).base }
    requires origin { slice_get names 0 ≡ Some (codes "Z") }
    requires ids { All (λ c. c.id < 2 ^ 31) (the_labelled labelled).base.constraints }
    ensures comes { IfOk result (λ prepared. ComesTo (follow_answer cap.entries names (the_labelled labelled)) (the_plan prepared)) }
    ensures fits { IfOk result (FitsKind a_follow) }
{
    let marked = Marked::start(alloc, labelled, names, cap)?;
    let opening = opening(alloc, marked.verdict(), cap.entries)?;
    Ok(Prepared::Follows {
        opening,
        session: Follower { alloc, marked },
    })
}

// The version of the lines, and the line of a verdict.
fn opening(alloc: Global, verdict: Verdict, cap: u32) -> Result<Vec<u8>, AllocError>
    ensures opening { IfOk result (λ text. text.items ≡ line (codes "follow 1") ++ verdict_line cap verdict) }
{
    let text = match verdict {
        Verdict::Yes { load } => format!(in alloc; "follow 1\nyes {load}\n")?,
        Verdict::No { load } => format!(in alloc; "follow 1\nno {load}\n")?,
        Verdict::Full => format!(in alloc; "follow 1\nfull {cap}\n")?,
    };
    Ok(text.into_bytes())
}
