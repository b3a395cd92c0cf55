// Edit sessions: edit lines are answered by a session.
ghost use Rattle.std.specs.Prelude.{false, ◌≡◌, ◌<◌, ◌≤◌, ◌^◌, ◌++◌, [], ℕ, length, if◌then◌else◌, Some, Ok, IfOk, IfSome, OnOk, codes};
ghost use Rattle.std.specs.List.{All};
ghost use Rattle.std.specs.Option.{option_map};
ghost use Rattle.cstn_label.specs.Read.{marks};
ghost use Rattle.cstn_net.specs.Limits.{most_constraints};
ghost use Rattle.cstn_net.specs.Networks.{count};
ghost use Rattle.cstn_net.specs.Read.{the_network};
ghost use Rattle.cstn_text.specs.Names.{number_of};
ghost use Rattle.cstn_refute.specs.Texts.{refutation_shown};
ghost use Rattle.cstn_log.specs.Cuts.{last_with_ancestors};
ghost use Rattle.cstn_change.specs.Changes.{adds, removes, revalues};
ghost use Rattle.cstn_change.specs.ChangeLines.{addition};
ghost use Rattle.cstn_edit.specs.Sessions.{kept_of};
ghost use Rattle.cstn_edit.specs.Edits.{the_session, outcome_at, with_verdict};
ghost use Rattle.cstn_edit.specs.declared.outcomes.Outcome.{Outcome as Answered};
ghost use Rattle.cstn_reply.specs.Texts.{line};
ghost use Rattle.cstn_reply.specs.Sessions.{more};
ghost use Rattle.cstn_edit.specs.Editing.{Editing as State, begun_editing, edit_turn, edit_wants, edit_ending};
ghost use Rattle.cstn_edit.specs.Editing.{answered_change, answered_check, ending_by, the_editing};

use crate::Session;
use cstn_change::{put_refusal, put_unknown_end};
use cstn_check::Verdict;
use cstn_label::{Label, NodeId};
use cstn_lines::{EditLine, read_edit};
use cstn_log::Cap;
use cstn_net::{MAX_CONSTRAINTS, Network, network_is_well_formed};
use cstn_reply::{Answer, AnswerText, Outcome, Talk};
use cstn_text::Names;
use std::alloc::{AllocError, Global};
use std::marker::Model;

/// An edit session, the names of its time-points, and the verdict of the last check.
#[derive(Drop)]
pub struct Editing {
    alloc: Global,
    session: Session,
    names: Names,
    cap: Cap,
    verdict: Option<Verdict>,
}

impl Model for Editing {
    ghost use Rattle.std.specs.Prelude.{◌≡◌};
    ghost use Rattle.cstn_edit.specs.Editing.{EditingParts, IsEditing};

    ghost Value = { EditingParts };

    ghost view = { λ e. record { session = e.session; names = e.names; verdict = e.verdict } };

    ghost invariant = { λ e. IsEditing (record { session = e.session; names = e.names; verdict = e.verdict }) × (e.cap.entries ≡ e.session.cap) };
}

impl Editing {
    /// A session on a network without any edit yet, whose kept list may have `cap` entries. Fails for want of memory alone.
    pub fn start(
        alloc: Global,
        network: Network,
        names: Names,
        cap: Cap,
    ) -> Result<Editing, AllocError>
        requires named { length names ≡ count (the_network network) }
        requires few { length network.constraints ≤ most_constraints }
        requires ids { All (λ c. c.id < 2 ^ 31) network.constraints }
        ensures start { IfOk result (λ e. the_editing e ≡ begun_editing cap.entries names (the_network network)) }
    {
        network_is_well_formed(&network);
        let session = Session::start(alloc, network, cap, MAX_CONSTRAINTS as u32)?;
        Ok(Editing {
            alloc,
            session,
            names,
            cap,
            verdict: None,
        })
    }

    // Adds a constraint between the time-points of two names.
    fn add(
        &mut self,
        from: &str,
        to: &str,
        most: i32,
        label: Label,
        text: &mut AnswerText,
    ) -> Result<(), AllocError>
        requires empty { text.old ≡ [] }
        ensures turn { OnOk result (answered_change (the_editing self.old) (addition self.old.names from.now to.now most (marks label))
            ≡ more text.new (the_editing self.new)) }
    {
        let Some(x) = self.node(from) else {
            return put_unknown_end(self.alloc, text, from);
        };
        let Some(y) = self.node(to) else {
            return put_unknown_end(self.alloc, text, to);
        };
        self.add_between(x, y, most, label, text);
        Ok(())
    }

    // The time-point of a name, if there is one.
    fn node(&self, name: &str) -> Option<NodeId>
        ensures node { option_map (λ x. x.0) result ≡ number_of self.now.names name.now }
        ensures inside { IfSome result (λ x. x.0 < count (the_network self.now.session.net)) }
    {
        let number = self.names.find(name)?;
        Some(NodeId(number as u16))
    }

    // Adds a constraint between two time-points.
    fn add_between(
        &mut self,
        from: NodeId,
        to: NodeId,
        most: i32,
        label: Label,
        text: &mut AnswerText,
    )
        requires from { from.0 < count (the_network self.old.session.net) }
        requires to { to.0 < count (the_network self.old.session.net) }
        requires empty { text.old ≡ [] }
        ensures turn { answered_change (the_editing self.old) (Ok (adds from.0 to.0 most (marks label))) ≡ more text.new (the_editing self.new) }
    {
        match self.session.add(from, to, most, label) {
            Ok(id) => text.put_number(b"added ", id),
            Err(error) => put_refusal(text, error),
        }
    }

    // Takes a constraint out.
    fn remove(&mut self, id: u32, text: &mut AnswerText)
        requires empty { text.old ≡ [] }
        ensures turn { answered_change (the_editing self.old) (Ok (removes id)) ≡ more text.new (the_editing self.new) }
    {
        match self.session.remove(id) {
            Ok(()) => text.put_number(b"removed ", id),
            Err(error) => put_refusal(text, error),
        }
    }

    // Gives a constraint another value.
    fn change(&mut self, id: u32, most: i32, text: &mut AnswerText)
        requires empty { text.old ≡ [] }
        ensures turn { answered_change (the_editing self.old) (Ok (revalues id most)) ≡ more text.new (the_editing self.new) }
    {
        match self.session.change(id, most) {
            Ok(()) => text.put_number(b"changed ", id),
            Err(error) => put_refusal(text, error),
        }
    }

    // Answers with the verdict, which is kept for the end.
    fn check(&mut self, text: &mut AnswerText) -> Result<(), AllocError>
        requires empty { text.old ≡ [] }
        ensures turn { OnOk result (answered_check (the_editing self.old) (outcome_at self.old.session.cap (the_session self.old.session))
            (with_verdict self.old.session.cap (the_session self.old.session)) ≡ more text.new (the_editing self.new)) }
    {
        let outcome = self.session.verdict();
        self.verdict = Some(outcome.verdict);
        put_afresh(text, outcome.afresh);
        match outcome.verdict {
            Verdict::Yes { load } => {
                text.put_number(b"yes ", load);
                Ok(())
            }
            Verdict::No { .. } => self.put_refutation(text),
            Verdict::Full => {
                text.put_number(b"full ", self.cap.entries);
                Ok(())
            }
        }
    }

    // Puts the text of the refutation after a no.
    fn put_refutation(&self, text: &mut AnswerText) -> Result<(), AllocError>
        requires no { (o : Answered) × (load : ℕ) × (self.now.session.last ≡ Some o) × (o.verdict ≡ Verdict.No load) }
        ensures { OnOk result (text.new ≡ text.old
            ++ refutation_shown self.now.names (length (kept_of self.now.session)) (last_with_ancestors (kept_of self.now.session))) }
    {
        let refutation = self.session.refutation(self.alloc)?;
        let printed = refutation.print(self.alloc, &self.names)?;
        text.extend(printed.as_bytes())
    }
}

impl Talk for Editing {
    ghost State = { State };

    ghost state = { the_editing };

    ghost turn = { edit_turn };

    ghost ending = { edit_ending };

    ghost ends = { false };

    ghost may_stop = { edit_wants };

    fn ends(&self) -> bool {
        false
    }

    fn answer(&mut self, line: &[u8], text: &mut AnswerText) -> Result<Answer, AllocError> {
        match read_edit(self.alloc, line)? {
            Some(
                EditLine::Add {
                    from,
                    to,
                    most,
                    label,
                },
            ) => {
                self.add(from.as_str(), to.as_str(), most, label, text)?;
                Ok(Answer::More)
            }
            Some(EditLine::Remove { id }) => {
                self.remove(id, text);
                Ok(Answer::More)
            }
            Some(EditLine::Change { id, most }) => {
                self.change(id, most, text);
                Ok(Answer::More)
            }
            Some(EditLine::Check) => {
                self.check(text)?;
                Ok(Answer::More)
            }
            None => Ok(Answer::Wrong),
        }
    }

    fn ending(&self, text: &mut AnswerText) -> Outcome {
        ending_by(self.verdict)
    }
}

// How the session ends, by the verdict of the last check, if there was one.
fn ending_by(verdict: Option<Verdict>) -> Outcome
    ensures { result ≡ ending_by verdict }
{
    match verdict {
        None | Some(Verdict::Yes { .. }) => Outcome::Good,
        Some(Verdict::No { .. }) => Outcome::Bad,
        Some(Verdict::Full) => Outcome::Full,
    }
}

// Puts the line `afresh` where the check grew its kept list afresh.
fn put_afresh(text: &mut AnswerText, afresh: bool)
    requires empty { text.old ≡ [] }
    ensures items { text.new ≡ (if afresh then line (codes "afresh") else []) }
    ensures short { length text.new ≤ 7 }
{
    if afresh {
        text.put_word(b"afresh");
    }
}
