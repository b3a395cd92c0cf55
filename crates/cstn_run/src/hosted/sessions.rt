// Sessions of a host: host lines are answered under the names of each file.
ghost use Rattle.std.specs.Prelude.{false, ◌≡◌, ◌≤◌, ◌<◌, [], true, length, is_none, nat_lt, Some, IfOk, OnErr, OnOk};
ghost use Rattle.cstn_lines.specs.LiveLines.{moment_at, seen, due_now, the_live};
ghost use Rattle.cstn_lines.specs.HostLines.{opened, put_on, closed};
ghost use Rattle.cstn_exec.specs.Runs.{due};
ghost use Rattle.cstn_run.specs.hosted.Hosts.{Opened, net_at, bounds_at, case_at};
ghost use Rattle.cstn_run.specs.hosted.Sessions.{host_begun, case_of, due_in, host_said, unfinished, session_after, host_turn, host_wants, host_ending};
ghost use Rattle.cstn_run.specs.hosted.Sessions.{HostSession as SessionState};
ghost use Rattle.cstn_run.specs.hosted.SessionRead.{the_files, the_host_session, the_names, IsHostSession};

use super::hosts::{Host, IDS};
use super::texts::{put_error, put_id, put_unfinished};
use crate::texts::put_due;
use cstn_exec::put_moment;
use cstn_label::Prop;
use cstn_lines::{HostLine, LiveLine, read_host};
use cstn_plan::SoundPlan;
use cstn_reply::{Answer, AnswerText, Outcome, Talk};
use std::alloc::{AllocError, Global};
use std::marker::Model;

/// A host, and the printed names of the time-points of each of its files.
#[derive(Drop)]
pub struct HostSession {
    host: Host,
    names: Vec<Vec<String>>,
}

impl Model for HostSession {
    ghost use Rattle.cstn_run.specs.hosted.SessionRead.{HostSessionParts, IsHostSession, the_names};

    ghost Value = { HostSessionParts };

    ghost view = { λ w. record { host = w.host; names = the_names w.names.items } };

    ghost invariant = { λ w. IsHostSession w.host.plans (the_names w.names.items) };
}

impl HostSession {
    /// A session over 1 to 8 plans, each with the printed names of its time-points, in which no id is open. Fails for want of memory
    /// alone.
    pub fn start(
        alloc: Global,
        plans: Vec<SoundPlan>,
        names: Vec<Vec<String>>,
    ) -> Result<HostSession, AllocError>
        requires some { 1 ≤ length plans.items }
        requires few { length plans.items ≤ 8 }
        requires named { IsHostSession plans.items (the_names names.items) }
        ensures start { IfOk result (λ w. the_host_session w ≡ host_begun (the_files plans.items (the_names names.items))) }
    {
        let host = Host::start(alloc, plans)?;
        Ok(HostSession { host, names })
    }

    // Opens an id over a file.
    fn open(&mut self, id: u32, file: u32, text: &mut AnswerText) -> Result<(), AllocError>
        requires empty { text.old ≡ [] }
        ensures said { OnOk result (host_said (the_host_session self.old) (opened id file) ≡ text.new) }
        ensures after { OnOk result (session_after (the_host_session self.old) (opened id file) ≡ the_host_session self.new) }
    {
        match self.host.open(id, file) {
            Ok(()) => {
                text.put_number(b"opened ", id);
                Ok(())
            }
            Err(error) => put_error(text, id, error),
        }
    }

    // Closes an id.
    fn close(&mut self, id: u32, text: &mut AnswerText) -> Result<(), AllocError>
        requires empty { text.old ≡ [] }
        ensures said { OnOk result (host_said (the_host_session self.old) (closed id) ≡ text.new) }
        ensures after { OnOk result (session_after (the_host_session self.old) (closed id) ≡ the_host_session self.new) }
        ensures memory { OnErr result ⊥ }
    {
        match self.host.close(id) {
            Ok(()) => {
                text.put_number(b"closed ", id);
                Ok(())
            }
            Err(error) => put_error(text, id, error),
        }
    }

    // Answers a live line on an id.
    fn pass(&mut self, id: u32, line: LiveLine, text: &mut AnswerText) -> Result<(), AllocError>
        requires empty { text.old ≡ [] }
        ensures said { OnOk result (host_said (the_host_session self.old) (put_on id (the_live line)) ≡ text.new) }
        ensures after { OnOk result (session_after (the_host_session self.old) (put_on id (the_live line)) ≡ the_host_session self.new) }
        ensures memory { OnErr result ⊥ }
    {
        match line {
            LiveLine::Moment { t } => self.moment(id, t, text),
            LiveLine::See { prop, value } => self.see(id, prop, value, text),
            LiveLine::Due => self.due(id, text),
        }
    }

    // Answers a moment of an id.
    fn moment(&mut self, id: u32, t: u32, text: &mut AnswerText) -> Result<(), AllocError>
        requires empty { text.old ≡ [] }
        ensures said { OnOk result (host_said (the_host_session self.old) (put_on id (moment_at t)) ≡ text.new) }
        ensures after { OnOk result (session_after (the_host_session self.old) (put_on id (moment_at t)) ≡ the_host_session self.new) }
        ensures memory { OnErr result ⊥ }
    {
        if let Err(error) = self.host.moment(id, t) {
            return put_error(text, id, error);
        }
        let Ok(file) = self.host.file(id) else {
            return Ok(());
        };
        let Ok(named) = self.host.named(id) else {
            return Ok(());
        };
        put_id(text, id);
        put_moment(text, t, named, &self.names[file as usize]);
        if !self.has_done_all(id) {
            return Ok(());
        }
        put_id(text, id);
        put_due(text, None);
        Ok(())
    }

    // Whether an id is open and all of its plan is executed.
    fn has_done_all(&self, id: u32) -> bool
        ensures done { (c : Opened) → nat_lt id 64 ≡ true → case_at self.now.host id ≡ Some c
            → result ≡ is_none (due (net_at self.now.host.plans c.file) (bounds_at self.now.host.plans c.file) c.run) }
    {
        match self.host.due(id) {
            Ok(due) => due.is_none(),
            Err(_) => false,
        }
    }

    // Answers an outcome of an id.
    fn see(
        &mut self,
        id: u32,
        prop: Prop,
        value: bool,
        text: &mut AnswerText,
    ) -> Result<(), AllocError>
        requires empty { text.old ≡ [] }
        ensures said { OnOk result (host_said (the_host_session self.old) (put_on id (seen prop.index value)) ≡ text.new) }
        ensures after { OnOk result (session_after (the_host_session self.old) (put_on id (seen prop.index value)) ≡ the_host_session self.new) }
        ensures memory { OnErr result ⊥ }
    {
        match self.host.see(id, prop, value) {
            Ok(()) => {
                put_id(text, id);
                text.put_outcome(b"seen ", prop, value);
                Ok(())
            }
            Err(error) => put_error(text, id, error),
        }
    }

    // Answers what is due of an id.
    fn due(&self, id: u32, text: &mut AnswerText) -> Result<(), AllocError>
        requires empty { text.old ≡ [] }
        ensures said { OnOk result (host_said (the_host_session self.now) (put_on id due_now) ≡ text.new) }
        ensures memory { OnErr result ⊥ }
    {
        match self.host.due(id) {
            Ok(due) => {
                put_id(text, id);
                put_due(text, due);
                Ok(())
            }
            Err(error) => put_error(text, id, error),
        }
    }

    // The least open id of which not all is executed, and the moment that is due there.
    fn unfinished(&self) -> Option<(u32, u32)>
        ensures least { result ≡ unfinished (the_host_session self.now) }
    {
        for id in 0..IDS {
            let Some(t) = self.due_at(id) else {
                continue;
            };
            return Some((id, t));
        }
        None
    }

    // The moment that is due at an id, if it is open and not all is executed.
    fn due_at(&self, id: u32) -> Option<u32>
        requires below { id < IDS }
        ensures due { result ≡ due_in (the_host_session self.now).files (case_of (the_host_session self.now) id) }
    {
        match self.host.due(id) {
            Ok(due) => due,
            Err(_) => None,
        }
    }
}

impl Talk for HostSession {
    ghost State = { SessionState };

    ghost state = { the_host_session };

    ghost turn = { host_turn };

    ghost ending = { host_ending };

    ghost ends = { false };

    ghost may_stop = { host_wants };

    fn ends(&self) -> bool {
        false
    }

    fn answer(&mut self, line: &[u8], text: &mut AnswerText) -> Result<Answer, AllocError> {
        match read_host(line) {
            Some(HostLine::Open { id, file }) => {
                self.open(id, file, text)?;
                Ok(Answer::More)
            }
            Some(HostLine::On { id, line }) => {
                self.pass(id, line, text)?;
                Ok(Answer::More)
            }
            Some(HostLine::Close { id }) => {
                self.close(id, text)?;
                Ok(Answer::More)
            }
            None => Ok(Answer::Wrong),
        }
    }

    fn ending(&self, text: &mut AnswerText) -> Outcome {
        let Some((id, t)) = self.unfinished() else {
            return Outcome::Good;
        };
        put_unfinished(text, id, t);
        Outcome::Unfinished
    }
}
