// Guided sessions: live lines are answered by a guide.
ghost use Rattle.std.specs.Prelude.{◌≡◌, ◌≤◌, [], false, map, length, IfOk};
ghost use Rattle.cstn_net.specs.Limits.{most_time_points};
ghost use Rattle.cstn_net.specs.Networks.{count};
ghost use Rattle.cstn_plan.specs.Plans.{the_bounds};
ghost use Rattle.cstn_lift.specs.Lowered.{lowered};
ghost use Rattle.cstn_lift.specs.Read.{the_labelled};
ghost use Rattle.cstn_exec.specs.Runs.{due};
ghost use Rattle.cstn_exec.specs.Moves.{moment_refusal};
ghost use Rattle.cstn_exec.specs.Guides.{see_refusal};
ghost use Rattle.cstn_text.specs.PrintedNames.{printed_name};
ghost use Rattle.cstn_reply.specs.Texts.{line};
ghost use Rattle.cstn_reply.specs.Written.{EndsLine};
ghost use Rattle.cstn_reply.specs.Sessions.{the_turn};
ghost use Rattle.cstn_exec.specs.Running.{turn_with, due_text};
ghost use Rattle.cstn_run.specs.Sessions.{RunSessionParts, with_state, named_turn, noted_turn, guided_turn, guided_ending};

use crate::texts::put_due;
use cstn_exec::{Guide, print_names, put_moment, put_refusal};
use cstn_label::Prop;
use cstn_lines::{LiveLine, read_live};
use cstn_reply::{Answer, AnswerText, Outcome, Talk};
use cstn_text::Names;
use std::alloc::{AllocError, Global};
use std::marker::Model;

/// A guide, and the printed names of its time-points.
#[derive(Drop)]
pub struct RunSession {
    guide: Guide,
    names: Vec<String>,
}

impl Model for RunSession {
    ghost use Rattle.std.specs.Prelude.{map, string_bytes};
    ghost use Rattle.cstn_exec.specs.Running.{AreShort};
    ghost use Rattle.cstn_run.specs.Sessions.{RunSessionParts};

    ghost Value = { RunSessionParts };

    ghost view = { λ g. record { labelled = g.guide.labelled; bounds = g.guide.bounds; state = g.guide.state; names = map string_bytes g.names.items } };

    ghost invariant = { λ g. AreShort g.guide.labelled.base (map string_bytes g.names.items) };
}

impl RunSession {
    /// A session of a guide, under the names of its time-points. Fails for want of memory alone, and drops the guide then.
    pub fn start(alloc: Global, guide: Guide, names: &Names) -> Result<RunSession, AllocError>
        requires named { length names.now ≡ count (the_labelled guide.labelled).base }
        requires few { length names.now ≤ most_time_points }
        ensures start { IfOk result (λ g. g ≡ record {
          labelled = guide.labelled;
          bounds = guide.bounds;
          state = guide.state;
          names = map printed_name names.now;
        }) }
    {
        let names = print_names(alloc, names)?;
        Ok(RunSession { guide, names })
    }

    // Answers a moment.
    fn moment(&mut self, t: u32, text: &mut AnswerText) -> Answer
        requires empty { text.old ≡ [] }
        ensures turn { turn_with (with_state self.old)
            (named_turn self.old.names (the_labelled self.old.labelled) (the_bounds self.old.bounds) self.old.state t
            (moment_refusal (lowered (the_labelled self.old.labelled)) (the_bounds self.old.bounds) self.old.state.run t))
            ≡ the_turn result self.new text.new }
        ensures lines { result ≡ Answer.More → EndsLine text.new }
    {
        if let Err(error) = self.guide.moment(t) {
            put_refusal(text, error);
            return Answer::More;
        }
        put_moment(text, t, self.guide.named(), &self.names);
        let Some(_) = self.guide.due() else {
            put_due(text, None);
            return Answer::Last(Outcome::Good);
        };
        Answer::More
    }

    // Answers an outcome.
    fn see(&mut self, prop: Prop, value: bool, text: &mut AnswerText)
        requires empty { text.old ≡ [] }
        ensures turn { turn_with (with_state self.old)
            (noted_turn self.old.state prop.index value (see_refusal (the_labelled self.old.labelled) self.old.state prop.index))
            ≡ the_turn Answer.More self.new text.new }
        ensures lines { EndsLine text.new }
    {
        if let Err(error) = self.guide.see(prop, value) {
            put_refusal(text, error);
            return;
        }
        text.put_outcome(b"seen ", prop, value);
    }

    // Answers what is due.
    fn due(&self, text: &mut AnswerText)
        requires empty { text.old ≡ [] }
        ensures { text.new ≡ line (due_text (due (lowered (the_labelled self.now.labelled)) (the_bounds self.now.bounds) self.now.state.run)) }
    {
        put_due(text, self.guide.due());
    }
}

impl Talk for RunSession {
    ghost State = { RunSessionParts };

    ghost state = { λ g. g };

    ghost turn = { guided_turn };

    ghost ending = { guided_ending };

    ghost ends = { false };

    ghost may_stop = { λ _. false };

    fn ends(&self) -> bool {
        false
    }

    fn answer(&mut self, line: &[u8], text: &mut AnswerText) -> Result<Answer, AllocError> {
        match read_live(line) {
            Some(LiveLine::Moment { t }) => Ok(self.moment(t, text)),
            Some(LiveLine::See { prop, value }) => {
                self.see(prop, value, text);
                Ok(Answer::More)
            }
            Some(LiveLine::Due) => {
                self.due(text);
                Ok(Answer::More)
            }
            None => Ok(Answer::Wrong),
        }
    }

    fn ending(&self, text: &mut AnswerText) -> Outcome {
        match self.guide.due() {
            Some(t) => {
                text.put_number(b"unfinished ", t);
                Outcome::Unfinished
            }
            None => {
                text.put_word(b"done");
                Outcome::Good
            }
        }
    }
}
