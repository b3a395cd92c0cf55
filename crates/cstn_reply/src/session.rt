// Lines of the live source, answered one after another.
ghost use Rattle.std.specs.Prelude.{◌≡◌, ◌≢◌, ◌⊎◌, ◌≤◌, ◌+◌, ◌++◌, ℕ, List, [], Bool, true, IsTrue, IfOk, IfSome, IfNone, OnErr};
ghost use Rattle.std.specs.Prelude.{length, codes};
ghost use Rattle.std.specs.Option.{option_map};
ghost use Rattle.cstn_io.specs.Causes.{Rose};
ghost use Rattle.cstn_io.specs.Contents.{with_bytes, IsAtEnd};
ghost use Rattle.cstn_lines.specs.Steps.{heard_line};
ghost use Rattle.cstn_reply.specs.Room.{HasRoom};
ghost use Rattle.cstn_reply.specs.Texts.{Said, line};
ghost use Rattle.cstn_reply.specs.Written.{EndsLine, LiveState, view, IsText, Ends};
ghost use Rattle.cstn_reply.specs.Sessions.{Turn, script, session_says, the_turn};
ghost use Rattle.cstn_reply.specs.Reached.{session_heard, session_stops, Progress};

use crate::output::{Outcome, finish, send};
use crate::{AnswerText, Status};
use cstn_io::{Sink, Source};
use cstn_lines::{Lines, Next};
use std::alloc::{AllocError, Global};

/// How a session goes on after a line: more lines are read, the answer is the last one, or the line is of no grammar.
#[derive(Clone, Copy, Debug, PartialEq, Eq)]
pub enum Answer {
    /// More lines are read.
    More,
    /// The answer is the last one, and this is the outcome.
    Last(Outcome),
    /// The line is of no grammar.
    Wrong,
}

/// What answers the lines of a session.
pub trait Talk: Drop {
    /// The states of a session.
    ghost State: { Type 0 };

    /// The state that the session is in.
    ghost state: { Self → State };

    /// The answer to a line.
    ghost turn: { State → List ℕ → Turn State };

    /// What is said where the lines end.
    ghost ending: { State → Said };

    /// Whether each line has to have its LF.
    ghost ends: { Bool };

    /// Whether the answer to a line may want memory.
    ghost may_stop: { List ℕ → Bool };

    /// Whether each line has to have its LF. Where it has, a last line that lacks it is heard as an empty one.
    fn ends(&self) -> bool
        ensures { result ≡ ends };

    /// Answers a line: its answer stands in `text` then. Fails for want of memory alone, and only at a line that may want it.
    fn answer(&mut self, line: &[u8], text: &mut AnswerText) -> Result<Answer, AllocError>
        requires empty { text.old ≡ [] }
        ensures turn { IfOk result (λ answer. turn (state self.old) line.now ≡ the_turn answer (state self.new) text.new) }
        ensures lines { IfOk result (λ answer. answer ≡ Answer.More → EndsLine text.new) }
        ensures memory { OnErr result (IsTrue (may_stop line.now)) };

    /// What is said where the lines end stands in `text` then, and the outcome is returned.
    fn ending(&self, text: &mut AnswerText) -> Outcome
        requires empty { text.old ≡ [] }
        ensures { ending (state self.now) ≡ record { outcome = result; text = text.new } };
}

// Puts a text in place of what was there.
fn put(text: &mut AnswerText, bytes: &[u8])
    requires { HasRoom [] (length bytes.now) }
    ensures { text.new ≡ bytes.now }
{
    text.clear();
    text.put(bytes);
}

// Puts `script N` in place of what was there: the line of this number is of no grammar.
fn put_script(text: &mut AnswerText, number: u32)
    ensures { text.new ≡ (script number).text }
{
    text.clear();
    text.put_number(b"script ", number);
}

// The line that the last step handed out, as the session hears it.
fn heard_line<'a, T: Talk>(talk: &T, lines: &'a Lines) -> &'a [u8]
    ensures { result.now ≡ heard_line T.ends lines.now }
{
    if talk.ends() && !lines.is_whole() {
        return b"";
    }
    lines.line()
}

// Takes the next line and puts the answer to it into `text`. None where the session goes on; at its end `text` is the last
// text, and the status is returned.
fn next<T: Talk, S: Source>(
    talk: &mut T,
    lines: &mut Lines,
    live: &mut S,
    text: &mut AnswerText,
) -> Option<Status>
    requires at_end { lines.old.ended ≡ true → IsAtEnd (S.left live.old) }
    ensures goes_on { IfNone result ((start : T.State) (before : LiveState) (taken said : List ℕ)
        → Progress T.ends T.turn start before (view S.left S.faults S.reads live.old) lines.old (T.state talk.old) taken said
        → (bytes : List ℕ) × Progress T.ends T.turn start before (view S.left S.faults S.reads live.new) lines.new (T.state talk.new) (taken ++ bytes)
        (said ++ text.new)) }
    ensures ends { IfSome result (λ status. (start : T.State) (before : LiveState) (taken said opening : List ℕ)
        → Progress T.ends T.turn start before (view S.left S.faults S.reads live.old) lines.old (T.state talk.old) taken said
        → before.faults ≤ S.faults live.old
        → IsText (session_says T.ends T.turn T.ending opening start) (session_heard T.turn opening start)
        (session_stops T.ends T.turn T.may_stop opening start) before (view S.left S.faults S.reads live.new) status ((opening ++ said) ++ text.new)) }
    ensures at_end { lines.new.ended ≡ true → IsAtEnd (S.left live.new) }
    ensures count { IfNone result ((lines.new.count ≡ lines.old.count + 1) × (lines.new.count ≤ 16777216)) }
    ensures later { S.faults live.old ≤ S.faults live.new }
    ensures read { result ≡ Some Status.ReadFault → Rose (S.faults live.old) (S.faults live.new) }
    ensures write { result ≢ Some Status.WriteFault }
    ensures memory { result ≡ Some Status.Memory → (start : T.State) (before : LiveState) (taken said opening : List ℕ)
        → Progress T.ends T.turn start before (view S.left S.faults S.reads live.old) lines.old (T.state talk.old) taken said
        → session_stops T.ends T.turn T.may_stop opening start before.left (opening ++ said) }
{
    text.clear();
    match lines.step(live) {
        Next::Line { number } => match talk.answer(heard_line(talk, lines), text) {
            Ok(Answer::More) => None,
            Ok(Answer::Last(outcome)) => Some(outcome.status()),
            Ok(Answer::Wrong) => {
                put_script(text, number);
                Some(Status::Script)
            }
            Err(_) => {
                put(text, b"memory\n");
                Some(Status::Memory)
            }
        },
        Next::End => Some(talk.ending(text).status()),
        Next::Wrong { number } => {
            put_script(text, number);
            Some(Status::Script)
        }
        Next::Fault => {
            put(text, b"read fault\n");
            Some(Status::ReadFault)
        }
    }
}

/// Writes the opening and then the answer to each line of the live source, and flushes each of them. Returns how the
/// session ended.
pub fn converse<T: Talk, S: Source, K: Sink>(
    alloc: Global,
    mut talk: T,
    opening: &[u8],
    live: &mut S,
    out: &mut K,
) -> Status
    ensures ends { Ends (session_says T.ends T.turn T.ending opening.now (T.state talk)) (session_heard T.turn opening.now (T.state talk))
        (session_stops T.ends T.turn T.may_stop opening.now (T.state talk)) (view S.left S.faults S.reads live.old) (view S.left S.faults S.reads live.new)
        (K.written out.old) (K.written out.new) result }
    ensures flushed { result ≢ Status.WriteFault → K.flushed out.new ≡ option_map length (K.written out.new) }
    ensures read { result ≡ Status.ReadFault → Rose (S.faults live.old) (S.faults live.new) }
    ensures write { result ≡ Status.WriteFault → Rose (K.faults out.old) (K.faults out.new) }
    ensures memory { result ≡ Status.Memory
        → ((said : List ℕ) × session_stops T.ends T.turn T.may_stop opening.now (T.state talk) (S.left live.old) said)
        ⊎ ((K.written out.new ≡ with_bytes (K.written out.old) (line (codes "memory"))) × (live.new ≡ live.old)) }
    ensures later { (S.faults live.old ≤ S.faults live.new) × (K.faults out.old ≤ K.faults out.new) }
{
    let Ok(mut lines) = Lines::start(alloc) else {
        return finish(out, b"memory\n", Status::Memory);
    };
    let Ok(mut text) = AnswerText::new(alloc) else {
        return finish(out, b"memory\n", Status::Memory);
    };
    let Ok(()) = send(out, opening) else {
        return Status::WriteFault;
    };
    'session: loop {
        match next(&mut talk, &mut lines, live, &mut text) {
            None => {
                let Ok(()) = send(out, text.as_bytes()) else {
                    return Status::WriteFault;
                };
            }
            Some(status) => return finish(out, text.as_bytes(), status),
        }
    }
}
