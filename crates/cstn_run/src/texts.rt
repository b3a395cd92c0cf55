// Lines of any session.
ghost use Rattle.std.specs.Prelude.{◌≡◌, ◌++◌};
ghost use Rattle.cstn_reply.specs.Room.{HasRoom};
ghost use Rattle.cstn_reply.specs.Texts.{line};
ghost use Rattle.cstn_exec.specs.Running.{due_text};

use cstn_reply::AnswerText;

/// Puts the moment that is due, or that all is done.
pub(crate) fn put_due(text: &mut AnswerText, due: Option<u32>)
    requires room { HasRoom text.old 45 }
    ensures { text.new ≡ text.old ++ line (due_text due) }
{
    match due {
        Some(t) => text.put_number(b"due ", t),
        None => text.put_word(b"done"),
    }
}
