// The lines that answer edits.
ghost use Rattle.std.specs.Prelude.{◌≡◌, [], OnOk};
ghost use Rattle.cstn_reply.specs.Texts.{line};
ghost use Rattle.cstn_change.specs.Changes.{UnknownEnd};
ghost use Rattle.cstn_change.specs.ChangeLines.{refused_change_text, accepted_text};
ghost use Rattle.cstn_change.specs.Read.{the_change, the_change_refusal};

use crate::changes::Change;
use crate::errors::EditError;
use cstn_reply::AnswerText;
use cstn_text::print_name;
use std::alloc::{AllocError, Global};

/// Puts the line that refuses an edit, by S1 to S6.
pub fn put_refusal(text: &mut AnswerText, error: EditError)
    requires empty { text.old ≡ [] }
    ensures line { text.new ≡ line (refused_change_text (the_change_refusal error)) }
{
    match error {
        EditError::EditLimit => text.put_word(b"refused S6"),
        EditError::NoRoom { room } => text.put_number(b"refused S1 ", room),
        EditError::NoSuch { id } => text.put_number(b"refused S2 ", id),
        EditError::ValueRange { most } => text.put_value(b"refused S3 ", most),
        EditError::NotPlain => text.put_word(b"refused S4"),
        EditError::NotObserved { prop } => text.put_prop(b"refused S5 ", prop),
    }
}

/// Puts the line that refuses an edit, by S7, since no time-point has the name of an end. Fails for want of memory alone.
pub fn put_unknown_end(alloc: Global, text: &mut AnswerText, name: &str) -> Result<(), AllocError>
    requires empty { text.old ≡ [] }
    ensures line { OnOk result (text.new ≡ line (refused_change_text (UnknownEnd name.now))) }
{
    let line = format!(in alloc; "refused S7 {}\n", print_name(alloc, name)?)?;
    text.extend(line.as_bytes())
}

/// Puts the line that answers an accepted change, with the id of the constraint, which is `fresh` where it is added.
pub fn put_accepted(text: &mut AnswerText, fresh: u32, change: Change)
    requires empty { text.old ≡ [] }
    ensures line { text.new ≡ line (accepted_text fresh (the_change change)) }
{
    match change {
        Change::Add { .. } => text.put_number(b"added ", fresh),
        Change::Remove { id } => text.put_number(b"removed ", id),
        Change::Revalue { id, .. } => text.put_number(b"changed ", id),
    }
}
