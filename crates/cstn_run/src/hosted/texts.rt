// Lines of an id, and why a host line is refused.
ghost use Rattle.std.specs.Prelude.{◌≡◌, ◌≤◌, ◌+◌, ◌++◌, ◌∷◌, [], true, false, length, codes, decimal, OnOk, OnErr};
ghost use Rattle.cstn_reply.specs.Room.{HasRoom};
ghost use Rattle.cstn_reply.specs.Texts.{line};
ghost use Rattle.cstn_run.specs.hosted.Read.{the_denial, is_memory};
ghost use Rattle.cstn_run.specs.hosted.SessionRead.{error_text};

use super::errors::HostError;
use cstn_exec::put_refusal;
use cstn_reply::AnswerText;
use std::alloc::AllocError;

/// Puts the id that a line begins with, and a space.
pub(crate) fn put_id(text: &mut AnswerText, id: u32)
    requires room { HasRoom text.old 41 }
    ensures items { text.new ≡ text.old ++ (decimal id ++ 32 ∷ []) }
    ensures length { length text.new ≤ length text.old + 41 }
{
    text.put_decimal(id);
    text.put(b" ");
}

/// Puts why a host line is refused. Fails where there was want of memory.
pub(crate) fn put_error(text: &mut AnswerText, id: u32, error: HostError) -> Result<(), AllocError>
    requires empty { text.old ≡ [] }
    ensures items { OnOk result (text.new ≡ error_text id (the_denial error)) }
    ensures wanted { OnOk result (is_memory error ≡ false) }
    ensures memory { OnErr result (is_memory error ≡ true) }
{
    match error {
        HostError::IdInUse { id } => {
            text.put_number(b"refused H1 ", id);
            Ok(())
        }
        HostError::NoSuchPlan { id } => {
            text.put_number(b"refused H2 ", id);
            Ok(())
        }
        HostError::IdRange { id } => {
            text.put_number(b"refused H3 ", id);
            Ok(())
        }
        HostError::NoFile { file } => {
            text.put_number(b"refused H4 ", file);
            Ok(())
        }
        HostError::Exec(error) => {
            put_id(text, id);
            put_refusal(text, error);
            Ok(())
        }
        HostError::Memory(error) => Err(error),
    }
}

/// Puts the least open id of which not all is executed, and the moment that is due there.
pub(crate) fn put_unfinished(text: &mut AnswerText, id: u32, t: u32)
    requires empty { text.old ≡ [] }
    ensures { text.new ≡ line (codes "unfinished " ++ decimal id ++ 32 ∷ decimal t) }
{
    text.put(b"unfinished ");
    put_id(text, id);
    text.put_number(b"", t);
}
