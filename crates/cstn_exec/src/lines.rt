// Lines of a run.
ghost use Rattle.std.specs.Prelude.{◌≡◌, ◌≤◌, ◌<◌, ◌+◌, ◌*◌, ◌++◌, ◌∷◌, map, string_bytes, length, IfOk};
ghost use Rattle.std.specs.List.{All};
ghost use Rattle.cstn_net.specs.Limits.{most_time_points};
ghost use Rattle.cstn_exec.specs.Read.{the_event_refusal};
ghost use Rattle.cstn_text.specs.PrintedNames.{printed_name};
ghost use Rattle.cstn_reply.specs.Room.{HasRoom};
ghost use Rattle.cstn_reply.specs.Texts.{line};
ghost use Rattle.cstn_exec.specs.Running.{the_nodes, moment_line, spaced, refused_text};

use crate::ExecError;
use cstn_label::NodeId;
use cstn_reply::AnswerText;
use cstn_text::{Names, print_name, printed_names_are_short};
use std::alloc::{AllocError, Global};

/// Puts why a moment or an outcome is refused.
pub fn put_refusal(text: &mut AnswerText, error: ExecError)
    requires room { HasRoom text.old 60 }
    ensures { text.new ≡ text.old ++ line (refused_text (the_event_refusal error)) }
{
    match error {
        ExecError::Past { now } => text.put_number(b"refused E1 ", now),
        ExecError::Late { due } => text.put_number(b"refused E2 ", due),
        ExecError::Awaiting { prop } => text.put_prop(b"refused E3 ", prop),
        ExecError::NotExecuted { prop } => text.put_prop(b"refused E4 ", prop),
        ExecError::Known { prop, value } => text.put_outcome(b"refused E5 ", prop, value),
        ExecError::Done => text.put_word(b"refused E6"),
    }
}

/// Puts the line of a moment, with the names of time-points.
pub fn put_moment(text: &mut AnswerText, t: u32, named: &[NodeId], names: &[String])
    requires inside { All (λ x. x.0 < length names.now) named.now }
    requires short { All (λ name. length name ≤ 192) (map string_bytes names.now) }
    requires room { HasRoom text.old (193 * length named.now + 60) }
    ensures items { text.new ≡ text.old ++ moment_line (map string_bytes names.now) t (the_nodes named.now) }
    ensures short { length text.new ≤ length text.old + (193 * length named.now + 60) }
{
    text.put(b"at ");
    text.put_decimal(t);
    put_names(text, named, names);
    text.put(b"\n");
}

// Puts the names of time-points, each after a space.
fn put_names(text: &mut AnswerText, named: &[NodeId], names: &[String])
    requires inside { All (λ x. x.0 < length names.now) named.now }
    requires short { All (λ name. length name ≤ 192) (map string_bytes names.now) }
    requires room { HasRoom text.old (193 * length named.now) }
    ensures items { text.new ≡ text.old ++ spaced (map string_bytes names.now) (the_nodes named.now) }
    ensures length { length text.new ≤ length text.old + 193 * length named.now }
{
    for x in named {
        put_name(text, names[x.index()].as_str());
    }
}

// Puts a name after a space.
fn put_name(text: &mut AnswerText, name: &str)
    requires room { HasRoom text.old (length name.now + 1) }
    ensures { text.new ≡ text.old ++ 32 ∷ name.now }
{
    text.put(b" ");
    text.put(name.as_bytes());
}

/// The printed names of all time-points, each of at most 192 bytes. Fails for want of memory alone.
pub fn print_names(alloc: Global, names: &Names) -> Result<Vec<String>, AllocError>
    requires few { length names.now ≤ most_time_points }
    ensures printed { IfOk result (λ printed. map string_bytes printed.items ≡ map printed_name names.now) }
    ensures short { IfOk result (λ printed. All (λ name. length name ≤ 192) (map string_bytes printed.items)) }
{
    printed_names_are_short();
    let mut printed = Vec::new(alloc);
    for x in 0..names.count() as u16 {
        printed.push(print_name(alloc, names.name(NodeId(x)))?)?;
    }
    Ok(printed)
}
