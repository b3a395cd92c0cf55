// Host lines.
ghost use Rattle.std.specs.Prelude.{◌≡◌};
ghost use Rattle.std.specs.Option.{option_map};
ghost use Rattle.cstn_lines.specs.HostLines.{the_hosted, opened_read, put_on_read, host_read};

use crate::edits::read_id;
use crate::live::{LiveLine, cut_at_space, read_live};

/// What a host line says: that an id is opened over a file, a live line for an id, or that an id is closed.
#[derive(Clone, Copy, Debug, PartialEq, Eq)]
pub enum HostLine {
    /// `open ID K`, two numbers of at most 4,294,967,295: the id, and the file's place, from 0.
    Open { id: u32, file: u32 },
    /// `on ID LIVE`, an id of at most 4,294,967,295 and a live line.
    On { id: u32, line: LiveLine },
    /// `close ID`, an id of at most 4,294,967,295.
    Close { id: u32 },
}

/// The host line that these bytes are, without its LF: exactly a form of `HostLine`, with one space between the
/// parts and no other. None where they are no host line.
pub fn read_host(bytes: &[u8]) -> Option<HostLine>
    ensures read { option_map the_hosted result ≡ host_read bytes.now }
{
    let (word, operands) = cut_at_space(bytes)?;
    if word == b"open".as_slice() {
        return read_open(operands);
    }
    if word == b"on".as_slice() {
        return read_on(operands);
    }
    if word == b"close".as_slice() {
        let id = read_id(operands)?;
        return Some(HostLine::Close { id });
    }
    None
}

fn read_open(bytes: &[u8]) -> Option<HostLine>
    ensures { option_map the_hosted result ≡ opened_read bytes.now }
{
    let (id, file) = cut_at_space(bytes)?;
    let id = read_id(id)?;
    let file = read_id(file)?;
    Some(HostLine::Open { id, file })
}

fn read_on(bytes: &[u8]) -> Option<HostLine>
    ensures { option_map the_hosted result ≡ put_on_read bytes.now }
{
    let (id, line) = cut_at_space(bytes)?;
    let id = read_id(id)?;
    let line = read_live(line)?;
    Some(HostLine::On { id, line })
}
