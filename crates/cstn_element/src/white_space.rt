//! White space at the ends of a text.

ghost use Rattle.std.specs.Prelude.{◌≡◌, ◌≤◌, length};
ghost use Rattle.std.specs.List.{suffix_len, list_all};
ghost use Rattle.cstn_markup.specs.Bytes.{is_white};
ghost use Rattle.cstn_element.specs.WhiteSpace.{trimmed};

use cstn_markup::{is_white, past_white};

/// Whether a text is white space only.
pub fn is_blank(bytes: &[u8]) -> bool
    ensures { result ≡ list_all is_white bytes.now }
{
    bytes.iter().all(|b| is_white(*b))
}

/// How many bytes of white space stand at the end.
fn white_end(bytes: &[u8]) -> usize
    ensures value { result ≡ suffix_len is_white bytes.now }
    ensures within { result ≤ length bytes.now }
{
    bytes.iter().rev().take_while(|b| is_white(**b)).count()
}

/// The text without the white space at both ends.
pub fn trimmed(bytes: &[u8]) -> &[u8]
    ensures { result.now ≡ trimmed bytes.now }
{
    let front = past_white(bytes);
    &front[..front.len() - white_end(front)]
}
