//! Reactions as texts.

ghost use Rattle.std.specs.Prelude.{◌≡◌};
ghost use Rattle.cstn_element.specs.NumberTexts.{reaction_in};

use crate::number_texts::short_number;
use cstn_net::MAX_REACTION;

/// The reaction in ticks that 1 to 4 digits write, from 1 to 1,000. An empty text is one tick. None for any other text.
pub fn reaction_in(bytes: &[u8]) -> Option<u32>
    ensures { result ≡ reaction_in bytes.now }
{
    if bytes.is_empty() {
        return Some(1);
    }
    if bytes.len() > 4 {
        return None;
    }
    let ticks = short_number(MAX_REACTION as u64 + 1, bytes)?;
    if ticks == 0 {
        return None;
    }
    Some(ticks as u32)
}
