//! Deadlines as texts.

ghost use Rattle.std.specs.Prelude.{◌≡◌};
ghost use Rattle.cstn_element.specs.NumberTexts.{deadline_of};

use crate::number_texts::short_number;

/// The deadline in ticks that 1 to 10 digits write, up to 4,294,967,295. A network takes at most 1,000,000. None for any other
/// text.
pub fn deadline_of(bytes: &[u8]) -> Option<u32>
    ensures { result ≡ deadline_of bytes.now }
{
    let ticks = short_number(4294967296, bytes)?;
    Some(ticks as u32)
}
