//! Texts cut at a byte.

ghost use Rattle.std.specs.Prelude.{◌≡◌, ◌<◌, ◌==◌, ◌∷◌, [], IfSome, IfNone, length, position};
ghost use Rattle.std.specs.Option.{option_map};
ghost use Rattle.cstn_text.specs.Cuts.{cut_at};
ghost use Rattle.cstn_text.specs.Parts.{parts_at};

/// The first place of the byte; none where it doesn't occur.
pub fn first_place(bytes: &[u8], byte: u8) -> Option<usize>
    ensures place { result ≡ position (λ b. b == byte) bytes.now }
    ensures inside { IfSome result (λ i. i < length bytes.now) }
{
    bytes.iter().position(|b| *b == byte)
}

/// What stands before the first such byte, and what stands after it; none where there is no such byte.
#[tactic(auto, using(crate::proofs::SplitLemmas::parts_open))]
pub fn cut_at(bytes: &[u8], byte: u8) -> Option<(&[u8], &[u8])>
    ensures cut { option_map (λ parts. (parts.0.now, parts.1.now)) result ≡ cut_at byte bytes.now }
    ensures parts { IfSome result (λ it. parts_at byte bytes.now ≡ (it.0.now ∷ (parts_at byte it.1.now).0, (parts_at byte it.1.now).1)) }
    ensures whole { IfNone result (parts_at byte bytes.now ≡ ([], bytes.now)) }
    ensures shorter { IfSome result (λ it. length it.1.now < length bytes.now) }
{
    let Some(i) = first_place(bytes, byte) else {
        return None;
    };
    Some((&bytes[..i], &bytes[i + 1..]))
}
