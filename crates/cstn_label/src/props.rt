ghost use Rattle.std.specs.Prelude.{ℕ, ◌≡◌, ◌<◌, ◌↔◌, IsSome, IfSome};
ghost use Rattle.std.specs.Option.{option_map};
ghost use Rattle.cstn_label.specs.Letters.{letter_of, prop_of};

/// A proposition, by its number: 0 to 25 are the letters `A` to `Z`, 26 to 51 are `a` to `z`.
#[derive(Clone, Copy, Debug, PartialEq, Eq, PartialOrd, Ord, Hash)]
pub struct Prop {
    pub index: u8,
    pub ghost in_range: { index < 52 },
}

impl Prop {
    /// How many propositions there are.
    pub const COUNT: u8 = 52;

    /// The proposition of a number; none at 52 and above.
    pub fn new(index: u8) -> Option<Prop>
        ensures some { IsSome result ↔ (index < 52) }
        ensures index { IfSome result (λ p. p.index ≡ index) }
    {
        if index < Prop::COUNT {
            Some(Prop { index })
        } else {
            None
        }
    }

    /// The proposition of an ASCII letter; none of any other byte.
    pub fn from_letter(letter: u8) -> Option<Prop>
        ensures prop { option_map (λ p. p.index) result ≡ prop_of letter }
    {
        match letter {
            b'A'..=b'Z' => Some(Prop {
                index: letter - b'A',
            }),
            b'a'..=b'z' => Some(Prop {
                index: letter - b'a' + 26,
            }),
            _ => None,
        }
    }

    /// The proposition's ASCII letter.
    pub fn letter(self) -> u8
        ensures letter { result ≡ letter_of self.index }
    {
        if self.index <= 25 {
            b'A' + self.index
        } else {
            b'a' + (self.index - 26)
        }
    }
}
