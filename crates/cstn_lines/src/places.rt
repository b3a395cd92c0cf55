// Where a byte stands.
ghost use Rattle.std.specs.Prelude.{◌≡◌, ◌==◌, position};

/// The first place at which the byte stands; none where it stands nowhere.
pub(crate) fn first_place(bytes: &[u8], byte: u8) -> Option<usize>
    ensures { result ≡ position (λ b. b == byte) bytes.now }
{
    bytes.iter().position(|b| *b == byte)
}
