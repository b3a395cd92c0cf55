//! The number that digits write.

ghost use Rattle.std.specs.Prelude.{◌≡◌, ◌≤◌, ◌<◌, ◌^◌, length, IfSome};
ghost use Rattle.cstn_markup.specs.Bytes.{number_after};

/// The number that up to ten digits write; no digits at all write 0. None where a byte is no digit of the radix.
#[tactic(auto, unfolding(crate::specs::Bytes::number_after))]
pub fn number(radix: u32, digits: &[u8]) -> Option<u64>
    requires small { radix ≤ 16 }
    requires two { 2 ≤ radix }
    requires few { length digits.now ≤ 10 }
    ensures value { result ≡ number_after radix 0 digits.now }
    ensures below { IfSome result (λ n. n < radix ^ length digits.now) }
{
    let mut n: u64 = 0;
    let mut rest = digits;
    while let Some((d, next)) = rest.split_first() {
        let value = (*d as char).to_digit(radix)?;
        n = n * radix as u64 + value as u64;
        rest = next;
    }
    Some(n)
}
