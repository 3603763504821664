//! Reads the node's own number from an argument.

ghost use Rattle.std.specs.Prelude.{◌≡◌, ◌≢◌, ◌<◌, ◌^◌, ◌+◌, ◌*◌, ◌-◌, [], All, IfSome, IsNone};
ghost use Rattle.node_io.specs.Numbers.{IsDigit, number_of};

use wire::Author;

/// The member with the number that these decimal digits give. None if the text is empty or has anything but digits, or if the number
/// doesn't fit two bytes.
#[tactic(auto, using(crate::proofs::Digits::number_grows))]
pub fn own_of(text: &str) -> Option<Author>
    ensures digits { IfSome result (λ own. All IsDigit text.now × (text.now ≢ [])) }
    ensures value { IfSome result (λ own. own.0 ≡ number_of 0 text.now) }
    ensures none { IsNone result → All IsDigit text.now → text.now ≢ [] → number_of 0 text.now < 2 ^ 16 → ⊥ }
{
    let mut rest = text.as_bytes();
    if rest.is_empty() {
        return None;
    }
    let mut number: u16 = 0;
    while let Some((digit, after)) = rest.split_first() {
        number = with_digit(number, *digit)?;
        rest = after;
    }
    Some(Author(number))
}

// The number that has one more digit at its end. None if it doesn't fit two bytes.
fn with_digit(number: u16, digit: u8) -> Option<u16>
    ensures some { IfSome result (λ longer. IsDigit digit × (longer ≡ number * 10 + (digit - 48))) }
    ensures none { IsNone result → IsDigit digit → number * 10 + (digit - 48) < 2 ^ 16 → ⊥ }
{
    if !digit.is_ascii_digit() {
        return None;
    }
    let longer = number as u32 * 10 + (digit - b'0') as u32;
    if longer > u16::MAX as u32 {
        return None;
    }
    Some(longer as u16)
}
