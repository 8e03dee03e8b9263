// Hex digits as they are written: a digit in lower case, and the digit of a number (docs/FORMAT.md, "Hex").
#![tactic(auto)]

ghost use Rattle.std.specs.Prelude.{◌≡◌, ◌%◌};
ghost use Rattle.hex_digits.specs.Hex.{lower_digit, digit_of};

// A hex digit in lower case.
#[tactic(auto, unfolding(hex_digits::specs::Hex::lower_digit))]
pub fn lower(b: u8) -> u8
    ensures { result ≡ lower_digit b }
{
    match b {
        b'A'..=b'F' => b + 32,
        _ => b,
    }
}

// The hex digit, in lower case, of the four lowest bits.
#[tactic(auto, unfolding(hex_digits::specs::Hex::digit_of))]
pub fn digit_of(b: u8) -> u8
    ensures { result ≡ digit_of (b % 16) }
{
    b"0123456789abcdef"[(b % 16) as usize]
}
