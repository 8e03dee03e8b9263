// Hex digits: the value of every byte in one table (docs/FORMAT.md, "Hex").
#![tactic(auto)]

ghost use Rattle.std.specs.Prelude.{◌≡◌};
ghost use Rattle.hex_digits.specs.Hex.{hex_value, is_hex};

// The value of a byte that is no hex digit.
const X: u8 = 255;

// The value of every byte as a hex digit of either case, sixteen bytes to a line.
const DIGITS: [u8; 256] = [
    X, X, X, X, X, X, X, X, X, X, X, X, X, X, X, X, // 0 to 15
    X, X, X, X, X, X, X, X, X, X, X, X, X, X, X, X, // 16 to 31
    X, X, X, X, X, X, X, X, X, X, X, X, X, X, X, X, // 32 to 47
    0, 1, 2, 3, 4, 5, 6, 7, 8, 9, X, X, X, X, X, X, // 48 to 63: 0 to 9
    X, 10, 11, 12, 13, 14, 15, X, X, X, X, X, X, X, X, X, // 64 to 79: A to F
    X, X, X, X, X, X, X, X, X, X, X, X, X, X, X, X, // 80 to 95
    X, 10, 11, 12, 13, 14, 15, X, X, X, X, X, X, X, X, X, // 96 to 111: a to f
    X, X, X, X, X, X, X, X, X, X, X, X, X, X, X, X, // 112 to 127
    X, X, X, X, X, X, X, X, X, X, X, X, X, X, X, X, // 128 to 143
    X, X, X, X, X, X, X, X, X, X, X, X, X, X, X, X, // 144 to 159
    X, X, X, X, X, X, X, X, X, X, X, X, X, X, X, X, // 160 to 175
    X, X, X, X, X, X, X, X, X, X, X, X, X, X, X, X, // 176 to 191
    X, X, X, X, X, X, X, X, X, X, X, X, X, X, X, X, // 192 to 207
    X, X, X, X, X, X, X, X, X, X, X, X, X, X, X, X, // 208 to 223
    X, X, X, X, X, X, X, X, X, X, X, X, X, X, X, X, // 224 to 239
    X, X, X, X, X, X, X, X, X, X, X, X, X, X, X, X, // 240 to 255
];

// The value of a hex digit of either case, 255 for another byte.
pub fn hex_digit(b: u8) -> u8
    ensures { result ≡ hex_value b }
{
    DIGITS[b as usize]
}

// Whether each byte is a hex digit. The walk has no way out: it gathers the bits of all values, and what they make is below 16 where each value is.
pub fn is_hex(t: &[u8]) -> bool
    ensures { result ≡ is_hex t.now }
{
    let mut seen: u8 = 0;
    for b in t {
        seen |= DIGITS[*b as usize];
    }
    seen < 16
}
