// A number from its pattern of bits, and back; the bytes of a pattern, and its digits.
#![tactic(auto)]

ghost use Rattle.std.specs.Prelude.{◌≡◌};
ghost use Rattle.patterns.specs.Digits.{digit_value};
ghost use Rattle.patterns.specs.Patterns.{bits_of, float_of, bytes_of, of_bytes};

// The language makes one NaN, so every NaN's pattern gives that one.
pub fn float(bits: u32) -> f32
    ensures { result ≡ float_of bits }
{
    if bits % 0x8000_0000 > 0x7f80_0000 {
        return 0.0 / 0.0;
    }
    f32::from_bits(bits)
}

// A NaN's pattern may be any, so it is not asked for: every NaN's is 7fc00000, as records and files have it.
pub fn pattern(x: f32) -> u32
    ensures { result ≡ bits_of x }
{
    if x == x {
        return f32::to_bits(x);
    }
    0x7fc0_0000
}

// The bytes of a pattern, the lowest first.
pub fn bytes_of(bits: u32) -> [u8; 4]
    ensures { result ≡ bytes_of bits }
{
    [
        (bits % 256) as u8,
        (bits / 256 % 256) as u8,
        (bits / 65536 % 256) as u8,
        (bits / 16777216 % 256) as u8,
    ]
}

// The pattern of four bytes, the lowest first.
pub fn of_bytes(a: u8, b: u8, c: u8, d: u8) -> u32
    ensures { result ≡ of_bytes a b c d }
{
    (a as u32) + 256 * (b as u32) + 65536 * (c as u32) + 16777216 * (d as u32)
}

// The value of a digit, or 16 where the byte is none of 0 to 9 and a to f.
pub fn digit_value(byte: u8) -> u8
    ensures { result ≡ digit_value byte }
{
    if byte < b'0' {
        return 16;
    }
    if byte <= b'9' {
        return byte - b'0';
    }
    if byte < b'a' {
        return 16;
    }
    if byte <= b'f' {
        return byte - 87;
    }
    16
}
