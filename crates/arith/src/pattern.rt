// One view of an `f32`: its bit pattern as a sign, a significand and an exponent, and back.
// A magnitude is significand * 2 ^ exponent units of 2 ^ -149, the least `f32` above zero.
ghost use Rattle.std.specs.Prelude.{◌≡◌, ◌+◌, ◌-◌, ◌*◌, ◌%◌, ◌^◌, ◌<◌, ◌≤◌, min, if◌then◌else◌, from_bits, nat_le};
ghost use Rattle.std.specs.Float.{binary32};
ghost use Rattle.std.specs.Float.Ieee.Nearest.{closest};
ghost use Rattle.std.specs.Float.Ieee.Scale.{finite};
ghost use Rattle.arith.specs.Pattern.{sig_of, exp_of, packed};
ghost use Rattle.arith.specs.Parts.{Placed};

// sig * 2 ^ exp
#[derive(Clone, Copy)]
pub(crate) struct Scaled {
    pub(crate) sig: u64,
    pub(crate) exp: u32,
}

pub(crate) fn is_finite(x: f32) -> bool
    ensures { result ≡ finite x }
{
    let infinity = f32::from_bits(0x7f80_0000);
    if x < infinity { -infinity < x } else { false }
}

pub(crate) fn wide(x: u32) -> u64
    ensures { result ≡ x }
{
    x as u64
}

pub(crate) fn magnitude(bits: u32) -> u32
    ensures { result ≡ bits % 2 ^ 31 }
{
    bits % 0x8000_0000
}

pub(crate) fn negative(bits: u32) -> bool
    ensures { result ≡ nat_le (2 ^ 31) bits }
{
    0x8000_0000 <= bits
}

pub(crate) fn significand(mag: u32) -> u64
    requires { mag < 2 ^ 31 }
    ensures { result ≡ sig_of mag }
{
    let field = mag / 0x80_0000;
    let digits = mag % 0x80_0000;
    if field == 0 {
        wide(digits)
    } else {
        wide(digits) + 0x80_0000
    }
}

pub(crate) fn exponent(mag: u32) -> u32
    ensures { result ≡ exp_of mag }
{
    let field = mag / 0x80_0000;
    if field == 0 { 0 } else { field - 1 }
}

// The same number with its leading digit moved up to that of 2 ^ (63 - zeros).
pub(crate) fn place(sig: u64, exp: u32, zeros: u32) -> Scaled
    requires { (0 < sig) × (sig < 2 ^ (64 - zeros)) × (zeros ≤ 63) × (63 ≤ exp + zeros) × (exp ≤ 1000) }
    ensures { Placed sig exp zeros result.sig result.exp }
{
    let n = u64::leading_zeros(sig) - zeros;
    Scaled {
        sig: sig << n,
        exp: exp - n,
    }
}

// x / 2 ^ sh to the nearest whole number, a tie to the even one: half of 2 ^ sh is added, less one
// where the quotient is even.
pub(crate) fn nearest(x: u64, sh: u32) -> u64
    requires { (x < 2 ^ 63) × (0 < sh) }
    ensures { result ≡ closest x (2 ^ sh) }
{
    if sh > 63 {
        return 0;
    }
    let half = 1u64 << (sh - 1);
    let odd = (x >> sh) % 2;
    (x + half - 1 + odd) >> sh
}

fn cap(m: u64) -> u32
    ensures { result ≡ min m (255 * 2 ^ 23) }
{
    if m < 0x7f80_0000 {
        m as u32
    } else {
        0x7f80_0000
    }
}

pub(crate) fn with_sign(neg: bool, m: u32) -> u32
    requires { m < 2 ^ 31 }
    ensures { result ≡ (if neg then 2 ^ 31 else 0) + m }
{
    if neg { 0x8000_0000 + m } else { m }
}

// The value of q * 2 ^ k units with its sign, where q has its leading digit or k is 0: a carry out of
// the significand runs into the exponent.
pub(crate) fn pack(neg: bool, k: u32, q: u64) -> f32
    requires { q ≤ 2 ^ 24 }
    ensures { result ≡ from_bits binary32 (packed neg k q) }
{
    let m = cap(wide(k) * 0x80_0000 + q);
    f32::from_bits(with_sign(neg, m))
}
