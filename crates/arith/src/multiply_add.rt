// The fused multiply-add of three finite numbers: product and addend in units of 2 ^ -426, the one
// with the lower exponent jammed to the other's, added, and rounded once.
ghost use Rattle.std.specs.Prelude.{◌≡◌, ◌+◌, ◌-◌, ◌*◌, ◌^◌, ◌<◌, ◌≤◌, min, max, true, false, T};
ghost use Rattle.std.specs.Float.{binary32};
ghost use Rattle.std.specs.Float.Ieee.{round, sum};
ghost use Rattle.std.specs.Float.Ieee.Scale.{finite};
ghost use Rattle.arith.specs.Digit.{jam};
ghost use Rattle.arith.specs.Pattern.{worth};
ghost use Rattle.arith.specs.Fused.{fma};
ghost use Rattle.arith.specs.Parts.{Ready, Summed, shift_of, exp_unless_zero, sum_sign, sum_size};

use crate::pattern::Scaled;

// sig * 2 ^ exp with a sign
#[derive(Clone, Copy)]
struct Signed {
    neg: bool,
    sig: u64,
    exp: u32,
}

// The 48-bit product of two significands.
fn product(a: u64, b: u64) -> u64
    requires { (a < 2 ^ 24) × (b < 2 ^ 24) }
    ensures { result ≡ a * b }
{
    a * b
}

fn unless_zero(sig: u64, exp: u32) -> u32
    ensures { result ≡ exp_unless_zero sig exp }
{
    if sig == 0 { 0 } else { exp }
}

// sig * 2 ^ exp as an operand of the sum. A shift by n is enough for the digits of normal numbers,
// and zero takes the least exponent, so that nothing is jammed to it.
fn operand(sig: u64, exp: u32, n: u32) -> Scaled
    requires { (sig < 2 ^ 48) × (sig < 2 ^ (62 - n)) × (14 ≤ n) × (n ≤ 60) × (128 ≤ exp) × (exp ≤ 1000) }
    ensures { Ready result.sig result.exp × (result.sig * 2 ^ result.exp ≡ sig * 2 ^ exp) }
{
    let near = sig << n;
    // one test for above zero and below 2 ^ 60: zero is common, and no branch hangs on it alone
    if std::num::wrapping_sub_u64(near, 1) < 0xfff_ffff_ffff_ffff {
        return crate::pattern::place(sig, exp, 2);
    }
    Scaled {
        sig: near,
        exp: unless_zero(near, exp - n),
    }
}

// The product of two patterns' magnitudes, in units of 2 ^ -426.
fn factors(x: u32, y: u32) -> Scaled
    ensures { Ready result.sig result.exp × (result.sig * 2 ^ result.exp ≡ worth x * worth y * 2 ^ 128) }
{
    let m = crate::pattern::magnitude(x);
    let n = crate::pattern::magnitude(y);
    let p = product(
        crate::pattern::significand(m),
        crate::pattern::significand(n),
    );
    operand(
        p,
        crate::pattern::exponent(m) + crate::pattern::exponent(n) + 128,
        14,
    )
}

// A pattern's magnitude, in units of 2 ^ -426.
fn addend(z: u32) -> Scaled
    ensures { Ready result.sig result.exp × (result.sig * 2 ^ result.exp ≡ worth z * 2 ^ 277) }
{
    let m = crate::pattern::magnitude(z);
    operand(
        crate::pattern::significand(m),
        crate::pattern::exponent(m) + 277,
        38,
    )
}

fn lesser(a: u32, b: u32) -> u32
    ensures { result ≡ min a b }
{
    if a < b { a } else { b }
}

fn greater(a: u32, b: u32) -> u32
    ensures { result ≡ max a b }
{
    if a < b { b } else { a }
}

// x / 2 ^ d with one digit for all that is lost. From 62 on nothing but that digit is left.
fn jammed(x: u64, d: u32) -> u64
    requires { x < 2 ^ 63 }
    ensures { result ≡ jam x d }
{
    let n = lesser(d, 62) + 1;
    let high = x >> n;
    if high << n == x {
        high * 2
    } else {
        high * 2 + 1
    }
}

// The sign of a sum: the larger part's, and of equal parts minus only where both have it.
fn sign_of_sum(s: bool, a: u64, t: bool, b: u64) -> bool
    ensures { result ≡ sum_sign s a t b }
{
    if a < b {
        return t;
    }
    if b < a {
        return s;
    }
    if s { t } else { false }
}

fn apart(a: u64, b: u64) -> u64
    ensures { result ≡ sum_size true a false b }
{
    if a < b { b - a } else { a - b }
}

// The size of a sum: both sides are worked out, so that no branch hangs on the signs.
fn size_of_sum(s: bool, a: u64, t: bool, b: u64) -> u64
    requires { a + b < 2 ^ 63 }
    ensures { result ≡ sum_size s a t b }
{
    let sum = a + b;
    let gap = apart(a, b);
    if s == t { sum } else { gap }
}

// x and y with their signs, each jammed to the greater exponent, added.
fn combine(s: bool, x: Scaled, t: bool, y: Scaled) -> Signed
    requires { Ready x.sig x.exp × Ready y.sig y.exp }
    ensures size { Summed result.sig result.exp }
    ensures value { sum binary32 s (x.sig * 2 ^ x.exp) t (y.sig * 2 ^ y.exp) (2 ^ 426) ≡ round binary32 result.neg (result.sig * 2 ^ result.exp) (2 ^ 426) }
{
    let exp = greater(x.exp, y.exp);
    let a = jammed(x.sig, exp - x.exp);
    let b = jammed(y.sig, exp - y.exp);
    Signed {
        neg: sign_of_sum(s, a, t, b),
        sig: size_of_sum(s, a, t, b),
        exp: exp,
    }
}

// How many of 63 digits are dropped: down to 24, and to the place of the least number.
fn dropped(exp: u32) -> u32
    ensures { result ≡ shift_of 39 277 exp }
{
    if exp < 238 { 277 - exp } else { 39 }
}

// The sum, rounded.
fn finish(r: Signed) -> f32
    requires { Summed r.sig r.exp }
    ensures { result ≡ round binary32 r.neg (r.sig * 2 ^ r.exp) (2 ^ 426) }
{
    if r.sig == 0 {
        return crate::pattern::pack(r.neg, 0, 0);
    }
    let p = crate::pattern::place(r.sig, r.exp, 1);
    let sh = dropped(p.exp);
    let q = crate::pattern::nearest(p.sig, sh);
    crate::pattern::pack(r.neg, p.exp + sh - 277, q)
}

// a * b + c of three finite numbers.
fn exact(a: f32, b: f32, c: f32) -> f32
    requires { T (finite a) × T (finite b) × T (finite c) }
    ensures { result ≡ fma a b c }
{
    let x = f32::to_bits(a);
    let y = f32::to_bits(b);
    let z = f32::to_bits(c);
    let s = crate::pattern::negative(x) != crate::pattern::negative(y);
    finish(combine(s, factors(x, y), crate::pattern::negative(z), addend(z)))
}

// a * b + c of any three numbers.
pub(crate) fn by_digits(a: f32, b: f32, c: f32) -> f32
    ensures { result ≡ fma a b c }
{
    if crate::pattern::is_finite(a) && crate::pattern::is_finite(b) {
        if crate::pattern::is_finite(c) {
            return exact(a, b, c);
        }
        return c;
    }
    // nothing is rounded here
    a * b + c
}
