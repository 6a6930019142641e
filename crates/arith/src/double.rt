// The fused multiply-add by way of `f64`, where the product is exact and the sum is rounded to 53
// digits. A number that lies between two ties of `f32` is not rounded past either of them there, so
// that the `f32` nearest to the rounded sum is the one nearest to the exact sum.
ghost use Rattle.std.specs.Prelude.{◌≡◌, ◌+◌, ◌-◌, ◌*◌, ◌%◌, ◌^◌, ◌<◌, ◌≤◌, true, not, T, ◌⊎◌, from_bits, is_nan, to_bits};
ghost use Rattle.std.specs.Float.{binary32};
ghost use Rattle.arith.specs.Pattern.{exp_of};
ghost use Rattle.arith.specs.Parts.{Narrows, Exact, narrow};

pub(crate) fn no_nan(a: f32, b: f32, c: f32) -> bool
    ensures { result ≡ true → T (not (is_nan a)) × T (not (is_nan b)) × T (not (is_nan c)) }
{
    if a != a {
        return false;
    }
    if b != b {
        return false;
    }
    c == c
}

// Whether the pattern is of a size well inside the normal numbers of `f32`, and no tie.
pub(crate) fn narrows(bits: u64) -> bool
    ensures { result ≡ true → Narrows bits }
{
    // one test for both ends: a size below the least wraps to a large one
    let above = std::num::wrapping_sub_u64(bits % 0x8000_0000_0000_0000, 0x3820_0000_0000_0000);
    if above < 0x0fc0_0000_0000_0000 {
        return bits % 0x2000_0000 != 0x1000_0000;
    }
    false
}

// The `f32` nearest to the number of such a pattern: 29 digits fewer, and the exponent's field 896
// less.
pub(crate) fn narrowed(bits: u64) -> f32
    requires { Narrows bits }
    ensures { result ≡ from_bits binary32 (narrow bits) }
{
    let near = (bits % 0x8000_0000_0000_0000 + 0x1000_0000) / 0x2000_0000;
    let size = (near - 0x1_c000_0000) as u32;
    f32::from_bits(crate::pattern::with_sign(0x8000_0000_0000_0000 <= bits, size))
}

// Whether the sum lost nothing: it is zero, or no digit of the product or of the addend can stand
// below its last place. A tie is most often such a sum.
pub(crate) fn is_exact(a: f32, b: f32, c: f32, bits: u64) -> bool
    requires { T (not (is_nan a)) × T (not (is_nan b)) × T (not (is_nan c)) }
    ensures { result ≡ true → (bits % 2 ^ 63 ≡ 0) ⊎ Exact (to_bits binary32 a) (to_bits binary32 b) (to_bits binary32 c) bits }
{
    let size = bits % 0x8000_0000_0000_0000;
    if size == 0 {
        return true;
    }
    if size < 0x3820_0000_0000_0000 {
        return false;
    }
    if size >= 0x47e0_0000_0000_0000 {
        return false;
    }
    let place = size / 0x10_0000_0000_0000;
    if crate::pattern::wide(last_of_product(f32::to_bits(a), f32::to_bits(b))) < place {
        return false;
    }
    place <= crate::pattern::wide(last_of_addend(f32::to_bits(c)))
}

// The exponent's field of the `f64` whose last place is that of the product of two patterns.
fn last_of_product(x: u32, y: u32) -> u32
    ensures { result ≡ exp_of (x % 2 ^ 31) + exp_of (y % 2 ^ 31) + 777 }
{
    let m = crate::pattern::exponent(crate::pattern::magnitude(x));
    let n = crate::pattern::exponent(crate::pattern::magnitude(y));
    m + n + 777
}

// And that of a pattern: zero has no last place, and takes the greatest.
fn last_of_addend(z: u32) -> u32
    ensures { (z % 2 ^ 31 ≡ 0) ⊎ (result ≡ exp_of (z % 2 ^ 31) + 926) }
{
    let m = crate::pattern::magnitude(z);
    if m == 0 {
        return 2047;
    }
    crate::pattern::exponent(m) + 926
}

// 896 less, and nothing less than zero.
fn lowered(near: u64) -> u32
    requires { near ≤ 1150 * 2 ^ 23 }
    ensures { result ≡ near - 896 * 2 ^ 23 }
{
    if near < 0x1_c000_0000 {
        return 0;
    }
    (near - 0x1_c000_0000) as u32
}

// The `f32` nearest to a zero, or to the number of a pattern of such a size, a tie to the even one.
pub(crate) fn rounded(bits: u64) -> f32
    requires { bits % 2 ^ 63 < 1150 * 2 ^ 52 }
    ensures { result ≡ from_bits binary32 (narrow bits) }
{
    let near = crate::pattern::nearest(bits % 0x8000_0000_0000_0000, 29);
    f32::from_bits(crate::pattern::with_sign(0x8000_0000_0000_0000 <= bits, lowered(near)))
}
