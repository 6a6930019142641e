// The square root of a number above zero: the whole number nearest to the root of a significand.
ghost use Rattle.std.specs.Prelude.{◌≡◌, ◌+◌, ◌-◌, ◌*◌, ◌%◌, ◌^◌, ◌<◌, ◌≤◌};
ghost use Rattle.arith.specs.Root.{root_of};
ghost use Rattle.arith.specs.Pattern.{sig_of, exp_of};
ghost use Rattle.arith.specs.Parts.{WholeRoot, NearestRoot, Digits};

use crate::pattern::Scaled;

// Two octaves in sixteenths, and on each a cubic that falls back from its end: here 2 ^ 7 times the
// root at the end, with a half, and the slope, 32 bits each. A `match` is read from one place in
// memory, where an array would be written to the frame at each call.
fn end_and_slope(at: u64) -> u64 {
    match at {
        0 => 0x41f83ddf_7c2dc448,
        1 => 0x43e1db77_78ae141b,
        2 => 0x45be0d15_7576123e,
        3 => 0x478ddeb1_727caabd,
        4 => 0x49523b26_6fba51de,
        5 => 0x4b0bf1a7_6d28b2ec,
        6 => 0x4cbbba17_6ac272aa,
        7 => 0x4e623891_68830002,
        8 => 0x50000041_66666f45,
        9 => 0x519595bd_64695d3d,
        10 => 0x532370fa_6288d832,
        11 => 0x54a9fee8_60c24d89,
        12 => 0x5629a2d3_5f137ad5,
        13 => 0x57a2b789_5d7a61bf,
        14 => 0x59159056_5bf53e07,
        15 => 0x5a8279da_5a827d4b,
        16 => 0x5d4b947d_af9d84ed,
        17 => 0x60000045_aaaad32a,
        18 => 0x62a170d8_a61d80aa,
        19 => 0x6531612f_a1e8b6dc,
        20 => 0x67b11d6c_9e01c9df,
        21 => 0x6a21ca92_9a5fc5af,
        22 => 0x6c846cb4_96fb1710,
        23 => 0x6ed9ebe3_93cd48ae,
        24 => 0x71231842_90d0cf1c,
        25 => 0x7360ad53_8e00dfeb,
        26 => 0x759354b9_8b595136,
        27 => 0x77bba887_88d67f8e,
        28 => 0x79da3527_867538f3,
        29 => 0x7bef7b06_8432aba7,
        30 => 0x7dfbefef_820c5818,
        _ => 0x80000041_80000539,
    }
}

// The bend of each cubic and the bend's own change, 32 bits each.
fn bends(at: u64) -> u64 {
    match at {
        0 => 0x01d2d01f_7691e763,
        1 => 0x01ac86fb_66588526,
        2 => 0x018b3316_591149e0,
        3 => 0x016df9d5_4e14df7b,
        4 => 0x01542eb5_44e72d03,
        5 => 0x013d47f8_3d2abab9,
        6 => 0x0128d671_36982576,
        7 => 0x01167f87_30f835c7,
        8 => 0x0105f8b9_2c1fb7b4,
        9 => 0x00f70444_27ec8226,
        10 => 0x00e96e92_24434f5f,
        11 => 0x00dd0c42_210e27ac,
        12 => 0x00d1b899_1e3b33eb,
        13 => 0x00c75453_1bbbdab7,
        14 => 0x00bdc4a8_198413f6,
        15 => 0x00b4f28e_1789e47e,
        16 => 0x02942c59_a7aee70a,
        17 => 0x025e0771_90bd2181,
        18 => 0x022ee586_7df5e43b,
        19 => 0x0205916f_6e6c8906,
        20 => 0x01e11734_61718fca,
        21 => 0x01c0b40a_5680c997,
        22 => 0x01a3cab7_4d354175,
        23 => 0x0189db1a_4540e0d8,
        24 => 0x01727bd6_3e668e98,
        25 => 0x015d5595_3875fb49,
        26 => 0x014a1f62_3348953d,
        27 => 0x01389be1_2ebf4b59,
        28 => 0x01289725_2ac0e2b5,
        29 => 0x0119e4f2_2738b5d7,
        30 => 0x010c5f6c_2415c0d5,
        _ => 0x00ffe5fc_2149e622,
    }
}

// A guess at the whole number nearest to the root of m * 2 ^ (23 + odd), right for all but one m in a
// hundred. What the two tables hold sets the speed alone: the guess is tested.
fn guess(m: u64, odd: u64) -> u64
    requires { odd < 2 }
    ensures { result ≤ 2 ^ 25 }
{
    let at = odd * 16 + m / 0x8_0000 % 16;
    let first = end_and_slope(at);
    let second = bends(at);
    let back = 0x8_0000 - m % 0x8_0000;
    let change = back * (second % 0x1_0000_0000) / 0x4000_0000;
    let bend = back * (second / 0x1_0000_0000 + change) / 0x8_0000;
    let fall = back * (first % 0x1_0000_0000 + bend) / 0x200_0000;
    std::num::wrapping_sub_u64(first / 0x1_0000_0000, fall) % 0x1_0000_0000 / 0x80
}

// Down from r until its square is no more than a.
fn lowered(a: u64, r: u64) -> u64
    requires { r ≤ 2 ^ 25 }
    ensures { (result * result ≤ a) × (result ≤ 2 ^ 25) }
{
    let mut q = r;
    while a < q * q {
        q -= 1;
    }
    q
}

// Up from r until the next square is more than a.
fn raised(a: u64, r: u64) -> u64
    requires { (a < 2 ^ 48) × (r ≤ 2 ^ 25) × (r * r ≤ a) }
    ensures { WholeRoot a result }
{
    let mut q = r;
    while 2 * q < a - q * q {
        q += 1;
    }
    q
}

// The whole number nearest to the root of a, by steps from a guess that is off.
fn stepped(a: u64, r: u64) -> u64
    requires { (0 < a) × (a ≤ 2 ^ 48 - 2 ^ 24) × (r ≤ 2 ^ 25) }
    ensures { NearestRoot a result }
{
    let q = raised(a, lowered(a, r));
    if a - q * q > q { q + 1 } else { q }
}

// The whole number nearest to the root of m * 2 ^ (23 + odd). There is no tie.
fn nearest_root(m: u64, odd: u64) -> u64
    requires { (2 ^ 23 ≤ m) × (m < 2 ^ 24) × (odd < 2) }
    ensures { NearestRoot (m * 2 ^ (23 + odd)) result }
{
    let a = m << (23 + odd);
    let r = guess(m, odd);
    // one test for both sides: what is below zero wraps to a large number
    if std::num::wrapping_sub_u64(a + r, r * r + 1) < 2 * r {
        return r;
    }
    stepped(a, r)
}

// The root of m * 2 ^ e in units of 2 ^ -275, where m has 24 digits.
fn of_digits(m: u64, e: u32) -> f32
    requires { (2 ^ 23 ≤ m) × (m < 2 ^ 24) × (103 ≤ e) × (e < 380) }
    ensures { result ≡ root_of (m * 2 ^ (e + 23)) }
{
    let r = nearest_root(m, crate::pattern::wide(e % 2));
    f32::from_bits((crate::pattern::wide(e / 2) * 0x80_0000 + r) as u32)
}

// A pattern above zero as m * 2 ^ e in units of 2 ^ -275: a subnormal significand is moved up.
fn digits(bits: u32) -> Scaled
    requires { (0 < bits) × (bits < 255 * 2 ^ 23) }
    ensures { Digits bits result.sig result.exp }
{
    if bits < 0x80_0000 {
        let sig = crate::pattern::significand(bits);
        return crate::pattern::place(sig, crate::pattern::exponent(bits) + 126, 40);
    }
    Scaled {
        sig: crate::pattern::significand(bits),
        exp: crate::pattern::exponent(bits) + 126,
    }
}

// The root of the number that a pattern above zero stands for.
pub(crate) fn above_zero(bits: u32) -> f32
    requires { (0 < bits) × (bits < 255 * 2 ^ 23) }
    ensures { result ≡ root_of (sig_of bits * 2 ^ exp_of bits * 2 ^ 149) }
{
    let d = digits(bits);
    of_digits(d.sig, d.exp)
}
