// The arithmetic that all else stands on: the square root and the fused multiply-add of `f32`, each
// equal to its definition over whole numbers for every input. An `f32` is rounded by integers on bit
// patterns, or by the machine where that is one rounding of the exact number.
#![tactic(auto)]

mod double;
mod multiply_add;
mod pattern;
mod square_root;

ghost use Rattle.std.specs.Prelude.{◌≡◌};
ghost use Rattle.arith.specs.Root.{root};
ghost use Rattle.arith.specs.Fused.{fma};

// The `f32` nearest to the square root of x. A zero is its own root, and a number below zero has none.
pub fn root(x: f32) -> f32
    ensures { result ≡ root x }
{
    if x != x {
        return x;
    }
    let bits = f32::to_bits(x);
    if bits == 0 {
        return x;
    }
    if bits < 0x7f80_0000 {
        return square_root::above_zero(bits);
    }
    // +infinity, and -0
    if bits <= 0x8000_0000 {
        return x;
    }
    0.0 / 0.0
}

// a * b + c, rounded once: most often by way of `f64`, and else digit by digit.
pub fn fused(a: f32, b: f32, c: f32) -> f32
    ensures { result ≡ fma a b c }
{
    if double::no_nan(a, b, c) {
        let s = (a as f64) * (b as f64) + (c as f64);
        if s == s {
            let bits = f64::to_bits(s);
            if double::narrows(bits) {
                return double::narrowed(bits);
            }
            if double::is_exact(a, b, c, bits) {
                return double::rounded(bits);
            }
        }
    }
    multiply_add::by_digits(a, b, c)
}
