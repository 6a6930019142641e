// Digits and their characters, and what stands after a number.
ghost use Rattle.std.specs.Prelude.{◌≡◌, ◌≤◌, ◌<◌};
ghost use Rattle.sheet.specs.Digits.{digit, digit_count, gap};

// The character of a digit.
pub(crate) fn digit(d: usize) -> u8
    requires { d < 16 }
    ensures { result ≡ digit d }
{
    if d < 10 {
        (48 + d) as u8
    } else {
        (87 + d) as u8
    }
}

// How many digits a plain decimal has: no number here has more than twenty.
pub(crate) fn digit_count(n: usize) -> usize
    ensures count { result ≡ digit_count n }
    ensures most { result ≤ 20 }
{
    match n.checked_ilog10() {
        Some(power) => power as usize + 1,
        None => 1,
    }
}

// What follows number k of those that stand so many to a line.
pub(crate) fn gap(width: usize, k: usize) -> u8
    requires { 0 < width }
    ensures { result ≡ gap width k }
{
    if k % width == width - 1 { b'\n' } else { b' ' }
}
