// Reads a record of cases and takes it apart. No contract can say what is read; those here say what
// holds of the answers whatever it is.
ghost use Rattle.std.specs.Prelude.{◌≤◌, ◌^◌, OnSome};
ghost use Rattle.arith_cases.specs.Cell.{Below};

use crate::cell;
use std::io::Read;

// The bytes of the longest line.
const LONGEST: usize = 450;

// A line of as many patterns as are asked for. No line has more than 50.
pub(crate) fn line<const N: usize>(input: &mut impl Read) -> Option<[u32; N]>
    ensures { OnSome result (N ≤ 50) }
{
    if N > 50 {
        return None;
    }
    let mut text = [0; LONGEST];
    let text = &mut text[..9 * N];
    input.read_exact(text).ok()?;
    cell::cells(text)
}

// The count of a line that names a part and counts what it holds. A part that holds nothing is none.
pub(crate) fn count(input: &mut impl Read, name: &[u8; 9]) -> Option<u32>
    ensures { Below (10 ^ 8) result }
{
    let mut text = [0; 18];
    input.read_exact(&mut text).ok()?;
    if text[..9] != name[..] {
        return None;
    }
    cell::cell(&text[9..], 10, b'\n').filter(|n| *n > 0)
}

// Whether nothing is left. A read that fails is no end.
pub(crate) fn ended(input: &mut impl Read) -> bool {
    matches!(input.read(&mut [0; 1]), Ok(0))
}
