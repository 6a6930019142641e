// Asking for an answer, and printing it. The prints of `io` rest on the C library's `write` alone;
// those of std would read its error number too.
ghost use Rattle.std.specs.Prelude.{◌≤◌};

use crate::cases::Case;

// `room` of the sheet's definitions, which every answer fits.
const ROOM: usize = 81487;

// Longer answers are printed as their length and their sum.
const SHORT: usize = 1000;

// Each byte is added to 31 times the sum before it.
fn sum_of(text: &[u8]) -> u32 {
    text.iter().fold(0, |sum: u32, byte| {
        sum.wrapping_mul(31).wrapping_add(u32::from(*byte))
    })
}

fn print_answer(answer: &[u8]) {
    if answer.len() <= SHORT {
        io::write_all(1, answer);
    } else {
        io::print_decimal(1, answer.len() as u64);
        io::write_all(1, b" bytes, sum ");
        io::print_hex(1, u64::from(sum_of(answer)), 8);
        io::write_all(1, b"\n");
    }
}

pub(crate) fn print_case(case: Case<'_>) {
    let mut answer = [0u8; ROOM];
    let n = sheet::write_answer(case.sheet, &mut answer);
    io::write_all(1, case.name);
    io::write_all(1, b"\n");
    print_answer(&answer[..n]);
}

// An answer of ten bytes, for so many places.
pub(crate) fn print_short<const N: usize>()
    requires { N ≤ 64 }
{
    let mut places = [b'-'; N];
    let n = sheet::write_answer(b"", &mut places);
    io::print_decimal(1, n as u64);
    io::write_all(1, b" ");
    io::write_all(1, &places);
    io::write_all(1, b"\n");
}
