// Reads a sheet from standard input and writes its answer to standard output.
#![tactic(auto)]

ghost use Rattle.std.specs.Prelude.{◌≤◌, true, length};
ghost use Rattle.sheet.specs.Meshes.{Written};
ghost use Rattle.sheet.specs.Answering.{answer_text, room};

// The longest sheet has 368 bytes: 9 of `column 1`, 20 of the height and a count of ten digits, 8 of
// `sides 6`, six sides of 36, 7 of `caps 6` and six corners of 18. A buffer of one byte more that is
// full therefore holds no sheet, as the whole input does not: both are refused with 9, which is
// `first-decide` of the sheet's proofs.
const LONGEST: usize = 368;

// `room` of the sheet's definitions, which every answer fits; a shorter buffer is not proved.
const ROOM: usize = 81487;

// The whole answer, at the start of a buffer that has room for any.
fn write_whole(text: &[u8], out: &mut [u8]) -> usize
    requires { room ≤ length out.old }
    ensures { Written true (answer_text text.now) out.old out.new result }
{
    sheet::write_answer(text, out)
}

fn main() {
    let mut text = [0u8; LONGEST + 1];
    let n = io::read_full(0, &mut text);
    let mut out = [0u8; ROOM];
    let m = write_whole(&text[..n], &mut out);
    io::write_all(1, &out[..m]);
}
