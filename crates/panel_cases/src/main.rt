// Answers the sheets of standard input, one after the other: a case's name, then its answer; of a long
// answer how many bytes it has, and their sum. A case is a line with its name, the sheet, and a line's
// end after the mark `=`, which stands in no sheet.
#![tactic(auto)]

mod cases;
mod show;

use cases::Cases;

// Room for all cases; the program writes too little if they are more.
const ROOM: usize = 8192;

fn main() {
    let mut text = [0u8; ROOM];
    let n = io::read_full(0, &mut text);
    for case in Cases(&text[..n]) {
        show::print_case(case);
    }
    io::write_all(1, b"too short, and long enough\n");
    show::print_short::<9>();
    show::print_short::<11>();
}
