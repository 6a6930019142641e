// The kinds of cases of a record, and how many of each differ from it.
use crate::words;
use crate::words::Recorded;
use std::io;
use std::io::{Read, Write};

// What ends a case.
const END: u32 = 0xe4d;

// How many cases were replayed, how many of them differ, and which is the first.
#[derive(Clone, Copy, Default)]
struct Tally {
    cases: u32,
    differ: u32,
    first: Option<u32>,
}

impl Tally {
    fn with(self, right: bool) -> Tally {
        let cases = self.cases.saturating_add(1);
        if right {
            return Tally { cases, ..self };
        }
        Tally {
            cases,
            differ: self.differ.saturating_add(1),
            first: self.first.or(Some(self.cases)),
        }
    }
}

// Each piece is written by itself: what cannot be written is lost, and the rest is written all the same.
fn print_tally(rt: &impl Print, tally: Tally) {
    let Tally {
        cases,
        differ,
        first,
    } = tally;
    let _ = print!(rt; "{cases}");
    let _ = print!(rt; ", differ ");
    let _ = print!(rt; "{differ}");
    if let Some(first) = first {
        let _ = print!(rt; ", first ");
        let _ = print!(rt; "{first}");
    }
    let _ = print!(rt; "\n");
}

// The name of a kind, as the record has it: up to the first end of input.
fn name<R: Read>(from: &mut R) -> [u8; 9] {
    let mut name = [0; 9];
    for place in name.iter_mut() {
        let Some(byte) = words::byte(from) else {
            break;
        };
        *place = byte;
    }
    name
}

// Whether the record ends here, and as it should.
fn is_ended<R: Read>(from: &mut R) -> bool {
    b"end\n".iter().all(|b| words::byte(from) == Some(*b)) && words::byte(from).is_none()
}

// A kind of cases.
pub trait Cases: Copy {
    // Replays one case, and answers whether it is as the record has it.
    fn is_right<R: Read>(self, from: &mut R) -> bool;

    // Replays the cases of a kind, and answers whether the record reads so far. What cannot be written is lost: the
    // record is read on.
    fn replay<R: Read, P: Print>(self, from: &mut R, rt: &P) -> bool {
        let _ = io::writer(rt).write_all(&name(from));
        let n = u32::read(from);
        let mut tally = Tally::default();
        for _ in 0..n {
            let right = self.is_right(from);
            if u32::read(from) != END {
                break;
            }
            tally = tally.with(right);
        }
        print_tally(rt, tally);
        tally.cases == n
    }

    // Replays a record that has these kinds, in this order.
    fn replay_all<R: Read, P: Print>(kinds: &[Self], from: &mut R, rt: &P) {
        let mut reads = true;
        for kind in kinds {
            reads = reads && kind.replay(from, rt);
        }
        if !(reads && is_ended(from)) {
            let _ = println!(rt; "the record does not read");
        }
    }
}
