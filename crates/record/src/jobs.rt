// The runs of a job: its calls, each with what it should answer, over lists that are lent to be filled.
use crate::answers::Told;
use crate::digest::{Digest, Digested, Lanes};
use crate::lists::{Lists, Places, ReadLists, Room};
use crate::words::Recorded;
use answer::answer::Answer;
use std::io::Read;

// The most runs of a case, and the most calls of a run.
const RUNS: usize = 16;

const CALLS: usize = 64;

enum Call {
    Plan,
    Whole,
    Face(usize),
}

// A word is a face's number, but for two.
impl From<u32> for Call {
    fn from(word: u32) -> Call {
        match word {
            1_000_000 => Call::Plan,
            1_000_001 => Call::Whole,
            number => Call::Face(number as usize),
        }
    }
}

// What can be planned, and built whole or face by face into the lists of a mesh.
pub trait Job {
    fn plan(&self) -> Answer;

    fn build(&self, to: &mut Lists) -> Answer;

    fn face(&self, number: usize, to: &mut Lists) -> Answer;

    // Makes the calls that the record names, and holds what they answer and leave to it.
    fn is_run_right<R: Read>(&self, from: &mut R) -> bool {
        let mut places = Places::default();
        let mut lists = places.lent(Room::read(from));
        let mut right = true;
        for _ in 0..from.count(CALLS) {
            let answer = match Call::from(u32::read(from)) {
                Call::Plan => self.plan(),
                Call::Whole => self.build(&mut lists),
                Call::Face(number) => self.face(number, &mut lists),
            };
            right &= Told::read(from) == Told::from(answer);
        }
        let digest = lists.digested(Digest::default());
        Lanes::read(from) == Lanes::from(digest) && right
    }

    // The runs of a job: all are made, whatever one of them gives.
    fn are_runs_right<R: Read>(&self, from: &mut R) -> bool {
        let mut right = true;
        for _ in 0..from.count(RUNS) {
            right &= self.is_run_right(from);
        }
        right
    }
}
