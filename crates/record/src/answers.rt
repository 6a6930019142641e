// What a record has of an answer.
ghost use Rattle.std.specs.Prelude.{◌≡◌};
ghost use Rattle.answer.specs.Answers.{number_of, counts_of, need_of};

use crate::words::Recorded;
use answer::answer::Answer;
use std::io::Read;

// The number of an answer, both counts and the need.
#[derive(Clone, Copy, PartialEq)]
pub struct Told {
    number: u32,
    vertices: usize,
    indices: usize,
    need: usize,
}

impl From<Answer> for Told {
    ghost from_gives = { λ a t. (t.number ≡ number_of a) × (t.vertices ≡ (counts_of a).vertices.0) × (t.indices ≡ (counts_of a).indices.0) × (t.need ≡ need_of a) };

    fn from(answer: Answer) -> Told {
        let counts = answer::answer::counts_of(answer);
        Told {
            number: answer::answer::number_of(answer),
            vertices: counts.vertices.0,
            indices: counts.indices.0,
            need: answer::answer::need_of(answer),
        }
    }
}

impl Recorded for Told {
    fn read<R: Read>(from: &mut R) -> Told {
        Told {
            number: u32::read(from),
            vertices: usize::read(from),
            indices: usize::read(from),
            need: usize::read(from),
        }
    }
}
