// What is told of a job's faces without a buffer: how many there are, and which vertices and indices one of them has.
ghost use Rattle.std.specs.Prelude.{◌≡◌};
ghost use Rattle.answer.specs.Answers.{counts_of};
ghost use Rattle.buffers.specs.Mesh.{none};
ghost use Rattle.mesh.specs.Jobs.{faces_by, window_by};

use answer::answer::{Answer, Refusal};
use face::triangle::{Counts, IndexPlace, VertexNumber};

// The counts of a job, and how many faces it has.
#[derive(Clone, Copy)]
pub struct Faces {
    pub counts: Counts,
    pub faces: usize,
}

// The counts of a job, and the places of one face: from the start on, as many as its size says.
#[derive(Clone, Copy)]
pub struct Window {
    pub counts: Counts,
    pub start: Counts,
    pub size: Counts,
}

pub fn faces_if_done(answer: Answer, faces: usize) -> Result<Faces, Refusal>
    ensures { result ≡ faces_by answer faces }
{
    let all = answer?;
    Ok(Faces { counts: all, faces })
}

pub fn window_if_done(answer: Answer, start: Counts, size: Counts) -> Result<Window, Refusal>
    ensures { result ≡ window_by answer start size }
{
    let counts = answer?;
    Ok(Window {
        counts,
        start,
        size,
    })
}

// The window of a job's one face: all that the answer counts.
pub fn window_of_all(answer: Answer) -> Result<Window, Refusal>
    ensures { result ≡ window_by answer none (counts_of answer) }
{
    let counts = answer?;
    let start = Counts {
        vertices: VertexNumber(0),
        indices: IndexPlace(0),
    };
    Ok(Window {
        counts,
        start,
        size: counts,
    })
}
