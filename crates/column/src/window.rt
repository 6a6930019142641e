// How many faces a column has, and which places one of them has. No buffer is lent, and the parts are not walked.
ghost use Rattle.std.specs.Prelude.{◌≡◌};
ghost use Rattle.column.specs.Column.{lent, faces_told, window_told};
ghost use Rattle.column.specs.Names.{size_by};

use answer::answer::Refusal;
use face::face::{Hexagon, Quad};
use face::triangle::Counts;
use mesh::windows::{Faces, Window};

// How many faces the job has, or why it is refused.
pub fn faces(
    job: crate::Column,
    pairs: &[f32],
    corners: &[f32],
    numbers: &[f32],
    marks: &[u8],
) -> Result<Faces, Refusal>
    ensures { result ≡ faces_told job (lent pairs corners numbers marks) }
{
    let planned = crate::plan(job, pairs, corners, numbers, marks);
    mesh::windows::faces_if_done(planned, crate::names::face_count(job))
}

fn size_of(job: crate::Column, name: crate::Name, numbers: &[f32], marks: &[u8]) -> Counts
    ensures { result ≡ size_by job numbers.now marks.now name }
{
    match name {
        crate::Name::OfSide(d, _) => {
            let side = crate::side_option(job.sides, d);
            face::triangle::counts_of::<Quad>(
                placement::options::option_for(side, numbers, marks).inset,
            )
        }
        crate::Name::Top => face::triangle::counts_of::<Hexagon>(
            placement::options::option_for(job.top, numbers, marks).inset,
        ),
        crate::Name::Bottom => face::triangle::counts_of::<Hexagon>(
            placement::options::option_for(job.bottom, numbers, marks).inset,
        ),
    }
}

// The places of a face, by its number.
pub fn window(
    job: crate::Column,
    pairs: &[f32],
    corners: &[f32],
    numbers: &[f32],
    marks: &[u8],
    number: usize,
) -> Result<Window, Refusal>
    ensures { result ≡ window_told job (lent pairs corners numbers marks) number }
{
    let planned = crate::plan(job, pairs, corners, numbers, marks);
    let answer = answer::answer::name(planned, number, crate::names::face_count(job));
    let name = crate::names::name_of(job, number);
    let start = crate::names::start_of(job, name, numbers, marks);
    mesh::windows::window_if_done(answer, start, size_of(job, name, numbers, marks))
}
