// How many faces a map has, and which places one of them has. No buffer is lent.
ghost use Rattle.std.specs.Prelude.{◌≡◌};
ghost use Rattle.heightmap.specs.HeightMap.{seen};
ghost use Rattle.heightmap.specs.Counts.{size_by};
ghost use Rattle.heightmap.specs.Calls.{faces_told, window_told};
ghost use Rattle.heightmap_plan.specs.Finding.{sought_at};

use crate::names::Found;
use answer::answer::{Answer, Refusal};
use face::triangle::Counts;
use heightmap::{HeightMap, Lists, Name};
use mesh::windows::{Faces, Window};

// How many faces the job has, or why it is refused.
pub fn faces(job: HeightMap, lists: Lists<'_>) -> Result<Faces, Refusal>
    ensures { result ≡ faces_told job (seen lists.entry) }
{
    let all = crate::tally::tally_all(job, lists);
    let planned = crate::check(job, answer::answer::limit(all.counts), lists);
    mesh::windows::faces_if_done(planned, all.faces)
}

fn size_of(job: HeightMap, name: Name, lists: Lists<'_>) -> Counts
    ensures { result ≡ size_by job (seen lists.entry) name }
{
    let inset = heightmap::options::option_of(job, name, lists).inset;
    match name {
        Name::Cap(_) => face::triangle::counts_of::<face::face::Hexagon>(inset),
        Name::Side(_, _) => face::triangle::counts_of::<face::face::Quad>(inset),
    }
}

// What is known of a number before any room is asked for: the answer so far, and the face.
#[derive(Clone, Copy)]
pub struct Sought {
    pub answer: Answer,
    pub found: Found,
}

// The plan, the number and its face, in one walk. Of lists that are refused the face means nothing.
pub fn seek(job: HeightMap, lists: Lists<'_>, number: usize) -> Sought
    ensures { result ≡ sought_at job (seen lists.entry) number }
{
    let s = crate::names::survey_faces(job, lists, number);
    let planned = crate::check(job, answer::answer::limit(s.all.counts), lists);
    let answer = answer::answer::name(planned, number, s.all.faces);
    Sought {
        answer,
        found: s.found,
    }
}

// The places of a face, by its number.
pub fn window(job: HeightMap, lists: Lists<'_>, number: usize) -> Result<Window, Refusal>
    ensures { result ≡ window_told job (seen lists.entry) number }
{
    let Sought { answer, found } = seek(job, lists, number);
    mesh::windows::window_if_done(answer, found.start, size_of(job, found.name, lists))
}
