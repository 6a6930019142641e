// Why a wall of a height map is there or is not, and which face a number is. No buffer is lent, and one walk over the
// cells serves an answer.
#![tactic(auto)]

ghost use Rattle.std.specs.Prelude.{◌≡◌, cond, ltb};
ghost use Rattle.heightmap.specs.HeightMap.{seen};
ghost use Rattle.heightmap_plan.specs.Finding.{cell_of};
ghost use Rattle.heightmap_why.specs.Why.{reason_by, reason_code, reason_height, reason_face, kind_code, side_told};
ghost use Rattle.heightmap_why.specs.Why.{side_tested, why_told, which_told};

use answer::answer::{Answer, Refusal};
use face::triangle::Counts;
use heightmap::{HeightMap, Lists, Name, Wall};

// Sides are off; there is no neighbour and no fringe height; the neighbour or the fringe is as high or higher, with that
// height; the wall is there, with its face number. They are tested in this order.
#[derive(Clone, Copy)]
pub enum Reason {
    SidesOff,
    NothingBeyond,
    AsHigh(f32),
    Present(usize),
}

// The plan's counts and the reason, or a refusal.
pub type WhyAnswer = Result<(Counts, Reason), Refusal>;

// The plan's counts and the face, or a refusal.
pub type WhichAnswer = Result<(Counts, Name), Refusal>;

// The number of a reason.
pub fn reason_code(reason: Reason) -> u32
    ensures { result ≡ reason_code reason }
{
    match reason {
        Reason::SidesOff => 1,
        Reason::NothingBeyond => 2,
        Reason::AsHigh(_) => 3,
        Reason::Present(_) => 4,
    }
}

// The height beyond a wall that is missing for it; +0 beside the other reasons.
pub fn reason_height(reason: Reason) -> f32
    ensures { result ≡ reason_height reason }
{
    match reason {
        Reason::SidesOff => 0.0,
        Reason::NothingBeyond => 0.0,
        Reason::AsHigh(beyond) => beyond,
        Reason::Present(_) => 0.0,
    }
}

// The face number of a wall that is there; 0 beside the other reasons.
pub fn reason_face(reason: Reason) -> usize
    ensures { result ≡ reason_face reason }
{
    match reason {
        Reason::SidesOff => 0,
        Reason::NothingBeyond => 0,
        Reason::AsHigh(_) => 0,
        Reason::Present(number) => number,
    }
}

// The number of a face's kind.
pub fn kind_code(name: Name) -> u32
    ensures { result ≡ kind_code name }
{
    match name {
        Name::Cap(_) => 1,
        Name::Side(_, _) => 2,
    }
}

// The cell of a face.
pub fn cell_of(name: Name) -> usize
    ensures { result ≡ cell_of name }
{
    match name {
        Name::Cap(k) => k,
        Name::Side(k, _) => k,
    }
}

// The side of a face; 0 of a cap.
pub fn side_of(name: Name) -> u32
    ensures { result ≡ side_told name }
{
    match name {
        Name::Cap(_) => 0,
        Name::Side(_, d) => d as u32,
    }
}

fn reason_by(wall: Wall, number: usize) -> Reason
    ensures { result ≡ reason_by wall number }
{
    match wall {
        Wall::SidesOff => Reason::SidesOff,
        Wall::NothingBeyond => Reason::NothingBeyond,
        Wall::AsHigh(beyond) => Reason::AsHigh(beyond),
        Wall::Present(_) => Reason::Present(number),
    }
}

// A side that is not there is read as the first, and refused.
fn side_in(side: usize) -> u8
    ensures { result ≡ cond (ltb side 6) side 0 }
{
    if side < 6 {
        return side as u8;
    }
    0
}

// The tests of 1 to 4, of the cell and of the side, once the faces are counted.
fn test_side(job: HeightMap, counts: Counts, lists: Lists<'_>, cell: usize, side: usize) -> Answer
    ensures { result ≡ side_tested job (seen lists.entry) counts cell side }
{
    let planned = heightmap_plan::check(job, answer::answer::limit(counts), lists);
    let n = lists.grid.cell_count();
    answer::answer::name(answer::answer::name(planned, cell, n), side, 6)
}

// Why a side of a cell is there or is not, with the plan's counts.
pub fn why(job: HeightMap, lists: Lists<'_>, cell: usize, side: usize) -> WhyAnswer
    ensures { result ≡ why_told job (seen lists.entry) cell side }
{
    let d = side_in(side);
    let placed = heightmap_plan::names::survey_side(job, lists, cell, d);
    let counts = test_side(job, placed.all.counts, lists, cell, side)?;
    let wall = lists.grid.wall_at(job.sides, job.fringe, cell, d);
    Ok((counts, reason_by(wall, placed.number)))
}

// The face of a number, with the plan's counts.
pub fn which(job: HeightMap, lists: Lists<'_>, number: usize) -> WhichAnswer
    ensures { result ≡ which_told job (seen lists.entry) number }
{
    let s = heightmap_plan::window::seek(job, lists, number);
    let counts = s.answer?;
    Ok((counts, s.found.name))
}
