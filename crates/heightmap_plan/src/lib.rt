// The tests of a height map and its plan, in the order of the refusals; in tally.rt its counts, in names.rt its
// faces by their numbers, in window.rt their places. A job is passed by value, and so are its lists, as one struct.
#![tactic(auto)]

pub mod names;
pub mod tally;
pub mod window;

ghost use Rattle.std.specs.Prelude.{◌≡◌};
ghost use Rattle.heightmap.specs.Grid.{seen_grid};
ghost use Rattle.heightmap.specs.HeightMap.{seen};
ghost use Rattle.heightmap.specs.Tests.{fringe_shape, grid_shape, customs_shape, all_named, shape_of, fringe_in_range, heights_in_range, origin_in_range, place_of, range_of, checked, tested, planned};

use answer::answer::{Answer, Refusal};
use heightmap::grid::Grid;
use heightmap::{Customs, Fringe, HeightMap, HeightRange, Lists, Origin};

fn is_fringe(how: Fringe, fringe: &[f32], n: usize) -> bool
    ensures { result ≡ fringe_shape how fringe.now n }
{
    match how {
        Fringe::Bare => true,
        Fringe::Listed => answer::check::is_exactly(fringe.len(), n, 6),
    }
}

fn is_grid(job: HeightMap, grid: Grid<'_>) -> bool
    ensures { result ≡ grid_shape job (seen_grid grid.entry) }
{
    let n = grid.cell_count();
    answer::check::is_cell_count(n)
        && answer::check::is_exactly(grid.cells.len(), n, 27)
        && answer::check::is_exactly(grid.neighbours.len(), n, 6)
        && is_fringe(job.fringe, grid.fringe, n)
}

fn are_customs(how: Customs, customs: &[u8], n: usize, entries: usize) -> bool
    ensures { result ≡ customs_shape how customs.now n entries }
{
    match how {
        Customs::Absent => true,
        Customs::Listed => {
            answer::check::is_exactly(customs.len(), n, 7)
                && answer::check::all_name_options(customs, entries)
        }
    }
}

// Every option number, of caps and sides that are off too.
fn are_named(job: HeightMap, lists: Lists<'_>, entries: usize) -> bool
    ensures { result ≡ all_named job (seen lists.entry) entries }
{
    are_customs(job.customs, lists.customs, lists.grid.cell_count(), entries)
        && placement::options::choice_names(job.caps, entries)
        && placement::options::choice_names(job.sides, entries)
}

fn is_shape(job: HeightMap, lists: Lists<'_>) -> bool
    ensures { result ≡ shape_of job (seen lists.entry) }
{
    is_grid(job, lists.grid)
        && answer::check::is_exactly(lists.corners.len(), 6, 2)
        && placement::options::is_table(lists.numbers, lists.marks)
        && are_named(job, lists, placement::options::entries(lists.marks))
}

fn is_range(range: HeightRange) -> bool
    ensures { result ≡ heights_in_range range }
{
    match range {
        HeightRange::OfAll => true,
        HeightRange::Of(a, b) => answer::check::in_range(a) && answer::check::in_range(b),
    }
}

fn is_origin(origin: Origin) -> bool
    ensures { result ≡ origin_in_range origin }
{
    match origin {
        Origin::Centred => true,
        Origin::At(p) => answer::check::in_range2(p),
    }
}

fn is_in_place(job: HeightMap) -> bool
    ensures { result ≡ place_of job }
{
    is_range(job.range)
        && is_origin(job.origin)
        && placement::placement::placement_in_range(job.placement)
}

fn is_fringe_in_range(how: Fringe, fringe: &[f32]) -> bool
    ensures { result ≡ fringe_in_range how fringe.now }
{
    match how {
        Fringe::Bare => true,
        Fringe::Listed => answer::check::all_in_range(fringe),
    }
}

fn is_in_range(job: HeightMap, lists: Lists<'_>) -> bool
    ensures { result ≡ range_of job (seen lists.entry) }
{
    answer::check::all_in_range(lists.grid.cells)
        && is_fringe_in_range(job.fringe, lists.grid.fringe)
        && answer::check::all_in_range(lists.corners)
        && answer::check::all_in_range(lists.numbers)
        && is_in_place(job)
}

// The tests of 1, 2 and 3, and after them an answer that is handed on.
pub fn check(job: HeightMap, rest: Answer, lists: Lists<'_>) -> Answer
    ensures { result ≡ checked job (seen lists.entry) rest }
{
    if !is_shape(job, lists) {
        return Err(Refusal::Shape);
    }
    if !is_in_range(job, lists) {
        return Err(Refusal::Range);
    }
    if !answer::check::all_neighbours(lists.grid.neighbours, lists.grid.cell_count()) {
        return Err(Refusal::Neighbour);
    }
    rest
}

// The counts of the job, however great, or why it is refused before they are asked for. The walk over the cells comes
// first, here as in every call: it takes any lists, and of those that are refused its sums are not used.
pub fn test(job: HeightMap, lists: Lists<'_>) -> Answer
    ensures { result ≡ tested job (seen lists.entry) }
{
    let all = crate::tally::tally_all(job, lists);
    check(job, Ok(all.counts), lists)
}

// The counts of the job, or why it is refused.
pub fn plan(job: HeightMap, lists: Lists<'_>) -> Answer
    ensures { result ≡ planned job (seen lists.entry) }
{
    let all = crate::tally::tally_all(job, lists);
    check(job, answer::answer::limit(all.counts), lists)
}
