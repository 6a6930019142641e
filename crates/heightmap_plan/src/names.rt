// Which face of a map a number is, where it starts, and which number a face has.
ghost use Rattle.std.specs.Prelude.{◌≡◌, ◌≤◌, ◌<◌, length};
ghost use Rattle.face.specs.Lists.{chain};
ghost use Rattle.heightmap.specs.Grid.{seen_grid};
ghost use Rattle.heightmap.specs.HeightMap.{seen, side_names, cell_names};
ghost use Rattle.heightmap.specs.declared.Name.TheVariants.{Cap, Side};
ghost use Rattle.heightmap.specs.Names.{faces_before, number_of};
ghost use Rattle.heightmap_plan.specs.Finding.{survey_by, found_by, found_in_sides, found_in_cell, found_at, survey_of, placed_at, face_count, number_in};

use crate::tally::{Goal, Tally};
use face::triangle::Counts;
use heightmap::grid::Grid;
use heightmap::{HeightMap, Lists, Name};

#[derive(Clone, Copy)]
pub struct Found {
    pub name: Name,
    pub start: Counts,
}

// All faces, and one of them by its number.
#[derive(Clone, Copy)]
pub struct Survey {
    pub all: Tally,
    pub found: Found,
}

// All faces, and the number of a side.
#[derive(Clone, Copy)]
pub struct Placed {
    pub all: Tally,
    pub number: usize,
}

fn find_side(job: HeightMap, lists: Lists<'_>, k: usize, left: usize, from: Counts) -> Found
    requires left_in_bounds { left < length (chain (side_names job (seen lists).grid k) 6) }
    requires vertices_bound { (from.vertices.0 ≤ 30000000) × (from.indices.0 ≤ 30000000) }
    ensures { result ≡ found_in_sides job (seen lists.entry) k left from }
{
    let mut t = left;
    let mut start = from;
    for d in 0u8..6 {
        let side = crate::tally::side_tally(job, lists, k, d);
        if t < side.faces {
            let name = Name::Side(k, d);
            return Found { name, start };
        }
        t -= side.faces;
        start = crate::tally::add(start, side.counts);
    }
    let name = Name::Cap(0);
    Found { name, start }
}

// The face of a number within its cell: the cap, then the sides.
fn find_in_cell(job: HeightMap, lists: Lists<'_>, k: usize, left: usize, start: Counts) -> Found
    requires left_in_bounds { left < length (cell_names job (seen lists).grid k) }
    requires vertices_bound { (start.vertices.0 ≤ 22937600) × (start.indices.0 ≤ 22937600) }
    ensures { result ≡ found_in_cell job (seen lists.entry) k left start }
{
    let cap = crate::tally::cap_tally(job, lists, k);
    if left < cap.faces {
        let name = Name::Cap(k);
        return Found { name, start };
    }
    let after = crate::tally::add(start, cap.counts);
    find_side(job, lists, k, left - cap.faces, after)
}

// Past the last face there is none; it would start where all end.
fn no_face(all: Tally) -> Survey
    ensures { result ≡ survey_by all (found_by (Cap 0) all.counts) }
{
    let found = Found {
        name: Name::Cap(0),
        start: all.counts,
    };
    Survey { all, found }
}

// One walk counts all faces and finds the cell of one; nothing is found where there are more than 65,536 cells.
pub fn survey_faces(job: HeightMap, lists: Lists<'_>, number: usize) -> Survey
    ensures { result ≡ survey_of job (seen lists.entry) number }
{
    let n = lists.grid.cell_count();
    if !answer::check::is_cell_count(n) {
        return no_face(Tally::default());
    }
    let w = crate::tally::walk_cells(job, lists, Goal::Face(number), n);
    let all = w.all;
    if number < all.faces {
        let left = number - w.before.faces;
        let found = find_in_cell(job, lists, w.cell, left, w.before.counts);
        return Survey { all, found };
    }
    no_face(all)
}

// The face of a number, and where it starts.
pub fn find(job: HeightMap, lists: Lists<'_>, number: usize) -> Found
    ensures { result ≡ found_at job (seen lists.entry) number }
{
    survey_faces(job, lists, number).found
}

// How many faces lie before those of a cell.
fn faces_before(job: HeightMap, grid: Grid<'_>, k: usize) -> usize
    requires { k ≤ 65536 }
    ensures sum { result ≡ faces_before job (seen_grid grid.entry) k }
    ensures small { result ≤ 458752 }
{
    let any = Goal::Cell(0); // no matter which
    let w = crate::tally::walk_walls(job, grid, any, k);
    crate::tally::caps_in(job.caps, k) + w.all
}

// How many faces there are; none where there are more than 65,536 cells.
pub fn face_count(job: HeightMap, grid: Grid<'_>) -> usize
    ensures { result ≡ face_count job (seen_grid grid.entry) }
{
    let n = grid.cell_count();
    if answer::check::is_cell_count(n) {
        return faces_before(job, grid, n);
    }
    0
}

// The number of a side, by what lies before its cell: the cap and the sides before it follow.
fn number_after(job: HeightMap, grid: Grid<'_>, from: usize, k: usize, d: u8) -> usize
    requires k_bound { (k ≤ 65536) × (from ≤ 458752) }
    requires from_value { from ≡ faces_before job (seen_grid grid) k }
    ensures { result ≡ number_of job (seen_grid grid.entry) (Side k d) }
{
    let walls = crate::tally::cell_walls(job, grid, k, d);
    from + (crate::tally::caps_in(job.caps, 1) + walls)
}

// The number of a face that is there; 0 where the number of its cell is above 65,536.
pub fn number_of(job: HeightMap, grid: Grid<'_>, name: Name) -> usize
    ensures { result ≡ number_in job (seen_grid grid.entry) name }
{
    match name {
        Name::Cap(k) => {
            if answer::check::is_cell_count(k) {
                return faces_before(job, grid, k);
            }
            0
        }
        Name::Side(k, d) => {
            if answer::check::is_cell_count(k) {
                let before = faces_before(job, grid, k);
                return number_after(job, grid, before, k, d);
            }
            0
        }
    }
}

// One walk counts all faces and those before a cell.
pub fn survey_side(job: HeightMap, lists: Lists<'_>, k: usize, d: u8) -> Placed
    ensures { result ≡ placed_at job (seen lists.entry) k d }
{
    let n = lists.grid.cell_count();
    if !answer::check::is_cell_count(n) {
        let all = Tally::default();
        return Placed { all, number: 0 };
    }
    let w = crate::tally::walk_cells(job, lists, Goal::Cell(k), n);
    let all = w.all;
    if k < n {
        let number = number_after(job, lists.grid, w.before.faces, k, d);
        return Placed { all, number };
    }
    Placed { all, number: 0 }
}
