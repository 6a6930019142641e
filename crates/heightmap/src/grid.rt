// The cells as they are lent, the range of their heights, and why a side is there or is not. Any cell and any side may be
// asked for: past the end of a list stands what means none, and a side above 5 reads on.
ghost use Rattle.std.specs.Prelude.{◌≡◌, ◌+◌, ◌*◌, ◌≤◌, get_or};
ghost use Rattle.mesh.specs.Stored.{uv_from};
ghost use Rattle.heightmap.specs.declared.HeightRange.TheVariants.{OfAll};
ghost use Rattle.heightmap.specs.Grid.{seen_grid, cells_in, height_at, position_at, left_at, right_at, neighbour_at, fringe_at};
ghost use Rattle.heightmap.specs.Grid.{lower, higher, span_by, against, edge_by, beside_by, wall_by};

use face::vec::Vec2;
use placement::options::Choice;

// What the layout's owner lends: 27 numbers a cell, and for each of its sides a neighbour and a height beyond the edge.
#[derive(Clone, Copy)]
pub struct Grid<'a> {
    pub cells: &'a [f32],
    pub neighbours: &'a [u32],
    pub fringe: &'a [f32],
}

// An element of a list, and what stands for none past its end.
pub fn element_or<T: Copy>(list: &[T], at: usize, none: T) -> T
    ensures { result ≡ get_or list.now at none }
{
    match list.get(at) {
        Some(x) => *x,
        None => none,
    }
}

// The same of a list that has so many elements a cell, by the place in the cell.
pub(crate) fn of_cell_or<T: Copy>(list: &[T], each: usize, k: usize, i: usize, none: T) -> T
    ensures { result ≡ get_or list.now (each * k + i) none }
{
    let Some(start) = each.checked_mul(k) else {
        return none;
    };
    let Some(at) = start.checked_add(i) else {
        return none;
    };
    element_or(list, at, none)
}

impl<'a> Grid<'a> {
    pub fn cell_count(self) -> usize
        ensures { result ≡ cells_in (seen_grid self.entry).cells }
    {
        self.cells.len() / 27
    }

    // Two numbers of a cell that follow each other, as x and z.
    #[tactic(auto, using(crate::proofs::Reading::no_number))]
    fn pair_at(self, k: usize, i: usize) -> Vec2
        requires { i ≤ 1999 }
        ensures { result ≡ uv_from (seen_grid self.entry).cells (27 * k + i) }
    {
        Vec2 {
            x: of_cell_or(self.cells, 27, k, i, f32::NAN),
            y: of_cell_or(self.cells, 27, k, i + 1, f32::NAN),
        }
    }

    #[tactic(auto, using(crate::proofs::Reading::no_number))]
    pub fn height_at(self, k: usize) -> f32
        ensures { result ≡ height_at (seen_grid self.entry).cells k }
    {
        of_cell_or(self.cells, 27, k, 0, f32::NAN)
    }

    pub fn position_at(self, k: usize) -> Vec2
        ensures { result ≡ position_at (seen_grid self.entry).cells k }
    {
        self.pair_at(k, 1)
    }

    // The left end of a side.
    pub fn left_at(self, k: usize, d: u8) -> Vec2
        ensures { result ≡ left_at (seen_grid self.entry).cells k d }
    {
        self.pair_at(k, 3 + 4 * (d as usize))
    }

    pub fn right_at(self, k: usize, d: u8) -> Vec2
        ensures { result ≡ right_at (seen_grid self.entry).cells k d }
    {
        self.pair_at(k, 3 + 4 * (d as usize) + 2)
    }

    // The cell beside a side, or the number for none.
    pub fn neighbour_at(self, k: usize, d: u8) -> u32
        ensures { result ≡ neighbour_at (seen_grid self.entry).neighbours k d }
    {
        of_cell_or(self.neighbours, 6, k, d as usize, NOBODY)
    }

    // The height beyond a side at the edge.
    #[tactic(auto, using(crate::proofs::Reading::no_number))]
    pub fn fringe_at(self, k: usize, d: u8) -> f32
        ensures { result ≡ fringe_at (seen_grid self.entry).fringe k d }
    {
        of_cell_or(self.fringe, 6, k, d as usize, f32::NAN)
    }

    fn wall_at_edge(self, how: crate::Fringe, k: usize, d: u8) -> crate::Wall
        ensures { result ≡ edge_by how (seen_grid self.entry) k d }
    {
        match how {
            crate::Fringe::Bare => crate::Wall::NothingBeyond,
            crate::Fringe::Listed => wall_against(self.fringe_at(k, d), self.height_at(k)),
        }
    }

    fn wall_beside(self, how: crate::Fringe, k: usize, d: u8) -> crate::Wall
        ensures { result ≡ beside_by how (seen_grid self.entry) k d }
    {
        let n = self.neighbour_at(k, d);
        if n == NOBODY {
            return self.wall_at_edge(how, k, d);
        }
        wall_against(self.height_at(n as usize), self.height_at(k))
    }

    // Why a side of a cell is there or is not, by the job's choice of sides and its fringe.
    pub fn wall_at(self, sides: Choice, how: crate::Fringe, k: usize, d: u8) -> crate::Wall
        ensures { result ≡ wall_by sides how (seen_grid self.entry) k d }
    {
        match sides {
            Choice::Absent => crate::Wall::SidesOff,
            Choice::With(_) => self.wall_beside(how, k, d),
        }
    }

    // The range by which a side's v goes.
    pub fn span_of(self, range: crate::HeightRange) -> crate::Span
        ensures { result ≡ span_by range (seen_grid self.entry).cells }
    {
        match range {
            crate::HeightRange::OfAll => span_of_all(self.cells),
            crate::HeightRange::Of(min, max) => crate::Span { min, max },
        }
    }
}

// The number that stands for no neighbour.
pub const NOBODY: u32 = 4294967295;

// A cell of height own beside what lies beyond.
fn wall_against(beyond: f32, own: f32) -> crate::Wall
    ensures { result ≡ against beyond own }
{
    if beyond < own {
        return crate::Wall::Present(beyond);
    }
    crate::Wall::AsHigh(beyond)
}

// The lower of two heights, the earlier where they are equal; `f32::min` leaves open which of -0 and +0 it is.
fn lower_of(a: f32, b: f32) -> f32
    ensures { result ≡ lower a b }
{
    if b < a { b } else { a }
}

fn higher_of(a: f32, b: f32) -> f32
    ensures { result ≡ higher a b }
{
    if a < b { b } else { a }
}

// The least and the greatest height, 0 where there are no cells. The first height starts both ends, so that a fold over
// `chunks_exact` is no plainer than the index.
fn span_of_all(cells: &[f32]) -> crate::Span
    ensures { result ≡ span_by OfAll cells.now }
{
    let n = cells.len() / 27;
    if n == 0 {
        return crate::Span { min: 0.0, max: 0.0 };
    }
    let mut min = cells[0];
    let mut max = cells[0];
    for k in 0usize..n {
        let h = cells[27 * k];
        min = lower_of(min, h);
        max = higher_of(max, h);
    }
    crate::Span { min, max }
}
