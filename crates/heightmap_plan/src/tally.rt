// How many faces a map has and what they take, in one walk over its cells, which also finds a cell: that of a face, or
// one by its number.
ghost use Rattle.std.specs.Prelude.{◌≡◌, cond, ◌+◌, ◌*◌, ◌≤◌, ◌<◌, ◌^◌};
ghost use Rattle.answer.specs.Checks.{cell_count};
ghost use Rattle.buffers.specs.Mesh.{none, also};
ghost use Rattle.heightmap.specs.Grid.{seen_grid, beside_by, present};
ghost use Rattle.heightmap.specs.HeightMap.{seen};
ghost use Rattle.heightmap.specs.Counts.{cell_start};
ghost use Rattle.heightmap_plan.specs.Walking.{tally_by, both, cap_tally, side_tally, cell_tally, tally_of, up_to, marked_at, walked};
ghost use Rattle.heightmap_plan.specs.Walking.{added, one_if, edge_stands, walls_to, caps_in, walked_walls, many, own_tally, own_walk};

use face::triangle::{Counts, IndexPlace, VertexNumber};
use heightmap::grid::{Grid, NOBODY, element_or};
use heightmap::{Customs, Fringe, HeightMap, Lists, Name};
use placement::options::Choice;

// How many faces, and what they take.
#[derive(Clone, Copy, Default)]
pub struct Tally {
    pub faces: usize,
    pub counts: Counts,
}

// What a walk looks for: the cell of a face, by the face's number, or a cell by its own.
#[derive(Clone, Copy)]
pub enum Goal {
    Face(usize),
    Cell(usize),
}

// What is counted of the first cells; and the cell that is looked for, or the last before it, with what lies before that.
#[derive(Clone, Copy)]
pub struct Walk<T> {
    pub all: T,
    pub cell: usize,
    pub before: T,
}

// The same in each crate that counts: as no public function has a `requires`, it is not handed from one to the other.
pub(crate) fn add(a: Counts, b: Counts) -> Counts
    requires { (a.vertices.0 + b.vertices.0 < 2 ^ 64) × (a.indices.0 + b.indices.0 < 2 ^ 64) }
    ensures { result ≡ also a b }
{
    Counts {
        vertices: VertexNumber(a.vertices.0 + b.vertices.0),
        indices: IndexPlace(a.indices.0 + b.indices.0),
    }
}

fn times(n: usize, c: Counts) -> Counts
    requires { (n ≤ 393216) × ((c.vertices.0 ≤ 50) × (c.indices.0 ≤ 50)) }
    ensures { result ≡ many n c }
{
    Counts {
        vertices: VertexNumber(n * c.vertices.0),
        indices: IndexPlace(n * c.indices.0),
    }
}

impl Tally {
    fn one(counts: Counts) -> Tally
        ensures { result ≡ tally_by 1 counts }
    {
        Tally { faces: 1, counts }
    }

    fn join(self, more: Tally) -> Tally
        requires faces_bound { self.faces + more.faces < 2 ^ 64 }
        requires vertices_bound { self.counts.vertices.0 + more.counts.vertices.0 < 2 ^ 64 }
        requires indices_bound { self.counts.indices.0 + more.counts.indices.0 < 2 ^ 64 }
        ensures { result ≡ both self more }
    {
        Tally {
            faces: self.faces + more.faces,
            counts: add(self.counts, more.counts),
        }
    }
}

impl Goal {
    // Whether a cell, with so many faces before it, lies at or before what is looked for.
    fn is_up_to(self, k: usize, faces: usize) -> bool
        ensures { result ≡ up_to self k faces }
    {
        match self {
            Goal::Face(number) => faces <= number,
            Goal::Cell(cell) => k <= cell,
        }
    }
}

impl<T: Copy> Walk<T> {
    // At a cell with so many faces before it: that cell, unless it lies past what is looked for.
    fn mark(self, k: usize, faces: usize, goal: Goal) -> Walk<T>
        ensures { result ≡ marked_at self k faces goal }
    {
        if goal.is_up_to(k, faces) {
            return Walk {
                all: self.all,
                cell: k,
                before: self.all,
            };
        }
        self
    }
}

// The cap of a cell, or nothing where caps are off.
pub(crate) fn cap_tally(job: HeightMap, lists: Lists<'_>, k: usize) -> Tally
    ensures { result ≡ cap_tally job (seen lists.entry) k }
{
    match job.caps {
        Choice::Absent => Tally::default(),
        Choice::With(_) => {
            let o = heightmap::options::option_of(job, Name::Cap(k), lists);
            Tally::one(face::triangle::counts_of::<face::face::Hexagon>(o.inset))
        }
    }
}

// A side of a cell, or nothing where it does not stand.
#[inline(always)]
pub(crate) fn side_tally(job: HeightMap, lists: Lists<'_>, k: usize, d: u8) -> Tally
    ensures { result ≡ side_tally job (seen lists.entry) k d }
{
    let wall = lists.grid.wall_at(job.sides, job.fringe, k, d);
    if !wall.is_present() {
        return Tally::default();
    }
    let o = heightmap::options::option_of(job, Name::Side(k, d), lists);
    Tally::one(face::triangle::counts_of::<face::face::Quad>(o.inset))
}

fn cell_tally(job: HeightMap, lists: Lists<'_>, k: usize) -> Tally
    ensures { result ≡ cell_tally job (seen lists.entry) k }
{
    let mut t = Tally::default();
    for d in 0u8..6 {
        t = t.join(side_tally(job, lists, k, d));
    }
    cap_tally(job, lists, k).join(t)
}

// Face by face, each with its own option.
fn walk_faces(job: HeightMap, lists: Lists<'_>, goal: Goal, n: usize) -> Walk<Tally>
    requires { n ≤ 65536 }
    ensures { result ≡ walked job (seen lists.entry) goal n }
{
    let mut w = Walk {
        all: Tally::default(),
        cell: 0,
        before: Tally::default(),
    };
    for k in 0usize..n {
        let m = w.mark(k, w.all.faces, goal);
        w = Walk {
            all: m.all.join(cell_tally(job, lists, k)),
            ..m
        };
    }
    w
}

#[tactic(auto, using(heightmap::proofs::Reading::no_number))]
fn edge_stands(how: Fringe, fringe: &[f32], i: usize, own: f32) -> bool
    ensures { result ≡ edge_stands how fringe.now i own }
{
    match how {
        Fringe::Bare => false,
        Fringe::Listed => element_or(fringe, i, f32::NAN) < own,
    }
}

// Whether a side stands, where sides are on: no wall is made of it.
fn stands(how: Fringe, grid: Grid<'_>, k: usize, d: u8) -> bool
    requires { k ≤ 65536 }
    ensures { result ≡ present (beside_by how (seen_grid grid.entry) k d) }
{
    let own = element_or(grid.cells, 27 * k, f32::NAN);
    let i = 6 * k + (d as usize);
    let n = element_or(grid.neighbours, i, NOBODY);
    if n == NOBODY {
        return edge_stands(how, grid.fringe, i, own);
    }
    element_or(grid.cells, 27 * (n as usize), f32::NAN) < own
}

// How many of the first n sides of a cell stand: one choice, and then no branch on heights.
pub(crate) fn cell_walls(job: HeightMap, grid: Grid<'_>, k: usize, n: u8) -> usize
    requires { k ≤ 65536 }
    ensures sum { result ≡ walls_to job.sides job.fringe (seen_grid grid.entry) k n }
    ensures small { result ≤ n }
{
    match job.sides {
        Choice::Absent => 0,
        Choice::With(_) => walls_beside(job.fringe, grid, k, n),
    }
}

fn walls_beside(how: Fringe, grid: Grid<'_>, k: usize, n: u8) -> usize
    requires { k ≤ 65536 }
    ensures sum { result ≡ added (λ d. one_if (present (beside_by how (seen_grid grid.entry) k d))) n }
    ensures small { result ≤ n }
{
    let mut t = 0;
    for d in 0u8..n {
        t += stands(how, grid, k, d) as usize;
    }
    t
}

// The caps of the first k cells.
pub(crate) fn caps_in(caps: Choice, k: usize) -> usize
    ensures { result ≡ caps_in caps k }
{
    match caps {
        Choice::Absent => 0,
        Choice::With(_) => k,
    }
}

// The walls alone are counted, and no option is looked up. One walk over closures for this and `walk_faces` is no plainer:
// each has bounds of its own for its sums.
pub(crate) fn walk_walls(job: HeightMap, grid: Grid<'_>, goal: Goal, n: usize) -> Walk<usize>
    requires { n ≤ 65536 }
    ensures { result ≡ walked_walls job.caps job.sides job.fringe (seen_grid grid.entry) goal n }
{
    let mut w = Walk {
        all: 0,
        cell: 0,
        before: 0,
    };
    for k in 0usize..n {
        let m = w.mark(k, caps_in(job.caps, k) + w.all, goal);
        w = Walk {
            all: m.all + cell_walls(job, grid, k, 6),
            ..m
        };
    }
    w
}

// So many cells with so many walls, all of the job's own options.
fn own_tally(job: HeightMap, lists: Lists<'_>, k: usize, walls: usize) -> Tally
    requires { (k ≤ 65536) × (walls ≤ 393216) }
    ensures { result ≡ own_tally job (seen lists.entry) k walls }
{
    let m = caps_in(job.caps, k);
    let cap = placement::options::option_for(job.caps, lists.numbers, lists.marks);
    let wall = placement::options::option_for(job.sides, lists.numbers, lists.marks);
    Tally {
        faces: m + walls,
        counts: add(
            times(
                m,
                face::triangle::counts_of::<face::face::Hexagon>(cap.inset),
            ),
            times(
                walls,
                face::triangle::counts_of::<face::face::Quad>(wall.inset),
            ),
        ),
    }
}

fn walk_own(job: HeightMap, lists: Lists<'_>, w: Walk<usize>, n: usize) -> Walk<Tally>
    requires n_bound { (n ≤ 65536) × (w.all ≤ 393216) }
    requires cell_bound { (w.cell ≤ 65536) × (w.before ≤ 393216) }
    ensures { result ≡ own_walk job (seen lists.entry) w n }
{
    Walk {
        all: own_tally(job, lists, n, w.all),
        cell: w.cell,
        before: own_tally(job, lists, w.cell, w.before),
    }
}

// The first n cells, and the one among them that is looked for.
pub(crate) fn walk_cells(job: HeightMap, lists: Lists<'_>, goal: Goal, n: usize) -> Walk<Tally>
    requires { n ≤ 65536 }
    ensures { result ≡ walked job (seen lists.entry) goal n }
{
    match job.customs {
        Customs::Absent => walk_own(job, lists, walk_walls(job, lists.grid, goal, n), n),
        Customs::Listed => walk_faces(job, lists, goal, n),
    }
}

// How many faces a map has and what they take; nothing where it has more than 65,536 cells.
pub fn tally_all(job: HeightMap, lists: Lists<'_>) -> Tally
    ensures { result ≡ tally_of job (seen lists.entry) }
{
    let n = lists.grid.cell_count();
    if answer::check::is_cell_count(n) {
        let any = Goal::Cell(0); // no matter which: all is asked for
        return walk_cells(job, lists, any, n).all;
    }
    Tally::default()
}

// Where the faces of a cell start; past the last cell caps go on being counted, and above 65,536 nothing is.
pub fn cell_start(job: HeightMap, lists: Lists<'_>, k: usize) -> Counts
    ensures { result ≡ cond (cell_count k) (cell_start job (seen lists.entry) k) none }
{
    if answer::check::is_cell_count(k) {
        let any = Goal::Cell(0); // no matter which
        return walk_cells(job, lists, any, k).all.counts;
    }
    Counts::default()
}
