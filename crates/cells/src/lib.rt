// The cells of a height map as a list of records, loaded whole into the two flat lists that every call of a map takes.
// The functions that take the records are thin: what a cell's numbers are, and where they go, is decided for one cell.
#![tactic(auto)]

ghost use Rattle.std.specs.Prelude.{◌≡◌, ◌<◌, ◌≤◌, ◌+◌, ◌*◌, length};
ghost use Rattle.cells.specs.Cells.{numbers_to, neighbours_to, Storing, loadable, load_count, load_answer, Loading};

use answer::answer::{Answer, Refusal};
use face::triangle::{Counts, IndexPlace, VertexNumber};

// Its height, its position, of each side the left end and the right (x and z), and the neighbours beyond the sides.
#[repr(C)]
#[derive(Clone, Copy)]
pub struct Cell {
    pub height: f32,
    pub x: f32,
    pub z: f32,
    pub ends: [f32; 24],
    pub neighbours: [u32; 6],
}

// The k-th cell's numbers and neighbours, where flat lists have them.
fn put_cell(c: &Cell, k: usize, cells: &mut [f32], neighbours: &mut [u32])
    requires { (27 * k + 27 ≤ length cells.old) × (6 * k + 6 ≤ length neighbours.old) }
    ensures { Storing c.now k cells neighbours }
{
    let at = 27 * k;
    cells[at] = c.height;
    cells[at + 1] = c.x;
    cells[at + 2] = c.z;
    cells[at + 3..at + 27].copy_from_slice(&c.ends);
    let at = 6 * k;
    neighbours[at..at + 6].copy_from_slice(&c.neighbours);
}

fn load_first(records: &[Cell], n: usize, cells: &mut [f32], neighbours: &mut [u32])
    requires { (n ≤ length records.now) × (27 * n ≤ length cells.old) × (6 * n ≤ length neighbours.old) }
    ensures { (cells.new ≡ numbers_to records.now n cells.old) × (neighbours.new ≡ neighbours_to records.now n neighbours.old) }
{
    for k in 0..n {
        put_cell(&records[k], k, cells, neighbours);
    }
}

// Whether so many cells are allowed and fit lists of these lengths. The limit comes first, so no product wraps.
fn is_loadable(records: usize, cells: usize, neighbours: usize) -> bool
    ensures { result ≡ loadable records cells neighbours }
{
    answer::check::is_cell_count(records) && 27 * records <= cells && 6 * records <= neighbours
}

// How many cells a load writes: all or none.
#[tactic(auto, unfolding(crate::specs::Cells::load_count))]
fn load_count(records: usize, cells: usize, neighbours: usize) -> usize
    ensures { result ≡ load_count records cells neighbours }
{
    if is_loadable(records, cells, neighbours) {
        records
    } else {
        0
    }
}

fn load_answer(records: usize, cells: usize, neighbours: usize) -> Answer
    ensures { result ≡ load_answer records cells neighbours }
{
    if is_loadable(records, cells, neighbours) {
        return Ok(Counts {
            vertices: VertexNumber(0),
            indices: IndexPlace(0),
        });
    }
    Err(Refusal::Shape)
}

// The cells' numbers and neighbours from the start of each list on, or nothing.
pub fn load(records: &[Cell], cells: &mut [f32], neighbours: &mut [u32]) -> Answer
    ensures { Loading (λ a. a) records cells neighbours result }
{
    let n = records.len();
    let l = cells.len();
    let m = neighbours.len();
    load_first(records, load_count(n, l, m), cells, neighbours);
    load_answer(n, l, m)
}
