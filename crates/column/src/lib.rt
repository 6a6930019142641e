// What a column is, after column_builder.rs of hexx: its job, its tests and its counts; in names.rt the numbers of its
// faces, in window.rt their places, in wall.rt a side and in caps.rt where the caps stand. All by value.
#![tactic(auto)]

pub mod caps;
pub mod names;
pub mod wall;
pub mod window;

ghost use Rattle.std.specs.Prelude.{◌≡◌, ◌+◌, ◌^◌, ◌<◌, ◌≤◌, []};
ghost use Rattle.answer.specs.Checks.{every};
ghost use Rattle.placement.specs.Options.{choice_names};
ghost use Rattle.buffers.specs.Mesh.{none, also};
ghost use Rattle.column.specs.Column.{parts_of, delta, all_named, lists, lent, side_at, shape_of, place_of, range_of, planned};
ghost use Rattle.column.specs.Counts.{many, side_counts, cap_counts, sides_counts, column_counts};

use answer::answer::{Answer, Refusal};
use face::face::{Hexagon, Quad};
use face::triangle::{Counts, IndexPlace, VertexNumber};
use face::vec::Vec2;
use placement::options::Choice;
use placement::placement::Placement;

// An enum of our own, no `Option`: a rule of this repository.
#[derive(Clone, Copy)]
pub enum Subdivisions {
    Absent,
    Of(u32),
}

#[derive(Clone, Copy)]
pub struct Side {
    pub option: Choice,
}

// A face of a column: a part of a side, by the numbers of both, or a cap.
#[derive(Clone, Copy)]
pub enum Name {
    OfSide(u8, u32),
    Top,
    Bottom,
}

#[derive(Clone, Copy)]
pub struct Column {
    pub height: f32,
    pub subdivisions: Subdivisions,
    pub sides: [Side; 6],
    pub top: Choice,
    pub bottom: Choice,
    pub position: Vec2,
    pub placement: Placement,
}

// How many parts a side has: at least one.
pub fn parts_of(s: Subdivisions) -> u32
    ensures { result ≡ parts_of s }
{
    match s {
        Subdivisions::Absent | Subdivisions::Of(0) => 1,
        Subdivisions::Of(n) => n,
    }
}

pub fn delta_of(job: Column) -> f32
    ensures { result ≡ delta job }
{
    job.height / std::num::nearest_u32_to_f32(parts_of(job.subdivisions))
}

fn all_sides_named(sides: [Side; 6], entries: usize) -> bool
    ensures { result ≡ every (λ x. choice_names x.option entries) sides }
{
    sides.iter().all(|side| placement::options::choice_names(side.option, entries))
}

fn all_named(job: Column, entries: usize) -> bool
    ensures { result ≡ all_named job entries }
{
    all_sides_named(job.sides, entries)
        && placement::options::choice_names(job.top, entries)
        && placement::options::choice_names(job.bottom, entries)
}

fn zero() -> Counts
    ensures { result ≡ none }
{
    Counts {
        vertices: VertexNumber(0),
        indices: IndexPlace(0),
    }
}

pub(crate) fn add(a: Counts, b: Counts) -> Counts
    requires { (a.vertices.0 + b.vertices.0 < 2 ^ 64) × (a.indices.0 + b.indices.0 < 2 ^ 64) }
    ensures { result ≡ also a b }
{
    Counts {
        vertices: VertexNumber(a.vertices.0 + b.vertices.0),
        indices: IndexPlace(a.indices.0 + b.indices.0),
    }
}

pub(crate) fn times(n: u32, c: Counts) -> Counts
    requires { (c.vertices.0 ≤ 8) × (c.indices.0 ≤ 32) }
    ensures product { result ≡ many n c }
    ensures small { (result.vertices.0 ≤ 137438953472) × (result.indices.0 ≤ 137438953472) }
{
    let k = n as usize;
    Counts {
        vertices: VertexNumber(k * c.vertices.0),
        indices: IndexPlace(k * c.indices.0),
    }
}

pub fn side_counts(c: Choice, s: u32, numbers: &[f32], marks: &[u8]) -> Counts
    ensures { result ≡ side_counts numbers.now marks.now s c }
{
    match c {
        Choice::Absent => zero(),
        Choice::With(k) => {
            let inset = placement::options::option_at(numbers, marks, k).inset;
            times(s, face::triangle::counts_of::<Quad>(inset))
        }
    }
}

pub fn cap_counts(c: Choice, numbers: &[f32], marks: &[u8]) -> Counts
    ensures { result ≡ cap_counts numbers.now marks.now c }
{
    match c {
        Choice::Absent => zero(),
        Choice::With(k) => {
            let inset = placement::options::option_at(numbers, marks, k).inset;
            face::triangle::counts_of::<Hexagon>(inset)
        }
    }
}

// The option of a side; there is no seventh side.
pub fn side_option(sides: [Side; 6], d: u8) -> Choice
    ensures { result ≡ side_at sides d }
{
    match sides.get(d as usize) {
        Some(side) => side.option,
        None => Choice::Absent,
    }
}

// The counts of the first n sides.
pub(crate) fn sides_counts(sides: [Side; 6], n: u8, s: u32, numbers: &[f32], marks: &[u8]) -> Counts
    ensures sum { result ≡ sides_counts numbers.now marks.now s sides n }
    ensures small { (result.vertices.0 ≤ 35046933135360) × (result.indices.0 ≤ 35046933135360) }
{
    let mut t = zero();
    for d in 0..n {
        t = add(t, side_counts(side_option(sides, d), s, numbers, marks));
    }
    t
}

fn column_counts(job: Column, numbers: &[f32], marks: &[u8]) -> Counts
    ensures { result ≡ column_counts job numbers.now marks.now }
{
    let walls = sides_counts(job.sides, 6, parts_of(job.subdivisions), numbers, marks);
    let caps = add(
        cap_counts(job.top, numbers, marks),
        cap_counts(job.bottom, numbers, marks),
    );
    add(walls, caps)
}

fn is_shape(job: Column, pairs: &[f32], corners: &[f32], numbers: &[f32], marks: &[u8]) -> bool
    ensures { result ≡ shape_of job (lent pairs corners numbers marks) }
{
    answer::check::is_exactly(pairs.len(), 6, 4)
        && answer::check::is_exactly(corners.len(), 6, 2)
        && placement::options::is_table(numbers, marks)
        && all_named(job, placement::options::entries(marks))
}

fn is_place(job: Column) -> bool
    ensures { result ≡ place_of job }
{
    answer::check::in_range(job.height)
        && answer::check::in_range2(job.position)
        && placement::placement::placement_in_range(job.placement)
}

fn is_in_range(job: Column, pairs: &[f32], corners: &[f32], numbers: &[f32]) -> bool
    ensures { result ≡ range_of job (lists pairs.now corners.now numbers.now []) }
{
    answer::check::all_in_range(pairs)
        && answer::check::all_in_range(corners)
        && answer::check::all_in_range(numbers)
        && is_place(job)
}

// The counts of the job, or why it is refused. The parts are not walked.
pub fn plan(job: Column, pairs: &[f32], corners: &[f32], numbers: &[f32], marks: &[u8]) -> Answer
    ensures { result ≡ planned job (lent pairs corners numbers marks) }
{
    if is_shape(job, pairs, corners, numbers, marks) {
        if is_in_range(job, pairs, corners, numbers) {
            return answer::answer::limit(column_counts(job, numbers, marks));
        }
        return Err(Refusal::Range);
    }
    Err(Refusal::Shape)
}
