// The cheap column, after `cheap_hexagonal_column` of hexx: a job of one face, whose vertices the
// top and the sides share. It has no bottom.
#![tactic(auto)]

ghost use Rattle.std.specs.Prelude.{◌≡◌, ◌++◌, map, ◌+◌, ◌*◌, ◌≤◌, List, length, refl};
ghost use Rattle.std.specs.Float.Ieee.{Float};
ghost use Rattle.face.specs.Lists.{each};
ghost use Rattle.face.specs.Vec.{minus3};
ghost use Rattle.buffers.specs.Mesh.{none};
ghost use Rattle.buffers.specs.Laying.{three, two, corners, spread, laid, lay};
ghost use Rattle.buffers.specs.Lent.{lending, entering, Become};
ghost use Rattle.mesh.specs.Stored.{corner_from};
ghost use Rattle.cheap_column.specs.CheapColumn.{mesh_over, cheap_triangles, range_of, planned, whole_answer, face_answer, built, faced, faces_told, window_told, Roomed};

use answer::answer::{Answer, Refusal};
use face::triangle::{Counts, IndexPlace, VertexNumber};
use face::vec::{Vec2, Vec3};
use mesh::windows::{Faces, Window};

// The middle of the hexagon and the height of its top; the six corners come in a list of twelve
// numbers, the hexagon's own as the layout places them.
#[derive(Clone, Copy)]
pub struct CheapColumn {
    pub centre: Vec2,
    pub height: f32,
}

const INDICES: [u16; 48] = [
    0, 2, 1, 3, 5, 4, 0, 5, 3, 3, 2, 0, 0, 1, 7, 7, 6, 0, 1, 2, 8, 8, 7, 1, 2, 3, 9, 9, 8, 2, 3, 4,
    10, 10, 9, 3, 4, 5, 11, 11, 10, 4, 5, 0, 6, 6, 11, 5,
];

// All corners are read before anything is laid: a store might change what a lent list holds, for all the compiler knows.
fn corners_of(corners: &[f32]) -> [Vec2; 6]
    requires { length corners.now ≡ 12 }
    ensures { result ≡ each (corner_from corners.now) 6 }
{
    std::array::from_fn(|k| Vec2 {
        x: corners[2 * k],
        y: corners[2 * k + 1],
    })
}

fn is_in_range(job: CheapColumn, corners: &[f32]) -> bool
    ensures { result ≡ range_of job corners.now }
{
    answer::check::all_in_range(corners)
        && answer::check::in_range2(job.centre)
        && answer::check::in_range(job.height)
}

fn from_middle(top: [Vec3; 6], middle: Vec3) -> [Vec3; 6]
    ensures { result ≡ map (λ p. minus3 p middle) top }
{
    top.map(|p| p - middle)
}

// What the numbers of a vertex are: three of a point, two of a uv.
trait Numbered<const N: usize>: Copy {
    ghost numbers: { Self → List Float };

    fn numbers(self) -> [f32; N]
        ensures { result ≡ numbers self };

    ghost sized: { (p : Self) → length (numbers p) ≡ N };
}

impl Numbered<3> for Vec3 {
    ghost numbers = { three };

    ghost sized = { λ p. refl };

    fn numbers(self) -> [f32; 3] {
        [self.x, self.y, self.z]
    }
}

impl Numbered<2> for Vec2 {
    ghost numbers = { two };

    ghost sized = { λ p. refl };

    fn numbers(self) -> [f32; 2] {
        [self.x, self.y]
    }
}

fn put_row<const N: usize, T: Numbered<N>>(buffer: &mut [f32], at: usize, items: &[T])
    requires { at + N * length items.now ≤ length buffer.old }
    ensures { buffer.new ≡ laid buffer.old at (spread T.numbers items.now) }
{
    for (k, item) in items.iter().enumerate() {
        let j = at + N * k;
        buffer[j..j + N].copy_from_slice(&item.numbers());
    }
}

// A row after another.
fn put_rows<const N: usize, T: Numbered<N>>(buffer: &mut [f32], upper: &[T], lower: &[T])
    requires { N * (length upper.now + length lower.now) ≤ length buffer.old }
    ensures { buffer.new ≡ laid buffer.old 0 (spread T.numbers (upper.now ++ lower.now)) }
{
    put_row(buffer, 0, upper);
    put_row(buffer, N * upper.len(), lower);
}

fn put_indices(buffer: &mut [u16])
    requires { 48 ≤ length buffer.old }
    ensures { buffer.new ≡ laid buffer.old 0 (spread (corners 0) cheap_triangles) }
{
    buffer[..48].copy_from_slice(&INDICES);
}

fn put(
    job: CheapColumn,
    cs: [Vec2; 6],
    vertices: &mut [f32],
    normals: &mut [f32],
    uvs: &mut [f32],
    indices: &mut [u16],
)
    requires { Roomed (lending vertices normals uvs indices) }
    ensures { Become (lay (mesh_over job cs) none) vertices normals uvs indices }
{
    let top = face::face::raise_six(cs, job.height);
    let foot = face::face::raise_six(cs, 0.0);
    let outward = from_middle(top, face::face::raise(job.centre, job.height));
    let ts = face::uv_mapping::wrap_six(cs);
    put_rows(vertices, &top, &foot);
    put_rows(normals, &outward, &outward);
    put_rows(uvs, &ts, &ts);
    put_indices(indices);
}

// The counts of the job, or why it is refused.
pub fn plan(job: CheapColumn, corners: &[f32]) -> Answer
    ensures { result ≡ planned job corners.now }
{
    if corners.len() != 12 {
        return Err(Refusal::Shape);
    }
    if is_in_range(job, corners) {
        return answer::answer::limit(Counts {
            vertices: VertexNumber(12),
            indices: IndexPlace(48),
        });
    }
    Err(Refusal::Range)
}

// How many faces the job has, or why it is refused.
pub fn faces(job: CheapColumn, corners: &[f32]) -> Result<Faces, Refusal>
    ensures { result ≡ faces_told job corners.now }
{
    mesh::windows::faces_if_done(plan(job, corners), 1)
}

// The places of a face, by its number: those of all, as there is one face.
pub fn window(job: CheapColumn, corners: &[f32], number: usize) -> Result<Window, Refusal>
    ensures { result ≡ window_told job corners.now number }
{
    let answer = answer::answer::name(plan(job, corners), number, 1);
    mesh::windows::window_of_all(answer)
}

pub fn build(
    job: CheapColumn,
    corners: &[f32],
    vertices: &mut [f32],
    normals: &mut [f32],
    uvs: &mut [f32],
    indices: &mut [u16],
) -> Answer
    ensures answer { result ≡ whole_answer job corners.now (entering vertices normals uvs indices) }
    ensures buffers { Become (built job corners.now) vertices normals uvs indices }
{
    let whole = answer::answer::room(
        plan(job, corners),
        vertices.len(),
        normals.len(),
        uvs.len(),
        indices.len(),
    )?;
    put(job, corners_of(corners), vertices, normals, uvs, indices);
    Ok(whole)
}

// The one face of the job, whose number is 0.
pub fn face(
    job: CheapColumn,
    corners: &[f32],
    number: usize,
    vertices: &mut [f32],
    normals: &mut [f32],
    uvs: &mut [f32],
    indices: &mut [u16],
) -> Answer
    ensures answer { result ≡ face_answer job corners.now number (entering vertices normals uvs indices) }
    ensures buffers { Become (faced job corners.now number) vertices normals uvs indices }
{
    let whole = answer::answer::room(
        answer::answer::name(plan(job, corners), number, 1),
        vertices.len(),
        normals.len(),
        uvs.len(),
        indices.len(),
    )?;
    put(job, corners_of(corners), vertices, normals, uvs, indices);
    Ok(whole)
}
