// Laying a face. One test of the limit and of all four buffers comes first; after it no index can
// be too great for its 16 bits, and no write can miss its buffer.
ghost use Rattle.std.specs.Prelude.{◌≡◌, ℕ, Float, List, true, ◌+◌, ◌*◌, ◌≤◌, length, get_or, refl};
ghost use Rattle.face.specs.Lists.{chain};
ghost use Rattle.face.specs.Vec.{off3};
ghost use Rattle.face.specs.Triangles.{inset_triangles, inset_counts, counts};
ghost use Rattle.placement.specs.Placing.{stood};
ghost use Rattle.buffers.specs.Mesh.{also, size_of};
ghost use Rattle.buffers.specs.Laying.{four, three, two, corners, first_corners, laid, lay, reaches_floats, reaches, fits, laid_if_fits};
ghost use Rattle.buffers.specs.Lent.{lending, entering, Become};
ghost use Rattle.buffers.specs.Plain.{plain_mesh};
ghost use Rattle.buffers.specs.Faces.{face_of, inset_mesh, standing, quad_mesh, hexagon_mesh, wall_mesh};

use crate::plain::Plain;
use face::face::{Hexagon, Quad};
use face::inset::{Inset, InsetHexagon, InsetQuad};
use face::triangle::{Counts, IndexPlace, Shape, Triangle, VertexNumber, counts_of, triangle_of};
use face::vec::{Point, Vec2, Vec3};
use placement::placement::{Stand, stand_normal, stand_point};

// How many vertices 16 bits can number.
const LIMIT: usize = 65536;

// Whether a mesh of a size, laid at a place, can be numbered and fits into buffers of these
// lengths. No sum is formed before its parts are known to be small.
#[tactic(auto, unfolding(crate::specs::Laying::reaches))]
pub fn has_room(
    at: Counts,
    size: Counts,
    vertices: usize,
    normals: usize,
    uvs: usize,
    indices: usize,
) -> bool
    ensures { result ≡ reaches (also at size) vertices normals uvs indices }
{
    let v = at.vertices.0;
    let m = size.vertices.0;
    let i = at.indices.0;
    v <= LIMIT
        && m <= LIMIT
        && v + m <= LIMIT
        && i <= indices
        && size.indices.0 <= indices - i
        && has_floats(VertexNumber(v + m), vertices, normals, uvs)
}

fn has_floats(end: VertexNumber, vertices: usize, normals: usize, uvs: usize) -> bool
    requires { end.0 ≤ 65536 }
    ensures { result ≡ reaches_floats end.0 vertices normals uvs }
{
    let v = end.0;
    3 * v <= vertices && 3 * v <= normals && 2 * v <= uvs
}

// A point as the numbers that lie in a buffer.
trait Laid: Point {
    ghost SIZE: { ℕ };

    const SIZE: usize;

    ghost numbers: { Self → List Float };

    fn put(self, buffer: &mut [f32], at: usize)
        requires { at + SIZE ≤ length buffer.old }
        ensures { buffer.new ≡ laid buffer.old at (numbers self) };

    ghost sized: { (p : Self) → length (numbers p) ≡ SIZE };
}

impl Laid for Vec3 {
    ghost SIZE = { 3 };

    const SIZE: usize = 3;

    ghost numbers = { three };

    ghost sized = { λ p. refl };

    fn put(self, buffer: &mut [f32], at: usize) {
        buffer[at] = self.x;
        buffer[at + 1] = self.y;
        buffer[at + 2] = self.z;
    }
}

impl Laid for Vec2 {
    ghost SIZE = { 2 };

    const SIZE: usize = 2;

    ghost numbers = { two };

    ghost sized = { λ p. refl };

    fn put(self, buffer: &mut [f32], at: usize) {
        buffer[at] = self.x;
        buffer[at + 1] = self.y;
    }
}

// The first m of the points.
fn put_all<P: Laid, const N: usize>(buffer: &mut [f32], at: usize, ps: [P; N], m: usize)
    requires points { m ≤ N }
    requires room { at + P.SIZE * m ≤ length buffer.old }
    ensures { buffer.new ≡ laid buffer.old at (chain (λ k. P.numbers (get_or ps k P.off)) m) }
{
    for k in 0..m {
        ps[k].put(buffer, at + P::SIZE * k);
    }
}

// The same, each where it comes to stand.
fn put_stood<const N: usize>(buffer: &mut [f32], at: usize, t: Stand, ps: [Vec3; N], m: usize)
    requires points { m ≤ N }
    requires room { at + 3 * m ≤ length buffer.old }
    ensures { buffer.new ≡ laid buffer.old at (chain (λ k. three (stood t (get_or ps.entry k off3))) m) }
{
    for k in 0..m {
        stand_point(t, ps[k]).put(buffer, at + 3 * k);
    }
}

fn put_normals(buffer: &mut [f32], at: usize, normal: Vec3, m: usize)
    requires { at + 3 * m ≤ length buffer.old }
    ensures { buffer.new ≡ laid buffer.old at (chain (λ k. three normal) m) }
{
    for k in 0..m {
        normal.put(buffer, at + 3 * k);
    }
}

// The vertex numbers of a triangle, each after b others.
fn put_corners(buffer: &mut [u16], at: IndexPlace, b: VertexNumber, t: Triangle)
    requires at_in_bounds { at.0 + 3 ≤ length buffer.old }
    requires b_bound { (t.0.0 + b.0 ≤ 65535) × (t.1.0 + b.0 ≤ 65535) × (t.2.0 + b.0 ≤ 65535) }
    ensures { buffer.new ≡ laid buffer.old at.0 (corners b.0 t) }
{
    let i = at.0;
    buffer[i] = (t.0.0 + b.0) as u16;
    buffer[i + 1] = (t.1.0 + b.0) as u16;
    buffer[i + 2] = (t.2.0 + b.0) as u16;
}

// The first m triangles of a face with its inset, whose vertices come after b others.
fn put_triangles<S: Shape>(
    buffer: &mut [u16],
    at: IndexPlace,
    how: Inset,
    b: VertexNumber,
    m: usize,
)
    requires m_in_bounds { m ≤ length (inset_triangles how S.POINTS S.triangles) }
    requires how_bound { (b.0 + (inset_counts how S.POINTS S.TRIANGLES).vertices.0 ≤ 65536) × (at.0 + 3 * m ≤ length buffer.old) }
    ensures { buffer.new ≡ laid buffer.old at.0 (first_corners b.0 (inset_triangles how S.POINTS S.triangles) m) }
{
    for k in 0..m {
        let t = triangle_of::<S>(how, k);
        put_corners(buffer, IndexPlace(at.0 + 3 * k), b, t);
    }
}

fn put_face<S: Shape, const N: usize>(
    t: Stand,
    how: Inset,
    ps: [Vec3; N],
    normal: Vec3,
    ts: [Vec2; N],
    at: Counts,
    vertices: &mut [f32],
    normals: &mut [f32],
    uvs: &mut [f32],
    indices: &mut [u16],
)
    requires points { 2 * S.POINTS ≤ N }
    requires room { fits at (inset_counts how S.POINTS S.TRIANGLES) (lending vertices normals uvs indices) ≡ true }
    ensures { Become (lay (standing t (inset_mesh how S.POINTS S.TRIANGLES S.triangles ps.entry normal ts.entry)) at) vertices normals uvs indices }
{
    let size = counts_of::<S>(how);
    let b = at.vertices.0;
    let m = size.vertices.0;
    put_stood(vertices, 3 * b, t, ps, m);
    put_normals(normals, 3 * b, stand_normal(t, normal), m);
    put_all(uvs, 2 * b, ts, m);
    put_triangles::<S>(indices, at.indices, how, at.vertices, size.indices.0 / 3);
}

// Lays a face with its inset where it comes to stand. Answers whether there was room; where there was none nothing is
// written.
fn lay_face<S: Shape, const N: usize>(
    t: Stand,
    how: Inset,
    ps: [Vec3; N],
    normal: Vec3,
    ts: [Vec2; N],
    at: Counts,
    vertices: &mut [f32],
    normals: &mut [f32],
    uvs: &mut [f32],
    indices: &mut [u16],
) -> bool
    requires { 2 * S.POINTS ≤ N }
    ensures room { result ≡ fits at (size_of (standing t (inset_mesh how S.POINTS S.TRIANGLES S.triangles ps.entry normal ts.entry))) (entering vertices normals uvs indices) }
    ensures buffers { Become (laid_if_fits (standing t (inset_mesh how S.POINTS S.TRIANGLES S.triangles ps.entry normal ts.entry)) at) vertices normals uvs indices }
{
    let size = counts_of::<S>(how);
    let fits = has_room(
        at,
        size,
        vertices.len(),
        normals.len(),
        uvs.len(),
        indices.len(),
    );
    if fits {
        put_face::<S, N>(t, how, ps, normal, ts, at, vertices, normals, uvs, indices);
    }
    fits
}

// Lays a quad with its inset where it comes to stand: four vertices, or eight. Answers whether there was room; where
// there was none nothing is written.
pub fn lay_quad(
    t: Stand,
    how: Inset,
    q: InsetQuad,
    at: Counts,
    vertices: &mut [f32],
    normals: &mut [f32],
    uvs: &mut [f32],
    indices: &mut [u16],
) -> bool
    ensures room { result ≡ fits at (size_of (standing t (quad_mesh how q))) (entering vertices normals uvs indices) }
    ensures buffers { Become (laid_if_fits (standing t (quad_mesh how q)) at) vertices normals uvs indices }
{
    lay_face::<Quad, 8>(
        t,
        how,
        q.positions,
        q.normal,
        q.uvs,
        at,
        vertices,
        normals,
        uvs,
        indices,
    )
}

// A quad inset, then laid where it comes to stand, if there is room: a part of a wall.
pub fn lay_wall(
    t: Stand,
    how: Inset,
    q: Quad,
    at: Counts,
    vertices: &mut [f32],
    normals: &mut [f32],
    uvs: &mut [f32],
    indices: &mut [u16],
)
    ensures { Become (laid_if_fits (wall_mesh t how q) at) vertices normals uvs indices }
{
    let part = insetting::inset_quad(how, q);
    lay_quad(t, how, part, at, vertices, normals, uvs, indices);
}

// The same of a hexagon: six vertices, or twelve.
pub fn lay_hexagon(
    t: Stand,
    how: Inset,
    h: InsetHexagon,
    at: Counts,
    vertices: &mut [f32],
    normals: &mut [f32],
    uvs: &mut [f32],
    indices: &mut [u16],
) -> bool
    ensures room { result ≡ fits at (size_of (standing t (hexagon_mesh how h))) (entering vertices normals uvs indices) }
    ensures buffers { Become (laid_if_fits (standing t (hexagon_mesh how h)) at) vertices normals uvs indices }
{
    lay_face::<Hexagon, 12>(
        t,
        how,
        h.positions,
        h.normal,
        h.uvs,
        at,
        vertices,
        normals,
        uvs,
        indices,
    )
}

fn put_plain<S: Shape>(
    f: Plain,
    at: Counts,
    vertices: &mut [f32],
    normals: &mut [f32],
    uvs: &mut [f32],
    indices: &mut [u16],
)
    requires { fits at (counts S.POINTS (3 * S.TRIANGLES)) (lending vertices normals uvs indices) ≡ true }
    ensures { Become (lay (face_of S.POINTS f.positions f.normal f.uvs S.triangles) at) vertices normals uvs indices }
{
    let b = at.vertices.0;
    put_all(vertices, 3 * b, f.positions, S::POINTS);
    put_normals(normals, 3 * b, f.normal, S::POINTS);
    put_all(uvs, 2 * b, f.uvs, S::POINTS);
    put_triangles::<S>(indices, at.indices, Inset::None, at.vertices, S::TRIANGLES);
}

// A face without an inset, as it stands, if there is room.
fn lay_plain<S: Shape>(
    f: Plain,
    at: Counts,
    vertices: &mut [f32],
    normals: &mut [f32],
    uvs: &mut [f32],
    indices: &mut [u16],
)
    ensures { Become (laid_if_fits (face_of S.POINTS f.positions f.normal f.uvs S.triangles) at) vertices normals uvs indices }
{
    if has_room(
        at,
        counts_of::<S>(Inset::None),
        vertices.len(),
        normals.len(),
        uvs.len(),
        indices.len(),
    ) {
        put_plain::<S>(f, at, vertices, normals, uvs, indices);
    }
}

pub fn lay_plain_quad(
    f: Plain,
    at: Counts,
    vertices: &mut [f32],
    normals: &mut [f32],
    uvs: &mut [f32],
    indices: &mut [u16],
)
    ensures { Become (laid_if_fits (plain_mesh 4 f) at) vertices normals uvs indices }
{
    lay_plain::<Quad>(f, at, vertices, normals, uvs, indices);
}

pub fn lay_plain_hexagon(
    f: Plain,
    at: Counts,
    vertices: &mut [f32],
    normals: &mut [f32],
    uvs: &mut [f32],
    indices: &mut [u16],
)
    ensures { Become (laid_if_fits (plain_mesh 6 f) at) vertices normals uvs indices }
{
    lay_plain::<Hexagon>(f, at, vertices, normals, uvs, indices);
}
