// The triangles of quads and hexagons, inset or not, after face.rs of hexx: one by its number.
ghost use Rattle.std.specs.Prelude.{◌≡◌, ℕ, List, true, ◌*◌, ◌≤◌, ◌<◌, get_or};
ghost use Rattle.face.specs.declared.triangle.Triangle.{Triangle};
ghost use Rattle.face.specs.Lists.{chain};
ghost use Rattle.face.specs.Triangles.{tri, no_triangle, quad_triangles, hexagon_triangles, reversed_if, connecting, kept, ringed, inset_triangles, counts, ring_counts, inset_counts};
ghost use Rattle.face.specs.Shapes.{IsShape, quad_is_shape, hexagon_is_shape};

use crate::face::{Hexagon, Quad};
use crate::inset::Inset;

// The number of a vertex, within its face or within a whole mesh.
#[derive(Clone, Copy, Default, PartialEq, Eq)]
pub struct VertexNumber(pub usize);

// A place in the list of indices.
#[derive(Clone, Copy, Default, PartialEq, Eq)]
pub struct IndexPlace(pub usize);

#[derive(Clone, Copy, Default, PartialEq, Eq)]
pub struct Triangle(pub VertexNumber, pub VertexNumber, pub VertexNumber);

// How many: the vertex number and the index place that come after the last.
#[derive(Clone, Copy, Default, PartialEq, Eq)]
pub struct Counts {
    pub vertices: VertexNumber,
    pub indices: IndexPlace,
}

// A shape of face: so many points, in so many triangles of its own.
pub trait Shape {
    ghost POINTS: { ℕ };

    const POINTS: usize;

    ghost TRIANGLES: { ℕ };

    const TRIANGLES: usize;

    ghost triangles: { List Triangle };

    // Its t-th triangle, of vertices counted from m, and three zeros where there is none.
    fn own_triangle(m: u8, t: usize) -> Triangle
        ensures { result ≡ get_or (kept true m triangles) t no_triangle };

    ghost laws: { IsShape POINTS TRIANGLES triangles };
}

impl Shape for Quad {
    ghost POINTS = { 4 };

    const POINTS: usize = 4;

    ghost TRIANGLES = { 2 };

    const TRIANGLES: usize = 2;

    ghost triangles = { quad_triangles };

    ghost laws = { quad_is_shape };

    fn own_triangle(m: u8, t: usize) -> Triangle {
        let m = m as usize;
        match t {
            0 => numbered(2 + m, 1 + m, m),
            1 => numbered(m, 3 + m, 2 + m),
            _ => numbered(0, 0, 0),
        }
    }
}

impl Shape for Hexagon {
    ghost POINTS = { 6 };

    const POINTS: usize = 6;

    ghost TRIANGLES = { 4 };

    const TRIANGLES: usize = 4;

    ghost triangles = { hexagon_triangles };

    ghost laws = { hexagon_is_shape };

    fn own_triangle(m: u8, t: usize) -> Triangle {
        let m = m as usize;
        match t {
            0 => numbered(m, 2 + m, 1 + m),
            1 => numbered(3 + m, 5 + m, 4 + m),
            2 => numbered(m, 5 + m, 3 + m),
            3 => numbered(3 + m, 2 + m, m),
            _ => numbered(0, 0, 0),
        }
    }
}

fn numbered(a: usize, b: usize, c: usize) -> Triangle
    ensures { result ≡ tri a b c }
{
    Triangle(VertexNumber(a), VertexNumber(b), VertexNumber(c))
}

fn reverse_if(back: bool, t: Triangle) -> Triangle
    ensures { result ≡ reversed_if back t }
{
    let Triangle(a, b, c) = t;
    if back { Triangle(c, b, a) } else { t }
}

// The t-th of the 2m triangles that connect m outer points to the inner ones.
fn connection(back: bool, m: usize, t: usize) -> Triangle
    requires { (0 < m) × (m ≤ 6) × (t < 2 * m) }
    ensures { result ≡ get_or (chain (connecting back m) m) t no_triangle }
{
    let v = t / 2;
    let n = (v + 1) % m;
    if t % 2 == 0 {
        reverse_if(back, numbered(n + m, n, v))
    } else {
        reverse_if(back, numbered(v, v + m, n + m))
    }
}

// The connecting triangles, then the inner ones if they are kept. These turn at no scale, as the constant says.
fn ring_triangle<S: Shape>(k: f32, keep: bool, t: usize) -> Triangle
    ensures { result ≡ get_or (ringed k keep S.POINTS S.triangles) t no_triangle }
{
    let outer = 2 * S::POINTS;
    if t < outer {
        connection(k < 0.0, S::POINTS, t)
    } else if keep {
        reverse_if(false, S::own_triangle(S::POINTS as u8, t - outer))
    } else {
        numbered(0, 0, 0)
    }
}

// The t-th triangle of a face with its inset, and three zeros where there is none: no `Option`, since the promise
// stays what it was.
pub fn triangle_of<S: Shape>(how: Inset, t: usize) -> Triangle
    ensures { result ≡ get_or (inset_triangles how S.POINTS S.triangles) t no_triangle }
{
    match how {
        Inset::None => S::own_triangle(0, t),
        Inset::Centroid(k, keep) | Inset::SmallestEdge(k, keep) => ring_triangle::<S>(k, keep, t),
    }
}

fn counted(vertices: usize, indices: usize) -> Counts
    ensures { result ≡ counts vertices indices }
{
    Counts {
        vertices: VertexNumber(vertices),
        indices: IndexPlace(indices),
    }
}

fn ring_counts<S: Shape>(keep: bool) -> Counts
    ensures { result ≡ ring_counts keep S.POINTS S.TRIANGLES }
{
    let inner = if keep { S::TRIANGLES } else { 0 };
    counted(2 * S::POINTS, 6 * S::POINTS + 3 * inner)
}

// How many vertices and indices a face has with its inset.
pub fn counts_of<S: Shape>(how: Inset) -> Counts
    ensures { result ≡ inset_counts how S.POINTS S.TRIANGLES }
{
    match how {
        Inset::None => counted(S::POINTS, 3 * S::TRIANGLES),
        Inset::Centroid(_, keep) | Inset::SmallestEdge(_, keep) => ring_counts::<S>(keep),
    }
}
