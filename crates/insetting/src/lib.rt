// The insets of quads and hexagons, after face.rs of hexx: the inner points.
#![tactic(auto)]

ghost use Rattle.std.specs.Prelude.{◌≡◌, ◌+◌, ◌<◌, ◌≤◌, ◌++◌, map, Float};
ghost use Rattle.face.specs.Vec.{middle, minus3, length3};
ghost use Rattle.face.specs.Inset.{shorter, along, inset_quad_of, inset_hexagon_of};
ghost use Rattle.insetting.specs.Edges.{toward, edge_step, along2, edges, moved, quad_around, hexagon_around};

use face::face::{Hexagon, Quad};
use face::inset::{Inset, InsetHexagon, InsetQuad};
use face::vec::{Point, Vec2, Vec3};
use std::num::nearest_usize_to_f32;

// The sum from +0 in order, over the count.
pub fn centroid<P: Point, const N: usize>(ps: [P; N]) -> P
    ensures { result ≡ middle P.plus P.zero P.over ps }
{
    ps.iter().fold(P::zero(), |sum, p| sum + *p) / nearest_usize_to_f32(N)
}

fn toward<P: Point>(c: P, k: f32, p: P) -> P
    ensures { result ≡ toward P.plus P.minus P.times c k p }
{
    p + (c - p) * k
}

fn shrink<P: Point, const N: usize>(ps: [P; N], k: f32) -> [P; N]
    ensures { result ≡ map (toward P.plus P.minus P.times (middle P.plus P.zero P.over ps) k) ps }
{
    let c = centroid(ps);
    let mut out = ps;
    for i in 0..N {
        out[i] = toward(c, k, ps[i]);
    }
    out
}

// The shorter of two lengths, as Rust's `min` has it: the other one where one is a NaN.
fn shorter_of(a: f32, b: f32) -> f32
    ensures { result ≡ shorter a b }
{
    if b < a || a != a { b } else { a }
}

// A point that goes a way along an edge, of which the difference and the length are given: in space by its
// direction, in the plane by a share of it.
trait Edged: Point {
    ghost along: { Self → Float → Float → Self };

    fn along(self, span: f32, dist: f32) -> Self
        ensures { result ≡ along self span dist };
}

impl Edged for Vec3 {
    ghost along = { along };

    fn along(self, span: f32, dist: f32) -> Vec3 {
        self.direction(span) * dist
    }
}

impl Edged for Vec2 {
    ghost along = { along2 };

    fn along(self, span: f32, dist: f32) -> Vec2 {
        self * (dist / span)
    }
}

// By the shorter of its two edges, times the scale; lp and ln are how long the edges are.
fn edge_step<P: Edged>(k: f32, lp: f32, ln: f32, p: P, prev: P, next: P) -> P
    ensures { result ≡ edge_step P.plus P.minus P.along k lp ln p prev next }
{
    let dist = shorter_of(lp, ln) * k;
    let forward = p + (next - p).along(ln, dist);
    forward + (prev - p).along(lp, dist)
}

// An edge is as long from either end, so one length serves both of its points.
fn length_of(from: Vec3, to: Vec3) -> f32
    ensures { result ≡ length3 (minus3 to from) }
{
    (to - from).length()
}

fn edge_lengths<const N: usize>(ps: [Vec3; N]) -> [f32; N]
    ensures { result ≡ edges ps.entry }
{
    let mut out = [0.0; N];
    for i in 0..N {
        let a = (i + 1) % N;
        out[i] = length_of(ps[i], ps[a]);
    }
    out
}

fn move_along<P: Edged, const N: usize>(ps: [P; N], ls: [f32; N], k: f32) -> [P; N]
    requires { N ≤ 6 }
    ensures { result ≡ moved (edge_step P.plus P.minus P.along k) P.off ls.entry ps }
{
    let mut out = ps;
    for i in 0..N {
        let b = (i + (N - 1)) % N;
        let a = (i + 1) % N;
        out[i] = edge_step(k, ls[b], ls[i], ps[i], ps[b], ps[a]);
    }
    out
}

// M is 2N, which a type cannot say.
fn join<P: Point, const N: usize, const M: usize>(a: [P; N], b: [P; N]) -> [P; M]
    requires { M ≡ N + N }
    ensures { result ≡ a ++ b }
{
    let mut out = [P::zero(); M];
    for i in 0..N {
        out[i] = a[i];
        out[N + i] = b[i];
    }
    out
}

// Quads and hexagons are structs of their own by the project's rule, so two functions make each.
fn quad_around(q: Quad, inner: [Vec3; 4], texture: [Vec2; 4]) -> InsetQuad
    ensures { result ≡ quad_around q inner texture }
{
    InsetQuad {
        positions: join(q.positions, inner),
        normal: q.normal,
        uvs: join(q.uvs, texture),
    }
}

fn hexagon_around(h: Hexagon, inner: [Vec3; 6], texture: [Vec2; 6]) -> InsetHexagon
    ensures { result ≡ hexagon_around h inner texture }
{
    InsetHexagon {
        positions: join(h.positions, inner),
        normal: h.normal,
        uvs: join(h.uvs, texture),
    }
}

pub fn inset_quad(how: Inset, q: Quad) -> InsetQuad
    ensures { result ≡ inset_quad_of how q }
{
    let ps = q.positions;
    let ts = q.uvs;
    match how {
        Inset::None => quad_around(q, ps, ts),
        Inset::Centroid(k, _) => quad_around(q, shrink(ps, k), shrink(ts, k)),
        Inset::SmallestEdge(k, _) => {
            let ls = edge_lengths(ps);
            quad_around(q, move_along(ps, ls, k), move_along(ts, ls, k))
        }
    }
}

pub fn inset_hexagon(how: Inset, h: Hexagon) -> InsetHexagon
    ensures { result ≡ inset_hexagon_of how h }
{
    let ps = h.positions;
    let ts = h.uvs;
    match how {
        Inset::None => hexagon_around(h, ps, ts),
        Inset::Centroid(k, _) => hexagon_around(h, shrink(ps, k), shrink(ts, k)),
        Inset::SmallestEdge(k, _) => {
            let ls = edge_lengths(ps);
            hexagon_around(h, move_along(ps, ls, k), move_along(ts, ls, k))
        }
    }
}
