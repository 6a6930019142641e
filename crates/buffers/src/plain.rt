// A face without an inset, by value where it stands. Speed alone asks for it: what is so small is made and laid at one
// go, where a face with its inset goes through memory.
ghost use Rattle.std.specs.Prelude.{◌≡◌, ◌<◌, map};
ghost use Rattle.placement.specs.Placing.{stood};
ghost use Rattle.placement.specs.Speed.{shift_of};
ghost use Rattle.buffers.specs.Plain.{six_of, shifted_quad, stood_quad, stood_hexagon};

use face::face::Quad;
use face::inset::InsetHexagon;
use face::vec::{Point, Vec2, Vec3};
use placement::placement::{Stand, is_shift, shift_point, stand_normal, stand_point};

// The six points of a hexagon; or the four of a quad, and two that are not laid.
#[derive(Clone, Copy)]
pub struct Plain {
    pub positions: [Vec3; 6],
    pub normal: Vec3,
    pub uvs: [Vec2; 6],
}

fn shift_all<const N: usize>(t: Stand, ps: [Vec3; N]) -> [Vec3; N]
    ensures { result ≡ map (shift_of t) ps.entry }
{
    let mut out = ps;
    for k in 0..N {
        out[k] = shift_point(t, ps[k]);
    }
    out
}

fn stand_all<const N: usize>(t: Stand, ps: [Vec3; N]) -> [Vec3; N]
    ensures { result ≡ map (stood t) ps.entry }
{
    if is_shift(t) {
        return shift_all(t, ps);
    }
    let mut out = ps;
    for k in 0..N {
        out[k] = stand_point(t, ps[k]);
    }
    out
}

// The first six; of fewer, the first ones again.
fn six<P: Point, const N: usize>(ps: [P; N]) -> [P; 6]
    requires { 0 < N }
    ensures { result ≡ six_of P.off ps }
{
    let mut out = [P::zero(); 6];
    for k in 0..6 {
        out[k] = ps[k % N];
    }
    out
}

// A quad that is only moved.
pub fn shift_quad(t: Stand, q: Quad) -> Plain
    ensures { result ≡ shifted_quad t q }
{
    Plain {
        positions: six(shift_all(t, q.positions)),
        normal: q.normal,
        uvs: six(q.uvs),
    }
}

pub fn stand_quad(t: Stand, q: Quad) -> Plain
    ensures { result ≡ stood_quad t q }
{
    Plain {
        positions: six(stand_all(t, q.positions)),
        normal: stand_normal(t, q.normal),
        uvs: six(q.uvs),
    }
}

// The outer points of a hexagon: where it has no inset, no others are laid.
pub fn stand_hexagon(t: Stand, h: InsetHexagon) -> Plain
    ensures { result ≡ stood_hexagon t h }
{
    let normal = stand_normal(t, h.normal);
    Plain {
        positions: stand_all(t, six(h.positions)),
        normal,
        uvs: six(h.uvs),
    }
}
