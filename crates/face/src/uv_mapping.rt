// Texture options, after uv_mapping.rs of hexx: flip, scale, offset, then the rectangle.
ghost use Rattle.std.specs.Prelude.{◌≡◌, map};
ghost use Rattle.arith.specs.Fused.{fma};
ghost use Rattle.face.specs.Vec.{length2, reciprocal};
ghost use Rattle.face.specs.Texture.{plain, component, altered, unit_or, halved, wrapped};
ghost use Rattle.face.specs.Speed.{same, one_of_both};

use crate::vec::{Point, Vec2, is_ordinary, is_usable, one_over};

#[derive(Clone, Copy)]
pub struct Flip {
    pub u: bool,
    pub v: bool,
}

#[derive(Clone, Copy)]
pub struct UvOptions {
    pub scale: Vec2,
    pub offset: Vec2,
    pub min: Vec2,
    pub max: Vec2,
    pub flip: Flip,
}

// Scale 1, offset 0, the whole rectangle, no flip: but for -0, which becomes +0, nothing changes.
impl Default for UvOptions {
    ghost is_default = { λ o. o ≡ plain };

    fn default() -> UvOptions {
        UvOptions {
            scale: Vec2 { x: 1.0, y: 1.0 },
            offset: Vec2 { x: 0.0, y: 0.0 },
            min: Vec2 { x: 0.0, y: 0.0 },
            max: Vec2 { x: 1.0, y: 1.0 },
            flip: Flip { u: false, v: false },
        }
    }
}

// Where a factor is 1 or 0, as the width of the default rectangle and the u of a wall's corners are,
// the product needs no rounding and the sum has the one.
fn remap(width: f32, u: f32, min: f32) -> f32
    ensures { result ≡ fma width u min }
{
    if width == 1.0 {
        u + min
    } else if u == 1.0 {
        width + min
    } else if u == 0.0 {
        width * u + min
    } else {
        arith::fused(width, u, min)
    }
}

fn alter_component(flip: bool, scale: f32, offset: f32, min: f32, max: f32, u: f32) -> f32
    ensures { result ≡ component flip scale offset min max u }
{
    let f = if flip { 1.0 - u } else { u };
    remap(max - min, f * scale + offset, min)
}

pub fn alter_uv(o: UvOptions, uv: Vec2) -> Vec2
    ensures { result ≡ altered o uv }
{
    Vec2 {
        x: alter_component(o.flip.u, o.scale.x, o.offset.x, o.min.x, o.max.x, uv.x),
        y: alter_component(o.flip.v, o.scale.y, o.offset.y, o.min.y, o.max.y, uv.y),
    }
}

// By a range, here and in each loop over an array of any length: `map` asks that so many elements fit in memory, and a
// public function asks nothing.
pub fn alter<const N: usize>(o: UvOptions, uvs: [Vec2; N]) -> [Vec2; N]
    ensures { result ≡ map (altered o) uvs.entry }
{
    let mut out = uvs;
    for i in 0..N {
        out[i] = alter_uv(o, uvs[i]);
    }
    out
}

fn unit_or(p: Vec2, k: f32) -> Vec2
    ensures { result ≡ unit_or p k }
{
    if is_usable(k) { p * k } else { p }
}

fn one_of(p: Vec2) -> f32
    ensures { result ≡ reciprocal (length2 p) }
{
    one_over(p.length())
}

// Whether two numbers are the same, their signs too.
fn are_same(a: f32, b: f32) -> bool
    ensures { result ≡ same a b }
{
    a == b && a.to_bits() == b.to_bits()
}

// The reciprocal length of two corners, where their squares are the same, as those of opposite ones
// about the origin are; else 0, which gives no direction.
fn one_of_both(p: Vec2, q: Vec2) -> f32
    ensures { result ≡ one_of_both p q }
{
    let a = p.squared();
    if are_same(a, q.squared()) {
        one_over(arith::root(a))
    } else {
        0.0
    }
}

// From about the origin to about the middle of the texture.
fn halve(q: Vec2) -> Vec2
    ensures { result ≡ halved q }
{
    Vec2 {
        x: q.x / 2.0 + 0.5,
        y: q.y / 2.0 + 0.5,
    }
}

fn wrap_by(p: Vec2, k: f32) -> Vec2
    requires { k ≡ reciprocal (length2 p) }
    ensures { result ≡ wrapped p }
{
    if is_ordinary(k) {
        halve(p * k)
    } else {
        halve(unit_or(p, k))
    }
}

// A corner as a texture coordinate: its direction, moved into the unit square.
pub fn wrap_uv(p: Vec2) -> Vec2
    ensures { result ≡ wrapped p }
{
    wrap_by(p, one_of(p))
}

// A corner and the opposite one.
#[derive(Clone, Copy)]
struct Across {
    near: Vec2,
    far: Vec2,
}

// About the origin one root serves both.
fn wrap_across(p: Vec2, q: Vec2) -> Across
    ensures { (result.near ≡ wrapped p) × (result.far ≡ wrapped q) }
{
    let k = one_of_both(p, q);
    if is_ordinary(k) {
        Across {
            near: halve(p * k),
            far: halve(q * k),
        }
    } else {
        Across {
            near: wrap_uv(p),
            far: wrap_uv(q),
        }
    }
}

pub fn wrap_six(cs: [Vec2; 6]) -> [Vec2; 6]
    ensures { result ≡ map wrapped cs }
{
    let a = wrap_across(cs[0], cs[3]);
    let b = wrap_across(cs[1], cs[4]);
    let c = wrap_across(cs[2], cs[5]);
    [a.near, b.near, c.near, a.far, b.far, c.far]
}
