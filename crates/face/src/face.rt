// Quads and hexagons, after face.rs of hexx. A face has one normal for all its points.
ghost use Rattle.std.specs.Prelude.{◌≡◌, map};
ghost use Rattle.face.specs.Vec.{upright};
ghost use Rattle.face.specs.Face.{quad_with, quad_of, reached, bounded_quad_of, hexagon_of};

use crate::vec::{Point, Vec2, Vec3};

#[derive(Clone, Copy)]
pub struct Quad {
    pub positions: [Vec3; 4],
    pub normal: Vec3,
    pub uvs: [Vec2; 4],
}

#[derive(Clone, Copy)]
pub struct Hexagon {
    pub positions: [Vec3; 6],
    pub normal: Vec3,
    pub uvs: [Vec2; 6],
}

// A point of the plane at a height.
pub fn raise(p: Vec2, y: f32) -> Vec3
    ensures { result ≡ upright p y }
{
    Vec3 { x: p.x, y, z: p.y }
}

// 2 - 1
// | \ |
// 3 - 0
fn quad_with(left: Vec2, right: Vec2, bottom: f32, top: f32, bv: f32, tv: f32) -> Quad
    ensures { result ≡ quad_with left right bottom top bv tv }
{
    let across = left + right;
    let normal = raise(across.direction(across.length()), 0.0);
    let positions = [
        raise(right, bottom),
        raise(right, top),
        raise(left, top),
        raise(left, bottom),
    ];
    let uvs = [
        Vec2 { x: 1.0, y: bv },
        Vec2 { x: 1.0, y: tv },
        Vec2 { x: 0.0, y: tv },
        Vec2 { x: 0.0, y: bv },
    ];
    Quad {
        positions,
        normal,
        uvs,
    }
}

pub fn new_quad(left: Vec2, right: Vec2, bottom: f32, top: f32) -> Quad
    ensures { result ≡ quad_of left right bottom top }
{
    quad_with(left, right, bottom, top, 0.0, 1.0)
}

fn share_reached(min: f32, max: f32, height: f32) -> f32
    ensures { result ≡ reached min max height }
{
    (height - min) / (max - min)
}

// A quad whose v says where its heights lie from min to max.
pub fn new_bounded_quad(left: Vec2, right: Vec2, bottom: f32, top: f32, min: f32, max: f32) -> Quad
    ensures { result ≡ bounded_quad_of left right bottom top min max }
{
    quad_with(
        left,
        right,
        bottom,
        top,
        share_reached(min, max, bottom),
        share_reached(min, max, top),
    )
}

pub fn raise_six(cs: [Vec2; 6], y: f32) -> [Vec3; 6]
    ensures { result ≡ map (λ p. upright p y) cs }
{
    cs.map(|c| raise(c, y))
}

// A hexagon from its six corners, at height 0.
pub fn new_hexagon(corners: [Vec2; 6]) -> Hexagon
    ensures { result ≡ hexagon_of corners }
{
    let positions = raise_six(corners, 0.0);
    let uvs = crate::uv_mapping::wrap_six(corners);
    Hexagon {
        positions,
        normal: Vec3 {
            x: 0.0,
            y: 1.0,
            z: 0.0,
        },
        uvs,
    }
}
