// A side of a column: what its parts share, and one of its parts.
ghost use Rattle.std.specs.Prelude.{◌≡◌};
ghost use Rattle.placement.specs.Options.{option_for};
ghost use Rattle.column.specs.Column.{side_at};
ghost use Rattle.column.specs.Wall.{wall_of, part_at};

use face::face::Quad;
use face::inset::Inset;
use face::vec::{Vec2, Vec3};
use placement::placement::{Choice3, Stand};

// The normal and the altered uvs are the same at every height.
#[derive(Clone, Copy)]
pub struct Wall {
    pub left: Vec2,
    pub right: Vec2,
    pub delta: f32,
    pub normal: Vec3,
    pub uvs: [Vec2; 4],
    pub inset: Inset,
    pub stand: Stand,
}

// An absent side has a wall too, of which no part is laid.
pub fn wall_of(job: crate::Column, d: u8, pairs: &[f32], numbers: &[f32], marks: &[u8]) -> Wall
    ensures { result ≡ wall_of job pairs.now (option_for numbers.now marks.now (side_at job.sides d)) d }
{
    let o = placement::options::option_for(crate::side_option(job.sides, d), numbers, marks);
    let at = 4 * d as u32;
    let left = plane_builder::cap::pair_at(pairs, at);
    let right = plane_builder::cap::pair_at(pairs, at + 2);
    let base = face::face::new_quad(left, right, 0.0, 0.0);
    Wall {
        left,
        right,
        delta: crate::delta_of(job),
        normal: base.normal,
        uvs: face::uv_mapping::alter(o.uv, base.uvs),
        inset: o.inset,
        stand: placement::placement::stand_by(
            Choice3::Absent,
            false,
            placement::placement::settle(job.placement, job.position),
        ),
    }
}

pub fn part_at(w: Wall, p: u32) -> Quad
    ensures { result ≡ part_at w p }
{
    let left = w.left;
    let right = w.right;
    let uvs = w.uvs;
    let foot = w.delta * std::num::nearest_u32_to_f32(p);
    let head = foot + w.delta;
    Quad {
        positions: [
            Vec3 {
                x: right.x,
                y: foot,
                z: right.y,
            },
            Vec3 {
                x: right.x,
                y: head,
                z: right.y,
            },
            Vec3 {
                x: left.x,
                y: head,
                z: left.y,
            },
            Vec3 {
                x: left.x,
                y: foot,
                z: left.y,
            },
        ],
        normal: w.normal,
        uvs,
    }
}
