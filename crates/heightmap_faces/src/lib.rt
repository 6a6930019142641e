// The faces of a height map by value, with what they share worked out once: a cap by its option, a wall by its option and
// the range of heights, and where each comes to stand.
#![tactic(auto)]

pub mod kept;
pub mod named;

ghost use Rattle.std.specs.Prelude.{◌≡◌};
ghost use Rattle.heightmap.specs.HeightMap.{cap_offset};
ghost use Rattle.heightmap_faces.specs.Speed.{up_of, skin_of, level_of, level_quad, top_of, lifted};

use face::face::Quad;
use face::inset::{Inset, InsetHexagon};
use face::uv_mapping::UvOptions;
use face::vec::{Vec2, Vec3};
use heightmap::Span;
use placement::options::FaceOptions;
use placement::placement::{Choice3, Stand};

// What the walls of an option share: the u of their left and of their right end hang on the option alone, their v on the
// range and a height.
#[derive(Clone, Copy)]
pub struct Skin {
    pub inset: Inset,
    pub uv: UvOptions,
    pub left: f32,
    pub right: f32,
    pub min: f32,
    pub width: f32,
}

// A skin at the height up to which the walls of a cell go, with the v of that height.
#[derive(Clone, Copy)]
pub struct Level {
    pub skin: Skin,
    pub top: f32,
    pub high: f32,
}

// The cap of an option, inset and altered, before any cell moves it.
#[derive(Clone, Copy)]
pub struct Top {
    pub inset: Inset,
    pub whole: InsetHexagon,
}

pub fn skin_of(o: FaceOptions, span: Span) -> Skin
    ensures { result ≡ skin_of o span }
{
    Skin {
        inset: o.inset,
        uv: o.uv,
        left: face::uv_mapping::alter_uv(o.uv, Vec2 { x: 0.0, y: 0.0 }).x,
        right: face::uv_mapping::alter_uv(o.uv, Vec2 { x: 1.0, y: 0.0 }).x,
        min: span.min,
        width: span.max - span.min,
    }
}

// The v of a height; the compiler drops the u that is altered with it.
fn up_of(s: Skin, height: f32) -> f32
    ensures { result ≡ up_of s height }
{
    let y = (height - s.min) / s.width;
    face::uv_mapping::alter_uv(s.uv, Vec2 { x: 0.0, y }).y
}

pub fn level_of(skin: Skin, top: f32) -> Level
    ensures { result ≡ level_of skin top }
{
    let high = up_of(skin, top);
    Level { skin, top, high }
}

// A wall between two ends, from its foot to its top, its uvs altered.
pub fn wall_quad(v: Level, left: Vec2, right: Vec2, foot: f32) -> Quad
    ensures { result ≡ level_quad v left right foot }
{
    let Level { skin, top, high } = v;
    let low = up_of(skin, foot);
    let at = |x, y| Vec2 { x, y };
    Quad {
        uvs: [
            at(skin.right, low),
            at(skin.right, high),
            at(skin.left, high),
            at(skin.left, low),
        ],
        ..face::face::new_quad(left, right, foot, top)
    }
}

pub fn top_of(corners: &[f32], o: FaceOptions) -> Top
    ensures { result ≡ top_of corners.now o }
{
    Top {
        inset: o.inset,
        whole: plane_builder::cap::cap_hexagon(corners, o),
    }
}

// Added to the cell's position and not to zero first, so that the -0 of 0 times a height below 0 can stay.
pub fn cap_offset(at: Vec2, height: f32) -> Vec3
    ensures { result ≡ cap_offset at height }
{
    let up = Vec3 {
        x: 0.0 * height,
        y: height,
        z: 0.0 * height,
    };
    face::face::raise(at, 0.0) + up
}

// Where a cap stands: as a wall does, but moved first to its cell.
pub fn lift(t: Stand, by: Vec3) -> Stand
    ensures { result ≡ lifted t by }
{
    Stand {
        first: Choice3::With(by),
        ..t
    }
}
