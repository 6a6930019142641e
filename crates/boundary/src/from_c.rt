// What a caller hands over by value. C has no Option: where something may be left out, a bool says
// whether it is given; what stands beside a bool that says no is not read.
ghost use Rattle.std.specs.Prelude.{◌≡◌};
ghost use Rattle.boundary.specs.FromC.{vec2_of, vec3_of, counts_in, choice3_of, turn_of, placement_of, uv_options_of};

use face::triangle::{Counts, IndexPlace, VertexNumber};
use face::uv_mapping::{Flip, UvOptions};
use face::vec::{Vec2, Vec3};
use placement::placement::{Choice3, Placement, Turn};

#[repr(C)]
#[derive(Clone, Copy, Default)]
pub struct CVec2 {
    pub x: f32,
    pub y: f32,
}

#[repr(C)]
#[derive(Clone, Copy, Default)]
pub struct CVec3 {
    pub x: f32,
    pub y: f32,
    pub z: f32,
}

#[repr(C)]
#[derive(Clone, Copy)]
pub struct CCounts {
    pub vertices: usize,
    pub indices: usize,
}

#[repr(C)]
#[derive(Clone, Copy)]
pub struct CChoice3 {
    pub given: bool,
    pub value: CVec3,
}

#[repr(C)]
#[derive(Clone, Copy)]
pub struct CTurn {
    pub given: bool,
    pub first: CVec3,
    pub second: CVec3,
    pub third: CVec3,
}

#[repr(C)]
#[derive(Clone, Copy)]
pub struct CPlacement {
    pub scale: CChoice3,
    pub turn: CTurn,
    pub offset: CChoice3,
}

#[repr(C)]
#[derive(Clone, Copy)]
pub struct CFlip {
    pub u: bool,
    pub v: bool,
}

#[repr(C)]
#[derive(Clone, Copy)]
pub struct CUvOptions {
    pub scale: CVec2,
    pub offset: CVec2,
    pub min: CVec2,
    pub max: CVec2,
    pub flip: CFlip,
}

impl From<CVec2> for Vec2 {
    ghost from_gives = { λ p made. made ≡ vec2_of p };

    fn from(p: CVec2) -> Vec2 {
        Vec2 { x: p.x, y: p.y }
    }
}

impl From<CVec3> for Vec3 {
    ghost from_gives = { λ p made. made ≡ vec3_of p };

    fn from(p: CVec3) -> Vec3 {
        Vec3 {
            x: p.x,
            y: p.y,
            z: p.z,
        }
    }
}

impl From<CCounts> for Counts {
    ghost from_gives = { λ c made. made ≡ counts_in c };

    fn from(c: CCounts) -> Counts {
        Counts {
            vertices: VertexNumber(c.vertices),
            indices: IndexPlace(c.indices),
        }
    }
}

impl From<CChoice3> for Choice3 {
    ghost from_gives = { λ c made. made ≡ choice3_of c };

    fn from(c: CChoice3) -> Choice3 {
        if c.given {
            Choice3::With(Vec3::from(c.value))
        } else {
            Choice3::Absent
        }
    }
}

impl From<CTurn> for Turn {
    ghost from_gives = { λ t made. made ≡ turn_of t };

    fn from(t: CTurn) -> Turn {
        if t.given {
            Turn::Rows(
                Vec3::from(t.first),
                Vec3::from(t.second),
                Vec3::from(t.third),
            )
        } else {
            Turn::Absent
        }
    }
}

impl From<CPlacement> for Placement {
    ghost from_gives = { λ s made. made ≡ placement_of s };

    fn from(s: CPlacement) -> Placement {
        Placement {
            scale: Choice3::from(s.scale),
            turn: Turn::from(s.turn),
            offset: Choice3::from(s.offset),
        }
    }
}

impl From<CUvOptions> for UvOptions {
    ghost from_gives = { λ o made. made ≡ uv_options_of o };

    fn from(o: CUvOptions) -> UvOptions {
        UvOptions {
            scale: Vec2::from(o.scale),
            offset: Vec2::from(o.offset),
            min: Vec2::from(o.min),
            max: Vec2::from(o.max),
            flip: Flip {
                u: o.flip.u,
                v: o.flip.v,
            },
        }
    }
}
