// Insets, after face.rs of hexx: the kinds, and a face with its inner points. The crate insetting finds those;
// their triangles are in triangle.rt.
ghost use Rattle.std.specs.Prelude.{◌≡◌};
ghost use Rattle.face.specs.Inset.{is_none};

use crate::vec::{Vec2, Vec3};

// None, or how the inner points are found: the scale, and whether the inner face is kept.
#[derive(Clone, Copy)]
pub enum Inset {
    None,
    Centroid(f32, bool),
    SmallestEdge(f32, bool),
}

// A quad and its inner quad: the outer points first. Without an inset the inner one is the same.
#[derive(Clone, Copy)]
pub struct InsetQuad {
    pub positions: [Vec3; 8],
    pub normal: Vec3,
    pub uvs: [Vec2; 8],
}

// The same of a hexagon.
#[derive(Clone, Copy)]
pub struct InsetHexagon {
    pub positions: [Vec3; 12],
    pub normal: Vec3,
    pub uvs: [Vec2; 12],
}

pub fn is_none(how: Inset) -> bool
    ensures { result ≡ is_none how }
{
    matches!(how, Inset::None)
}
