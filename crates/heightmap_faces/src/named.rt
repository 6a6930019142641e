// A face of a map by its cell and side, for any of them.
ghost use Rattle.std.specs.Prelude.{◌≡◌};
ghost use Rattle.heightmap.specs.HeightMap.{seen};
ghost use Rattle.heightmap_faces.specs.Named.{cap_of, side_of};

use face::vec::Vec2;
use heightmap::{HeightMap, Lists, Name};
use placement::placement::Stand;

// A cap, and where it stands.
#[derive(Clone, Copy)]
pub struct CapFace {
    pub top: crate::Top,
    pub stand: Stand,
}

// A wall: its skin up to its cell's height, where it stands, its ends and its foot.
#[derive(Clone, Copy)]
pub struct SideFace {
    pub level: crate::Level,
    pub stand: Stand,
    pub left: Vec2,
    pub right: Vec2,
    pub foot: f32,
}

pub fn cap_of(job: HeightMap, k: usize, lists: Lists<'_>) -> CapFace
    ensures { result ≡ cap_of job (seen lists.entry) k }
{
    let o = heightmap::options::option_of(job, Name::Cap(k), lists);
    let offset = crate::cap_offset(lists.grid.position_at(k), lists.grid.height_at(k));
    CapFace {
        top: crate::top_of(lists.corners, o),
        stand: crate::lift(heightmap::options::side_stand(job), offset),
    }
}

#[tactic(auto, unfolding(heightmap::specs::Grid::span_of))]
pub fn side_of(job: HeightMap, k: usize, d: u8, lists: Lists<'_>) -> SideFace
    ensures { result ≡ side_of job (seen lists.entry) k d }
{
    let grid = lists.grid;
    let o = heightmap::options::option_of(job, Name::Side(k, d), lists);
    let skin = crate::skin_of(o, grid.span_of(job.range));
    SideFace {
        level: crate::level_of(skin, grid.height_at(k)),
        stand: heightmap::options::side_stand(job),
        left: grid.left_at(k, d),
        right: grid.right_at(k, d),
        foot: grid.wall_at(job.sides, job.fringe, k, d).foot(),
    }
}
