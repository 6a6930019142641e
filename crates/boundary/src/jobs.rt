// A job as a caller hands it over, beside its lists.
ghost use Rattle.std.specs.Prelude.{◌≡◌};
ghost use Rattle.boundary.specs.FromC.{plane_of, choice_of, side_of, subdivisions_of, column_of, cheap_column_of};
ghost use Rattle.boundary.specs.FromC.{range_of, is_fringe, fringe_of, customs_of, origin_of, height_map_of, height_map_told};

use crate::from_c::{CPlacement, CVec2};
use answer::answer::Refusal;
use cheap_column::CheapColumn;
use column::{Column, Side, Subdivisions};
use face::vec::Vec2;
use heightmap::{Customs, Fringe, HeightMap, HeightRange, Origin};
use placement::options::Choice;
use placement::placement::Placement;
use plane_builder::Plane;

#[repr(C)]
#[derive(Clone, Copy)]
pub struct CPlane {
    pub position: CVec2,
    pub option: u8,
    pub placement: CPlacement,
}

// Whether a face is there, and the number of its option.
#[repr(C)]
#[derive(Clone, Copy)]
pub struct CChoice {
    pub given: bool,
    pub option: u8,
}

#[repr(C)]
#[derive(Clone, Copy)]
pub struct CSubdivisions {
    pub given: bool,
    pub number: u32,
}

#[repr(C)]
#[derive(Clone, Copy)]
pub struct CColumn {
    pub height: f32,
    pub subdivisions: CSubdivisions,
    pub sides: [CChoice; 6],
    pub top: CChoice,
    pub bottom: CChoice,
    pub position: CVec2,
    pub placement: CPlacement,
}

#[repr(C)]
#[derive(Clone, Copy)]
pub struct CCheapColumn {
    pub centre: CVec2,
    pub height: f32,
}

#[repr(C)]
#[derive(Clone, Copy)]
pub struct CRange {
    pub given: bool,
    pub min: f32,
    pub max: f32,
}

#[repr(C)]
#[derive(Clone, Copy)]
pub struct COrigin {
    pub given: bool,
    pub at: CVec2,
}

// C's enums are numbers: the fringe is 1, no heights beyond the edge, or 2, heights that are listed. Whether customs are
// listed is a bool.
#[repr(C)]
#[derive(Clone, Copy)]
pub struct CHeightMap {
    pub caps: CChoice,
    pub sides: CChoice,
    pub customs: bool,
    pub fringe: u8,
    pub range: CRange,
    pub origin: COrigin,
    pub placement: CPlacement,
}

impl From<CPlane> for Plane {
    ghost from_gives = { λ job made. made ≡ plane_of job };

    fn from(job: CPlane) -> Plane {
        Plane {
            position: Vec2::from(job.position),
            option: job.option,
            placement: Placement::from(job.placement),
        }
    }
}

impl From<CChoice> for Choice {
    ghost from_gives = { λ c made. made ≡ choice_of c };

    fn from(c: CChoice) -> Choice {
        if c.given {
            Choice::With(c.option)
        } else {
            Choice::Absent
        }
    }
}

impl From<CChoice> for Side {
    ghost from_gives = { λ c made. made ≡ side_of c };

    fn from(c: CChoice) -> Side {
        Side {
            option: Choice::from(c),
        }
    }
}

impl From<CSubdivisions> for Subdivisions {
    ghost from_gives = { λ s made. made ≡ subdivisions_of s };

    fn from(s: CSubdivisions) -> Subdivisions {
        if s.given {
            Subdivisions::Of(s.number)
        } else {
            Subdivisions::Absent
        }
    }
}

impl From<CColumn> for Column {
    ghost from_gives = { λ job made. made ≡ column_of job };

    fn from(job: CColumn) -> Column {
        Column {
            height: job.height,
            subdivisions: Subdivisions::from(job.subdivisions),
            sides: job.sides.map(Side::from),
            top: Choice::from(job.top),
            bottom: Choice::from(job.bottom),
            position: Vec2::from(job.position),
            placement: Placement::from(job.placement),
        }
    }
}

impl From<CCheapColumn> for CheapColumn {
    ghost from_gives = { λ job made. made ≡ cheap_column_of job };

    fn from(job: CCheapColumn) -> CheapColumn {
        CheapColumn {
            centre: Vec2::from(job.centre),
            height: job.height,
        }
    }
}

impl From<CRange> for HeightRange {
    ghost from_gives = { λ r made. made ≡ range_of r };

    fn from(r: CRange) -> HeightRange {
        if r.given {
            HeightRange::Of(r.min, r.max)
        } else {
            HeightRange::OfAll
        }
    }
}

impl From<COrigin> for Origin {
    ghost from_gives = { λ o made. made ≡ origin_of o };

    fn from(o: COrigin) -> Origin {
        if o.given {
            Origin::At(Vec2::from(o.at))
        } else {
            Origin::Centred
        }
    }
}

// Whether the mark of a fringe has a meaning; where it has none the job is refused.
pub fn is_fringe(mark: u8) -> bool
    ensures { result ≡ is_fringe mark }
{
    mark == 1 || mark == 2
}

// A function, as a foreign trait can have no impl for two foreign types.
fn fringe_of(mark: u8) -> Fringe
    ensures { result ≡ fringe_of mark }
{
    if mark == 2 {
        Fringe::Listed
    } else {
        Fringe::Bare
    }
}

// A function, as a foreign trait can have no impl for two foreign types.
fn customs_of(listed: bool) -> Customs
    ensures { result ≡ customs_of listed }
{
    if listed {
        Customs::Listed
    } else {
        Customs::Absent
    }
}

// The job of every hand-over, also of a fringe without a meaning, which is read as none.
pub fn heightmap_of(job: CHeightMap) -> HeightMap
    ensures { result ≡ height_map_of job }
{
    HeightMap {
        caps: Choice::from(job.caps),
        sides: Choice::from(job.sides),
        range: HeightRange::from(job.range),
        fringe: fringe_of(job.fringe),
        customs: customs_of(job.customs),
        placement: Placement::from(job.placement),
        origin: Origin::from(job.origin),
    }
}

// A job whose fringe has no meaning is refused.
impl TryFrom<CHeightMap> for HeightMap {
    type Error = Refusal;

    ghost try_from_gives = { λ job made. made ≡ height_map_told job };

    fn try_from(job: CHeightMap) -> Result<HeightMap, Refusal> {
        if is_fringe(job.fringe) {
            Ok(heightmap_of(job))
        } else {
            Err(Refusal::Shape)
        }
    }
}
