// What a height map is, after heightmap_builder.rs of hexx: its job and its faces' names; in grid.rt its cells and their
// walls, in options.rt the option of a face and where it stands. A job is passed by value, and
// so is the one struct of the lists that are lent beside it.
#![tactic(auto)]

pub mod grid;
pub mod options;

ghost use Rattle.std.specs.Prelude.{◌≡◌};
ghost use Rattle.heightmap.specs.Grid.{present, foot_of};

use face::vec::Vec2;
use placement::options::Choice;
use placement::placement::Placement;

// The heights beyond the edge: none, or six a cell in a list.
#[derive(Clone, Copy)]
pub enum Fringe {
    Bare,
    Listed,
}

// The options of single faces: none, or seven a cell in a list, the cap's first.
#[derive(Clone, Copy)]
pub enum Customs {
    Absent,
    Listed,
}

// The range by which a side's v goes: of all heights, or from the first number to the second.
#[derive(Clone, Copy)]
pub enum HeightRange {
    OfAll,
    Of(f32, f32),
}

#[derive(Clone, Copy)]
pub enum Origin {
    Centred,
    At(Vec2),
}

#[derive(Clone, Copy)]
pub struct Span {
    pub min: f32,
    pub max: f32,
}

// Why a side is there or is not: sides are off, there is no height beyond it, that height is not below the cell's, or it
// is, and the side stands on it.
#[derive(Clone, Copy)]
pub enum Wall {
    SidesOff,
    NothingBeyond,
    AsHigh(f32),
    Present(f32),
}

impl Wall {
    pub fn is_present(self) -> bool
        ensures { result ≡ present self }
    {
        matches!(self, Wall::Present(_))
    }

    // The height that a wall stands on.
    #[tactic(auto, using(crate::proofs::Reading::no_number))]
    pub fn foot(self) -> f32
        ensures { result ≡ foot_of self }
    {
        match self {
            Wall::SidesOff | Wall::NothingBeyond => f32::NAN,
            Wall::AsHigh(beyond) | Wall::Present(beyond) => beyond,
        }
    }
}

// A face of a map: the cap of a cell, or one of its sides, by the numbers of both.
#[derive(Clone, Copy)]
pub enum Name {
    Cap(usize),
    Side(usize, u8),
}

// What is lent beside a map: its grid, seven option numbers a cell, the six corners of every cap, and the table of options.
#[derive(Clone, Copy)]
pub struct Lists<'a> {
    pub grid: grid::Grid<'a>,
    pub customs: &'a [u8],
    pub corners: &'a [f32],
    pub numbers: &'a [f32],
    pub marks: &'a [u8],
}

// An absent option drops all caps, or all sides.
#[derive(Clone, Copy)]
pub struct HeightMap {
    pub caps: Choice,
    pub sides: Choice,
    pub range: HeightRange,
    pub fringe: Fringe,
    pub customs: Customs,
    pub placement: Placement,
    pub origin: Origin,
}
