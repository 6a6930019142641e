// The words of a column, which serve a cheap column and a plane too: these leave out what they have no use for.
use cheap_column::CheapColumn;
use column::{Column, Side, Subdivisions};
use face::vec::Vec2;
use placement::options::Choice;
use placement::placement::Placement;
use plane_builder::Plane;
use record::lists::{FLOATS, ReadLists};
use record::words::Recorded;
use std::array;
use std::io::Read;

// The room of the marks of 65 options, one more than a job may have.
const MARKS: usize = 260;

// The places of the lists of a job.
#[derive(Drop)]
pub(crate) struct Places {
    pairs: [f32; FLOATS],
    corners: [f32; FLOATS],
    numbers: [f32; FLOATS],
    marks: [u8; MARKS],
}

// How long the lists of a job are.
#[derive(Clone, Copy)]
struct Lengths {
    pairs: usize,
    corners: usize,
    numbers: usize,
    marks: usize,
}

#[derive(Drop)]
pub(crate) struct Words<'a> {
    pub pairs: &'a [f32],
    pub corners: &'a [f32],
    pub numbers: &'a [f32],
    pub marks: &'a [u8],
    pub column: Column,
}

impl Places {
    pub(crate) fn new() -> Places {
        Places {
            pairs: [0.0; FLOATS],
            corners: [0.0; FLOATS],
            numbers: [0.0; FLOATS],
            marks: [0; MARKS],
        }
    }
}

impl Recorded for Lengths {
    fn read<R: Read>(from: &mut R) -> Lengths {
        Lengths {
            pairs: from.count(FLOATS),
            corners: from.count(FLOATS),
            numbers: from.count(FLOATS),
            marks: from.count(MARKS),
        }
    }
}

fn side<R: Read>(from: &mut R) -> Side {
    Side {
        option: Choice::read(from),
    }
}

fn column<R: Read>(from: &mut R) -> Column {
    let height = f32::read(from);
    let position = Vec2::read(from);
    let placement = Placement::read(from);
    let subdivisions = Option::<u32>::read(from).map_or(Subdivisions::Absent, Subdivisions::Of);
    Column {
        height,
        subdivisions,
        sides: array::from_fn(|_| side(from)),
        top: Choice::read(from),
        bottom: Choice::read(from),
        position,
        placement,
    }
}

impl<'a> Words<'a> {
    pub(crate) fn read<R: Read>(from: &mut R, places: &'a mut Places) -> Words<'a> {
        let of = Lengths::read(from);
        let Places {
            pairs,
            corners,
            numbers,
            marks,
        } = places;
        Words {
            pairs: from.list(pairs, of.pairs),
            corners: from.list(corners, of.corners),
            numbers: from.list(numbers, of.numbers),
            marks: from.list(marks, of.marks),
            column: column(from),
        }
    }

    pub(crate) fn cheap(&self) -> CheapColumn {
        CheapColumn {
            centre: self.column.position,
            height: self.column.height,
        }
    }

    // A plane has the option of the top.
    pub(crate) fn plane(&self) -> Plane {
        Plane {
            position: self.column.position,
            option: match self.column.top {
                Choice::Absent => 255,
                Choice::With(k) => k,
            },
            placement: self.column.placement,
        }
    }
}
