// A height map: its lists, its numbers, and its calls.
use answer::answer::Answer;
use face::vec::Vec2;
use heightmap::grid::Grid;
use heightmap::{Customs, Fringe, HeightMap, HeightRange, Origin};
use placement::options::Choice;
use placement::placement::Placement;
use record::jobs::Job;
use record::lists::{FLOATS, Lists, ReadLists};
use record::words::Recorded;
use std::io::Read;

// The most cells that a rule makes: with insets everywhere, one more than can be numbered.
const MANY: usize = 1094;

// The room of the marks of 65 options, one more than a job may have, and of the options of a map's faces.
const MARKS: usize = 264;

// The room of a map's neighbours.
const LINKS: usize = 120;

// How long the lists of a map are.
#[derive(Clone, Copy)]
struct Lengths {
    cells: usize,
    neighbours: usize,
    fringe: usize,
    customs: usize,
    corners: usize,
    numbers: usize,
    marks: usize,
}

#[derive(Drop)]
struct Map<'a> {
    cells: &'a [f32],
    neighbours: &'a [u32],
    fringe: &'a [f32],
    customs: &'a [u8],
    corners: &'a [f32],
    numbers: &'a [f32],
    marks: &'a [u8],
    map: HeightMap,
}

impl Recorded for Lengths {
    fn read<R: Read>(from: &mut R) -> Lengths {
        Lengths {
            cells: from.count(FLOATS),
            neighbours: from.count(LINKS),
            fringe: from.count(FLOATS),
            customs: from.count(MARKS),
            corners: from.count(FLOATS),
            numbers: from.count(FLOATS),
            marks: from.count(MARKS),
        }
    }
}

fn range<R: Read>(from: &mut R) -> HeightRange {
    match Option::<(f32, f32)>::read(from) {
        Some((min, max)) => HeightRange::Of(min, max),
        None => HeightRange::OfAll,
    }
}

fn fringe<R: Read>(from: &mut R) -> Fringe {
    if bool::read(from) {
        Fringe::Listed
    } else {
        Fringe::Bare
    }
}

fn customs<R: Read>(from: &mut R) -> Customs {
    if bool::read(from) {
        Customs::Listed
    } else {
        Customs::Absent
    }
}

fn settings<R: Read>(from: &mut R) -> HeightMap {
    HeightMap {
        caps: Choice::read(from),
        sides: Choice::read(from),
        range: range(from),
        fringe: fringe(from),
        customs: customs(from),
        placement: Placement::read(from),
        origin: Option::<Vec2>::read(from).map_or(Origin::Centred, Origin::At),
    }
}

impl Map<'_> {
    fn lent(&self) -> heightmap::Lists<'_> {
        heightmap::Lists {
            grid: Grid {
                cells: self.cells,
                neighbours: self.neighbours,
                fringe: self.fringe,
            },
            customs: self.customs,
            corners: self.corners,
            numbers: self.numbers,
            marks: self.marks,
        }
    }
}

impl Job for Map<'_> {
    fn plan(&self) -> Answer {
        heightmap_builder::plan(self.map, self.lent())
    }

    fn build(&self, to: &mut Lists) -> Answer {
        heightmap_builder::build(
            self.map,
            self.lent(),
            to.vertices,
            to.normals,
            to.uvs,
            to.indices,
        )
    }

    fn face(&self, number: usize, to: &mut Lists) -> Answer {
        heightmap_builder::face(
            self.map,
            self.lent(),
            number,
            to.vertices,
            to.normals,
            to.uvs,
            to.indices,
        )
    }
}

// A map whose cells the record lists.
pub(crate) fn is_listed<R: Read>(from: &mut R) -> bool {
    let of = Lengths::read(from);
    let mut cells = [0.0; FLOATS];
    let mut neighbours = [0; LINKS];
    let mut fringe = [0.0; FLOATS];
    let mut customs = [0; MARKS];
    let mut corners = [0.0; FLOATS];
    let mut numbers = [0.0; FLOATS];
    let mut marks = [0; MARKS];
    let map = Map {
        cells: from.list(&mut cells, of.cells),
        neighbours: from.list(&mut neighbours, of.neighbours),
        fringe: from.list(&mut fringe, of.fringe),
        customs: from.list(&mut customs, of.customs),
        corners: from.list(&mut corners, of.corners),
        numbers: from.list(&mut numbers, of.numbers),
        marks: from.list(&mut marks, of.marks),
        map: settings(from),
    };
    map.are_runs_right(from)
}

// A map of so many cells that no record lists them: the height of cell 0 is 0, all their other numbers are 1, and
// across every side is cell 0, so that six walls stand on each cell but that one.
pub(crate) fn is_of_many<R: Read>(from: &mut R) -> bool {
    let many = from.count(MANY);
    let of = Lengths::read(from);
    let mut cells = [1.0; 27 * MANY];
    cells[0] = 0.0;
    let neighbours = [0; 6 * MANY];
    let mut corners = [0.0; FLOATS];
    let mut numbers = [0.0; FLOATS];
    let mut marks = [0; MARKS];
    let map = Map {
        cells: &cells[..27 * many],
        neighbours: &neighbours[..6 * many],
        fringe: &[],
        customs: &[],
        corners: from.list(&mut corners, of.corners),
        numbers: from.list(&mut numbers, of.numbers),
        marks: from.list(&mut marks, of.marks),
        map: settings(from),
    };
    map.are_runs_right(from)
}
