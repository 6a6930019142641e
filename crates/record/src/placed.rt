// The choices and the placement of a job.
use crate::words::Recorded;
use face::vec::Vec3;
use placement::options::Choice;
use placement::placement::{Choice3, Placement, Turn};
use std::io::Read;

// The number of an option; 256 is none.
impl Recorded for Choice {
    fn read<R: Read>(from: &mut R) -> Choice {
        match u32::read(from) {
            256 => Choice::Absent,
            word => Choice::With((word % 256) as u8),
        }
    }
}

impl Recorded for Choice3 {
    fn read<R: Read>(from: &mut R) -> Choice3 {
        Option::<Vec3>::read(from).map_or(Choice3::Absent, Choice3::With)
    }
}

impl Recorded for Turn {
    fn read<R: Read>(from: &mut R) -> Turn {
        match Option::<(Vec3, Vec3, Vec3)>::read(from) {
            Some((a, b, c)) => Turn::Rows(a, b, c),
            None => Turn::Absent,
        }
    }
}

impl Recorded for Placement {
    fn read<R: Read>(from: &mut R) -> Placement {
        Placement {
            scale: Choice3::read(from),
            turn: Turn::read(from),
            offset: Choice3::read(from),
        }
    }
}
