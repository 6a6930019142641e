// A record is words of hexadecimal digits, each with one byte behind it that is none. What cannot be read is 0: a case
// ends with a word that is not.
use face::triangle::{Counts, IndexPlace, VertexNumber};
use face::vec::{Vec2, Vec3};
use std::io::Read;

// What stands in a record as words, one behind the other.
pub trait Recorded: Sized + Drop {
    fn read<R: Read>(from: &mut R) -> Self;
}

// The next byte, if one can be read.
pub(crate) fn byte<R: Read>(from: &mut R) -> Option<u8> {
    let mut one = [0u8; 1];
    match from.read(&mut one) {
        Ok(1) => Some(one[0]),
        _ => None,
    }
}

impl Recorded for u32 {
    // Every number of a record is read by this one: a copy at each place would be most of a program.
    #[inline(never)]
    fn read<R: Read>(from: &mut R) -> u32 {
        let mut value = 0u32;
        for _ in 0..9 {
            let digit = byte(from).map_or(16, patterns::digit_value);
            if digit > 15 {
                return value;
            }
            value = value % 0x1000_0000 * 16 + u32::from(digit);
        }
        value
    }
}

impl Recorded for u16 {
    fn read<R: Read>(from: &mut R) -> u16 {
        (u32::read(from) % 65536) as u16
    }
}

impl Recorded for u8 {
    fn read<R: Read>(from: &mut R) -> u8 {
        (u32::read(from) % 256) as u8
    }
}

impl Recorded for usize {
    fn read<R: Read>(from: &mut R) -> usize {
        u32::read(from) as usize
    }
}

// A mark: any word but 1 is none.
impl Recorded for bool {
    fn read<R: Read>(from: &mut R) -> bool {
        u32::read(from) == 1
    }
}

impl Recorded for f32 {
    fn read<R: Read>(from: &mut R) -> f32 {
        patterns::float(u32::read(from))
    }
}

impl Recorded for Vec2 {
    fn read<R: Read>(from: &mut R) -> Vec2 {
        Vec2 {
            x: f32::read(from),
            y: f32::read(from),
        }
    }
}

impl Recorded for Vec3 {
    fn read<R: Read>(from: &mut R) -> Vec3 {
        Vec3 {
            x: f32::read(from),
            y: f32::read(from),
            z: f32::read(from),
        }
    }
}

impl Recorded for Counts {
    fn read<R: Read>(from: &mut R) -> Counts {
        Counts {
            vertices: VertexNumber(usize::read(from)),
            indices: IndexPlace(usize::read(from)),
        }
    }
}

impl<A: Recorded, B: Recorded> Recorded for (A, B) {
    fn read<R: Read>(from: &mut R) -> (A, B) {
        (A::read(from), B::read(from))
    }
}

impl<A: Recorded, B: Recorded, C: Recorded> Recorded for (A, B, C) {
    fn read<R: Read>(from: &mut R) -> (A, B, C) {
        (A::read(from), B::read(from), C::read(from))
    }
}

// A mark, and behind it what is supplied.
impl<T: Recorded> Recorded for Option<T> {
    fn read<R: Read>(from: &mut R) -> Option<T> {
        if bool::read(from) {
            return Some(T::read(from));
        }
        None
    }
}
