// Single points by value, altered by texture options or wrapped.
use face::uv_mapping::{Flip, UvOptions};
use face::vec::Vec2;
use record::digest::{Digest, Digested, Lanes};
use record::words::Recorded;
use std::io::Read;

fn texture<R: Read>(from: &mut R) -> UvOptions {
    let flip = Flip {
        u: bool::read(from),
        v: bool::read(from),
    };
    UvOptions {
        scale: Vec2::read(from),
        offset: Vec2::read(from),
        min: Vec2::read(from),
        max: Vec2::read(from),
        flip,
    }
}

fn is_next<R: Read>(from: &mut R, p: Vec2) -> bool {
    Lanes::read(from) == Lanes::from(p.digested(Digest::default()))
}

pub(crate) fn is_point<R: Read>(from: &mut R) -> bool {
    let options = texture(from);
    let p = face::uv_mapping::alter_uv(options, Vec2::read(from));
    is_next(from, p)
}

pub(crate) fn is_wrap<R: Read>(from: &mut R) -> bool {
    let p = face::uv_mapping::wrap_uv(Vec2::read(from));
    is_next(from, p)
}
