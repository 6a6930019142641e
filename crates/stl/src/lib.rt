// A binary STL file: 80 bytes of header, the number of triangles, and 50 bytes for each of them.
#![tactic(auto)]

ghost use Rattle.std.specs.Prelude.{◌≡◌};
ghost use Rattle.stl.specs.File.{file_length};

use face::vec::Vec3;

// A triangle of a file: its normal and its three corners.
#[derive(Clone, Copy)]
pub struct Facet {
    pub normal: Vec3,
    pub first: Vec3,
    pub second: Vec3,
    pub third: Vec3,
}

// How many bytes a file of so many triangles has. No number of 32 bits makes this wrap.
pub fn file_length(triangles: u32) -> usize
    ensures { result ≡ file_length triangles }
{
    84 + 50 * (triangles as usize)
}
