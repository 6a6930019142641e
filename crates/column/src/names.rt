// Which face of a column a number is, and where it starts.
ghost use Rattle.std.specs.Prelude.{◌≡◌, length};
ghost use Rattle.column.specs.Column.{column_names};
ghost use Rattle.column.specs.Names.{name_at, side_faces, cap_name, piece_of, start_by};

use face::face::Quad;
use face::triangle::Counts;
use placement::options::Choice;
use placement::placement::Stand;

// How many faces a side has; a cap is a side of one part.
pub fn side_faces(c: Choice, s: u32) -> usize
    ensures { result ≡ side_faces c s }
{
    match c {
        Choice::Absent => 0,
        Choice::With(_) => s as usize,
    }
}

// How many faces there are.
pub fn face_count(job: crate::Column) -> usize
    ensures { result ≡ length (column_names job) }
{
    let parts = crate::parts_of(job.subdivisions);
    let mut t = 0;
    for side in job.sides {
        t += side_faces(side.option, parts);
    }
    t + side_faces(job.top, 1) + side_faces(job.bottom, 1)
}

// After the sides come the top, where there is one, and the bottom.
fn cap_name(top: Choice, left: usize) -> crate::Name
    ensures { result ≡ cap_name top left }
{
    match top {
        Choice::With(_) if left == 0 => crate::Name::Top,
        _ => crate::Name::Bottom,
    }
}

// The name of a number; past the last face it is the bottom's.
pub fn name_of(job: crate::Column, number: usize) -> crate::Name
    ensures { result ≡ name_at job number }
{
    let parts = crate::parts_of(job.subdivisions);
    let mut left = number;
    for d in 0..6 {
        let n = side_faces(crate::side_option(job.sides, d), parts);
        if left < n {
            return crate::Name::OfSide(d, left as u32);
        }
        left -= n;
    }
    cap_name(job.top, left)
}

// What is laid of a face: the part of a side by the numbers of both, or a cap by where it stands and its option.
#[derive(Clone, Copy)]
pub enum Piece {
    Part(u8, u32),
    Cap(Stand, Choice),
}

pub fn piece_of(job: crate::Column, name: crate::Name) -> Piece
    ensures { result ≡ piece_of job name }
{
    match name {
        crate::Name::OfSide(d, p) => Piece::Part(d, p),
        crate::Name::Top => Piece::Cap(crate::caps::top_stand(job), job.top),
        crate::Name::Bottom => Piece::Cap(crate::caps::bottom_stand(job), job.bottom),
    }
}

// Where a face starts: what lies before it, counted without a walk over the parts.
pub fn start_of(job: crate::Column, name: crate::Name, numbers: &[f32], marks: &[u8]) -> Counts
    ensures { result ≡ start_by job numbers.now marks.now name }
{
    let parts = crate::parts_of(job.subdivisions);
    match name {
        crate::Name::OfSide(d, p) => {
            let side = crate::side_option(job.sides, d);
            let inset = placement::options::option_for(side, numbers, marks).inset;
            let below = crate::times(p, face::triangle::counts_of::<Quad>(inset));
            crate::add(
                crate::sides_counts(job.sides, d, parts, numbers, marks),
                below,
            )
        }
        crate::Name::Top => crate::sides_counts(job.sides, 6, parts, numbers, marks),
        crate::Name::Bottom => {
            let walls = crate::sides_counts(job.sides, 6, parts, numbers, marks);
            crate::add(walls, crate::cap_counts(job.top, numbers, marks))
        }
    }
}
