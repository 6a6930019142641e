// The faces of a column laid into four buffers, each where it fits: one by its name, or all of them end to end.
ghost use Rattle.std.specs.Prelude.{◌≡◌, ◌&&◌, ◌+◌, ◌≤◌, ◌<◌, ◌^◌};
ghost use Rattle.face.specs.Inset.{is_none};
ghost use Rattle.face.specs.Lists.{each};
ghost use Rattle.placement.specs.Speed.{shifts_alone};
ghost use Rattle.buffers.specs.Mesh.{also, measure};
ghost use Rattle.buffers.specs.Laying.{laid_if_fits, lay_each};
ghost use Rattle.buffers.specs.Lent.{Become};
ghost use Rattle.column.specs.Column.{parts_of, lent, lent_for_sides, lent_for_caps};
ghost use Rattle.column.specs.Counts.{sides_counts};
ghost use Rattle.column.specs.Wall.{part_mesh};
ghost use Rattle.column_builder.specs.Calls.{name_laid, sides_laid, cap_laid, all_laid};

use column::names::Piece;
use column::wall::Wall;
use column::{Column, Name};
use face::inset::Inset;
use face::triangle::{Counts, IndexPlace, VertexNumber};
use placement::options::Choice;
use placement::placement::Stand;

fn add(a: Counts, b: Counts) -> Counts
    requires { (a.vertices.0 + b.vertices.0 < 2 ^ 64) × (a.indices.0 + b.indices.0 < 2 ^ 64) }
    ensures { result ≡ also a b }
{
    Counts {
        vertices: VertexNumber(a.vertices.0 + b.vertices.0),
        indices: IndexPlace(a.indices.0 + b.indices.0),
    }
}

// Whether a part has no inset and is only moved, as nearly every one is.
fn is_plain(t: Stand, how: Inset) -> bool
    ensures { result ≡ is_none how && shifts_alone t }
{
    if face::inset::is_none(how) {
        return placement::placement::is_shift(t);
    }
    false
}

// A part of a side, of a whole build. It has one call, so that the compiler makes and lays a part at one go.
fn put_part(
    w: Wall,
    p: u32,
    at: Counts,
    vertices: &mut [f32],
    normals: &mut [f32],
    uvs: &mut [f32],
    indices: &mut [u16],
)
    ensures { Become (laid_if_fits (part_mesh w p) at) vertices normals uvs indices }
{
    let stand = w.stand;
    let inset = w.inset;
    if is_plain(stand, inset) {
        let q = column::wall::part_at(w, p);
        let f = buffers::plain::shift_quad(stand, q);
        buffers::laying::lay_plain_quad(f, at, vertices, normals, uvs, indices);
    } else {
        let q = column::wall::part_at(w, p);
        buffers::laying::lay_wall(stand, inset, q, at, vertices, normals, uvs, indices);
    }
}

// One face, laid at a place.
pub(crate) fn put_named(
    job: Column,
    name: Name,
    at: Counts,
    pairs: &[f32],
    corners: &[f32],
    numbers: &[f32],
    marks: &[u8],
    vertices: &mut [f32],
    normals: &mut [f32],
    uvs: &mut [f32],
    indices: &mut [u16],
)
    ensures { Become (name_laid job (lent pairs corners numbers marks) name at) vertices normals uvs indices }
{
    let piece = column::names::piece_of(job, name);
    match piece {
        Piece::Part(d, p) => {
            let w = column::wall::wall_of(job, d, pairs, numbers, marks);
            let stand = w.stand;
            let inset = w.inset;
            let q = column::wall::part_at(w, p);
            buffers::laying::lay_wall(stand, inset, q, at, vertices, normals, uvs, indices);
        }
        Piece::Cap(t, c) => {
            let o = placement::options::option_for(c, numbers, marks);
            plane_builder::cap::put_cap(t, corners, o, at, vertices, normals, uvs, indices);
        }
    }
}

// So many parts, the lowest first, and the place past them.
fn put_parts(
    w: Wall,
    parts: usize,
    at: Counts,
    vertices: &mut [f32],
    normals: &mut [f32],
    uvs: &mut [f32],
    indices: &mut [u16],
) -> Counts
    requires { (parts ≤ 4294967295) × (at.vertices.0 ≤ 35046933135360) × (at.indices.0 ≤ 35046933135360) }
    ensures place { result ≡ also at (measure (each (part_mesh w) parts)) }
    ensures buffers { Become (lay_each (each (part_mesh w) parts) at) vertices normals uvs indices }
{
    let inset = w.inset;
    let size = face::triangle::counts_of::<face::face::Quad>(inset);
    let mut place = at;
    for p in 0usize..parts {
        put_part(w, p as u32, place, vertices, normals, uvs, indices);
        place = add(place, size);
    }
    place
}

// All the sides from the first place on, and the place past them.
fn put_sides(
    job: Column,
    pairs: &[f32],
    numbers: &[f32],
    marks: &[u8],
    vertices: &mut [f32],
    normals: &mut [f32],
    uvs: &mut [f32],
    indices: &mut [u16],
) -> Counts
    ensures place { result ≡ sides_counts numbers.now marks.now (parts_of job.subdivisions) job.sides 6 }
    ensures small { (result.vertices.0 ≤ 35046933135360) × (result.indices.0 ≤ 35046933135360) }
    ensures buffers { Become (sides_laid job (lent_for_sides pairs numbers marks)) vertices normals uvs indices }
{
    let sides = job.sides;
    let s = job.subdivisions;
    let parts = column::parts_of(s);
    let mut place = Counts {
        vertices: VertexNumber(0),
        indices: IndexPlace(0),
    };
    for d in 0u8..6 {
        let w = column::wall::wall_of(job, d, pairs, numbers, marks);
        let n = column::names::side_faces(column::side_option(sides, d), parts);
        place = put_parts(w, n, place, vertices, normals, uvs, indices);
    }
    place
}

// A cap, or nothing where it is absent.
fn put_cap(
    t: Stand,
    choice: Choice,
    at: Counts,
    corners: &[f32],
    numbers: &[f32],
    marks: &[u8],
    vertices: &mut [f32],
    normals: &mut [f32],
    uvs: &mut [f32],
    indices: &mut [u16],
)
    ensures { Become (cap_laid t (lent_for_caps corners numbers marks) choice at) vertices normals uvs indices }
{
    match choice {
        Choice::Absent => {}
        Choice::With(k) => {
            let o = placement::options::option_at(numbers, marks, k);
            plane_builder::cap::put_cap(t, corners, o, at, vertices, normals, uvs, indices);
        }
    }
}

// Every face of the job, end to end from the first place on.
pub(crate) fn put_all(
    job: Column,
    pairs: &[f32],
    corners: &[f32],
    numbers: &[f32],
    marks: &[u8],
    vertices: &mut [f32],
    normals: &mut [f32],
    uvs: &mut [f32],
    indices: &mut [u16],
)
    ensures { Become (all_laid job (lent pairs corners numbers marks)) vertices normals uvs indices }
{
    let upper = job.top;
    let lower = job.bottom;
    let walls = put_sides(job, pairs, numbers, marks, vertices, normals, uvs, indices);
    let t = column::caps::top_stand(job);
    put_cap(
        t, upper, walls, corners, numbers, marks, vertices, normals, uvs, indices,
    );
    let last = add(walls, column::cap_counts(upper, numbers, marks));
    let b = column::caps::bottom_stand(job);
    put_cap(
        b, lower, last, corners, numbers, marks, vertices, normals, uvs, indices,
    );
}
