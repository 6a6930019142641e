// A binary STL file read into four lent buffers, as a mesh in which no two triangles share a vertex.
// Nothing is written before every test has passed.
#![tactic(auto)]

ghost use Rattle.std.specs.Prelude.{◌≡◌, ◌+◌, ◌*◌, ◌≤◌, ◌<◌, length};
ghost use Rattle.face.specs.Lists.{each, chain};
ghost use Rattle.face.specs.Vec.{f0};
ghost use Rattle.buffers.specs.Laying.{laid};
ghost use Rattle.buffers.specs.Lent.{lending, entering, Become};
ghost use Rattle.stl.specs.File.{file_length, filed_pattern, filed_point, filed_facet};
ghost use Rattle.stl_reading.specs.Reading.{read_tested, nine, corners_of, normals_of, unpacked, read_answer, read_back, HoldsFile};

use answer::answer::{Answer, Refusal};
use face::triangle::{Counts, IndexPlace, VertexNumber};
use face::vec::Vec3;
use stl::Facet;

fn pattern_at(file: &[u8], at: usize) -> u32
    requires { at + 4 ≤ length file.now }
    ensures { result ≡ filed_pattern file.now at }
{
    patterns::of_bytes(file[at], file[at + 1], file[at + 2], file[at + 3])
}

// The length is worked out of a number of 32 bits, so it does not wrap.
fn tested(file: &[u8], vertices: usize, normals: usize, uvs: usize, indices: usize) -> Answer
    ensures { result ≡ read_tested file.now vertices normals uvs indices }
{
    if file.len() < 84 {
        return Err(Refusal::File);
    }
    let triangles = pattern_at(file, 80);
    if file.len() != stl::file_length(triangles) {
        return Err(Refusal::File);
    }
    let n = 3 * (triangles as usize);
    let counts = Counts {
        vertices: VertexNumber(n),
        indices: IndexPlace(n),
    };
    answer::answer::room(
        answer::answer::limit(counts),
        vertices,
        normals,
        uvs,
        indices,
    )
}

fn point_at(file: &[u8], at: usize) -> Vec3
    requires { at + 12 ≤ length file.now }
    ensures { result ≡ filed_point file.now at }
{
    Vec3 {
        x: patterns::float(pattern_at(file, at)),
        y: patterns::float(pattern_at(file, at + 4)),
        z: patterns::float(pattern_at(file, at + 8)),
    }
}

fn put_nine(buffer: &mut [f32], at: usize, a: Vec3, b: Vec3, c: Vec3)
    requires { at + 9 ≤ length buffer.old }
    ensures { buffer.new ≡ laid buffer.old at (nine a b c) }
{
    buffer[at] = a.x;
    buffer[at + 1] = a.y;
    buffer[at + 2] = a.z;
    buffer[at + 3] = b.x;
    buffer[at + 4] = b.y;
    buffer[at + 5] = b.z;
    buffer[at + 6] = c.x;
    buffer[at + 7] = c.y;
    buffer[at + 8] = c.z;
}

// All bytes of a triangle are read before a number is written: a store might change any list for all the
// compiler knows.
fn put_corners(file: &[u8], k: usize, vertices: &mut [f32])
    requires { (file_length (k + 1) ≤ length file.now) × (9 * k + 9 ≤ length vertices.old) }
    ensures { vertices.new ≡ laid vertices.old (9 * k) (corners_of (filed_facet file.now k)) }
{
    let at = 84 + 50 * k;
    let a = point_at(file, at + 12);
    let b = point_at(file, at + 24);
    let c = point_at(file, at + 36);
    put_nine(vertices, 9 * k, a, b, c);
}

fn put_normals(file: &[u8], k: usize, normals: &mut [f32])
    requires { (file_length (k + 1) ≤ length file.now) × (9 * k + 9 ≤ length normals.old) }
    ensures { normals.new ≡ laid normals.old (9 * k) (normals_of (filed_facet file.now k)) }
{
    let n = point_at(file, 84 + 50 * k);
    put_nine(normals, 9 * k, n, n, n);
}

// Each triangle's bytes are near when its corners and its normal are read in one walk.
fn put_points(file: &[u8], t: usize, vertices: &mut [f32], normals: &mut [f32])
    requires { (file_length t ≤ length file.now) × (9 * t ≤ length vertices.old) × (9 * t ≤ length normals.old) }
    ensures vertices { vertices.new ≡ laid vertices.old 0 (chain (λ k. corners_of (filed_facet file.now k)) t) }
    ensures normals { normals.new ≡ laid normals.old 0 (chain (λ k. normals_of (filed_facet file.now k)) t) }
{
    for k in 0usize..t {
        put_corners(file, k, vertices);
        put_normals(file, k, normals);
    }
}

fn put_zeros(uvs: &mut [f32], n: usize)
    requires { n ≤ length uvs.old }
    ensures { uvs.new ≡ laid uvs.old 0 (each (λ k. f0) n) }
{
    for k in 0usize..n {
        uvs[k] = 0.0;
    }
}

fn put_places(indices: &mut [u16], n: usize)
    requires { (n ≤ 65536) × (n ≤ length indices.old) }
    ensures { indices.new ≡ laid indices.old 0 (each (λ k. k) n) }
{
    for k in 0usize..n {
        indices[k] = k as u16;
    }
}

fn unpack(
    file: &[u8],
    t: usize,
    vertices: &mut [f32],
    normals: &mut [f32],
    uvs: &mut [f32],
    indices: &mut [u16],
)
    requires { HoldsFile file.now t (lending vertices normals uvs indices) }
    ensures { Become (unpacked (filed_facet file.now) t) vertices normals uvs indices }
{
    put_points(file, t, vertices, normals);
    put_zeros(uvs, 6 * t);
    put_places(indices, 3 * t);
}

// Reads the mesh of a file, or writes nothing. The header and the attribute bytes may be anything.
pub fn read(
    file: &[u8],
    vertices: &mut [f32],
    normals: &mut [f32],
    uvs: &mut [f32],
    indices: &mut [u16],
) -> Answer
    ensures answer { result ≡ read_answer file.now (entering vertices normals uvs indices) }
    ensures buffers { Become (read_back file.now) vertices normals uvs indices }
{
    let counts = tested(
        file,
        vertices.len(),
        normals.len(),
        uvs.len(),
        indices.len(),
    )?;
    unpack(file, counts.vertices.0 / 3, vertices, normals, uvs, indices);
    Ok(counts)
}
