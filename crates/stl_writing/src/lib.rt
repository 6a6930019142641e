// A mesh written as a binary STL file into a lent byte buffer. Nothing is written before every test
// has passed.
#![tactic(auto)]

ghost use Rattle.std.specs.Prelude.{◌≡◌, ◌+◌, ◌*◌, ◌≤◌, ◌<◌, [], ◌∷◌, length};
ghost use Rattle.face.specs.Lists.{chain};
ghost use Rattle.buffers.specs.Laying.{laid};
ghost use Rattle.buffers.specs.Lent.{shown};
ghost use Rattle.mesh.specs.Stored.{point_from};
ghost use Rattle.stl.specs.File.{file_length, number_bytes, point_bytes, facet_bytes, head_bytes, file_bytes};
ghost use Rattle.stl_writing.specs.Writing.{facet_in, length_tested, write_tested, file_answer, written, HoldsNamed};

use answer::answer::{Answer, Refusal};
use face::triangle::Counts;
use face::vec::Vec3;
use stl::Facet;

// What a writer is told: the mesh's counts, and how many bytes its file has.
#[derive(Clone, Copy)]
pub struct Filed {
    pub counts: Counts,
    pub bytes: usize,
}

// The last two tests. The length is worked out of a number of 32 bits, so it does not wrap.
fn length_tested(counts: Counts, bytes: usize) -> Answer
    ensures { result ≡ length_tested counts bytes }
{
    let n = counts.indices.0;
    if n % 3 != 0 {
        return Err(Refusal::Triangles);
    }
    if n / 3 > 4294967295 {
        return Err(Refusal::Triangles);
    }
    let length = stl::file_length((n / 3) as u32);
    if length > bytes {
        return Err(Refusal::Bytes(length));
    }
    Ok(counts)
}

fn tested(
    counts: Counts,
    vertices: usize,
    normals: usize,
    uvs: usize,
    indices: &[u16],
    bytes: usize,
) -> Answer
    ensures { result ≡ write_tested counts vertices normals uvs indices.now bytes }
{
    if mesh::stored::holds_counts(counts, vertices, normals, uvs, indices.len()) {
        if counts.vertices.0 <= 65536 {
            let n = counts.indices.0;
            if answer::check::all_below(counts.vertices.0, &indices[..n]) {
                return length_tested(counts, bytes);
            }
            return Err(Refusal::Index);
        }
        return Err(Refusal::Limit);
    }
    Err(Refusal::Shape)
}

fn put_four(bytes: &mut [u8], at: usize, a: u8, b: u8, c: u8, d: u8)
    requires { at + 4 ≤ length bytes.old }
    ensures { bytes.new ≡ laid bytes.old at (a ∷ b ∷ c ∷ d ∷ []) }
{
    bytes[at] = a;
    bytes[at + 1] = b;
    bytes[at + 2] = c;
    bytes[at + 3] = d;
}

fn put_number(bytes: &mut [u8], at: usize, x: f32)
    requires { at + 4 ≤ length bytes.old }
    ensures { bytes.new ≡ laid bytes.old at (number_bytes x) }
{
    let four = patterns::bytes_of(patterns::pattern(x));
    put_four(bytes, at, four[0], four[1], four[2], four[3]);
}

fn put_point(bytes: &mut [u8], at: usize, p: Vec3)
    requires { at + 12 ≤ length bytes.old }
    ensures { bytes.new ≡ laid bytes.old at (point_bytes p) }
{
    put_number(bytes, at, p.x);
    put_number(bytes, at + 4, p.y);
    put_number(bytes, at + 8, p.z);
}

fn put_facet(bytes: &mut [u8], at: usize, facet: Facet)
    requires { at + 50 ≤ length bytes.old }
    ensures { bytes.new ≡ laid bytes.old at (facet_bytes facet) }
{
    put_point(bytes, at, facet.normal);
    put_point(bytes, at + 12, facet.first);
    put_point(bytes, at + 24, facet.second);
    put_point(bytes, at + 36, facet.third);
    bytes[at + 48] = 0;
    bytes[at + 49] = 0;
}

fn point_at(numbers: &[f32], vertex: u16) -> Vec3
    requires { 3 * vertex + 3 ≤ length numbers.now }
    ensures { result ≡ point_from numbers.now (3 * vertex) }
{
    let at = 3 * (vertex as usize);
    Vec3 {
        x: numbers[at],
        y: numbers[at + 1],
        z: numbers[at + 2],
    }
}

fn facet_at(vertices: &[f32], normals: &[f32], indices: &[u16], t: usize, k: usize) -> Facet
    requires { (k < t) × HoldsNamed vertices.now normals.now indices.now t }
    ensures { result ≡ facet_in vertices normals indices k }
{
    let a = indices[3 * k];
    let b = indices[3 * k + 1];
    let c = indices[3 * k + 2];
    Facet {
        normal: point_at(normals, a),
        first: point_at(vertices, a),
        second: point_at(vertices, b),
        third: point_at(vertices, c),
    }
}

// A triangle is gathered by value before a byte of it is written: a store might change any list for all
// the compiler knows.
fn put_facets(vertices: &[f32], normals: &[f32], indices: &[u16], t: usize, bytes: &mut [u8])
    requires { HoldsNamed vertices.now normals.now indices.now t × (file_length t ≤ length bytes.old) }
    ensures { bytes.new ≡ laid bytes.old 84 (chain (λ k. facet_bytes (facet_in vertices normals indices k)) t) }
{
    for k in 0usize..t {
        put_facet(
            bytes,
            84 + 50 * k,
            facet_at(vertices, normals, indices, t, k),
        );
    }
}

fn put_head(bytes: &mut [u8], triangles: u32)
    requires { 84 ≤ length bytes.old }
    ensures { bytes.new ≡ laid bytes.old 0 (head_bytes triangles) }
{
    for k in 0usize..80 {
        bytes[k] = 0;
    }
    let four = patterns::bytes_of(triangles);
    put_four(bytes, 80, four[0], four[1], four[2], four[3]);
}

fn put_file(vertices: &[f32], normals: &[f32], indices: &[u16], triangles: u32, bytes: &mut [u8])
    requires { HoldsNamed vertices.now normals.now indices.now triangles × (file_length triangles ≤ length bytes.old) }
    ensures { bytes.new ≡ laid bytes.old 0 (file_bytes (facet_in vertices normals indices) triangles) }
{
    put_head(bytes, triangles);
    put_facets(vertices, normals, indices, triangles as usize, bytes);
}

// Writes the file of a mesh at the start of a byte buffer, or nothing. Lists may be longer than the
// counts say.
pub fn write(
    counts: Counts,
    vertices: &[f32],
    normals: &[f32],
    uvs: &[f32],
    indices: &[u16],
    bytes: &mut [u8],
) -> Result<Filed, Refusal>
    ensures answer { result ≡ file_answer counts (shown vertices normals uvs indices) (length bytes.old) }
    ensures bytes { bytes.new ≡ written counts (shown vertices normals uvs indices) bytes.old }
{
    let mesh = tested(
        counts,
        vertices.len(),
        normals.len(),
        uvs.len(),
        indices,
        bytes.len(),
    )?;
    let triangles = (mesh.indices.0 / 3) as u32;
    put_file(vertices, normals, indices, triangles, bytes);
    Ok(Filed {
        counts: mesh,
        bytes: stl::file_length(triangles),
    })
}
