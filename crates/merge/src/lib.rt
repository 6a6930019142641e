// One mesh merged into another, after `merge_with` of hexx. The limit is tested before any index is
// formed, and nothing is written before every test has passed.
#![tactic(auto)]

ghost use Rattle.std.specs.Prelude.{◌≡◌, map, ℕ, ◌+◌, ◌*◌, ◌≤◌, ◌<◌, ◌^◌, length, get_or};
ghost use Rattle.buffers.specs.Mesh.{also};
ghost use Rattle.buffers.specs.Laying.{laid};
ghost use Rattle.buffers.specs.Lent.{lending, entering, Become, showing, shown};
ghost use Rattle.merge.specs.Merge.{merge_answer, merge_tested, appended, merged};

use answer::answer::{Answer, Refusal};
use face::triangle::{Counts, IndexPlace, VertexNumber};

// The answer of a merge. The lists are known to hold both meshes before a sum is formed, so none wraps.
fn answer_of(
    source: Counts,
    svertices: usize,
    snormals: usize,
    suvs: usize,
    sindices: &[u16],
    target: Counts,
    vertices: usize,
    normals: usize,
    uvs: usize,
    indices: usize,
) -> Answer
    requires { indices < 2 ^ 63 }
    ensures { result ≡ merge_tested source svertices snormals suvs sindices.now target vertices normals uvs indices }
{
    if !mesh::stored::holds_counts(source, svertices, snormals, suvs, sindices.len()) {
        return Err(Refusal::Shape);
    }
    if !mesh::stored::holds_counts(target, vertices, normals, uvs, indices) {
        return Err(Refusal::Shape);
    }
    let n = source.indices.0;
    if answer::check::all_below(source.vertices.0, &sindices[..n]) {
        let counts = Counts {
            vertices: VertexNumber(target.vertices.0 + source.vertices.0),
            indices: IndexPlace(target.indices.0 + n),
        };
        return answer::answer::room(
            answer::answer::limit(counts),
            vertices,
            normals,
            uvs,
            indices,
        );
    }
    Err(Refusal::Index)
}

fn copy(buffer: &mut [f32], at: usize, numbers: &[f32])
    requires { at + length numbers.now ≤ length buffer.old }
    ensures { buffer.new ≡ laid buffer.old at numbers.now }
{
    // No `copy_from_slice`: the archive would ask C for `memmove`.
    for (k, x) in numbers.iter().enumerate() {
        buffer[at + k] = *x;
    }
}

// Vertex numbers, each after b others.
fn copy_after(buffer: &mut [u16], at: IndexPlace, numbers: &[u16], b: VertexNumber)
    requires numbers_in_bounds { at.0 + length numbers.now ≤ length buffer.old }
    requires by_index { (k : ℕ) → k < length numbers.now → b.0 + get_or numbers.now k 0 < 65536 }
    ensures { buffer.new ≡ laid buffer.old at.0 (map (λ x. b.0 + x) numbers.now) }
{
    for (k, x) in numbers.iter().enumerate() {
        buffer[at.0 + k] = (b.0 + *x as usize) as u16;
    }
}

fn append(
    source: Counts,
    svertices: &[f32],
    snormals: &[f32],
    suvs: &[f32],
    sindices: &[u16],
    target: Counts,
    vertices: &mut [f32],
    normals: &mut [f32],
    uvs: &mut [f32],
    indices: &mut [u16],
)
    requires { merge_answer source (showing svertices snormals suvs sindices) target (lending vertices normals uvs indices) ≡ Ok (also target source) }
    ensures { Become (appended source (shown svertices snormals suvs sindices) target) vertices normals uvs indices }
{
    let b = target.vertices.0;
    let v = source.vertices.0;
    let points = 3 * v;
    let pairs = 2 * v;
    let n = source.indices.0;
    copy(vertices, 3 * b, &svertices[..points]);
    copy(normals, 3 * b, &snormals[..points]);
    copy(uvs, 2 * b, &suvs[..pairs]);
    copy_after(indices, target.indices, &sindices[..n], target.vertices);
}

// Appends a source mesh to a target: its vertices, normals and uvs, and its indices after the
// target's vertices. Lists may be longer than their counts say.
pub fn merge(
    source: Counts,
    svertices: &[f32],
    snormals: &[f32],
    suvs: &[f32],
    sindices: &[u16],
    target: Counts,
    vertices: &mut [f32],
    normals: &mut [f32],
    uvs: &mut [f32],
    indices: &mut [u16],
) -> Answer
    ensures answer { result ≡ merge_answer source (shown svertices snormals suvs sindices) target (entering vertices normals uvs indices) }
    ensures buffers { Become (merged source (shown svertices snormals suvs sindices) target) vertices normals uvs indices }
{
    let whole = answer_of(
        source,
        svertices.len(),
        snormals.len(),
        suvs.len(),
        sindices,
        target,
        vertices.len(),
        normals.len(),
        uvs.len(),
        indices.len(),
    )?;
    append(
        source, svertices, snormals, suvs, sindices, target, vertices, normals, uvs, indices,
    );
    Ok(whole)
}
