// What is done to a stored mesh: four buffers and two counts. Its numbers may be anything; only the
// parameter is tested. A list may be longer than its count says.
ghost use Rattle.std.specs.Prelude.{◌≡◌, ◌+◌, ◌*◌, ◌≤◌, length};
ghost use mathlib.Core.List.{foldl};
ghost use Rattle.face.specs.Lists.{chain, each};
ghost use Rattle.face.specs.Vec.{middle};
ghost use Rattle.buffers.specs.Laying.{laid, four};
ghost use Rattle.buffers.specs.Lent.{shown};
ghost use Rattle.mesh.specs.Stored.{holds_counts, stored_answer, not_empty, scaled, shifted, texture_scaled, scale_answer, offset_answer, texture_scale_answer, centroid_of, uv_centroid_of};

use crate::put::Packed;
use answer::answer::{Answer, Refusal};
use face::triangle::Counts;
use face::vec::{Vec2, Vec3};

// A mesh's counts, and the middle of its positions or of its uvs.
#[derive(Clone, Copy)]
pub struct Middle<P> {
    pub counts: Counts,
    pub centroid: P,
}

// Whether lists of these lengths hold what the counts say.
pub fn holds_counts(
    counts: Counts,
    vertices: usize,
    normals: usize,
    uvs: usize,
    indices: usize,
) -> bool
    ensures { result ≡ holds_counts counts vertices normals uvs indices }
{
    let v = counts.vertices.0;
    v <= vertices / 3 && v <= normals / 3 && v <= uvs / 2 && counts.indices.0 <= indices
}

fn answer_of(
    counts: Counts,
    good: bool,
    vertices: usize,
    normals: usize,
    uvs: usize,
    indices: usize,
) -> Answer
    ensures { result ≡ stored_answer counts good vertices normals uvs indices }
{
    if holds_counts(counts, vertices, normals, uvs, indices) {
        if good {
            return answer::answer::limit(counts);
        }
        return Err(Refusal::Range);
    }
    Err(Refusal::Shape)
}

fn not_empty(answer: Answer) -> Answer
    ensures { result ≡ not_empty answer }
{
    let counts = answer?;
    if counts.vertices.0 > 0 {
        return Ok(counts);
    }
    Err(Refusal::Empty)
}

// The first m, each moved by itself.
fn move_each<P: Packed, F: Fn(P) -> P>(buffer: &mut [f32], m: usize, to: F)
    requires callable { F.IsAlwaysCallable to }
    requires room { P.SIZE * m ≤ length buffer.old }
    ensures { (f : P → P) → ((p q : P) → F.post to p q → q ≡ f p) → buffer.new ≡ laid buffer.old 0 (chain (λ k. P.numbers (f (P.read buffer.old (P.SIZE * k)))) m) }
{
    for k in 0..m {
        let at = P::SIZE * k;
        to(P::read(buffer, at)).put(buffer, at);
    }
}

// From the first on, onto +0.
fn sum<P: Packed>(buffer: &[f32], m: usize) -> P
    requires { P.SIZE * m ≤ length buffer.now }
    ensures { result ≡ foldl P.plus P.zero (each (λ k. P.read buffer.now (P.SIZE * k)) m) }
{
    let mut total = P::zero();
    for k in 0..m {
        total = total + P::read(buffer, P::SIZE * k);
    }
    total
}

fn mean<P: Packed>(buffer: &[f32], m: usize) -> P
    requires few { m ≤ 65536 }
    requires room { P.SIZE * m ≤ length buffer.now }
    ensures { result ≡ middle P.plus P.zero P.over (each (λ k. P.read buffer.now (P.SIZE * k)) m) }
{
    sum::<P>(buffer, m) / std::num::nearest_u32_to_f32(m as u32)
}

// Multiplies each position, component by component; normals stay.
pub fn scale(
    counts: Counts,
    by: Vec3,
    vertices: &mut [f32],
    normals: &[f32],
    uvs: &[f32],
    indices: &[u16],
) -> Answer
    ensures answer { result ≡ scale_answer counts by (four vertices.old normals.now uvs.now indices.now) }
    ensures buffers { four vertices.new normals.now uvs.now indices.now ≡ scaled counts by (four vertices.old normals.now uvs.now indices.now) }
{
    let good = answer::check::in_range3(by);
    let done = answer_of(
        counts,
        good,
        vertices.len(),
        normals.len(),
        uvs.len(),
        indices.len(),
    )?;
    move_each(
        vertices,
        done.vertices.0,
        |p: Vec3| Vec3 {
            x: p.x * by.x,
            y: p.y * by.y,
            z: p.z * by.z,
        },
    );
    Ok(done)
}

// Adds to each position.
pub fn offset(
    counts: Counts,
    by: Vec3,
    vertices: &mut [f32],
    normals: &[f32],
    uvs: &[f32],
    indices: &[u16],
) -> Answer
    ensures answer { result ≡ offset_answer counts by (four vertices.old normals.now uvs.now indices.now) }
    ensures buffers { four vertices.new normals.now uvs.now indices.now ≡ shifted counts by (four vertices.old normals.now uvs.now indices.now) }
{
    let good = answer::check::in_range3(by);
    let done = answer_of(
        counts,
        good,
        vertices.len(),
        normals.len(),
        uvs.len(),
        indices.len(),
    )?;
    move_each(vertices, done.vertices.0, |p: Vec3| p + by);
    Ok(done)
}

// Multiplies each uv, component by component.
pub fn texture_scale(
    counts: Counts,
    by: Vec2,
    vertices: &[f32],
    normals: &[f32],
    uvs: &mut [f32],
    indices: &[u16],
) -> Answer
    ensures answer { result ≡ texture_scale_answer counts by (four vertices.now normals.now uvs.old indices.now) }
    ensures buffers { four vertices.now normals.now uvs.new indices.now ≡ texture_scaled counts by (four vertices.now normals.now uvs.old indices.now) }
{
    let good = answer::check::in_range2(by);
    let done = answer_of(
        counts,
        good,
        vertices.len(),
        normals.len(),
        uvs.len(),
        indices.len(),
    )?;
    move_each(
        uvs,
        done.vertices.0,
        |p: Vec2| Vec2 {
            x: p.x * by.x,
            y: p.y * by.y,
        },
    );
    Ok(done)
}

// The middle of the positions: their sum, from +0 in order, over their number.
pub fn centroid(
    counts: Counts,
    vertices: &[f32],
    normals: &[f32],
    uvs: &[f32],
    indices: &[u16],
) -> Result<Middle<Vec3>, Refusal>
    ensures { result ≡ centroid_of counts (shown vertices normals uvs indices) }
{
    let done = not_empty(answer_of(
        counts,
        true,
        vertices.len(),
        normals.len(),
        uvs.len(),
        indices.len(),
    ))?;
    Ok(Middle {
        counts: done,
        centroid: mean(vertices, done.vertices.0),
    })
}

// The same of the uvs.
pub fn uv_centroid(
    counts: Counts,
    vertices: &[f32],
    normals: &[f32],
    uvs: &[f32],
    indices: &[u16],
) -> Result<Middle<Vec2>, Refusal>
    ensures { result ≡ uv_centroid_of counts (shown vertices normals uvs indices) }
{
    let done = not_empty(answer_of(
        counts,
        true,
        vertices.len(),
        normals.len(),
        uvs.len(),
        indices.len(),
    ))?;
    Ok(Middle {
        counts: done,
        centroid: mean(uvs, done.vertices.0),
    })
}
