// What is done to a stored mesh: four lists and two counts.
ghost use Rattle.buffers.specs.Laying.{four};
ghost use Rattle.std.specs.Prelude.{◌≡◌};
ghost use Rattle.buffers.specs.Lent.{shown};
ghost use Rattle.mesh.specs.Stored.{scale_answer, scaled, offset_answer, shifted, texture_scale_answer, texture_scaled, centroid_of, uv_centroid_of};
ghost use Rattle.boundary.specs.FromC.{counts_in, vec2_of, vec3_of};
ghost use Rattle.boundary.specs.ToC.{answer_to_c, centroid_to_c, uv_centroid_to_c};

use boundary::from_c::{CCounts, CVec2, CVec3};
use boundary::to_c::{CAnswer, CCentroid, CUvCentroid};
use face::triangle::Counts;
use face::vec::{Vec2, Vec3};

// Multiplies each position, component by component.
pub fn hosirekar_scale(
    counts: CCounts,
    by: CVec3,
    vertices: &mut [f32],
    normals: &[f32],
    uvs: &[f32],
    indices: &[u16],
) -> CAnswer
    ensures answer { result ≡ answer_to_c (scale_answer (counts_in counts) (vec3_of by) (four vertices.old normals.now uvs.now indices.now)) }
    ensures buffers { four vertices.new normals.now uvs.now indices.now ≡ scaled (counts_in counts) (vec3_of by) (four vertices.old normals.now uvs.now indices.now) }
{
    CAnswer::from(mesh::stored::scale(
        Counts::from(counts),
        Vec3::from(by),
        vertices,
        normals,
        uvs,
        indices,
    ))
}

// Adds to each position.
pub fn hosirekar_offset(
    counts: CCounts,
    by: CVec3,
    vertices: &mut [f32],
    normals: &[f32],
    uvs: &[f32],
    indices: &[u16],
) -> CAnswer
    ensures answer { result ≡ answer_to_c (offset_answer (counts_in counts) (vec3_of by) (four vertices.old normals.now uvs.now indices.now)) }
    ensures buffers { four vertices.new normals.now uvs.now indices.now ≡ shifted (counts_in counts) (vec3_of by) (four vertices.old normals.now uvs.now indices.now) }
{
    CAnswer::from(mesh::stored::offset(
        Counts::from(counts),
        Vec3::from(by),
        vertices,
        normals,
        uvs,
        indices,
    ))
}

// Multiplies each uv, component by component.
pub fn hosirekar_texture_scale(
    counts: CCounts,
    by: CVec2,
    vertices: &[f32],
    normals: &[f32],
    uvs: &mut [f32],
    indices: &[u16],
) -> CAnswer
    ensures answer { result ≡ answer_to_c (texture_scale_answer (counts_in counts) (vec2_of by) (four vertices.now normals.now uvs.old indices.now)) }
    ensures buffers { four vertices.now normals.now uvs.new indices.now ≡ texture_scaled (counts_in counts) (vec2_of by) (four vertices.now normals.now uvs.old indices.now) }
{
    CAnswer::from(mesh::stored::texture_scale(
        Counts::from(counts),
        Vec2::from(by),
        vertices,
        normals,
        uvs,
        indices,
    ))
}

// The middle of the positions.
pub fn hosirekar_centroid(
    counts: CCounts,
    vertices: &[f32],
    normals: &[f32],
    uvs: &[f32],
    indices: &[u16],
) -> CCentroid
    ensures { result ≡ centroid_to_c (centroid_of (counts_in counts) (shown vertices normals uvs indices)) }
{
    CCentroid::from(mesh::stored::centroid(Counts::from(counts), vertices, normals, uvs, indices))
}

// The middle of the uvs.
pub fn hosirekar_uv_centroid(
    counts: CCounts,
    vertices: &[f32],
    normals: &[f32],
    uvs: &[f32],
    indices: &[u16],
) -> CUvCentroid
    ensures { result ≡ uv_centroid_to_c (uv_centroid_of (counts_in counts) (shown vertices normals uvs indices)) }
{
    CUvCentroid::from(mesh::stored::uv_centroid(
        Counts::from(counts),
        vertices,
        normals,
        uvs,
        indices,
    ))
}
