// One mesh merged into another.
ghost use Rattle.std.specs.Prelude.{◌≡◌};
ghost use Rattle.buffers.specs.Lent.{entering, Become, shown};
ghost use Rattle.merge.specs.Merge.{merged};
ghost use Rattle.boundary.specs.FromC.{counts_in};
ghost use Rattle.exports.specs.Merging.{merge_to_c};

use boundary::from_c::CCounts;
use boundary::to_c::CAnswer;
use face::triangle::Counts;

// Appends a source mesh to a target, or writes nothing.
pub fn hosirekar_merge(
    source: CCounts,
    svertices: &[f32],
    snormals: &[f32],
    suvs: &[f32],
    sindices: &[u16],
    target: CCounts,
    vertices: &mut [f32],
    normals: &mut [f32],
    uvs: &mut [f32],
    indices: &mut [u16],
) -> CAnswer
    ensures answer { result ≡ merge_to_c source (shown svertices snormals suvs sindices) target (entering vertices normals uvs indices) }
    ensures buffers { Become (merged (counts_in source) (shown svertices snormals suvs sindices) (counts_in target)) vertices normals uvs indices }
{
    CAnswer::from(merge::merge(
        Counts::from(source),
        svertices,
        snormals,
        suvs,
        sindices,
        Counts::from(target),
        vertices,
        normals,
        uvs,
        indices,
    ))
}
