// Height maps built, after heightmap_builder.rs of hexx: of each cell its cap, then the walls down to what is lower.
#![tactic(auto)]

ghost use Rattle.std.specs.Prelude.{◌≡◌};
ghost use Rattle.buffers.specs.Lent.{entering, Become};
ghost use Rattle.heightmap.specs.HeightMap.{seen};
ghost use Rattle.heightmap.specs.Tests.{planned};
ghost use Rattle.heightmap.specs.Calls.{whole_answer, face_answer, built, faced};

use answer::answer::Answer;
use heightmap::{HeightMap, Lists};

// The counts of the job, or why it is refused.
pub fn plan(job: HeightMap, lists: Lists<'_>) -> Answer
    ensures { result ≡ planned job (seen lists.entry) }
{
    heightmap_plan::plan(job, lists)
}

pub fn build(
    job: HeightMap,
    lists: Lists<'_>,
    vertices: &mut [f32],
    normals: &mut [f32],
    uvs: &mut [f32],
    indices: &mut [u16],
) -> Answer
    ensures answer { result ≡ whole_answer job (seen lists.entry) (entering vertices normals uvs indices) }
    ensures buffers { Become (built job (seen lists.entry)) vertices normals uvs indices }
{
    let counts = answer::answer::room(
        plan(job, lists),
        vertices.len(),
        normals.len(),
        uvs.len(),
        indices.len(),
    )?;
    heightmap_laying::put_all(job, lists, vertices, normals, uvs, indices);
    Ok(counts)
}

pub fn face(
    job: HeightMap,
    lists: Lists<'_>,
    number: usize,
    vertices: &mut [f32],
    normals: &mut [f32],
    uvs: &mut [f32],
    indices: &mut [u16],
) -> Answer
    ensures answer { result ≡ face_answer job (seen lists.entry) number (entering vertices normals uvs indices) }
    ensures buffers { Become (faced job (seen lists.entry) number) vertices normals uvs indices }
{
    let s = heightmap_plan::window::seek(job, lists, number);
    let roomed = answer::answer::room(
        s.answer,
        vertices.len(),
        normals.len(),
        uvs.len(),
        indices.len(),
    );
    let whole = roomed?;
    let found = s.found;
    heightmap_laying::put_named(
        job,
        found.name,
        found.start,
        lists,
        vertices,
        normals,
        uvs,
        indices,
    );
    Ok(whole)
}
