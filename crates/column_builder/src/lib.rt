// Columns built, after column_builder.rs of hexx: six sides of parts one above the other, a top and a bottom.
#![tactic(auto)]

mod laying;

ghost use Rattle.std.specs.Prelude.{◌≡◌};
ghost use Rattle.buffers.specs.Lent.{entering, Become};
ghost use Rattle.column.specs.Column.{lent, planned};
ghost use Rattle.column_builder.specs.Calls.{whole_answer, face_answer, built, faced};

use answer::answer::Answer;
use column::Column;

// The counts of the job, or why it is refused.
pub fn plan(job: Column, pairs: &[f32], corners: &[f32], numbers: &[f32], marks: &[u8]) -> Answer
    ensures { result ≡ planned job (lent pairs corners numbers marks) }
{
    column::plan(job, pairs, corners, numbers, marks)
}

pub fn build(
    job: Column,
    pairs: &[f32],
    corners: &[f32],
    numbers: &[f32],
    marks: &[u8],
    vertices: &mut [f32],
    normals: &mut [f32],
    uvs: &mut [f32],
    indices: &mut [u16],
) -> Answer
    ensures answer { result ≡ whole_answer job (lent pairs corners numbers marks) (entering vertices normals uvs indices) }
    ensures buffers { Become (built job (lent pairs corners numbers marks)) vertices normals uvs indices }
{
    let counts = answer::answer::room(
        plan(job, pairs, corners, numbers, marks),
        vertices.len(),
        normals.len(),
        uvs.len(),
        indices.len(),
    )?;
    crate::laying::put_all(
        job, pairs, corners, numbers, marks, vertices, normals, uvs, indices,
    );
    Ok(counts)
}

pub fn face(
    job: Column,
    pairs: &[f32],
    corners: &[f32],
    numbers: &[f32],
    marks: &[u8],
    number: usize,
    vertices: &mut [f32],
    normals: &mut [f32],
    uvs: &mut [f32],
    indices: &mut [u16],
) -> Answer
    ensures answer { result ≡ face_answer job (lent pairs corners numbers marks) number (entering vertices normals uvs indices) }
    ensures buffers { Become (faced job (lent pairs corners numbers marks) number) vertices normals uvs indices }
{
    let named = answer::answer::name(
        plan(job, pairs, corners, numbers, marks),
        number,
        column::names::face_count(job),
    );
    let roomed = answer::answer::room(
        named,
        vertices.len(),
        normals.len(),
        uvs.len(),
        indices.len(),
    );
    let whole = roomed?;
    let name = column::names::name_of(job, number);
    let at = column::names::start_of(job, name, numbers, marks);
    crate::laying::put_named(
        job, name, at, pairs, corners, numbers, marks, vertices, normals, uvs, indices,
    );
    Ok(whole)
}
