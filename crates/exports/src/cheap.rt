// The cheap column: six corners in a list of twelve numbers.
ghost use Rattle.std.specs.Prelude.{◌≡◌};
ghost use Rattle.buffers.specs.Lent.{entering, Become};
ghost use Rattle.cheap_column.specs.CheapColumn.{planned, whole_answer, face_answer, built, faced, faces_told, window_told};
ghost use Rattle.boundary.specs.FromC.{cheap_column_of};
ghost use Rattle.boundary.specs.ToC.{answer_to_c, faces_to_c, window_to_c};

use boundary::jobs::CCheapColumn;
use boundary::to_c::{CAnswer, CFaces, CWindow};
use cheap_column::CheapColumn;

// The counts of the job, or why it is refused.
pub fn hosirekar_cheap_column_plan(job: CCheapColumn, corners: &[f32]) -> CAnswer
    ensures { result ≡ answer_to_c (planned (cheap_column_of job) corners.now) }
{
    CAnswer::from(cheap_column::plan(CheapColumn::from(job), corners))
}

// How many faces the job has, or why it is refused.
pub fn hosirekar_cheap_column_faces(job: CCheapColumn, corners: &[f32]) -> CFaces
    ensures { result ≡ faces_to_c (faces_told (cheap_column_of job) corners.now) }
{
    CFaces::from(cheap_column::faces(CheapColumn::from(job), corners))
}

// The places of one face of the job, by its number, or why there are none.
pub fn hosirekar_cheap_column_window(job: CCheapColumn, corners: &[f32], number: usize) -> CWindow
    ensures { result ≡ window_to_c (window_told (cheap_column_of job) corners.now number) }
{
    CWindow::from(cheap_column::window(CheapColumn::from(job), corners, number))
}

// The whole job, written to four buffers, or nothing.
pub fn hosirekar_cheap_column_build(
    job: CCheapColumn,
    corners: &[f32],
    vertices: &mut [f32],
    normals: &mut [f32],
    uvs: &mut [f32],
    indices: &mut [u16],
) -> CAnswer
    ensures answer { result ≡ answer_to_c (whole_answer (cheap_column_of job) corners.now (entering vertices normals uvs indices)) }
    ensures buffers { Become (built (cheap_column_of job) corners.now) vertices normals uvs indices }
{
    CAnswer::from(cheap_column::build(
        CheapColumn::from(job),
        corners,
        vertices,
        normals,
        uvs,
        indices,
    ))
}

// One face of the job, which has one: that of number 0.
pub fn hosirekar_cheap_column_face(
    job: CCheapColumn,
    corners: &[f32],
    number: usize,
    vertices: &mut [f32],
    normals: &mut [f32],
    uvs: &mut [f32],
    indices: &mut [u16],
) -> CAnswer
    ensures answer { result ≡ answer_to_c (face_answer (cheap_column_of job) corners.now number (entering vertices normals uvs indices)) }
    ensures buffers { Become (faced (cheap_column_of job) corners.now number) vertices normals uvs indices }
{
    CAnswer::from(cheap_column::face(
        CheapColumn::from(job),
        corners,
        number,
        vertices,
        normals,
        uvs,
        indices,
    ))
}
