// A column: the ends of six sides in a list of 24 numbers, six cap corners in one of twelve, and a
// table of options in two lists.
ghost use Rattle.std.specs.Prelude.{◌≡◌};
ghost use Rattle.buffers.specs.Lent.{entering, Become};
ghost use Rattle.column.specs.Column.{lent, planned, faces_told, window_told};
ghost use Rattle.column_builder.specs.Calls.{whole_answer, face_answer, built, faced};
ghost use Rattle.boundary.specs.FromC.{column_of};
ghost use Rattle.boundary.specs.ToC.{answer_to_c, faces_to_c, window_to_c};

use boundary::jobs::CColumn;
use boundary::to_c::{CAnswer, CFaces, CWindow};
use column::Column;

// The counts of the job, or why it is refused.
pub fn hosirekar_column_plan(
    job: CColumn,
    pairs: &[f32],
    corners: &[f32],
    numbers: &[f32],
    marks: &[u8],
) -> CAnswer
    ensures { result ≡ answer_to_c (planned (column_of job) (lent pairs corners numbers marks)) }
{
    CAnswer::from(column_builder::plan(Column::from(job), pairs, corners, numbers, marks))
}

// How many faces the job has, or why it is refused.
pub fn hosirekar_column_faces(
    job: CColumn,
    pairs: &[f32],
    corners: &[f32],
    numbers: &[f32],
    marks: &[u8],
) -> CFaces
    ensures { result ≡ faces_to_c (faces_told (column_of job) (lent pairs corners numbers marks)) }
{
    CFaces::from(column::window::faces(Column::from(job), pairs, corners, numbers, marks))
}

// The places of one face of the job, by its number, or why there are none.
pub fn hosirekar_column_window(
    job: CColumn,
    pairs: &[f32],
    corners: &[f32],
    numbers: &[f32],
    marks: &[u8],
    number: usize,
) -> CWindow
    ensures { result ≡ window_to_c (window_told (column_of job) (lent pairs corners numbers marks) number) }
{
    CWindow::from(column::window::window(Column::from(job), pairs, corners, numbers, marks, number))
}

// The whole job, written to four buffers, or nothing.
pub fn hosirekar_column_build(
    job: CColumn,
    pairs: &[f32],
    corners: &[f32],
    numbers: &[f32],
    marks: &[u8],
    vertices: &mut [f32],
    normals: &mut [f32],
    uvs: &mut [f32],
    indices: &mut [u16],
) -> CAnswer
    ensures answer { result ≡ answer_to_c (whole_answer (column_of job) (lent pairs corners numbers marks) (entering vertices normals uvs indices)) }
    ensures buffers { Become (built (column_of job) (lent pairs corners numbers marks)) vertices normals uvs indices }
{
    CAnswer::from(column_builder::build(
        Column::from(job),
        pairs,
        corners,
        numbers,
        marks,
        vertices,
        normals,
        uvs,
        indices,
    ))
}

// One face of the job, by its number: the parts of each side, then the top, then the bottom.
pub fn hosirekar_column_face(
    job: CColumn,
    pairs: &[f32],
    corners: &[f32],
    numbers: &[f32],
    marks: &[u8],
    number: usize,
    vertices: &mut [f32],
    normals: &mut [f32],
    uvs: &mut [f32],
    indices: &mut [u16],
) -> CAnswer
    ensures answer { result ≡ answer_to_c (face_answer (column_of job) (lent pairs corners numbers marks) number (entering vertices normals uvs indices)) }
    ensures buffers { Become (faced (column_of job) (lent pairs corners numbers marks) number) vertices normals uvs indices }
{
    CAnswer::from(column_builder::face(
        Column::from(job),
        pairs,
        corners,
        numbers,
        marks,
        number,
        vertices,
        normals,
        uvs,
        indices,
    ))
}
