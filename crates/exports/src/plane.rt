// A plane: six corners in a list of twelve numbers, and a table of options in two lists.
ghost use Rattle.std.specs.Prelude.{◌≡◌};
ghost use Rattle.buffers.specs.Lent.{entering, Become};
ghost use Rattle.plane_builder.specs.Plane.{lent, planned, whole_answer, face_answer, built, faced, faces_told, window_told};
ghost use Rattle.boundary.specs.FromC.{plane_of};
ghost use Rattle.boundary.specs.ToC.{answer_to_c, faces_to_c, window_to_c};

use boundary::jobs::CPlane;
use boundary::to_c::{CAnswer, CFaces, CWindow};
use plane_builder::Plane;

// The counts of the job, or why it is refused.
pub fn hosirekar_plane_plan(job: CPlane, corners: &[f32], numbers: &[f32], marks: &[u8]) -> CAnswer
    ensures { result ≡ answer_to_c (planned (plane_of job) (lent corners numbers marks)) }
{
    CAnswer::from(plane_builder::plan(Plane::from(job), corners, numbers, marks))
}

// How many faces the job has, or why it is refused.
pub fn hosirekar_plane_faces(job: CPlane, corners: &[f32], numbers: &[f32], marks: &[u8]) -> CFaces
    ensures { result ≡ faces_to_c (faces_told (plane_of job) (lent corners numbers marks)) }
{
    CFaces::from(plane_builder::faces(Plane::from(job), corners, numbers, marks))
}

// The places of one face of the job, by its number, or why there are none.
pub fn hosirekar_plane_window(
    job: CPlane,
    corners: &[f32],
    numbers: &[f32],
    marks: &[u8],
    number: usize,
) -> CWindow
    ensures { result ≡ window_to_c (window_told (plane_of job) (lent corners numbers marks) number) }
{
    CWindow::from(plane_builder::window(Plane::from(job), corners, numbers, marks, number))
}

// The whole job, written to four buffers, or nothing.
pub fn hosirekar_plane_build(
    job: CPlane,
    corners: &[f32],
    numbers: &[f32],
    marks: &[u8],
    vertices: &mut [f32],
    normals: &mut [f32],
    uvs: &mut [f32],
    indices: &mut [u16],
) -> CAnswer
    ensures answer { result ≡ answer_to_c (whole_answer (plane_of job) (lent corners numbers marks) (entering vertices normals uvs indices)) }
    ensures buffers { Become (built (plane_of job) (lent corners numbers marks)) vertices normals uvs indices }
{
    CAnswer::from(plane_builder::build(
        Plane::from(job),
        corners,
        numbers,
        marks,
        vertices,
        normals,
        uvs,
        indices,
    ))
}

// One face of the job, which has one: that of number 0.
pub fn hosirekar_plane_face(
    job: CPlane,
    corners: &[f32],
    numbers: &[f32],
    marks: &[u8],
    number: usize,
    vertices: &mut [f32],
    normals: &mut [f32],
    uvs: &mut [f32],
    indices: &mut [u16],
) -> CAnswer
    ensures answer { result ≡ answer_to_c (face_answer (plane_of job) (lent corners numbers marks) number (entering vertices normals uvs indices)) }
    ensures buffers { Become (faced (plane_of job) (lent corners numbers marks) number) vertices normals uvs indices }
{
    CAnswer::from(plane_builder::face(
        Plane::from(job),
        corners,
        numbers,
        marks,
        number,
        vertices,
        normals,
        uvs,
        indices,
    ))
}
