// A plane, after plane_builder.rs of hexx: one hexagon with its inset, scaled, turned and moved, and
// its uvs altered last. A job of one face, whose number is 0.
#![tactic(auto)]

pub mod cap;

ghost use Rattle.std.specs.Prelude.{◌≡◌, ◌&&◌};
ghost use Rattle.answer.specs.Checks.{all_in_range};
ghost use Rattle.buffers.specs.Lent.{entering, Become};
ghost use Rattle.plane_builder.specs.Plane.{lent, plane_mesh, laid_if_done, shape_of, place_of, planned, whole_answer, face_answer, built, faced, faces_told, window_told};

use answer::answer::{Answer, Refusal};
use face::triangle::{Counts, IndexPlace, VertexNumber};
use face::vec::Vec2;
use mesh::windows::{Faces, Window};
use placement::placement::{Choice3, Placement};

// The six corners come in a list of twelve numbers, those of a hexagon about zero; the position says
// where it stands.
#[derive(Clone, Copy)]
pub struct Plane {
    pub position: Vec2,
    pub option: u8,
    pub placement: Placement,
}

fn is_shape(job: Plane, corners: &[f32], numbers: &[f32], marks: &[u8]) -> bool
    ensures { result ≡ shape_of job (lent corners numbers marks) }
{
    if answer::check::is_exactly(corners.len(), 6, 2) {
        if placement::options::is_table(numbers, marks) {
            return answer::check::names_option(job.option, placement::options::entries(marks));
        }
    }
    false
}

fn is_place(job: Plane) -> bool
    ensures { result ≡ place_of job }
{
    let s = job.placement;
    if answer::check::in_range2(job.position) {
        return placement::placement::placement_in_range(s);
    }
    false
}

fn is_in_range(job: Plane, corners: &[f32], numbers: &[f32]) -> bool
    ensures { result ≡ all_in_range corners.now && (all_in_range numbers.now && place_of job) }
{
    if answer::check::all_in_range(corners) {
        if answer::check::all_in_range(numbers) {
            return is_place(job);
        }
    }
    false
}

// The counts of the job, or why it is refused.
pub fn plan(job: Plane, corners: &[f32], numbers: &[f32], marks: &[u8]) -> Answer
    ensures { result ≡ planned job (lent corners numbers marks) }
{
    if is_shape(job, corners, numbers, marks) {
        if is_in_range(job, corners, numbers) {
            let o = placement::options::option_at(numbers, marks, job.option);
            let inset = o.inset;
            return answer::answer::limit(face::triangle::counts_of::<face::face::Hexagon>(inset));
        }
        return Err(Refusal::Range);
    }
    Err(Refusal::Shape)
}

// How many faces the job has, or why it is refused.
pub fn faces(job: Plane, corners: &[f32], numbers: &[f32], marks: &[u8]) -> Result<Faces, Refusal>
    ensures { result ≡ faces_told job (lent corners numbers marks) }
{
    mesh::windows::faces_if_done(plan(job, corners, numbers, marks), 1)
}

// The places of a face, by its number: those of all, as there is one face.
pub fn window(
    job: Plane,
    corners: &[f32],
    numbers: &[f32],
    marks: &[u8],
    number: usize,
) -> Result<Window, Refusal>
    ensures { result ≡ window_told job (lent corners numbers marks) number }
{
    let answer = answer::answer::name(plan(job, corners, numbers, marks), number, 1);
    mesh::windows::window_of_all(answer)
}

// The one face, from the first place on, where the answer is done.
fn put(
    answer: Answer,
    job: Plane,
    corners: &[f32],
    numbers: &[f32],
    marks: &[u8],
    vertices: &mut [f32],
    normals: &mut [f32],
    uvs: &mut [f32],
    indices: &mut [u16],
)
    ensures { Become (laid_if_done answer (plane_mesh job (lent corners numbers marks))) vertices normals uvs indices }
{
    match answer {
        Err(_) => {}
        Ok(_) => {
            let o = placement::options::option_at(numbers, marks, job.option);
            let stand = placement::placement::stand_by(
                Choice3::Absent,
                false,
                placement::placement::settle(job.placement, job.position),
            );
            let start = Counts {
                vertices: VertexNumber(0),
                indices: IndexPlace(0),
            };
            cap::put_cap(stand, corners, o, start, vertices, normals, uvs, indices);
        }
    }
}

pub fn build(
    job: Plane,
    corners: &[f32],
    numbers: &[f32],
    marks: &[u8],
    vertices: &mut [f32],
    normals: &mut [f32],
    uvs: &mut [f32],
    indices: &mut [u16],
) -> Answer
    ensures answer { result ≡ whole_answer job (lent corners numbers marks) (entering vertices normals uvs indices) }
    ensures buffers { Become (built job (lent corners numbers marks)) vertices normals uvs indices }
{
    let answer = answer::answer::room(
        plan(job, corners, numbers, marks),
        vertices.len(),
        normals.len(),
        uvs.len(),
        indices.len(),
    );
    put(
        answer, job, corners, numbers, marks, vertices, normals, uvs, indices,
    );
    answer
}

pub fn face(
    job: Plane,
    corners: &[f32],
    numbers: &[f32],
    marks: &[u8],
    number: usize,
    vertices: &mut [f32],
    normals: &mut [f32],
    uvs: &mut [f32],
    indices: &mut [u16],
) -> Answer
    ensures answer { result ≡ face_answer job (lent corners numbers marks) number (entering vertices normals uvs indices) }
    ensures buffers { Become (faced job (lent corners numbers marks) number) vertices normals uvs indices }
{
    let answer = answer::answer::room(
        answer::answer::name(plan(job, corners, numbers, marks), number, 1),
        vertices.len(),
        normals.len(),
        uvs.len(),
        indices.len(),
    );
    put(
        answer, job, corners, numbers, marks, vertices, normals, uvs, indices,
    );
    answer
}
