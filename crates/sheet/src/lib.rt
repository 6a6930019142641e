// The bytes of a sheet to the bytes of its answer: a sheet read, and a mesh or a refusal written as text.
#![tactic(auto)]

mod digits;
mod reading;
mod reading_lines;
mod reading_numbers;
mod writing;
mod writing_lines;
mod writing_numbers;
mod writing_room;

ghost use Rattle.std.specs.Prelude.{◌≡◌, []};
ghost use Rattle.answer.specs.Answers.{code};
ghost use Rattle.column.specs.Column.{lists};
ghost use Rattle.sheet.specs.Meshes.{refusal_text, TextWritten};
ghost use Rattle.sheet.specs.Answering.{plain_if, sides_of, column_of, lists_of, column_text, Answered};

use crate::reading::Sheet;
use crate::writing::Stored;
use answer::answer::{Answer, Refusal};
use column::{Column, Side, Subdivisions};
use face::vec::Vec2;
use placement::options::Choice;
use placement::placement::{Choice3, Placement, Turn};

// The default option, where there is a face at all.
fn plain_if(there: bool) -> Choice
    ensures { result ≡ plain_if there }
{
    if there {
        Choice::With(255)
    } else {
        Choice::Absent
    }
}

fn sides_of(n: u32) -> [Side; 6]
    ensures { result ≡ sides_of n }
{
    std::array::from_fn(|d| Side {
        option: plain_if((d as u32) < n),
    })
}

fn column_of(sheet: Sheet) -> Column
    ensures { result ≡ column_of sheet }
{
    let sides = sides_of(sheet.sides);
    let cap = plain_if(sheet.caps);
    Column {
        height: patterns::float(sheet.height),
        subdivisions: Subdivisions::Of(sheet.subdivisions),
        sides,
        top: cap,
        bottom: cap,
        position: Vec2 { x: 0.0, y: 0.0 },
        placement: Placement {
            scale: Choice3::Absent,
            turn: Turn::Absent,
            offset: Choice3::Absent,
        },
    }
}

// Buffers for 1,024 vertices, so that a larger plan is refused with 51; a column has at most four
// indices a vertex.
fn write_column(job: Column, pairs: &[f32], corners: &[f32], out: &mut [u8]) -> usize
    ensures { TextWritten (column_text job (lists pairs.now corners.now [] [])) out.old out.new result }
{
    let mut vertices = [0f32; 3072];
    let mut normals = [0f32; 3072];
    let mut uvs = [0f32; 2048];
    let mut indices = [0u16; 4096];
    let answer = column_builder::build(
        job,
        pairs,
        corners,
        &[],
        &[],
        &mut vertices,
        &mut normals,
        &mut uvs,
        &mut indices,
    );
    match answer {
        Err(why) => write_refusal(why, out),
        Ok(counts) => {
            let mesh = Stored {
                vertices: &vertices,
                normals: &normals,
                uvs: &uvs,
                indices: &indices,
                counts,
            };
            writing::write_mesh(mesh, out)
        }
    }
}

fn write_refusal(why: Refusal, out: &mut [u8]) -> usize
    ensures { TextWritten (refusal_text (code why)) out.old out.new result }
{
    let number = answer::answer::number_of(Err(why));
    writing::write_refusal(number, out)
}

fn write_sheet(sheet: Sheet, out: &mut [u8]) -> usize
    ensures { TextWritten (column_text (column_of sheet) (lists_of sheet)) out.old out.new result }
{
    let pairs = sheet.pairs.map(patterns::float);
    let corners = sheet.corners.map(patterns::float);
    write_column(column_of(sheet), &pairs, &corners, out)
}

// Writes the answer of a sheet at the start of a buffer, and answers how many bytes it takes. Where
// they do not fit, it writes nothing and answers 0.
#[tactic(auto, unfolding(crate::specs::Answering::answer_text))]
pub fn write_answer(bytes: &[u8], out: &mut [u8]) -> usize
    ensures { Answered bytes.now out.old out.new result }
{
    match reading::read(bytes) {
        Some(sheet) => write_sheet(sheet, out),
        None => write_refusal(Refusal::Sheet, out),
    }
}
