// Answers and refusals. A refusal's number, its counts, its need and its other values are what the
// definitions of specs/Answers.antt give for its case.
ghost use Rattle.std.specs.Prelude.{◌≡◌, ◌*◌, ◌<◌};
ghost use Rattle.answer.specs.Answers.{room_code, code, need, number_of, counts_of, need_of, limited, named, capped, room_for, roomed};

use face::triangle::{Counts, IndexPlace, VertexNumber};

// One of the four lent buffers.
#[derive(Clone, Copy)]
pub enum Buffer {
    Vertices,
    Normals,
    Uvs,
    Indices,
}

// Why a call is refused; of the buffers that are too short, the first, and how many numbers the whole
// mesh needs in it; of a byte buffer that is too short, how many bytes the file has.
#[derive(Clone, Copy)]
pub enum Refusal {
    Shape,
    Range,
    Neighbour,
    Limit,
    Room(Buffer, usize),
    NoFace,
    Index,
    Empty,
    Sheet,
    Triangles,
    File,
    Bytes(usize),
}

// The counts of a mesh, or why there is none.
pub type Answer = Result<Counts, Refusal>;

fn room_code(buffer: Buffer) -> u32
    ensures { result ≡ room_code buffer }
{
    match buffer {
        Buffer::Vertices => 51,
        Buffer::Normals => 52,
        Buffer::Uvs => 53,
        Buffer::Indices => 54,
    }
}

fn refusal_code(why: Refusal) -> u32
    ensures { result ≡ code why }
{
    match why {
        Refusal::Shape => 1,
        Refusal::Range => 2,
        Refusal::Neighbour => 3,
        Refusal::Limit => 4,
        Refusal::Room(buffer, _) => room_code(buffer),
        Refusal::NoFace => 6,
        Refusal::Index => 7,
        Refusal::Empty => 8,
        Refusal::Sheet => 9,
        Refusal::Triangles => 10,
        Refusal::File => 11,
        Refusal::Bytes(_) => 55,
    }
}

fn refusal_need(why: Refusal) -> usize
    ensures { result ≡ need why }
{
    match why {
        Refusal::Room(_, numbers) => numbers,
        Refusal::Bytes(bytes) => bytes,
        _ => 0,
    }
}

pub fn number_of(answer: Answer) -> u32
    ensures { result ≡ number_of answer }
{
    match answer {
        Ok(_) => 0,
        Err(why) => refusal_code(why),
    }
}

// The counts of an answer: both 0 where it is a refusal.
pub fn counts_of(answer: Answer) -> Counts
    ensures { result ≡ counts_of answer }
{
    match answer {
        Ok(counts) => counts,
        Err(_) => Counts {
            vertices: VertexNumber(0),
            indices: IndexPlace(0),
        },
    }
}

// How many numbers or bytes the buffer needs that an answer names: 0 where it names none.
pub fn need_of(answer: Answer) -> usize
    ensures { result ≡ need_of answer }
{
    match answer {
        Ok(_) => 0,
        Err(why) => refusal_need(why),
    }
}

// Done, if that many vertices can be numbered.
pub fn limit(counts: Counts) -> Answer
    ensures { result ≡ limited counts }
{
    if counts.vertices.0 <= 65536 {
        return Ok(counts);
    }
    Err(Refusal::Limit)
}

// An answer, refused if the face is none of that many.
pub fn name(answer: Answer, face: usize, faces: usize) -> Answer
    ensures { result ≡ named answer face faces }
{
    let counts = answer?;
    if face < faces {
        return Ok(counts);
    }
    Err(Refusal::NoFace)
}

// An answer, refused if one of four buffers of these lengths is too short for its counts.
pub fn room(answer: Answer, vertices: usize, normals: usize, uvs: usize, indices: usize) -> Answer
    ensures { result ≡ roomed answer vertices normals uvs indices }
{
    room_for(answer?, vertices, normals, uvs, indices)
}

// So many numbers for each of so many vertices. The greatest number of 64 bits stands for what is above it.
fn need_for(each: usize, vertices: usize) -> usize
    requires { 0 < each }
    ensures { result ≡ capped (each * vertices) }
{
    if vertices > 18446744073709551615 / each {
        return 18446744073709551615;
    }
    each * vertices
}

// A product is formed only where a buffer is short, and then none wraps.
fn room_for(counts: Counts, vertices: usize, normals: usize, uvs: usize, indices: usize) -> Answer
    ensures { result ≡ room_for counts vertices normals uvs indices }
{
    let v = counts.vertices.0;
    if v > vertices / 3 {
        return Err(Refusal::Room(Buffer::Vertices, need_for(3, v)));
    }
    if v > normals / 3 {
        return Err(Refusal::Room(Buffer::Normals, need_for(3, v)));
    }
    if v > uvs / 2 {
        return Err(Refusal::Room(Buffer::Uvs, need_for(2, v)));
    }
    if counts.indices.0 > indices {
        return Err(Refusal::Room(Buffer::Indices, counts.indices.0));
    }
    Ok(counts)
}
