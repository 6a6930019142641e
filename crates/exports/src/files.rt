// A mesh written as a binary STL file, and such a file read.
ghost use Rattle.std.specs.Prelude.{◌≡◌, length};
ghost use Rattle.buffers.specs.Lent.{entering, Become, shown};
ghost use Rattle.stl_writing.specs.Writing.{file_answer, written};
ghost use Rattle.stl_reading.specs.Reading.{read_answer, read_back};
ghost use Rattle.boundary.specs.FromC.{counts_in};
ghost use Rattle.boundary.specs.ToC.{answer_to_c, file_to_c};

use boundary::from_c::CCounts;
use boundary::to_c::{CAnswer, CFile};
use face::triangle::Counts;

// Writes the file of a mesh at the start of a byte buffer, or nothing.
pub fn hosirekar_stl_write(
    counts: CCounts,
    vertices: &[f32],
    normals: &[f32],
    uvs: &[f32],
    indices: &[u16],
    bytes: &mut [u8],
) -> CFile
    ensures answer { result ≡ file_to_c (file_answer (counts_in counts) (shown vertices normals uvs indices) (length bytes.old)) }
    ensures bytes { bytes.new ≡ written (counts_in counts) (shown vertices normals uvs indices) bytes.old }
{
    CFile::from(stl_writing::write(Counts::from(counts), vertices, normals, uvs, indices, bytes))
}

// Reads the mesh of a file, or writes nothing.
pub fn hosirekar_stl_read(
    bytes: &[u8],
    vertices: &mut [f32],
    normals: &mut [f32],
    uvs: &mut [f32],
    indices: &mut [u16],
) -> CAnswer
    ensures answer { result ≡ answer_to_c (read_answer bytes.now (entering vertices normals uvs indices)) }
    ensures buffers { Become (read_back bytes.now) vertices normals uvs indices }
{
    CAnswer::from(stl_reading::read(bytes, vertices, normals, uvs, indices))
}
