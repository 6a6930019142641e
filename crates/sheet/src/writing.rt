// A mesh, or a refusal, as the text that is printed of it. The text's length is found before the
// first byte is written, so a buffer takes the whole text or nothing.
ghost use Rattle.std.specs.Prelude.{◌≡◌, true};
ghost use Rattle.sheet.specs.Lent.{Puts, RoomFor, buffers_of};
ghost use Rattle.sheet.specs.Meshes.{mesh_text, refusal_text, whole_in, MeshWritten, TextWritten};

use crate::digits::digit_count;
use crate::writing_numbers::Text;
use crate::writing_room;
use face::triangle::Counts;

// The lists of a mesh, and how far they are in use.
#[derive(Clone, Copy)]
pub(crate) struct Stored<'a> {
    pub vertices: &'a [f32],
    pub normals: &'a [f32],
    pub uvs: &'a [f32],
    pub indices: &'a [u16],
    pub counts: Counts,
}

impl<'a> Stored<'a> {
    // Whether its lists reach as far as its counts say, and no triangle lacks a corner.
    #[tactic(auto, unfolding(crate::specs::Meshes::is_whole))]
    fn is_whole(&self) -> bool
        ensures { result ≡ whole_in (buffers_of self.now) self.now.counts }
    {
        mesh::stored::holds_counts(
            self.counts,
            self.vertices.len(),
            self.normals.len(),
            self.uvs.len(),
            self.indices.len(),
        ) && self.counts.indices.0 % 3 == 0
    }
}

// Writes a mesh at the start of a buffer, and answers how many bytes it takes. Where there is no room
// for them, a list is shorter than its count says or a triangle lacks a corner, it writes nothing and
// answers 0.
pub(crate) fn write_mesh(mesh: Stored<'_>, out: &mut [u8]) -> usize
    ensures { MeshWritten (buffers_of mesh.entry) mesh.entry.counts out.old out.new result }
{
    let Counts { vertices, indices } = mesh.counts;
    if !mesh.is_whole() {
        return 0;
    }
    if !writing_room::has_room(&mesh.indices[..indices.0], vertices.0, out.len()) {
        return 0;
    }
    let mut text = Text { out, len: 0 };
    text.put_mesh(mesh);
    text.len
}

impl<'a> Text<'a> {
    fn put_mesh(&mut self, mesh: Stored<'_>)
        requires whole { whole_in (buffers_of mesh) mesh.counts ≡ true }
        requires room { RoomFor self.old (mesh_text (buffers_of mesh) mesh.counts) }
        ensures { Puts self.old (mesh_text (buffers_of mesh.entry) mesh.entry.counts) self.new }
    {
        let v = mesh.counts.vertices.0;
        let i = mesh.counts.indices.0;
        self.put_part(b"vertices ", v, &mesh.vertices[..3 * v], 3);
        self.put_part(b"normals ", v, &mesh.normals[..3 * v], 3);
        self.put_part(b"uvs ", v, &mesh.uvs[..2 * v], 2);
        self.put_part(b"indices ", i, &mesh.indices[..i], 3);
    }
}

// Writes a refusal in the same way.
pub(crate) fn write_refusal(number: u32, out: &mut [u8]) -> usize
    ensures { TextWritten (refusal_text number) out.old out.new result }
{
    let n = number as usize;
    if 9 + digit_count(n) > out.len() {
        return 0;
    }
    let mut text = Text { out, len: 0 };
    text.put_heading(b"refused ", n);
    text.len
}
