// Stored meshes: what stands in the lists before a call is read, and the call is held to its answer and to a digest of
// the value that it gives and of the lists that it leaves.
use answer::answer::Answer;
use face::triangle::Counts;
use face::vec::{Vec2, Vec3};
use record::answers::Told;
use record::digest::{Digest, Digested, Lanes};
use record::lists::{Lists, Places, ReadLists};
use record::words::Recorded;
use std::io::Read;

// What is done to a stored mesh, or asked of it; any other number asks for the uv centroid.
#[derive(Clone, Copy)]
enum Change {
    Scale,
    Offset,
    TextureScale,
    Centroid,
    UvCentroid,
}

impl Recorded for Change {
    fn read<R: Read>(from: &mut R) -> Change {
        match u32::read(from) {
            0 => Change::Scale,
            1 => Change::Offset,
            2 => Change::TextureScale,
            3 => Change::Centroid,
            _ => Change::UvCentroid,
        }
    }
}

// The value beside an answer: +0 where there is none.
const NOTHING: Vec3 = Vec3 {
    x: 0.0,
    y: 0.0,
    z: 0.0,
};

fn in_two(p: Vec2) -> Vec3 {
    Vec3 {
        x: p.x,
        y: p.y,
        z: 0.0,
    }
}

// The answer of a call, and the value beside it.
fn change_by(
    change: Change,
    counts: Counts,
    by: Vec3,
    vertices: &mut [f32],
    normals: &[f32],
    uvs: &mut [f32],
    indices: &[u16],
) -> (Answer, Vec3) {
    match change {
        Change::Scale => {
            let answer = mesh::stored::scale(counts, by, vertices, normals, uvs, indices);
            (answer, NOTHING)
        }
        Change::Offset => {
            let answer = mesh::stored::offset(counts, by, vertices, normals, uvs, indices);
            (answer, NOTHING)
        }
        Change::TextureScale => {
            let two = Vec2 { x: by.x, y: by.y };
            let answer = mesh::stored::texture_scale(counts, two, vertices, normals, uvs, indices);
            (answer, NOTHING)
        }
        Change::Centroid => {
            match mesh::stored::centroid(counts, vertices, normals, uvs, indices) {
                Ok(found) => (Ok(found.counts), found.centroid),
                Err(why) => (Err(why), NOTHING),
            }
        }
        Change::UvCentroid => {
            match mesh::stored::uv_centroid(counts, vertices, normals, uvs, indices) {
                Ok(found) => (Ok(found.counts), in_two(found.centroid)),
                Err(why) => (Err(why), NOTHING),
            }
        }
    }
}

// A call of a stored mesh.
pub(crate) fn is_stored<R: Read>(from: &mut R) -> bool {
    let change = Change::read(from);
    let counts = Counts::read(from);
    let by = Vec3::read(from);
    let mut places = Places::default();
    let Lists {
        vertices,
        normals,
        uvs,
        indices,
    } = from.lists(&mut places);
    let (answer, value) = change_by(change, counts, by, vertices, normals, uvs, indices);
    let right = Told::read(from) == Told::from(answer);
    let lists = Lists {
        vertices,
        normals,
        uvs,
        indices,
    };
    let digest = lists.digested(value.digested(Digest::default()));
    Lanes::read(from) == Lanes::from(digest) && right
}
