// The lists of a job and of a mesh, in places that the caller holds: each is as long as what is lent of it.
ghost use Rattle.std.specs.Prelude.{◌≡◌, ◌≤◌, length, min, replicate, take};
ghost use Rattle.record.specs.Digests.{words_of};
ghost use Rattle.record.specs.Reading.{left};

use crate::ahead::Ahead;
use crate::digest::{Digest, Digested};
use crate::words::Recorded;
use std::io::Read;

// The room of a list of numbers and of one of indices, whether a job carries it or a call fills it.
pub const FLOATS: usize = 800;

const INDICES: usize = 1000;

// What stands in a list behind what was read, and in every place of one that a job fills: no mesh of the record has it.
const KEPT: f32 = -123456.75;

const KEPT_INDEX: u16 = 43981;

// How much of each list of a mesh is lent, or read.
#[derive(Clone, Copy)]
pub(crate) struct Room {
    vertices: usize,
    normals: usize,
    uvs: usize,
    indices: usize,
}

// The places of the four lists of a mesh.
#[derive(Drop)]
pub struct Places {
    vertices: [f32; FLOATS],
    normals: [f32; FLOATS],
    uvs: [f32; FLOATS],
    indices: [u16; INDICES],
}

// The four lists of a mesh, as a call finds and leaves them.
#[derive(Drop)]
pub struct Lists<'a> {
    pub vertices: &'a mut [f32],
    pub normals: &'a mut [f32],
    pub uvs: &'a mut [f32],
    pub indices: &'a mut [u16],
}

impl Recorded for Room {
    fn read<R: Read>(from: &mut R) -> Room {
        Room {
            vertices: from.count(FLOATS),
            normals: from.count(FLOATS),
            uvs: from.count(FLOATS),
            indices: from.count(INDICES),
        }
    }
}

impl Digested for &Lists<'_> {
    ghost words = { λ l. words_of l.now.vertices.now l.now.normals.now l.now.uvs.now l.now.indices.now };

    fn digested(self, d: Digest) -> Digest {
        let d = (&*self.vertices).digested(d);
        let d = (&*self.normals).digested(d);
        let d = (&*self.uvs).digested(d);
        (&*self.indices).digested(d)
    }
}

// The first places of a list, as many as are asked for and there.
fn first<T>(list: &mut [T], n: usize) -> &mut [T]
    ensures { result.now ≡ take n list.old }
{
    let n = n.min(list.len());
    &mut list[..n]
}

// Places with nothing read into them.
impl Default for Places {
    fn default() -> Places
        ensures vertices { result.vertices ≡ replicate 800 KEPT }
        ensures normals { result.normals ≡ replicate 800 KEPT }
        ensures uvs { result.uvs ≡ replicate 800 KEPT }
        ensures indices { result.indices ≡ replicate 1000 KEPT_INDEX }
    {
        Places {
            vertices: [KEPT; FLOATS],
            normals: [KEPT; FLOATS],
            uvs: [KEPT; FLOATS],
            indices: [KEPT_INDEX; INDICES],
        }
    }
}

impl Places {
    pub(crate) fn lent(&mut self, room: Room) -> Lists<'_>
        ensures vertices { result.vertices.now ≡ take room.vertices self.old.vertices }
        ensures normals { result.normals.now ≡ take room.normals self.old.normals }
        ensures uvs { result.uvs.now ≡ take room.uvs self.old.uvs }
        ensures indices { result.indices.now ≡ take room.indices self.old.indices }
    {
        let Places {
            vertices,
            normals,
            uvs,
            indices,
        } = self;
        Lists {
            vertices: first(vertices, room.vertices),
            normals: first(normals, room.normals),
            uvs: first(uvs, room.uvs),
            indices: first(indices, room.indices),
        }
    }
}

// What takes more than words: a count in a room, and lists; and what is read ahead of.
pub trait ReadLists: Read {
    fn ahead(self) -> Ahead<Self>
    where
        Self: Sized,
        ensures { left Self.remaining result ≡ Self.remaining self }
    {
        Ahead::new(self)
    }

    // A count, none greater than the room that it speaks of.
    fn count(&mut self, most: usize) -> usize
    where
        Self: Sized,
        ensures { result ≤ most }
    {
        usize::read(self).min(most)
    }

    // Reads a list into the first n places of these, or into all, and gives what it read.
    fn list<'a, T: Recorded>(&mut self, places: &'a mut [T], n: usize) -> &'a mut [T]
    where
        Self: Sized,
        ensures { length result.now ≡ min n (length places.old) }
    {
        let list = first(places, n);
        for place in list.iter_mut() {
            *place = T::read(self);
        }
        list
    }

    // The lists before a call: how much of each is lent, how much of it is other than what stands in all, and that.
    fn lists<'a>(&mut self, places: &'a mut Places) -> Lists<'a>
    where
        Self: Sized,
        ensures vertices { length result.vertices.now ≤ 800 }
        ensures normals { length result.normals.now ≤ 800 }
        ensures uvs { length result.uvs.now ≤ 800 }
        ensures indices { length result.indices.now ≤ 1000 }
    {
        let lent = Room::read(self);
        let told = Room::read(self);
        self.list(&mut places.vertices, told.vertices);
        self.list(&mut places.normals, told.normals);
        self.list(&mut places.uvs, told.uvs);
        self.list(&mut places.indices, told.indices);
        places.lent(lent)
    }
}

impl<R: Read> ReadLists for R {}
