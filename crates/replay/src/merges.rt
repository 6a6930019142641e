// Merges: what stands in the lists before a call is read, and the call is held to its answer and to a digest of the lists
// that it leaves.
use answer::answer::Answer;
use face::triangle::Counts;
use record::answers::Told;
use record::digest::{Digest, Digested, Lanes};
use record::lists::{Lists, Places, ReadLists};
use record::words::Recorded;
use std::io::Read;

// The answer of a merge.
fn merged(of: Counts, source: Lists, to: Counts, target: &mut Lists) -> Answer {
    let Lists {
        vertices,
        normals,
        uvs,
        indices,
    } = source;
    merge::merge(
        of,
        vertices,
        normals,
        uvs,
        indices,
        to,
        target.vertices,
        target.normals,
        target.uvs,
        target.indices,
    )
}

// A merge: the source, then the target.
pub(crate) fn is_merge<R: Read>(from: &mut R) -> bool {
    let of = Counts::read(from);
    let mut sources = Places::default();
    let source = from.lists(&mut sources);
    let to = Counts::read(from);
    let mut targets = Places::default();
    let mut target = from.lists(&mut targets);
    let answer = merged(of, source, to, &mut target);
    let right = Told::read(from) == Told::from(answer);
    let digest = target.digested(Digest::default());
    Lanes::read(from) == Lanes::from(digest) && right
}
