// Digests of what a call gives and leaves.
ghost use Rattle.std.specs.Prelude.{◌≡◌, List, [], ◌∷◌, ◌++◌, ◌%◌, ℕ};
ghost use Rattle.std.specs.List.{flat_map};
ghost use Rattle.record.specs.Digests.{of_nothing, with_words, word, lanes_of};

use crate::words::Recorded;
use face::vec::{Vec2, Vec3};
use std::io::Read;

// Two remainders by a prime a little above 2^32: each changes with any one word. Of each the last 32 bits are held, so
// such a change is lost only where the old and the new remainder are 2^32 apart, in both.
#[derive(Clone, Copy)]
pub struct Digest {
    a: u64,
    b: u64,
}

impl Default for Digest {
    ghost is_default = { λ d. d ≡ of_nothing };

    fn default() -> Digest {
        Digest { a: 1, b: 1 }
    }
}

// What is held of a digest, and recorded.
#[derive(Clone, Copy, PartialEq)]
pub struct Lanes {
    a: u32,
    b: u32,
}

fn lane(x: u64) -> u32
    ensures { result ≡ x % 4294967311 % 4294967296 }
{
    (x % 4294967311 % 4294967296) as u32
}

impl From<Digest> for Lanes {
    ghost from_gives = { λ d l. l ≡ lanes_of d };

    fn from(d: Digest) -> Lanes {
        Lanes {
            a: lane(d.a),
            b: lane(d.b),
        }
    }
}

impl Recorded for Lanes {
    fn read<R: Read>(from: &mut R) -> Lanes {
        Lanes {
            a: u32::read(from),
            b: u32::read(from),
        }
    }
}

// What a digest takes, word by word.
pub trait Digested {
    ghost words: { Self → List ℕ };

    // The digest with this behind what it has.
    fn digested(self, d: Digest) -> Digest
        ensures { result ≡ with_words d (words self) };
}

impl Digested for u32 {
    ghost words = { λ n. n ∷ [] };

    fn digested(self, d: Digest) -> Digest {
        Digest {
            a: d.a % 4294967311 * 2654435761 + u64::from(self),
            b: d.b % 4294967311 * 2246822519 + u64::from(self),
        }
    }
}

impl Digested for u16 {
    ghost words = { λ n. n ∷ [] };

    fn digested(self, d: Digest) -> Digest {
        u32::from(self).digested(d)
    }
}

impl Digested for f32 {
    ghost words = { word };

    fn digested(self, d: Digest) -> Digest {
        patterns::pattern(self).digested(d)
    }
}

impl Digested for Vec2 {
    ghost words = { λ p. word p.x ++ word p.y };

    fn digested(self, d: Digest) -> Digest {
        self.y.digested(self.x.digested(d))
    }
}

impl Digested for Vec3 {
    ghost words = { λ p. word p.x ++ word p.y ++ word p.z };

    fn digested(self, d: Digest) -> Digest {
        self.z.digested(self.y.digested(self.x.digested(d)))
    }
}

impl<T: Digested + Copy> Digested for &[T] {
    ghost words = { λ s. flat_map T.words s.now };

    fn digested(self, d: Digest) -> Digest {
        self.iter().fold(d, |d, x| x.digested(d))
    }
}
