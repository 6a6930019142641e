// What a buffer holds of a vertex: a point of three numbers, or a uv of two.
ghost use Rattle.std.specs.Prelude.{◌≡◌, ℕ, ◌+◌, ◌≤◌, List, length, slice_index_or, refl};
ghost use Rattle.std.specs.Float.{nan};
ghost use Rattle.std.specs.Float.Ieee.{Float};
ghost use Rattle.std.proofs.Math.Nat.{le_refl, le-add_right};
ghost use Rattle.face.specs.Vec.{v2, v3};
ghost use Rattle.buffers.specs.Laying.{three, two, laid};
ghost use Rattle.mesh.specs.Stored.{point_from, uv_from};

use face::vec::{Point, Vec2, Vec3};

pub(crate) trait Packed: Point {
    ghost SIZE: { ℕ };

    ghost read: { List Float → ℕ → Self };

    ghost numbers: { Self → List Float };

    const SIZE: usize;

    fn read(buffer: &[f32], at: usize) -> Self
        requires { at + SIZE ≤ length buffer.now }
        ensures { result ≡ read buffer.now at };

    fn put(self, buffer: &mut [f32], at: usize)
        requires { at + SIZE ≤ length buffer.old }
        ensures { buffer.new ≡ laid buffer.old at (numbers self) };

    // It has its size, and what lies before its place is not read.
    ghost sized: { (p : Self) → length (numbers p) ≡ SIZE };

    ghost own: { (l r : List Float) (at : ℕ) → ((p : ℕ) → at ≤ p → slice_index_or l p nan ≡ slice_index_or r p nan) → read l at ≡ read r at };
}

impl Packed for Vec3 {
    ghost SIZE = { 3 };

    ghost read = { point_from };

    ghost numbers = { three };

    ghost sized = { λ p. refl };

    ghost own = { λ l r at h i. v3 (h at (le_refl at) i) (h (at + 1) (le-add_right at 1) i) (h (at + 2) (le-add_right at 2) i) };

    const SIZE: usize = 3;

    fn read(buffer: &[f32], at: usize) -> Self {
        Vec3 {
            x: buffer[at],
            y: buffer[at + 1],
            z: buffer[at + 2],
        }
    }

    fn put(self, buffer: &mut [f32], at: usize) {
        buffer[at] = self.x;
        buffer[at + 1] = self.y;
        buffer[at + 2] = self.z;
    }
}

impl Packed for Vec2 {
    ghost SIZE = { 2 };

    ghost read = { uv_from };

    ghost numbers = { two };

    ghost sized = { λ p. refl };

    ghost own = { λ l r at h i. v2 (h at (le_refl at) i) (h (at + 1) (le-add_right at 1) i) };

    const SIZE: usize = 2;

    fn read(buffer: &[f32], at: usize) -> Self {
        Vec2 {
            x: buffer[at],
            y: buffer[at + 1],
        }
    }

    fn put(self, buffer: &mut [f32], at: usize) {
        buffer[at] = self.x;
        buffer[at + 1] = self.y;
    }
}
