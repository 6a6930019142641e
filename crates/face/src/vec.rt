// Points of the plane and of space, by value. A point of the plane has x and y; on the panel its y
// is the z of space.
ghost use Rattle.std.specs.Prelude.{◌≡◌, Float};
ghost use Rattle.arith.specs.Root.{root};
ghost use Rattle.face.specs.Vec.{plus2, minus2, times2, over2, zero2, off2, square2, plus3, minus3, times3, over3, zero3, off3, square3, reciprocal, serves};
ghost use Rattle.face.specs.Speed.{ordinary};

use std::ops::{Add, Div, Mul, Sub};

#[derive(Clone, Copy)]
pub struct Vec2 {
    pub x: f32,
    pub y: f32,
}

#[derive(Clone, Copy)]
pub struct Vec3 {
    pub x: f32,
    pub y: f32,
    pub z: f32,
}

// What points of the plane and of space share. Each operator is a function of its operands, for all of them.
pub trait Point: Copy
    + Add<Self, Output = Self>
    + Sub<Self, Output = Self>
    + Mul<f32, Output = Self>
    + Div<f32, Output = Self> {
    ghost zero: { Self };

    ghost plus: { Self → Self → Self };

    ghost minus: { Self → Self → Self };

    ghost times: { Self → Float → Self };

    ghost over: { Self → Float → Self };

    ghost square: { Self → Float };

    // What a list of points has past its end.
    ghost off: { Self };

    fn zero() -> Self
        ensures { result ≡ zero };

    fn squared(self) -> f32
        ensures { result ≡ square self };

    fn length(self) -> f32
        ensures { result ≡ root (square self) }
    {
        arith::root(self.squared())
    }

    // Normalised, of a point whose length is at hand.
    fn direction(self, span: f32) -> Self
        ensures { result ≡ times self (reciprocal span) }
    {
        self * one_over(span)
    }

    ghost can_plus: { (a b : Self) → Self.can_add a b };

    ghost adds: { (a b r : Self) → Self.add_gives a b r → r ≡ plus a b };

    ghost can_minus: { (a b : Self) → Self.can_sub a b };

    ghost subtracts: { (a b r : Self) → Self.sub_gives a b r → r ≡ minus a b };

    ghost can_times: { (a : Self) (k : Float) → Self.can_mul a k };

    ghost multiplies: { (a : Self) (k : Float) (r : Self) → Self.mul_gives a k r → r ≡ times a k };

    ghost can_over: { (a : Self) (k : Float) → Self.can_div a k };

    ghost divides: { (a : Self) (k : Float) (r : Self) → Self.div_gives a k r → r ≡ over a k };
}

impl Add<Vec2> for Vec2 {
    type Output = Vec2;

    ghost add_gives = { λ a b r. r ≡ plus2 a b };

    fn add(self, b: Vec2) -> Vec2 {
        Vec2 {
            x: self.x + b.x,
            y: self.y + b.y,
        }
    }
}

impl Sub<Vec2> for Vec2 {
    type Output = Vec2;

    ghost sub_gives = { λ a b r. r ≡ minus2 a b };

    fn sub(self, b: Vec2) -> Vec2 {
        Vec2 {
            x: self.x - b.x,
            y: self.y - b.y,
        }
    }
}

impl Mul<f32> for Vec2 {
    type Output = Vec2;

    ghost mul_gives = { λ a k r. r ≡ times2 a k };

    fn mul(self, k: f32) -> Vec2 {
        Vec2 {
            x: self.x * k,
            y: self.y * k,
        }
    }
}

impl Div<f32> for Vec2 {
    type Output = Vec2;

    ghost div_gives = { λ a k r. r ≡ over2 a k };

    fn div(self, k: f32) -> Vec2 {
        Vec2 {
            x: self.x / k,
            y: self.y / k,
        }
    }
}

impl Point for Vec2 {
    ghost zero = { zero2 };

    ghost plus = { plus2 };

    ghost minus = { minus2 };

    ghost times = { times2 };

    ghost over = { over2 };

    ghost square = { square2 };

    ghost off = { off2 };

    ghost can_plus = { λ a b. tt };

    ghost adds = { λ a b r h. h };

    ghost can_minus = { λ a b. tt };

    ghost subtracts = { λ a b r h. h };

    ghost can_times = { λ a k. tt };

    ghost multiplies = { λ a k r h. h };

    ghost can_over = { λ a k. tt };

    ghost divides = { λ a k r h. h };

    fn zero() -> Vec2 {
        Vec2 { x: 0.0, y: 0.0 }
    }

    fn squared(self) -> f32 {
        self.x * self.x + self.y * self.y
    }
}

impl Add<Vec3> for Vec3 {
    type Output = Vec3;

    ghost add_gives = { λ a b r. r ≡ plus3 a b };

    fn add(self, b: Vec3) -> Vec3 {
        Vec3 {
            x: self.x + b.x,
            y: self.y + b.y,
            z: self.z + b.z,
        }
    }
}

impl Sub<Vec3> for Vec3 {
    type Output = Vec3;

    ghost sub_gives = { λ a b r. r ≡ minus3 a b };

    fn sub(self, b: Vec3) -> Vec3 {
        Vec3 {
            x: self.x - b.x,
            y: self.y - b.y,
            z: self.z - b.z,
        }
    }
}

impl Mul<f32> for Vec3 {
    type Output = Vec3;

    ghost mul_gives = { λ a k r. r ≡ times3 a k };

    fn mul(self, k: f32) -> Vec3 {
        Vec3 {
            x: self.x * k,
            y: self.y * k,
            z: self.z * k,
        }
    }
}

impl Div<f32> for Vec3 {
    type Output = Vec3;

    ghost div_gives = { λ a k r. r ≡ over3 a k };

    fn div(self, k: f32) -> Vec3 {
        Vec3 {
            x: self.x / k,
            y: self.y / k,
            z: self.z / k,
        }
    }
}

impl Point for Vec3 {
    ghost zero = { zero3 };

    ghost plus = { plus3 };

    ghost minus = { minus3 };

    ghost times = { times3 };

    ghost over = { over3 };

    ghost square = { square3 };

    ghost off = { off3 };

    ghost can_plus = { λ a b. tt };

    ghost adds = { λ a b r h. h };

    ghost can_minus = { λ a b. tt };

    ghost subtracts = { λ a b r h. h };

    ghost can_times = { λ a k. tt };

    ghost multiplies = { λ a k r h. h };

    ghost can_over = { λ a k. tt };

    ghost divides = { λ a k r h. h };

    fn zero() -> Vec3 {
        Vec3 {
            x: 0.0,
            y: 0.0,
            z: 0.0,
        }
    }

    fn squared(self) -> f32 {
        self.x * self.x + self.y * self.y + self.z * self.z
    }
}

// One over a length: what every normalising multiplies by.
pub fn one_over(span: f32) -> f32
    ensures { result ≡ reciprocal span }
{
    1.0 / span
}

// Whether a reciprocal length gives a direction: finite and above 0.
pub(crate) fn is_usable(k: f32) -> bool
    ensures { result ≡ serves k }
{
    0.0 < k && k < f32::INFINITY
}

// A quicker test that is enough: what is above 0 and at most 2 ^ 32 gives a direction. Only points
// nearer to the origin than 2 ^ -32 have a greater one.
pub(crate) fn is_ordinary(k: f32) -> bool
    ensures { result ≡ ordinary k }
{
    0.0 < k && k <= 4294967296.0
}
