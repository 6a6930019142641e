// Where a face stands. Each of its points goes through what a job supplies as it is laid.
ghost use Rattle.std.specs.Prelude.{◌≡◌, ◌&&◌};
ghost use Rattle.answer.specs.Checks.{in_range3};
ghost use Rattle.placement.specs.Speed.{shifts_alone, shift_of};
ghost use Rattle.placement.specs.Placing.{scaled, dot, turned, moved, half_turned, placed, stood, stood_normal, stand_from, stand_by, settled, choice_in_range, turn_in_range, placement_in_range};

use face::vec::{Vec2, Vec3};

// What the ported crate has as an `Option` of a job is an enum of our own: a rule of this repository.
#[derive(Clone, Copy)]
pub enum Choice3 {
    Absent,
    With(Vec3),
}

// Nine numbers, row by row.
#[derive(Clone, Copy)]
pub enum Turn {
    Absent,
    Rows(Vec3, Vec3, Vec3),
}

// Scale, turn and offset of a whole job, each if supplied.
#[derive(Clone, Copy)]
pub struct Placement {
    pub scale: Choice3,
    pub turn: Turn,
    pub offset: Choice3,
}

// All that moves a face: a first offset, a half turn, scale, turn, offset and a map's origin, in this order, each if it
// is so.
#[derive(Clone, Copy)]
pub struct Stand {
    pub first: Choice3,
    pub half: bool,
    pub scale: Choice3,
    pub turn: Turn,
    pub offset: Choice3,
    pub origin: Choice3,
}

// How a face stands by a job's placement, after a first offset and a half turn of its own, and before an origin.
pub fn stand_from(origin: Choice3, first: Choice3, half: bool, s: Placement) -> Stand
    ensures { result ≡ stand_from origin first half s }
{
    Stand {
        first,
        half,
        scale: s.scale,
        turn: s.turn,
        offset: s.offset,
        origin,
    }
}

// The same of a job that has no origin.
pub fn stand_by(first: Choice3, half: bool, s: Placement) -> Stand
    ensures { result ≡ stand_by first half s }
{
    stand_from(Choice3::Absent, first, half, s)
}

fn scale_by(s: Choice3, p: Vec3) -> Vec3
    ensures { result ≡ scaled s p }
{
    match s {
        Choice3::Absent => p,
        Choice3::With(by) => Vec3 {
            x: p.x * by.x,
            y: p.y * by.y,
            z: p.z * by.z,
        },
    }
}

fn dot(r: Vec3, p: Vec3) -> f32
    ensures { result ≡ dot r p }
{
    r.x * p.x + r.y * p.y + r.z * p.z
}

fn turn_by(t: Turn, p: Vec3) -> Vec3
    ensures { result ≡ turned t p }
{
    match t {
        Turn::Absent => p,
        Turn::Rows(a, b, c) => Vec3 {
            x: dot(a, p),
            y: dot(b, p),
            z: dot(c, p),
        },
    }
}

fn move_by(s: Choice3, p: Vec3) -> Vec3
    ensures { result ≡ moved s p }
{
    match s {
        Choice3::Absent => p,
        Choice3::With(by) => p + by,
    }
}

// About the axis z, exactly.
fn half_turn(half: bool, p: Vec3) -> Vec3
    ensures { result ≡ half_turned half p }
{
    if half {
        return Vec3 {
            x: -p.x,
            y: -p.y,
            z: p.z,
        };
    }
    p
}

fn place_point(t: Stand, p: Vec3) -> Vec3
    ensures { result ≡ placed t p }
{
    let start = half_turn(t.half, move_by(t.first, p));
    move_by(t.offset, turn_by(t.turn, scale_by(t.scale, start)))
}

pub fn stand_point(t: Stand, p: Vec3) -> Vec3
    ensures { result ≡ stood t p }
{
    move_by(t.origin, place_point(t, p))
}

// Whether a face is neither turned nor scaled, as nearly every one is.
pub fn is_shift(t: Stand) -> bool
    ensures { result ≡ shifts_alone t }
{
    matches!(
        (t.half, t.scale, t.turn),
        (false, Choice3::Absent, Turn::Absent)
    )
}

// Where a point of such a face stands.
pub fn shift_point(t: Stand, p: Vec3) -> Vec3
    ensures { result ≡ shift_of t p }
{
    move_by(t.origin, move_by(t.offset, move_by(t.first, p)))
}

// A normal is turned, and neither scaled nor moved.
pub fn stand_normal(t: Stand, n: Vec3) -> Vec3
    ensures { result ≡ stood_normal t n }
{
    turn_by(t.turn, half_turn(t.half, n))
}

// The placement of a whole mesh: the position is always added, so that -0 becomes +0 wherever the sum is not of two -0.
pub fn settle(s: Placement, at: Vec2) -> Placement
    ensures { result ≡ settled s at }
{
    let spot = Vec3 {
        x: at.x,
        y: 0.0,
        z: at.y,
    };
    Placement {
        offset: Choice3::With(move_by(s.offset, spot)),
        ..s
    }
}

fn choice_in_range(choice: Choice3) -> bool
    ensures { result ≡ choice_in_range choice }
{
    match choice {
        Choice3::Absent => true,
        Choice3::With(p) => answer::check::in_range3(p),
    }
}

fn rows_in_range(a: Vec3, b: Vec3, c: Vec3) -> bool
    ensures { result ≡ in_range3 a && (in_range3 b && in_range3 c) }
{
    answer::check::in_range3(a) && answer::check::in_range3(b) && answer::check::in_range3(c)
}

fn turn_in_range(turn: Turn) -> bool
    ensures { result ≡ turn_in_range turn }
{
    match turn {
        Turn::Absent => true,
        Turn::Rows(a, b, c) => rows_in_range(a, b, c),
    }
}

// Whether every number that is supplied is in range.
pub fn placement_in_range(s: Placement) -> bool
    ensures { result ≡ placement_in_range s }
{
    choice_in_range(s.scale) && turn_in_range(s.turn) && choice_in_range(s.offset)
}
