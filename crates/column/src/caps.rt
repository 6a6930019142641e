// Where the caps of a column stand: about (+0, +0), moved by a first offset of their own, then placed.
ghost use Rattle.std.specs.Prelude.{◌≡◌};
ghost use Rattle.column.specs.Column.{top_offset, top_stand, bottom_stand};

use face::vec::Vec3;
use placement::placement::{Choice3, Stand};

const ORIGIN: Vec3 = Vec3 {
    x: 0.0,
    y: 0.0,
    z: 0.0,
};

// The products with 0 are -0 below height 0; the sum makes them +0.
fn top_offset(height: f32) -> Vec3
    ensures { result ≡ top_offset height }
{
    let up = Vec3 {
        x: 0.0 * height,
        y: height,
        z: 0.0 * height,
    };
    ORIGIN + up
}

pub fn top_stand(job: crate::Column) -> Stand
    ensures { result ≡ top_stand job }
{
    placement::placement::stand_by(
        Choice3::With(top_offset(job.height)),
        false,
        placement::placement::settle(job.placement, job.position),
    )
}

// A zero is added first, so that no -0 is left to be turned.
pub fn bottom_stand(job: crate::Column) -> Stand
    ensures { result ≡ bottom_stand job }
{
    placement::placement::stand_by(
        Choice3::With(ORIGIN),
        true,
        placement::placement::settle(job.placement, job.position),
    )
}
