// One uv: altered by texture options, or wrapped from a point.
ghost use Rattle.std.specs.Prelude.{◌≡◌};
ghost use Rattle.face.specs.Texture.{altered, wrapped};
ghost use Rattle.boundary.specs.FromC.{vec2_of, uv_options_of};
ghost use Rattle.boundary.specs.ToC.{point_to_c};

use boundary::from_c::{CUvOptions, CVec2};
use face::uv_mapping::UvOptions;
use face::vec::Vec2;

pub fn hosirekar_alter_uv(options: CUvOptions, uv: CVec2) -> CVec2
    ensures { result ≡ point_to_c (altered (uv_options_of options) (vec2_of uv)) }
{
    CVec2::from(face::uv_mapping::alter_uv(UvOptions::from(options), Vec2::from(uv)))
}

pub fn hosirekar_wrap_uv(point: CVec2) -> CVec2
    ensures { result ≡ point_to_c (wrapped (vec2_of point)) }
{
    CVec2::from(face::uv_mapping::wrap_uv(Vec2::from(point)))
}
