// One uv: altered by texture options, or wrapped from a point.
ghost use Rattle.std.specs.Prelude.{◌≡◌};
ghost use Rattle.face.specs.Texture.{altered, wrapped};
ghost use Rattle.boundary.specs.FromC.{vec2_of, uv_options_of};
ghost use Rattle.boundary.specs.ToC.{point_to_c};

use boundary::from_c::{CUvOptions, CVec2};

#[unsafe(no_mangle)]
pub extern "C" fn hosirekar_alter_uv(options: CUvOptions, uv: CVec2) -> CVec2
    ensures { result ≡ point_to_c (altered (uv_options_of options) (vec2_of uv)) }
{
    exports::texture::hosirekar_alter_uv(options, uv)
}

#[unsafe(no_mangle)]
pub extern "C" fn hosirekar_wrap_uv(point: CVec2) -> CVec2
    ensures { result ≡ point_to_c (wrapped (vec2_of point)) }
{
    exports::texture::hosirekar_wrap_uv(point)
}
