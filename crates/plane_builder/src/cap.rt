// The hexagon of a plane, which is also a cap of a column: six corners, its inset, and its uvs altered last.
ghost use Rattle.std.specs.Prelude.{◌≡◌, get_or};
ghost use Rattle.std.specs.Float.{nan};
ghost use Rattle.face.specs.Inset.{inset_hexagon_of};
ghost use Rattle.buffers.specs.Laying.{laid_if_fits};
ghost use Rattle.buffers.specs.Lent.{Become};
ghost use Rattle.mesh.specs.Stored.{uv_from};
ghost use Rattle.plane_builder.specs.Cap.{corners_of, altered_outer, altered_hexagon, cap_hexagon, cap_mesh};

use face::face::Hexagon;
use face::inset::{Inset, InsetHexagon};
use face::triangle::Counts;
use face::uv_mapping::UvOptions;
use face::vec::Vec2;
use placement::options::FaceOptions;
use placement::placement::Stand;

// A number of a list, and NaN past its end.
fn number_at(list: &[f32], i: usize) -> f32
    ensures { result ≡ get_or list.now i nan }
{
    if i < list.len() {
        return list[i];
    }
    0.0 / 0.0
}

// Two numbers of a list that follow each other, as x and z of a corner.
pub fn pair_at(list: &[f32], at: u32) -> Vec2
    ensures { result ≡ uv_from list.now at }
{
    let i = at as usize;
    Vec2 {
        x: number_at(list, i),
        y: number_at(list, i + 1),
    }
}

pub fn corners_of(corners: &[f32]) -> [Vec2; 6]
    ensures { result ≡ corners_of corners.now }
{
    [
        pair_at(corners, 0),
        pair_at(corners, 2),
        pair_at(corners, 4),
        pair_at(corners, 6),
        pair_at(corners, 8),
        pair_at(corners, 10),
    ]
}

// The uvs of both points of each corner, the inset's too.
fn alter(o: UvOptions, h: InsetHexagon) -> InsetHexagon
    ensures { result ≡ altered_hexagon o h }
{
    let positions = h.positions;
    let normal = h.normal;
    let plain = h.uvs;
    let uvs = face::uv_mapping::alter(o, plain);
    InsetHexagon {
        positions: positions,
        normal: normal,
        uvs: uvs,
    }
}

// Without an inset only six uvs are laid, so only those are altered, and it is no matter that this comes first. The
// inset is handed on as it came: the promise says what this makes of any, and the arm that calls it has none.
fn alter_first(o: UvOptions, how: Inset, h: Hexagon) -> InsetHexagon
    ensures { result ≡ inset_hexagon_of how (altered_outer o h) }
{
    let positions = h.positions;
    let normal = h.normal;
    let plain = h.uvs;
    let uvs = face::uv_mapping::alter(o, plain);
    let altered = Hexagon {
        positions: positions,
        normal: normal,
        uvs: uvs,
    };
    insetting::inset_hexagon(how, altered)
}

pub fn cap_hexagon(corners: &[f32], o: FaceOptions) -> InsetHexagon
    ensures { result ≡ cap_hexagon corners.now o }
{
    let inset = o.inset;
    let uv = o.uv;
    let plain = face::face::new_hexagon(corners_of(corners));
    match inset {
        Inset::None => alter_first(uv, inset, plain),
        _ => alter(uv, insetting::inset_hexagon(inset, plain)),
    }
}

// A cap laid at a place where it comes to stand, if there is room.
pub fn put_cap(
    t: Stand,
    corners: &[f32],
    o: FaceOptions,
    at: Counts,
    vertices: &mut [f32],
    normals: &mut [f32],
    uvs: &mut [f32],
    indices: &mut [u16],
)
    ensures { Become (laid_if_fits (cap_mesh t corners.now o) at) vertices normals uvs indices }
{
    let inset = o.inset;
    let h = cap_hexagon(corners, o);
    buffers::laying::lay_hexagon(t, inset, h, at, vertices, normals, uvs, indices);
}
