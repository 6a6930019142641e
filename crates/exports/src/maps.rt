// A height map: 27 numbers a cell (its height, its position, of each side the left end and the right, all x and z), six
// neighbours a cell, six fringe heights and seven option numbers a cell if they are listed, six cap corners in a list of
// twelve, and a table of options in two lists.
ghost use Rattle.std.specs.Prelude.{◌≡◌};
ghost use Rattle.buffers.specs.Lent.{entering, Become};
ghost use Rattle.heightmap.specs.HeightMap.{lent};
ghost use Rattle.boundary.specs.Maps.{map_planned, map_whole, map_face, map_built, map_faced, map_faces_told, map_window_told, map_why_told, map_which_told};
ghost use Rattle.boundary.specs.ToC.{answer_to_c, faces_to_c, window_to_c, why_to_c, which_to_c};

use crate::lists::lists_of;
use boundary::jobs::CHeightMap;
use boundary::to_c::{CAnswer, CFaces, CWhich, CWhy, CWindow};
use heightmap::HeightMap;

// The counts of the job, or why it is refused.
pub fn hosirekar_heightmap_plan(
    job: CHeightMap,
    cells: &[f32],
    neighbours: &[u32],
    fringe: &[f32],
    customs: &[u8],
    corners: &[f32],
    numbers: &[f32],
    marks: &[u8],
) -> CAnswer
    ensures { result ≡ answer_to_c (map_planned job (lent cells neighbours fringe customs corners numbers marks)) }
{
    let lists = lists_of(cells, neighbours, fringe, customs, corners, numbers, marks);
    // A match, here and below: with the lists or the buffers in a closure of `and_then` the promise does not close.
    match HeightMap::try_from(job) {
        Ok(job) => CAnswer::from(heightmap_builder::plan(job, lists)),
        Err(why) => CAnswer::from(Err(why)),
    }
}

// How many faces the job has, or why it is refused.
pub fn hosirekar_heightmap_faces(
    job: CHeightMap,
    cells: &[f32],
    neighbours: &[u32],
    fringe: &[f32],
    customs: &[u8],
    corners: &[f32],
    numbers: &[f32],
    marks: &[u8],
) -> CFaces
    ensures { result ≡ faces_to_c (map_faces_told job (lent cells neighbours fringe customs corners numbers marks)) }
{
    let lists = lists_of(cells, neighbours, fringe, customs, corners, numbers, marks);
    match HeightMap::try_from(job) {
        Ok(job) => CFaces::from(heightmap_plan::window::faces(job, lists)),
        Err(why) => CFaces::from(Err(why)),
    }
}

// The places of one face of the job, by its number, or why there are none.
pub fn hosirekar_heightmap_window(
    job: CHeightMap,
    cells: &[f32],
    neighbours: &[u32],
    fringe: &[f32],
    customs: &[u8],
    corners: &[f32],
    numbers: &[f32],
    marks: &[u8],
    number: usize,
) -> CWindow
    ensures { result ≡ window_to_c (map_window_told job (lent cells neighbours fringe customs corners numbers marks) number) }
{
    let lists = lists_of(cells, neighbours, fringe, customs, corners, numbers, marks);
    match HeightMap::try_from(job) {
        Ok(job) => CWindow::from(heightmap_plan::window::window(job, lists, number)),
        Err(why) => CWindow::from(Err(why)),
    }
}

// Why a side of a cell is there or is not: 1 sides are off, 2 no neighbour and no fringe height, 3 the neighbour or the
// fringe as high or higher, with that height, 4 there, with the number of its face.
pub fn hosirekar_heightmap_why(
    job: CHeightMap,
    cells: &[f32],
    neighbours: &[u32],
    fringe: &[f32],
    customs: &[u8],
    corners: &[f32],
    numbers: &[f32],
    marks: &[u8],
    cell: usize,
    side: usize,
) -> CWhy
    ensures { result ≡ why_to_c (map_why_told job (lent cells neighbours fringe customs corners numbers marks) cell side) }
{
    let lists = lists_of(cells, neighbours, fringe, customs, corners, numbers, marks);
    match HeightMap::try_from(job) {
        Ok(job) => CWhy::from(heightmap_why::why(job, lists, cell, side)),
        Err(why) => CWhy::from(Err(why)),
    }
}

// Which face a number is: 1 the cap of a cell, 2 a side of a cell.
pub fn hosirekar_heightmap_which(
    job: CHeightMap,
    cells: &[f32],
    neighbours: &[u32],
    fringe: &[f32],
    customs: &[u8],
    corners: &[f32],
    numbers: &[f32],
    marks: &[u8],
    number: usize,
) -> CWhich
    ensures { result ≡ which_to_c (map_which_told job (lent cells neighbours fringe customs corners numbers marks) number) }
{
    let lists = lists_of(cells, neighbours, fringe, customs, corners, numbers, marks);
    match HeightMap::try_from(job) {
        Ok(job) => CWhich::from(heightmap_why::which(job, lists, number)),
        Err(why) => CWhich::from(Err(why)),
    }
}

// The whole job, written to four buffers, or nothing.
pub fn hosirekar_heightmap_build(
    job: CHeightMap,
    cells: &[f32],
    neighbours: &[u32],
    fringe: &[f32],
    customs: &[u8],
    corners: &[f32],
    numbers: &[f32],
    marks: &[u8],
    vertices: &mut [f32],
    normals: &mut [f32],
    uvs: &mut [f32],
    indices: &mut [u16],
) -> CAnswer
    ensures answer { result ≡ answer_to_c (map_whole job (lent cells neighbours fringe customs corners numbers marks) (entering vertices normals uvs indices)) }
    ensures buffers { Become (map_built job (lent cells neighbours fringe customs corners numbers marks)) vertices normals uvs indices }
{
    let lists = lists_of(cells, neighbours, fringe, customs, corners, numbers, marks);
    match HeightMap::try_from(job) {
        Ok(job) => CAnswer::from(heightmap_builder::build(
            job, lists, vertices, normals, uvs, indices,
        )),
        Err(why) => CAnswer::from(Err(why)),
    }
}

// One face of the job, by its number: of each cell the cap, then the sides that stand.
pub fn hosirekar_heightmap_face(
    job: CHeightMap,
    cells: &[f32],
    neighbours: &[u32],
    fringe: &[f32],
    customs: &[u8],
    corners: &[f32],
    numbers: &[f32],
    marks: &[u8],
    number: usize,
    vertices: &mut [f32],
    normals: &mut [f32],
    uvs: &mut [f32],
    indices: &mut [u16],
) -> CAnswer
    ensures answer { result ≡ answer_to_c (map_face job (lent cells neighbours fringe customs corners numbers marks) number (entering vertices normals uvs indices)) }
    ensures buffers { Become (map_faced job (lent cells neighbours fringe customs corners numbers marks) number) vertices normals uvs indices }
{
    let lists = lists_of(cells, neighbours, fringe, customs, corners, numbers, marks);
    match HeightMap::try_from(job) {
        Ok(job) => CAnswer::from(heightmap_builder::face(
            job, lists, number, vertices, normals, uvs, indices,
        )),
        Err(why) => CAnswer::from(Err(why)),
    }
}
