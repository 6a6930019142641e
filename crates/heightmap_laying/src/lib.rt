// The faces of a height map laid into four buffers, each where it fits: one by its name, or all of them end to end.
#![tactic(auto)]

ghost use Rattle.std.specs.Prelude.{◌≡◌, cond, ◌+◌, ◌≤◌, ◌<◌, ◌^◌};
ghost use Rattle.answer.specs.Checks.{cell_count};
ghost use Rattle.buffers.specs.Mesh.{also, measure};
ghost use Rattle.buffers.specs.Laying.{laid_if_fits, lay_each};
ghost use Rattle.buffers.specs.Lent.{Become};
ghost use Rattle.heightmap.specs.Grid.{seen_grid, left_at, right_at};
ghost use Rattle.heightmap.specs.HeightMap.{seen};
ghost use Rattle.heightmap_laying.specs.Shared.{shared_of, top_mesh, top_faces, level_mesh, level_faces, sides_faces, cell_faces};
ghost use Rattle.heightmap_laying.specs.Shared.{wall_number, sides_laid, cell_laid, name_laid, all_laid};

use face::triangle::{Counts, IndexPlace, VertexNumber};
use face::vec::Vec2;
use heightmap::grid::Grid;
use heightmap::{HeightMap, Lists, Name, Span, Wall};
use heightmap_faces::kept::KeptLevel;
use heightmap_faces::named::CapFace;
use heightmap_faces::{Level, Skin, Top};
use placement::options::Choice;
use placement::placement::Stand;

// What a job works out once for all its walls.
#[derive(Clone, Copy)]
pub struct Shared {
    pub job: HeightMap,
    pub span: Span,
    pub stand: Stand,
    pub own: u8,
    pub skin: Skin,
}

#[tactic(auto, unfolding(heightmap::specs::Grid::span_of))]
fn shared_of(job: HeightMap, lists: Lists<'_>) -> Shared
    ensures { result ≡ shared_of job (seen lists.entry) }
{
    let span = lists.grid.span_of(job.range);
    let own = heightmap_faces::kept::number_of(job.sides);
    let o = placement::options::option_at(lists.numbers, lists.marks, own);
    Shared {
        job,
        span,
        stand: heightmap::options::side_stand(job),
        own,
        skin: heightmap_faces::skin_of(o, span),
    }
}

// The same in each crate that lays faces: as no public function has a `requires`, it is not handed from one to the other.
fn add(a: Counts, b: Counts) -> Counts
    requires { (a.vertices.0 + b.vertices.0 < 2 ^ 64) × (a.indices.0 + b.indices.0 < 2 ^ 64) }
    ensures { result ≡ also a b }
{
    Counts {
        vertices: VertexNumber(a.vertices.0 + b.vertices.0),
        indices: IndexPlace(a.indices.0 + b.indices.0),
    }
}

// As many cells as are laid: none of too many, so that no place can grow too great.
fn up_to(n: usize) -> usize
    ensures count { result ≡ cond (cell_count n) n 0 }
    ensures small { result ≤ 65536 }
{
    if answer::check::is_cell_count(n) {
        return n;
    }
    0
}

// A cap of a whole build. It and `put_side` have one call each, so that the compiler makes and lays a face at one go.
fn put_cap(
    top: Top,
    t: Stand,
    at: Counts,
    vertices: &mut [f32],
    normals: &mut [f32],
    uvs: &mut [f32],
    indices: &mut [u16],
)
    ensures { Become (laid_if_fits (top_mesh t top) at) vertices normals uvs indices }
{
    let Top { inset, whole } = top;
    if face::inset::is_none(inset) {
        let f = buffers::plain::stand_hexagon(t, whole);
        buffers::laying::lay_plain_hexagon(f, at, vertices, normals, uvs, indices);
    } else {
        buffers::laying::lay_hexagon(t, inset, whole, at, vertices, normals, uvs, indices);
    }
}

fn put_side(
    v: Level,
    t: Stand,
    left: Vec2,
    right: Vec2,
    foot: f32,
    at: Counts,
    vertices: &mut [f32],
    normals: &mut [f32],
    uvs: &mut [f32],
    indices: &mut [u16],
)
    ensures { Become (laid_if_fits (level_mesh t v left right foot) at) vertices normals uvs indices }
{
    let inset = v.skin.inset;
    let q = heightmap_faces::wall_quad(v, left, right, foot);
    if face::inset::is_none(inset) {
        let f = buffers::plain::stand_quad(t, q);
        buffers::laying::lay_plain_quad(f, at, vertices, normals, uvs, indices);
    } else {
        buffers::laying::lay_wall(t, inset, q, at, vertices, normals, uvs, indices);
    }
}

// A cap where caps are on, and the place past it.
fn put_cap_if(
    caps: Choice,
    top: Top,
    t: Stand,
    at: Counts,
    vertices: &mut [f32],
    normals: &mut [f32],
    uvs: &mut [f32],
    indices: &mut [u16],
) -> Counts
    requires { (at.vertices.0 ≤ 2 ^ 32) × (at.indices.0 ≤ 2 ^ 32) }
    ensures place { result ≡ also at (measure (top_faces caps t top)) }
    ensures small { (result.vertices.0 ≤ at.vertices.0 + 12) × (result.indices.0 ≤ at.indices.0 + 50) }
    ensures buffers { Become (lay_each (top_faces caps t top) at) vertices normals uvs indices }
{
    match caps {
        Choice::Absent => at,
        Choice::With(_) => {
            put_cap(top, t, at, vertices, normals, uvs, indices);
            add(
                at,
                face::triangle::counts_of::<face::face::Hexagon>(top.inset),
            )
        }
    }
}

// A wall where it is present, and the place past it.
fn put_wall(
    w: Wall,
    v: Level,
    t: Stand,
    k: usize,
    d: u8,
    at: Counts,
    grid: Grid<'_>,
    vertices: &mut [f32],
    normals: &mut [f32],
    uvs: &mut [f32],
    indices: &mut [u16],
) -> Counts
    requires { (at.vertices.0 ≤ 2 ^ 33) × (at.indices.0 ≤ 2 ^ 33) }
    ensures place { result ≡ also at (measure (level_faces w t v (left_at (seen_grid grid.entry).cells k d) (right_at (seen_grid grid.entry).cells k d))) }
    ensures small { (result.vertices.0 ≤ at.vertices.0 + 8) × (result.indices.0 ≤ at.indices.0 + 32) }
    ensures buffers { Become (lay_each (level_faces w t v (left_at (seen_grid grid.entry).cells k d) (right_at (seen_grid grid.entry).cells k d)) at) vertices normals uvs indices }
{
    if !w.is_present() {
        return at;
    }
    let left = grid.left_at(k, d);
    let right = grid.right_at(k, d);
    put_side(
        v,
        t,
        left,
        right,
        w.foot(),
        at,
        vertices,
        normals,
        uvs,
        indices,
    );
    add(
        at,
        face::triangle::counts_of::<face::face::Quad>(v.skin.inset),
    )
}

// The number of the option of a wall that is present; where there is none, any number will do.
fn wall_number(job: HeightMap, w: Wall, any: u8, k: usize, d: u8, customs: &[u8]) -> u8
    ensures { result ≡ wall_number job w any k d customs.now }
{
    if w.is_present() {
        let choice = heightmap::options::choice_of(job, Name::Side(k, d), customs);
        return heightmap_faces::kept::number_of(choice);
    }
    any
}

// The walls of a cell in order, and the place past them.
fn put_sides(
    s: Shared,
    k: usize,
    at: Counts,
    lists: Lists<'_>,
    vertices: &mut [f32],
    normals: &mut [f32],
    uvs: &mut [f32],
    indices: &mut [u16],
) -> Counts
    requires s_value { s ≡ shared_of s.job (seen lists) }
    requires vertices_bound { (at.vertices.0 ≤ 2 ^ 32) × (at.indices.0 ≤ 2 ^ 32) }
    ensures place { result ≡ also at (measure (sides_faces s.job (seen lists.entry) k 6)) }
    ensures small { (result.vertices.0 ≤ at.vertices.0 + 200) × (result.indices.0 ≤ at.indices.0 + 200) }
    ensures buffers { Become (sides_laid s.job (seen lists.entry) k at) vertices normals uvs indices }
{
    let job = s.job;
    let grid = lists.grid;
    let top = grid.height_at(k);
    let mut kept = KeptLevel {
        number: s.own,
        level: heightmap_faces::level_of(s.skin, top),
    };
    let mut place = at;
    for d in 0u8..6 {
        let w = grid.wall_at(job.sides, job.fringe, k, d);
        let number = wall_number(job, w, kept.number, k, d, lists.customs);
        if number != kept.number {
            kept = heightmap_faces::kept::level_by(number, s.span, top, lists);
        }
        place = put_wall(
            w, kept.level, s.stand, k, d, place, grid, vertices, normals, uvs, indices,
        );
    }
    place
}

// The cap of a cell, where caps are on, and its walls, and the place past them.
fn put_cell(
    s: Shared,
    top: Top,
    k: usize,
    at: Counts,
    lists: Lists<'_>,
    vertices: &mut [f32],
    normals: &mut [f32],
    uvs: &mut [f32],
    indices: &mut [u16],
) -> Counts
    requires s_value { s ≡ shared_of s.job (seen lists) }
    requires vertices_bound { (at.vertices.0 ≤ 2 ^ 31) × (at.indices.0 ≤ 2 ^ 31) }
    ensures place { result ≡ also at (measure (cell_faces s.job (seen lists.entry) k top)) }
    ensures small { (result.vertices.0 ≤ at.vertices.0 + 250) × (result.indices.0 ≤ at.indices.0 + 250) }
    ensures buffers { Become (cell_laid s.job (seen lists.entry) k top at) vertices normals uvs indices }
{
    let at_cell = lists.grid.position_at(k);
    let offset = heightmap_faces::cap_offset(at_cell, lists.grid.height_at(k));
    let t = heightmap_faces::lift(s.stand, offset);
    let next = put_cap_if(s.job.caps, top, t, at, vertices, normals, uvs, indices);
    put_sides(s, k, next, lists, vertices, normals, uvs, indices)
}

// Every face of the job, end to end from the first place on; nothing where it has more than 65,536 cells.
pub fn put_all(
    job: HeightMap,
    lists: Lists<'_>,
    vertices: &mut [f32],
    normals: &mut [f32],
    uvs: &mut [f32],
    indices: &mut [u16],
)
    ensures { Become (all_laid job (seen lists.entry)) vertices normals uvs indices }
{
    let s = shared_of(job, lists);
    let o = heightmap_faces::kept::number_of(job.caps);
    let own = heightmap_faces::kept::top_by(o, lists);
    let mut kept = own;
    let mut place = Counts::default();
    let n = up_to(lists.grid.cell_count());
    for k in 0usize..n {
        let choice = heightmap::options::choice_of(job, Name::Cap(k), lists.customs);
        let number = heightmap_faces::kept::number_of(choice);
        let mut top = own.top;
        if number != own.number {
            kept = heightmap_faces::kept::keep_top(kept, number, lists);
            top = kept.top;
        }
        place = put_cell(s, top, k, place, lists, vertices, normals, uvs, indices);
    }
}

// One face, laid at a place; any name has one.
pub fn put_named(
    job: HeightMap,
    name: Name,
    at: Counts,
    lists: Lists<'_>,
    vertices: &mut [f32],
    normals: &mut [f32],
    uvs: &mut [f32],
    indices: &mut [u16],
)
    ensures { Become (name_laid job (seen lists.entry) name at) vertices normals uvs indices }
{
    match name {
        Name::Cap(k) => {
            let CapFace { top, stand } = heightmap_faces::named::cap_of(job, k, lists);
            let Top { inset, whole } = top;
            buffers::laying::lay_hexagon(stand, inset, whole, at, vertices, normals, uvs, indices);
        }
        Name::Side(k, d) => {
            let f = heightmap_faces::named::side_of(job, k, d, lists);
            let q = heightmap_faces::wall_quad(f.level, f.left, f.right, f.foot);
            let inset = f.level.skin.inset;
            buffers::laying::lay_wall(f.stand, inset, q, at, vertices, normals, uvs, indices);
        }
    }
}
