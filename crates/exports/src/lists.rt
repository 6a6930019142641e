// The lists beside a height map, which C lends one by one, as the one struct of them.
ghost use Rattle.std.specs.Prelude.{◌≡◌};
ghost use Rattle.heightmap.specs.HeightMap.{lent, seen};

use heightmap::Lists;
use heightmap::grid::Grid;

pub(crate) fn lists_of<'a>(
    cells: &'a [f32],
    neighbours: &'a [u32],
    fringe: &'a [f32],
    customs: &'a [u8],
    corners: &'a [f32],
    numbers: &'a [f32],
    marks: &'a [u8],
) -> Lists<'a>
    ensures { seen result ≡ lent cells neighbours fringe customs corners numbers marks }
{
    Lists {
        grid: Grid {
            cells,
            neighbours,
            fringe,
        },
        customs,
        corners,
        numbers,
        marks,
    }
}
