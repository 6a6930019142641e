// The cells of a height map, handed over as a list of records.
ghost use Rattle.boundary.specs.ToC.{answer_to_c};
ghost use Rattle.cells.specs.Cells.{Loading};

use boundary::to_c::CAnswer;
use cells::Cell;

// The cells of the records in the two lists that the calls of a map take, or nothing. Of each list the cells' part is
// its first 27 or 6 numbers a cell. Both counts are 0.
pub fn hosirekar_heightmap_load(
    records: &[Cell],
    cells: &mut [f32],
    neighbours: &mut [u32],
) -> CAnswer
    ensures { Loading answer_to_c records cells neighbours result }
{
    CAnswer::from(cells::load(records, cells, neighbours))
}
