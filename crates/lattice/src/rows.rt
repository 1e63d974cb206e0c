// A row of the grid and the rows beside it.
ghost use Rattle.std.specs.Prelude.{◌≡◌, ℕ, ◌*◌, ◌<◌};
ghost use Rattle.lattice.specs.Sources.{rows_around, RowsWithin};

use super::grid::Grid;
use super::places::{one_back, one_on};

/// A row, the next to the south and the next to the north, each by its first cell.
#[derive(Clone, Copy)]
pub struct Rows {
    pub here: usize,
    pub south: usize,
    pub north: usize,
}

// A row is asked for by its number, here and above: a type for rows of a grid would have to carry the grid along.
/// The rows around this row of the grid.
pub fn rows_around(grid: Grid, row: usize) -> Rows
    requires { row < grid.height }
    ensures rows { result ≡ rows_around grid.width grid.height row }
    ensures within { RowsWithin (grid.width * grid.height) grid.width result }
{
    let width = grid.width() as usize;
    let height = grid.height() as usize;
    Rows {
        here: row * width,
        south: one_back(row, height) * width,
        north: one_on(row, height) * width,
    }
}
