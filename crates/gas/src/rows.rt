// Whether a row can be streamed.
ghost use Rattle.std.specs.Prelude.{◌≡◌};
ghost use Rattle.gas.specs.Streaming.{row_fits};

use lattice::Grid;

// Grid, row and the two slices are what the interface hands to `stream_row`: a struct of them would be built for one call and taken apart in it.
/// Whether this is a row of the grid, the field is whole, and `to` has room for the row.
pub fn row_fits(grid: Grid, row: usize, from: &[u8], to: &[u8]) -> bool
    ensures { result ≡ row_fits grid.width grid.height row from.now to.now }
{
    row < grid.height() as usize && from.len() >= grid.cells() && to.len() >= grid.width() as usize
}
