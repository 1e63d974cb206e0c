// Streaming: each particle moves to the neighbour by its channel, row by row.
// Lengths are asked for call by call, as in the collision.
ghost use Rattle.std.specs.Prelude.{◌≡◌, ℕ, ◌*◌, ◌≤◌, length};
ghost use Rattle.gas.specs.Streaming.{arriving};
ghost use Rattle.step.specs.Results.{Filled};

use gas::Gas;
use lattice::Grid;

/// Streams the gas in `from` into the front of `field`.
pub fn stream_rows<G: Gas>(gas: &G, grid: Grid, from: &[u8], field: &mut [u8])
    requires from { grid.width * grid.height ≤ length from.now }
    requires field { grid.width * grid.height ≤ length field.old }
    ensures { Filled (grid.width * grid.height) (arriving (G.model gas.now) grid.width grid.height from.now) field.old field.new }
{
    let width = grid.width() as usize;
    let height = grid.height() as usize;
    // Not by `chunks_exact_mut`: after it a proof knows the length of the field and none of its bytes.
    for row in 0..height {
        gas.stream_row(grid, row, from, &mut field[row * width..]);
    }
}
