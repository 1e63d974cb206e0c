// Streaming by rows, for every gas of the hexagonal lattice.
ghost use Rattle.std.specs.Prelude.{◌≡◌, ℕ, ◌+◌, ◌<◌, ◌≤◌, length, cond, bit_and, slice_index};
ghost use Rattle.lattice.specs.Sources.{gathered};
ghost use Rattle.gas.specs.Model.{GasModel};
ghost use Rattle.gas.specs.Streaming.{RowStreamed};
ghost use Rattle.hexagonal.specs.Sources.{sources, HexagonalChannels};

use gas::row_fits;
use lattice::{Grid, Rows, fill_ring, rows_around, states_of};

/// A column, the next in its own row to both sides, and the two that touch it in the rows beside.
#[derive(Clone, Copy)]
struct Columns {
    west: usize,
    middle: usize,
    east: usize,
    left: usize,
    right: usize,
}

/// These three columns of a row, even or odd, with the two that touch the middle one in the rows beside.
fn columns_around(odd: bool, west: usize, middle: usize, east: usize) -> Columns
    ensures { result ≡ record { west = west; middle = middle; east = east; left = cond odd middle west; right = cond odd east middle } }
{
    Columns {
        west,
        middle,
        east,
        left: if odd { middle } else { west },
        right: if odd { east } else { middle },
    }
}

/// The state that comes from these columns of these rows, in the channels of the mask.
fn gather(from: &[u8], rows: Rows, columns: Columns, mask: u8) -> u8
    requires here { (rows.here + columns.west < length from.now) × ((rows.here + columns.middle < length from.now) × (rows.here + columns.east < length from.now)) }
    requires south { (rows.south + columns.left < length from.now) × (rows.south + columns.right < length from.now) }
    requires north { (rows.north + columns.left < length from.now) × (rows.north + columns.right < length from.now) }
    ensures { result ≡ bit_and (gathered 7 from.now (sources rows columns)) mask }
{
    let northward = (from[rows.south + columns.right] & 4)
        | ((from[rows.south + columns.left] & 2) | (from[rows.here + columns.west] & 1));
    let southward = (from[rows.north + columns.left] & 32)
        | ((from[rows.north + columns.right] & 16)
            | ((from[rows.here + columns.east] & 8) | northward));
    ((from[rows.here + columns.middle] & 64) | southward) & mask
}

/// Streams one row of the field `from` into `to`, for a gas of the first so many channels of the lattice.
pub fn stream_hexagonal_row(grid: Grid, row: usize, from: &[u8], to: &mut [u8], channels: u8)
    requires { channels ≤ 7 }
    ensures { (m : GasModel) → HexagonalChannels channels m → RowStreamed m grid.width grid.height row from.now to.old to.new }
{
    if !row_fits(grid, row, from, to) {
        return;
    }
    let rows = rows_around(grid, row);
    let mask = (states_of(channels) - 1) as u8;
    let odd = row % 2 == 1;
    fill_ring(
        &mut to[..grid.width() as usize],
        |west, middle, east| gather(from, rows, columns_around(odd, west, middle, east), mask),
    );
}
