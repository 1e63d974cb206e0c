// The hexagonal gas: channels E, NE, NW, W, SW, SE and rest.
#![tactic(auto)]

mod laws;
mod outcomes;
mod streaming;
mod table;

ghost use Rattle.std.specs.Prelude.{◌≡◌, ◌<◌, ◌≤◌};
ghost use Rattle.hexagonal.specs.Channels.{column_by, row_by};
ghost use Rattle.hexagonal.specs.Hexagonal.{hexagonal};
ghost use Rattle.hexagonal.specs.Lawful.{hexagonal_laws};
ghost use Rattle.gas.proofs.Tables.{good_sound};

use gas::{Gas, TableFault, outcome_in};
use lattice::{Grid, Vector, heading_of};
pub use laws::house_rules_hold;
use outcomes::HOUSE;
pub use streaming::stream_hexagonal_row;
pub use table::HexagonalGas;

/// Where each channel leads: along the tunnel, and across it.
const HEADINGS: [(i64, i64); 7] = [(2, 0), (1, 1), (-1, 1), (-2, 0), (-1, -1), (1, -1), (0, 0)];

// As the type, so `new` and `house`: each gas has its own rules. Its half turn is its own too: with two numbers handed over it would be longer.
impl HexagonalGas {
    /// A hexagonal gas with the house rules.
    pub fn new() -> HexagonalGas
        ensures { result.entries ≡ hexagonal.house }
    {
        HexagonalGas { entries: HOUSE }
    }
}

/// The column that a channel leads to from this column and row, in a grid this wide.
fn column_by(width: usize, channel: u8, column: usize, row: usize) -> usize
    requires { (column < width) × (width ≤ 256) }
    ensures { result ≡ column_by width channel column row }
{
    let odd = row % 2;
    match channel {
        0 => (column + 1) % width,
        1 | 5 => (column + odd) % width,
        2 | 4 => (column + odd + width - 1) % width,
        3 => (column + width - 1) % width,
        _ => column,
    }
}

/// The row that a channel leads to from this row, in a grid this high.
fn row_by(height: usize, channel: u8, row: usize) -> usize
    requires { (row < height) × (height ≤ 256) }
    ensures { result ≡ row_by height channel row }
{
    match channel {
        1 | 2 => (row + 1) % height,
        4 | 5 => (row + height - 1) % height,
        _ => row,
    }
}

impl Gas for HexagonalGas {
    ghost model = { λ _. hexagonal };

    ghost entries = { λ g. g.entries };

    ghost lawful = { λ g. hexagonal_laws };

    ghost sound = { λ g. good_sound hexagonal g.entries g.sound };

    fn kind(&self) -> u8 {
        7
    }

    fn channels(&self) -> u8 {
        7
    }

    fn vector(&self, channel: u8) -> Vector {
        heading_of(&HEADINGS, channel)
    }

    fn opposite(&self, channel: u8) -> u8 {
        if channel < 6 {
            (channel + 3) % 6
        } else {
            channel
        }
    }

    fn neighbour(&self, grid: Grid, channel: u8, cell: usize) -> usize {
        if channel >= 7 || cell >= grid.cells() {
            return cell;
        }
        let width = grid.width() as usize;
        let column = cell % width;
        let row = cell / width;
        let to_column = column_by(width, channel, column, row);
        let to_row = row_by(grid.height() as usize, channel, row);
        to_row * width + to_column
    }

    fn collide(&self, twist: bool, state: u8) -> u8 {
        outcome_in(&self.entries, twist, state)
    }

    fn load(&mut self, list: &[u8]) -> Result<(), TableFault> {
        // Each gas loads for itself: only its own type knows the entries as sound, so a shared loader could not lend them.
        self.first_unsound(list)?;
        self.entries.copy_from_slice(list);
        Ok(())
    }

    fn house(&mut self) {
        self.entries = HOUSE;
    }

    fn stream_row(&self, grid: Grid, row: usize, from: &[u8], to: &mut [u8]) {
        stream_hexagonal_row(grid, row, from, to, 7);
    }
}
