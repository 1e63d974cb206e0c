// The square gas: four channels, east, north, west and south.
#![tactic(auto)]

mod streaming;
mod table;

ghost use Rattle.std.specs.Prelude.{◌≡◌};
ghost use Rattle.square.specs.Square.{square};
ghost use Rattle.square.specs.Lawful.{square_laws};
ghost use Rattle.gas.proofs.Tables.{good_sound};

use gas::{Gas, TableFault, outcome_in, row_fits};
use lattice::{Grid, Vector, fill_ring, heading_of, rows_around};
use streaming::gather;
pub use table::SquareGas;

/// Under each twist 5 and 10 become each other; the rest stay.
const HOUSE: [u8; 32] = [
    0, 1, 2, 3, 4, 10, 6, 7, 8, 9, 5, 11, 12, 13, 14, 15, 0, 1, 2, 3, 4, 10, 6, 7, 8, 9, 5, 11, 12,
    13, 14, 15,
];

/// Where each channel leads: along the tunnel, and across it.
const HEADINGS: [(i64, i64); 4] = [(1, 0), (0, 1), (-1, 0), (0, -1)];

// As the type, so `new` and `house`: each gas has its own rules. Its half turn is its own too: with two numbers handed over it would be longer.
impl SquareGas {
    /// A square gas with the house rules.
    pub fn new() -> SquareGas
        ensures { result.entries ≡ square.house }
    {
        SquareGas { entries: HOUSE }
    }
}

impl Gas for SquareGas {
    ghost model = { λ _. square };

    ghost entries = { λ g. g.entries };

    ghost lawful = { λ g. square_laws };

    ghost sound = { λ g. good_sound square g.entries g.sound };

    fn kind(&self) -> u8 {
        4
    }

    fn channels(&self) -> u8 {
        4
    }

    fn vector(&self, channel: u8) -> Vector {
        heading_of(&HEADINGS, channel)
    }

    fn opposite(&self, channel: u8) -> u8 {
        if channel < 4 {
            (channel + 2) % 4
        } else {
            channel
        }
    }

    fn neighbour(&self, grid: Grid, channel: u8, cell: usize) -> usize {
        if channel >= 4 || cell >= grid.cells() {
            return cell;
        }
        let width = grid.width() as usize;
        let height = grid.height() as usize;
        let column = cell % width;
        let row = cell / width;
        match channel {
            0 => row * width + (column + 1) % width,
            1 => (row + 1) % height * width + column,
            2 => row * width + (column + width - 1) % width,
            _ => (row + height - 1) % height * width + column,
        }
    }

    fn collide(&self, twist: bool, state: u8) -> u8 {
        outcome_in(&self.entries, twist, state)
    }

    fn load(&mut self, list: &[u8]) -> Result<(), TableFault> {
        // Each gas loads for itself: only its own type knows the entries as sound, so a shared loader could not lend them.
        self.first_unsound(list)?;
        self.entries.copy_from_slice(list);
        Ok(())
    }

    fn house(&mut self) {
        self.entries = HOUSE;
    }

    fn stream_row(&self, grid: Grid, row: usize, from: &[u8], to: &mut [u8]) {
        if !row_fits(grid, row, from, to) {
            return;
        }
        let rows = rows_around(grid, row);
        fill_ring(
            &mut to[..grid.width() as usize],
            |west, column, east| gather(from, rows, west, column, east),
        );
    }
}
