// The lines of the patches.
ghost use Rattle.std.specs.Prelude.{◌≡◌, ℕ, ◌+◌, ◌*◌, ◌/◌, ◌<◌, ◌≤◌, length};
ghost use Rattle.lattice.specs.Sums.{sum_n};
ghost use Rattle.lattice.specs.Vectors.{sum_v};
ghost use Rattle.lattice.specs.Grids.{cell_at};
ghost use Rattle.text.specs.Sheets.{Adds};
ghost use Rattle.text.specs.Texts.{texts};
ghost use Rattle.report.specs.Lines.{patch_line};
ghost use Rattle.report.specs.Patches.{particles_at, momentum_at, patch_at};
ghost use Rattle.report.specs.Reports.{told, patch_lines};

use super::lines::put_patch;
use super::patch::Patch;
use super::shown::Shown;
use gas::{Gas, Totals, field_totals};
use text::Sheet;

impl<'a, G: Gas> Shown<'a, G> {
    // Stretches and blocks are told by numbers: each is asked for once, and made anew for every patch and row.
    /// The particles of so many cells of a row, from this column on, and their momentum.
    fn stretch_totals(&self, column: usize, row: usize, count: usize) -> Totals
        requires columns { column + count ≤ self.now.grid.width }
        requires row { row < self.now.grid.height }
        ensures particles { let s = told G.Gas self.now in result.particles ≡ sum_n count (λ (k : ℕ). particles_at s.gas s.field (cell_at s.width (column + k) row)) }
        ensures momentum { let s = told G.Gas self.now in result.momentum ≡ sum_v count (λ (k : ℕ). momentum_at s.gas s.field (cell_at s.width (column + k) row)) }
    {
        let start = row * self.grid.width() as usize + column;
        field_totals(self.gas, &self.cells()[start..start + count])
    }

    /// The particles of a block of so many columns and rows, from this cell on, and their momentum: those of its rows.
    fn block_totals(&self, column: usize, row: usize, columns: usize, rows: usize) -> Totals
        requires columns { column + columns ≤ self.now.grid.width }
        requires rows { row + rows ≤ self.now.grid.height }
        ensures particles { let s = told G.Gas self.now in result.particles ≡ sum_n rows (λ (j : ℕ). sum_n columns (λ (k : ℕ). particles_at s.gas s.field (cell_at s.width (column + k) (row + j)))) }
        ensures momentum { let s = told G.Gas self.now in result.momentum ≡ sum_v rows (λ (j : ℕ). sum_v columns (λ (k : ℕ). momentum_at s.gas s.field (cell_at s.width (column + k) (row + j)))) }
    {
        let mut totals = Totals::default();
        for line in 0..rows {
            let stretch = self.stretch_totals(column, row + line, columns);
            totals.particles += stretch.particles;
            totals.momentum += stretch.momentum;
        }
        totals
    }

    /// The patch in this column and row of patches.
    #[tactic(auto, using(crate::proofs::Stretches::patch_fits_lem))]
    fn patch_at(&self, column: u32, row: u32) -> Patch
        requires column { column < self.now.grid.width / self.now.patch }
        requires row { row < self.now.grid.height / self.now.patch }
        ensures { let s = told G.Gas self.now in result ≡ patch_at s.gas s.width s.field self.now.patch column row }
    {
        let side = self.patch as usize;
        let first_column = (column * self.patch) as usize;
        let first_row = (row * self.patch) as usize;
        let totals = self.block_totals(first_column, first_row, side, side);
        Patch {
            column,
            row,
            totals,
        }
    }

    /// The lines of a row of patches.
    fn put_patch_row(&self, row: u32, sheet: &mut Sheet)
        requires { row < self.now.grid.height / self.now.patch }
        ensures { let s = told G.Gas self.now in Adds (texts (s.width / self.now.patch) (λ (c : ℕ). patch_line (patch_at s.gas s.width s.field self.now.patch c row))) sheet.old sheet.new }
    {
        for column in 0..self.grid.width() / self.patch {
            put_patch(self.patch_at(column, row), sheet);
        }
    }

    /// The lines of all patches.
    pub(crate) fn put_patches(&self, sheet: &mut Sheet)
        ensures { let s = told G.Gas self.now in Adds (patch_lines s.gas s.width s.height s.field self.now.patch) sheet.old sheet.new }
    {
        for row in 0..self.grid.height() / self.patch {
            self.put_patch_row(row, sheet);
        }
    }
}
