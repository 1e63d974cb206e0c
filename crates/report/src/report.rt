// Writing a report: measured first, and written if it fits.
ghost use Rattle.std.specs.Prelude.{◌≡◌, ◌-◌, ◌^◌, min, length};
ghost use Rattle.text.specs.Buffers.{Written};
ghost use Rattle.text.specs.Sheets.{Adds};
ghost use Rattle.report.specs.Reports.{told, report_text};
ghost use Rattle.report.specs.Patches.{field_totals};

use super::accounts::put_accounts;
use super::lines::{put_step, put_total};
use super::shown::Shown;
use gas::{Gas, Totals, field_totals};
use text::Sheet;

impl<'a, G: Gas> Shown<'a, G> {
    /// The states of the grid's cells.
    pub(crate) fn cells(&self) -> &[u8]
        ensures { result.now ≡ (told G.Gas self.now).field }
    {
        &self.field[..self.grid.cells()]
    }

    /// The particles of all cells, and their momentum.
    fn all_totals(&self) -> Totals
        ensures { let s = told G.Gas self.now in result ≡ field_totals s.gas s.field }
    {
        field_totals(self.gas, self.cells())
    }

    /// Puts the whole report.
    fn put_report(&self, sheet: &mut Sheet)
        ensures { Adds (report_text (told G.Gas self.now) self.now.patch) sheet.old sheet.new }
    {
        put_step(self.steps, sheet);
        self.put_patches(sheet);
        put_accounts(self.book, sheet);
        put_total(self.all_totals(), sheet);
    }

    /// How long the report is, up to the largest number of 64 bits.
    fn measure_report(&self) -> usize
        ensures { result ≡ min (length (report_text (told G.Gas self.now) self.now.patch)) (2 ^ 64 - 1) }
    {
        let mut nothing = [0u8; 0];
        let mut sheet = Sheet::new(&mut nothing);
        self.put_report(&mut sheet);
        sheet.place()
    }

    /// Writes the report into the front of `out` and answers its length, if it fits; otherwise nothing is written. A patch has `patch` columns
    /// and as many rows.
    pub fn write_report(&self, out: &mut [u8]) -> Option<usize>
        ensures { Written (report_text (told G.Gas self.now) self.now.patch) out.old result out.new }
    {
        let length = self.measure_report();
        if length > out.len() {
            return None;
        }
        let mut sheet = Sheet::new(out);
        self.put_report(&mut sheet);
        Some(length)
    }
}
