// The lines of a report, put on a sheet field by field.
// Not by write! and Display: std tells nothing of what these leave after an Err, and a report answers exactly and cannot fail for memory.
ghost use Rattle.text.specs.Sheets.{Adds};
ghost use Rattle.report.specs.Lines.{step_line, vector_end, totals_end, patch_line, total_line};

use super::patch::Patch;
use gas::Totals;
use lattice::Vector;
use text::Sheet;

/// `step` and the step count.
pub(crate) fn put_step(steps: u32, sheet: &mut Sheet)
    ensures { Adds (step_line steps) sheet.old sheet.new }
{
    sheet.put_bytes(b"step ");
    sheet.put_number(steps);
    sheet.put_bytes(b"\n");
}

/// Along and across, the end of a line.
pub(crate) fn put_vector(vector: Vector, sheet: &mut Sheet)
    ensures { Adds (vector_end vector) sheet.old sheet.new }
{
    sheet.put_bytes(b" ");
    sheet.put_number(vector.along);
    sheet.put_bytes(b" ");
    sheet.put_number(vector.across);
    sheet.put_bytes(b"\n");
}

/// Particles, along and across, the end of a line.
fn put_totals(totals: Totals, sheet: &mut Sheet)
    ensures { Adds (totals_end totals) sheet.old sheet.new }
{
    sheet.put_number(totals.particles);
    put_vector(totals.momentum, sheet);
}

/// A patch's column, its row and its totals.
pub(crate) fn put_patch(patch: Patch, sheet: &mut Sheet)
    ensures { Adds (patch_line patch) sheet.old sheet.new }
{
    sheet.put_number(patch.column);
    sheet.put_bytes(b" ");
    sheet.put_number(patch.row);
    sheet.put_bytes(b" ");
    put_totals(patch.totals, sheet);
}

/// `total` and the totals of all cells.
pub(crate) fn put_total(totals: Totals, sheet: &mut Sheet)
    ensures { Adds (total_line totals) sheet.old sheet.new }
{
    sheet.put_bytes(b"total ");
    put_totals(totals, sheet);
}
