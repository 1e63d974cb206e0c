// What a report is made of.
ghost use Rattle.std.specs.Prelude.{◌*◌, ◌≤◌, length};

use book::Book;
use gas::Gas;
use lattice::Grid;

/// A gas on a grid after so many steps, its book, its field, and the side of a patch in cells. Bytes of the field beyond the grid's cells are no
/// part of a report.
// Not a run's whole state: a report asks for no source and no period, and lends gas and book.
#[derive(Drop)]
pub struct Shown<'a, G: Gas> {
    pub gas: &'a G,
    pub grid: Grid,
    pub steps: u32,
    pub book: &'a Book,
    pub field: &'a [u8],
    pub patch: u32,
    ghost whole: { grid.width * grid.height ≤ length field.now },
    ghost some: { 1 ≤ patch },
}
