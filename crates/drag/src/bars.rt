// Bars of cells of one kind, and the gas that a field begins with.
ghost use Rattle.std.specs.Prelude.{◌≡◌, ℕ, ◌<◌, length, OnOk, slice_index};
ghost use Rattle.run.specs.View.{view};
ghost use Rattle.drag.specs.Scenes.{barred, gas_at};

use faults::CallFault;
use gas::Gas;
use run::Run;
use twist::TwistSource;

/// Makes the cells of a column of this kind, in as many rows from row 0.
pub(crate) fn paint_bar<G: Gas, S: TwistSource>(
    run: &Run<G, S>,
    column: u32,
    rows: u32,
    kind: u32,
    map: &mut [u8],
) -> Result<(), CallFault>
    ensures { OnOk result (map.new ≡ barred (view G.Gas S.TwistSource run.now).width column kind rows map.old) }
{
    for row in 0..rows {
        run.paint(column, row, kind, map)?;
    }
    Ok(())
}

/// Puts gas into every cell: cell i holds state i mod 128, so that all states of the hexagonal gas stand in turn.
pub(crate) fn fill(field: &mut [u8])
    ensures { (i : ℕ) → i < length field.old → slice_index field.new i ≡ gas_at i }
{
    for (cell, state) in field.iter_mut().enumerate() {
        *state = (cell % 128) as u8;
    }
}
