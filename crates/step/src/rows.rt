// The collision, row by row; each row writes only its own stretch of the spare.
// Map, field and spare are lent for one call, and a step writes what it read before: so each call asks for their lengths, and no struct holds them.
ghost use Rattle.std.specs.Prelude.{◌≡◌, ℕ, ◌+◌, ◌*◌, ◌<◌, ◌≤◌, length};
ghost use Rattle.dynamics.specs.States.{state_of};
ghost use Rattle.step.specs.Rows.{asked, cell_in, RowCollided};
ghost use Rattle.step.specs.Scenes.{scene_of};
ghost use Rattle.step.specs.Results.{AllCollided};

use super::cell::collide_cell;
use dynamics::{Role, State, fan_acts};
use gas::Gas;
use twist::TwistSource;

/// Collides one row into the front of `spare`, and counts the particles that the fan turned.
pub fn row_pass<G: Gas, S: TwistSource>(
    gas: &G,
    state: &mut State<S>,
    row: usize,
    map: &[u8],
    field: &[u8],
    spare: &mut [u8],
) -> u32
    requires row { row < state.old.grid.height }
    requires map { state.old.grid.width * state.old.grid.height ≤ length map.now }
    requires field { state.old.grid.width * state.old.grid.height ≤ length field.now }
    requires spare { state.old.grid.width ≤ length spare.old }
    ensures row { RowCollided state.old.grid.width (cell_in (state_of G.Gas S.TwistSource gas.now state.old) row map.now field.now) spare.old spare.new result }
    ensures run { state_of G.Gas S.TwistSource gas.now state.new ≡ asked state.old.grid.width (state_of G.Gas S.TwistSource gas.now state.old) }
{
    let width = state.grid.width() as usize;
    let start = row * width;
    let acts = fan_acts(state.period, state.steps);
    let mut source = state.source;
    let mut turned = 0;
    // A column's number is asked for, two slices are read there and a third is written: a zip of all is no plainer.
    for column in 0..width {
        let twist = source.ask(state.steps, column as u32, row as u32);
        let role = Role::from(map[start + column]);
        let cell = collide_cell(gas, role, acts, twist, field[start + column]);
        spare[column] = cell.state;
        if cell.turned {
            turned += 1;
        }
    }
    state.source = source;
    turned
}

/// Collides all rows into the front of `spare`, and counts the particles that the fan turned.
pub fn collide_rows<G: Gas, S: TwistSource>(
    gas: &G,
    state: &mut State<S>,
    map: &[u8],
    field: &[u8],
    spare: &mut [u8],
) -> u32
    requires map { state.old.grid.width * state.old.grid.height ≤ length map.now }
    requires field { state.old.grid.width * state.old.grid.height ≤ length field.now }
    requires spare { state.old.grid.width * state.old.grid.height ≤ length spare.old }
    ensures all { AllCollided (scene_of (state_of G.Gas S.TwistSource gas.now state.old) map.now field.now) spare.old spare.new result }
    ensures run { state_of G.Gas S.TwistSource gas.now state.new ≡ asked (state.old.grid.width * state.old.grid.height) (state_of G.Gas S.TwistSource gas.now state.old) }
{
    let width = state.grid.width() as usize;
    let height = state.grid.height() as usize;
    let mut turned = 0;
    // Not by `chunks_exact_mut`: after it a proof knows the length of the spare and none of its bytes.
    for row in 0..height {
        turned += row_pass(gas, state, row, map, field, &mut spare[row * width..]);
    }
    turned
}
