// One step, and as many as are asked for.
// Lengths are asked for call by call, as in the collision.
ghost use Rattle.std.specs.Prelude.{◌≡◌, ℕ, ◌+◌, ◌*◌, ◌≤◌, length};
ghost use Rattle.dynamics.specs.Soundness.{SoundTunnel};
ghost use Rattle.dynamics.specs.States.{state_of};
ghost use Rattle.dynamics.specs.Step.{collided};
ghost use Rattle.dynamics.specs.Pushes.{stepped};
ghost use Rattle.step.specs.Scenes.{scene_of};
ghost use Rattle.step.specs.Results.{over};
ghost use Rattle.step.specs.Taken.{Taken};

use super::rows::collide_rows;
use super::settling::{settle_fan, settle_walls};
use super::streams::stream_rows;
use dynamics::State;
use gas::Gas;
use twist::TwistSource;

/// One step: the pushes of the walls, the collision into the spare, the streaming back, and the fan's push.
pub fn step<G: Gas, S: TwistSource>(
    gas: &G,
    state: &mut State<S>,
    map: &[u8],
    field: &mut [u8],
    spare: &mut [u8],
)
    requires sound { SoundTunnel (scene_of (state_of G.Gas S.TwistSource gas.now state.old) map.now field.old) }
    requires spare { state.old.grid.width * state.old.grid.height ≤ length spare.old }
    requires steps { state.old.steps ≤ 1000000000 }
    ensures field { field.new ≡ over (stepped (scene_of (state_of G.Gas S.TwistSource gas.now state.old) map.now field.old)).field field.old }
    ensures spare { spare.new ≡ over (collided (scene_of (state_of G.Gas S.TwistSource gas.now state.old) map.now field.old)) spare.old }
    ensures run { state_of G.Gas S.TwistSource gas.now state.new ≡ (stepped (scene_of (state_of G.Gas S.TwistSource gas.now state.old) map.now field.old)).run }
{
    let cells = state.grid.cells();
    settle_walls(gas, &map[..cells], &field[..cells], &mut state.book);
    let turned = collide_rows(gas, state, map, field, spare);
    stream_rows(gas, state.grid, spare, field);
    settle_fan(gas, turned, &mut state.book);
    state.steps += 1;
}

/// As many steps as are asked for, one after the other.
pub fn take_steps<G: Gas, S: TwistSource>(
    gas: &G,
    state: &mut State<S>,
    count: u32,
    map: &[u8],
    field: &mut [u8],
    spare: &mut [u8],
)
    requires sound { SoundTunnel (scene_of (state_of G.Gas S.TwistSource gas.now state.old) map.now field.old) }
    requires spare { state.old.grid.width * state.old.grid.height ≤ length spare.old }
    requires steps { state.old.steps + count ≤ 1000000000 }
    ensures { Taken (scene_of (state_of G.Gas S.TwistSource gas.now state.old) map.now field.old) count field.old field.new spare.old spare.new (state_of G.Gas S.TwistSource gas.now state.new) }
{
    for done in 0..count {
        step(gas, state, map, field, spare);
    }
}
