// What a tunnel's file is made of.
ghost use Rattle.std.specs.Prelude.{◌*◌, ◌≤◌, length};

use dynamics::State;
use gas::Gas;
use twist::TwistSource;

/// A tunnel as it is held: a gas, the state of a run, and the cells' bytes at the front of map and field. Bytes of these beyond the grid's cells are no
/// part of the tunnel.
#[derive(Drop)]
pub struct Held<'a, G: Gas, S: TwistSource> {
    pub gas: &'a G,
    pub state: &'a State<S>,
    pub map: &'a [u8],
    pub field: &'a [u8],
    ghost mapped: { state.now.grid.width * state.now.grid.height ≤ length map.now },
    ghost filled: { state.now.grid.width * state.now.grid.height ≤ length field.now },
}
