// The collision in one cell.
ghost use Rattle.std.specs.Prelude.{◌≡◌, ℕ, ◌<◌, not, ◌&&◌, ◌||◌, ◌==◌};
ghost use Rattle.dynamics.specs.Cells.{bounced, can_turn, turned as turned_state};
ghost use Rattle.step.specs.Rows.{cell_after};

use dynamics::Role;
use gas::Gas;
use lattice::{held, state_where};

/// A cell's state after the collision, and whether the fan turned a particle in it.
// Both are told of every cell: the state stands whatever the flag says, so no Option would hold it.
#[derive(Clone, Copy)]
pub struct Collided {
    pub state: u8,
    pub turned: bool,
}

/// A wall's state: each particle goes to its opposite channel.
fn bounce<G: Gas>(gas: &G, state: u8) -> u8
    ensures { result ≡ bounced (G.model gas.now) state }
{
    state_where(
        gas.channels(),
        |channel|
            requires { channel < (G.model gas.now).channels }
        { held(state, gas.opposite(channel)) },
    )
}

/// Whether a particle comes against the fan, and east is empty.
fn can_turn<G: Gas>(gas: &G, state: u8) -> bool
    ensures { result ≡ can_turn (G.model gas.now) state }
{
    held(state, gas.opposite(0)) && !held(state, 0)
}

/// The state with that particle in east.
fn turn<G: Gas>(gas: &G, state: u8) -> u8
    ensures { result ≡ turned_state (G.model gas.now) state }
{
    let against = gas.opposite(0);
    state_where(
        gas.channels(),
        |channel|
            requires { channel < 8 }
        { channel == 0 || channel != against && held(state, channel) },
    )
}

/// What the collision makes of a cell with this role and state.
pub fn collide_cell<G: Gas>(gas: &G, role: Role, acts: bool, twist: bool, state: u8) -> Collided
    ensures { result ≡ cell_after (G.model gas.now) (G.entries gas.now) acts twist role state }
{
    let outcome = gas.collide(twist, state);
    if let Role::Wall(_) = role {
        return Collided {
            state: bounce(gas, state),
            turned: false,
        };
    }
    let turned = match role {
        Role::Fan => acts && can_turn(gas, outcome),
        _ => false,
    };
    Collided {
        state: if turned { turn(gas, outcome) } else { outcome },
        turned,
    }
}
