// Lists the house rules of each gas: every state that a collision changes, with its outcome, and how many stay.
#![tactic(auto)]

ghost use Rattle.std.specs.Prelude.{◌≡◌, Bool};
ghost use Rattle.gas.specs.Model.{states};
ghost use Rattle.rules.specs.Staying.{staying as staying_of};

use gas::Gas;
use hexagonal::HexagonalGas;
use lattice::states_of;
use square::SquareGas;
use std::io;

/// How many states a collision under this twist leaves as they are.
fn staying<G: Gas>(gas: &G, twist: bool) -> usize
    ensures { result ≡ staying_of (G.model gas.now) (G.entries gas.now) twist }
{
    (0..states_of(gas.channels()))
        .filter(|state| usize::from(gas.collide(twist, *state as u8)) == *state)
        .count()
}

/// Prints the states that change under this twist, one in a line, and then how many stay.
fn list<G: Gas>(rt: &HostRuntime, name: &str, gas: &G, twist: bool) -> io::Result<()> {
    let number = u8::from(twist);
    for state in 0..states_of(gas.channels()) {
        let outcome = gas.collide(twist, state as u8);
        if outcome as usize != state {
            println!(rt; "{name} twist {number}: {state} becomes {outcome}")?;
        }
    }
    let stay = staying(gas, twist);
    println!(rt; "{name} twist {number}: {stay} stay")
}

fn main(rt: HostRuntime) -> io::Result<()> {
    let square = SquareGas::new();
    list(&rt, "square", &square, false)?;
    list(&rt, "square", &square, true)?;
    let hexagonal = HexagonalGas::new();
    list(&rt, "hexagonal", &hexagonal, false)?;
    list(&rt, "hexagonal", &hexagonal, true)
}
