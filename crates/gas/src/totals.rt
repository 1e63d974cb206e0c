// The particles of a field and their momentum.
ghost use Rattle.std.specs.Prelude.{◌≡◌, ℕ, ◌≤◌, length};
ghost use Rattle.lattice.specs.States.{field_particles, field_momentum};

use super::Gas;
use lattice::Vector;

/// How many particles there are, and the sum of their vectors.
#[derive(Clone, Copy, Default)]
pub struct Totals {
    pub particles: u32,
    pub momentum: Vector,
}

/// The particles and the momentum of a field of at most 16,384 cells, walls included.
pub fn field_totals<G: Gas>(gas: &G, field: &[u8]) -> Totals
    requires { length field.now ≤ 16384 }
    ensures particles { result.particles ≡ field_particles (G.model gas.now).channels field.now }
    ensures momentum { result.momentum ≡ field_momentum (G.model gas.now).channels (G.model gas.now).vector field.now }
{
    let mut totals = Totals::default();
    for state in field {
        totals.particles += u32::from(gas.particles(*state));
        totals.momentum += gas.momentum(*state);
    }
    totals
}
