// The state of a run: all that it is, but for its gas, its map and its field.
ghost use Rattle.std.specs.Prelude.{◌≡◌};
ghost use Rattle.dynamics.specs.Step.{fan_acts};

use book::Book;
use lattice::Grid;
use twist::TwistSource;

/// What a run holds between its calls, beside its gas. The gas is lent to a step and stays as it is.
#[derive(Clone, Copy)]
pub struct State<S: TwistSource> {
    pub source: S,
    pub grid: Grid,
    /// The fan's period; 0 stops it.
    pub period: u32,
    /// How many steps were taken.
    pub steps: u32,
    pub book: Book,
}

/// Whether the fan acts in a step: its period is not 0 and divides the step's number.
pub fn fan_acts(period: u32, step: u32) -> bool
    ensures { result ≡ fan_acts period step }
{
    period != 0 && step % period == 0
}
