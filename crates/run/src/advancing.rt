// Taking steps.
ghost use Rattle.std.specs.Prelude.{◌≡◌};
ghost use Rattle.run.specs.View.{view};
ghost use Rattle.calls.specs.Grounds.{advance_fault};
ghost use Rattle.calls.specs.Outcomes.{reply};
ghost use Rattle.calls.specs.Calls.{Advanced};

use super::judging::{judge_field, judge_length, judge_map};
use super::run::Run;
use faults::CallFault;
use gas::Gas;
use lattice::states_of;
use step::take_steps;
use twist::TwistSource;

const MOST_STEPS: u32 = 65_535;

const STEP_LIMIT: u32 = 1_000_000_000;

impl<G: Gas, S: TwistSource> Run<G, S> {
    /// The first ground on which `advance` is refused.
    fn judge_advance(&self, k: u32, map: &[u8], field: &[u8], spare: &[u8]) -> Result<(), CallFault>
        ensures { result ≡ reply (advance_fault (view G.Gas S.TwistSource self.now) k map.now field.now spare.now) tt }
    {
        let cells = self.state.grid.cells();
        judge_length(map, cells, CallFault::ShortMap)?;
        judge_length(field, cells, CallFault::ShortField)?;
        judge_length(spare, cells, CallFault::ShortSpare)?;
        judge_map(map, cells)?;
        judge_field(field, cells, states_of(self.gas.channels()))?;
        if k == 0 || k > MOST_STEPS {
            return Err(CallFault::Argument(1));
        }
        if self.state.steps + k > STEP_LIMIT {
            return Err(CallFault::TooManySteps);
        }
        Ok(())
    }

    /// Takes k steps, 1 to 65,535, and answers the step count. The spare then holds the collided gas of the last step.
    pub fn advance(
        &mut self,
        k: u32,
        map: &[u8],
        field: &mut [u8],
        spare: &mut [u8],
    ) -> Result<u32, CallFault>
        ensures { Advanced (view G.Gas S.TwistSource self.old) k map.now field.old spare.old result (view G.Gas S.TwistSource self.new) field.new spare.new }
    {
        self.judge_advance(k, map, field, spare)?;
        take_steps(&self.gas, &mut self.state, k, map, field, spare);
        Ok(self.state.steps)
    }
}
