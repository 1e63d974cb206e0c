// The report of a run's field.
ghost use Rattle.std.specs.Prelude.{◌≡◌};
ghost use Rattle.run.specs.View.{view};
ghost use Rattle.calls.specs.Grounds.{patch_fault};
ghost use Rattle.calls.specs.Outcomes.{reply};
ghost use Rattle.calls.specs.Calls.{Reported};

use super::judging::{judge_field, judge_length};
use super::run::Run;
use faults::CallFault;
use gas::Gas;
use lattice::states_of;
use report::Shown;
use twist::TwistSource;

const WIDEST_PATCH: u32 = 64;

impl<G: Gas, S: TwistSource> Run<G, S> {
    /// The first ground on which `report` is refused before its text is measured.
    fn judge_patches(&self, b: u32, field: &[u8]) -> Result<(), CallFault>
        ensures { result ≡ reply (patch_fault (view G.Gas S.TwistSource self.now) b field.now) tt }
    {
        let cells = self.state.grid.cells();
        judge_length(field, cells, CallFault::ShortField)?;
        judge_field(field, cells, states_of(self.gas.channels()))?;
        if b == 0 || b > WIDEST_PATCH {
            return Err(CallFault::Argument(1));
        }
        if self.state.grid.width() % b != 0 || self.state.grid.height() % b != 0 {
            return Err(CallFault::Argument(1));
        }
        Ok(())
    }

    /// Writes the report of a field in patches of b × b cells, and answers its length; a text that does not fit is not written at all.
    pub fn report(&self, b: u32, field: &[u8], out: &mut [u8]) -> Result<usize, CallFault>
        ensures { Reported (view G.Gas S.TwistSource self.now) b field.now out.old result (view G.Gas S.TwistSource self.now) out.new }
    {
        self.judge_patches(b, field)?;
        let shown = Shown {
            gas: &self.gas,
            grid: self.state.grid,
            steps: self.state.steps,
            book: &self.state.book,
            field,
            patch: b,
        };
        shown.write_report(out).ok_or(CallFault::ShortOutput)
    }
}
