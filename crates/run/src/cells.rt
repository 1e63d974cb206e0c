// Blanking a run's cells, and painting its map.
ghost use Rattle.std.specs.Prelude.{◌≡◌, ℕ, ◌≤◌, length, replicate, Ok};
ghost use Rattle.step.specs.Results.{over};
ghost use Rattle.run.specs.View.{view};
ghost use Rattle.calls.specs.Calls.{blank_run, Blanked, Painted};
ghost use Rattle.calls.specs.Law.{LogLaw};

use super::judging::{judge_length, judge_map};
use super::run::Run;
use super::settings::fresh;
use faults::CallFault;
use gas::Gas;
use job::grid_fault;
use lattice::Grid;
use twist::TwistSource;

impl<G: Gas, S: TwistSource> Run<G, S> {
    /// Makes map and field all 0, with house rules, the first twist mark, period 0, step 0 and a book of zeros.
    pub fn blank(
        &mut self,
        width: u32,
        height: u32,
        map: &mut [u8],
        field: &mut [u8],
    ) -> Result<(), CallFault>
        ensures outcome { Blanked (view G.Gas S.TwistSource self.old) width height map.old field.old result (view G.Gas S.TwistSource self.new) map.new field.new }
        ensures law { result ≡ Ok tt → LogLaw (record { run = view G.Gas S.TwistSource self.new; map = map.new; field = field.new }) }
    {
        let grid = Grid::new(width, height).map_err(|fault| grid_fault(0, fault))?;
        let cells = grid.cells();
        judge_length(map, cells, CallFault::ShortMap)?;
        judge_length(field, cells, CallFault::ShortField)?;
        map[..cells].fill(0);
        field[..cells].fill(0);
        self.restart(grid);
        Ok(())
    }

    /// As `blank` leaves the run itself.
    fn restart(&mut self, grid: Grid)
        ensures { view G.Gas S.TwistSource self.new ≡ blank_run (G.Gas.model self.old.gas) (S.TwistSource.model self.old.state.source) grid.width grid.height }
    {
        self.gas.house();
        self.state = fresh(self.state.source, grid);
    }

    /// Makes the cell in this column and row of this kind: 0 open, 1 to 15 a wall of that obstacle, 16 a fan cell.
    pub fn paint(&self, column: u32, row: u32, kind: u32, map: &mut [u8]) -> Result<(), CallFault>
        ensures { Painted (view G.Gas S.TwistSource self.now) column row kind map.old result (view G.Gas S.TwistSource self.now) map.new }
    {
        let cells = self.state.grid.cells();
        judge_length(map, cells, CallFault::ShortMap)?;
        judge_map(map, cells)?;
        let width = self.state.grid.width();
        if column >= width {
            return Err(CallFault::Argument(1));
        }
        if row >= self.state.grid.height() {
            return Err(CallFault::Argument(2));
        }
        if kind > 16 {
            return Err(CallFault::Argument(3));
        }
        map[(row * width + column) as usize] = kind as u8;
        Ok(())
    }
}
