// Marks: the file that holds a run, its map and its field.
ghost use Rattle.std.specs.Prelude.{◌≡◌, ℕ, ◌+◌, ◌*◌, ◌≤◌};
ghost use Rattle.encode.specs.Encodings.{file_length};
ghost use Rattle.dynamics.specs.Tunnels.{cells as cell_count};
ghost use Rattle.calls.specs.Grounds.{mark_fault};
ghost use Rattle.calls.specs.Outcomes.{reply};
ghost use Rattle.calls.specs.Calls.{Marked};
ghost use Rattle.run.specs.View.{view};

use super::judging::{judge_field, judge_length, judge_map};
use super::run::Run;
use encode::Held;
use faults::CallFault;
use gas::Gas;
use lattice::states_of;
use twist::TwistSource;

impl<G: Gas, S: TwistSource> Run<G, S> {
    /// How many bytes the run's file has.
    fn file_length(&self) -> usize
        ensures { result ≡ file_length (G.Gas.model self.now.gas) (cell_count (view G.Gas S.TwistSource self.now)) }
    {
        320 + 2 * states_of(self.gas.channels()) + 2 * self.state.grid.cells()
    }

    /// The first ground on which `mark` is refused.
    fn judge_mark(&self, map: &[u8], field: &[u8], out: &[u8]) -> Result<(), CallFault>
        ensures { result ≡ reply (mark_fault (view G.Gas S.TwistSource self.now) map.now field.now out.now) tt }
    {
        let cells = self.state.grid.cells();
        judge_length(map, cells, CallFault::ShortMap)?;
        judge_length(field, cells, CallFault::ShortField)?;
        judge_map(map, cells)?;
        judge_field(field, cells, states_of(self.gas.channels()))?;
        if out.len() < self.file_length() {
            return Err(CallFault::ShortOutput);
        }
        Ok(())
    }

    /// Writes the run's file, with map and field, and answers its length; an output that is too short is not touched.
    pub fn mark(&self, map: &[u8], field: &[u8], out: &mut [u8]) -> Result<usize, CallFault>
        ensures { Marked (view G.Gas S.TwistSource self.now) map.now field.now out.old result (view G.Gas S.TwistSource self.now) out.new }
    {
        self.judge_mark(map, field, out)?;
        let held = Held {
            gas: &self.gas,
            state: &self.state,
            map,
            field,
        };
        Ok(held.write_file(out))
    }

    /// How large an output `mark` is to be given: what it needs, and at most 24 bytes more.
    pub fn size(&self) -> usize
        ensures enough { file_length (G.Gas.model self.now.gas) (cell_count (view G.Gas S.TwistSource self.now)) ≤ result }
        ensures near { result ≤ file_length (G.Gas.model self.now.gas) (cell_count (view G.Gas S.TwistSource self.now)) + 24 }
    {
        self.file_length().next_multiple_of(16)
    }
}
