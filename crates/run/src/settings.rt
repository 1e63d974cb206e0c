// Making a run, its fan and its accounts.
ghost use Rattle.std.specs.Prelude.{◌≡◌, replicate};
ghost use Rattle.book.specs.Accounts.{accounts, none};
ghost use Rattle.run.specs.View.{view};
ghost use Rattle.calls.specs.Calls.{blank_run, Fanned, Told};

use super::run::Run;
use book::{Account, Book};
use dynamics::State;
use faults::CallFault;
use gas::Gas;
use lattice::Grid;
use twist::TwistSource;

/// The state that a run begins with on this grid: the first twist mark, period 0, step 0, a book of zeros.
pub(crate) fn fresh<S: TwistSource>(source: S, grid: Grid) -> State<S>
    ensures grid { result.grid ≡ grid }
    ensures period { result.period ≡ 0 }
    ensures steps { result.steps ≡ 0 }
    ensures book { result.book.accounts ≡ replicate accounts none }
    ensures mark { S.TwistSource.mark result.source ≡ (S.TwistSource.model source).first }
    ensures source { S.TwistSource.model result.source ≡ S.TwistSource.model source }
{
    let mut source = source;
    let _ = source.set_mark(source.first_mark());
    State {
        source,
        grid,
        period: 0,
        steps: 0,
        book: Book::new(),
    }
}

impl<G: Gas, S: TwistSource> Run<G, S> {
    /// A new run is as after `blank` (2, 2): house rules, the first twist mark, period 0, step 0, a book of zeros.
    pub fn new(gas: G, source: S) -> Run<G, S>
        ensures { view G.Gas S.TwistSource result ≡ blank_run (G.Gas.model gas) (S.TwistSource.model source) 2 2 }
    {
        let mut gas = gas;
        gas.house();
        let state = fresh(source, Grid::smallest());
        Run { gas, state }
    }

    /// Sets the fan's period; 0 stops it.
    pub fn fan(&mut self, period: u32) -> Result<(), CallFault>
        ensures { Fanned (view G.Gas S.TwistSource self.old) period result (view G.Gas S.TwistSource self.new) }
    {
        if period > 999 {
            return Err(CallFault::Argument(1));
        }
        self.state.period = period;
        Ok(())
    }

    /// Account n: 1 to 15 are the obstacles', 16 the fan's.
    pub fn account(&self, n: u32) -> Result<Account, CallFault>
        ensures { Told (view G.Gas S.TwistSource self.now) n result (view G.Gas S.TwistSource self.now) }
    {
        if n == 0 || n > 16 {
            return Err(CallFault::Argument(1));
        }
        Ok(self.state.book.account(n as usize))
    }
}
