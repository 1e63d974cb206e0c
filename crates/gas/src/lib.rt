// The interface that every gas keeps.
#![tactic(auto)]

mod fault;
mod laws;
mod outcomes;
mod rows;
mod totals;

ghost use Rattle.std.specs.Prelude.{◌≡◌, ℕ, ◌<◌, List};
ghost use Rattle.gas.specs.Model.{GasModel, outcome, particles as particles_of, momentum as momentum_of};
ghost use Rattle.gas.specs.Soundness.{SoundTable};
ghost use Rattle.gas.specs.Laws.{GasLaws};
ghost use Rattle.gas.specs.Judging.{table_judged, entries_after, sound_entry, sound_place};
ghost use Rattle.gas.specs.Streaming.{arriving as arriving_at, RowStreamed};

pub use fault::TableFault;
use lattice::{Grid, Vector, byte_at, held, state_where, states_of};
pub use laws::taken_if_sound;
pub use outcomes::outcome_in;
pub use rows::row_fits;
pub use totals::{Totals, field_totals};

/// A lattice gas: what it is made of never changes, and the entries it holds are always sound.
pub trait Gas {
    ghost model: { Self → GasModel };

    ghost entries: { Self → List ℕ };

    // A number and no enum: gases that customers bring have kinds of their own.
    fn kind(&self) -> u8
        ensures { result ≡ (model self.now).kind };

    fn channels(&self) -> u8
        ensures { result ≡ (model self.now).channels };

    fn vector(&self, channel: u8) -> Vector
        ensures { result ≡ (model self.now).vector channel };

    fn opposite(&self, channel: u8) -> u8
        ensures { result ≡ (model self.now).opposite channel };

    fn neighbour(&self, grid: Grid, channel: u8, cell: usize) -> usize
        ensures { result ≡ (model self.now).neighbour grid.width grid.height channel cell };

    /// The outcome of a collision.
    fn collide(&self, twist: bool, state: u8) -> u8
        ensures { result ≡ outcome (model self.now) (entries self.now) twist state };

    /// Takes a list of entries if it is sound; otherwise the old ones stay.
    fn load(&mut self, list: &[u8]) -> Result<(), TableFault>
        ensures answer { result ≡ table_judged (model self.old) list.now }
        ensures held { entries self.new ≡ entries_after (model self.old) (entries self.old) list.now }
        ensures same { model self.new ≡ model self.old };

    /// Takes the house rules.
    fn house(&mut self)
        ensures held { entries self.new ≡ (model self.old).house }
        ensures same { model self.new ≡ model self.old };

    /// How many particles a state has.
    fn particles(&self, state: u8) -> u8
        ensures { result ≡ particles_of (model self.now) state }
    {
        (0..self.channels())
            .map(|channel| u8::from(held(state, channel)))
            .sum()
    }

    /// The sum of the vectors of a state's particles.
    fn momentum(&self, state: u8) -> Vector
        ensures { result ≡ momentum_of (model self.now) state }
    {
        let mut momentum = Vector::default();
        for channel in 0..self.channels() {
            if held(state, channel) {
                momentum += self.vector(channel);
            }
        }
        momentum
    }

    /// Whether a collision may turn `state` into `outcome`.
    fn is_sound(&self, state: u8, outcome: u8) -> bool
        ensures { result ≡ sound_entry (model self.now) state outcome }
    {
        (outcome as usize) < states_of(self.channels())
            && self.particles(outcome) == self.particles(state)
            && self.momentum(outcome) == self.momentum(state)
    }

    /// Whether there is an entry at this place of a list, there should be one, and it is sound.
    fn sound_place(&self, list: &[u8], place: usize) -> bool
        ensures { result ≡ sound_place (model self.now) list.now place }
    {
        let states = states_of(self.channels());
        place < list.len()
            && place < 2 * states
            && self.is_sound((place % states) as u8, list[place])
    }

    /// Judges a list of entries without taking it.
    fn first_unsound(&self, list: &[u8]) -> Result<(), TableFault>
        ensures { result ≡ table_judged (model self.now) list.now }
    {
        let places = list.len().max(2 * states_of(self.channels()));
        match (0..places).find(|place| !self.sound_place(list, *place)) {
            Some(place) => Err(TableFault::Unsound(place)),
            None => Ok(()),
        }
    }

    /// The state that streams into a cell.
    fn arriving(&self, grid: Grid, from: &[u8], cell: usize) -> u8
        ensures { result ≡ arriving_at (model self.now) grid.width grid.height from.now cell }
    {
        state_where(
            self.channels(),
            |channel|
                requires { channel < 8 }
            {
                let source = self.neighbour(grid, self.opposite(channel), cell);
                held(byte_at(from, source), channel)
            },
        )
    }

    /// Streams one row of the field `from` into `to`.
    fn stream_row(&self, grid: Grid, row: usize, from: &[u8], to: &mut [u8])
        ensures { RowStreamed (model self.now) grid.width grid.height row from.now to.old to.new }
    {
        if !row_fits(grid, row, from, to) {
            return;
        }
        let width = grid.width() as usize;
        for (column, state) in to[..width].iter_mut().enumerate() {
            *state = self.arriving(grid, from, row * width + column);
        }
    }

    ghost lawful: { (g : Self) → GasLaws (model g) };

    ghost sound: { (g : Self) → SoundTable (model g) (entries g) };
}
