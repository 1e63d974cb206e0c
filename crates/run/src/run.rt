// A run: a gas, and a state whose numbers keep their limits.
ghost use Rattle.std.specs.Prelude.{◌≡◌, ◌≤◌, true};
ghost use Rattle.book.specs.Accounts.{book_fits};

use dynamics::State;
use gas::Gas;
use twist::TwistSource;

/// A run of the tunnel. Map, field and spare are its caller's, and are lent to each call.
#[derive(Drop)]
pub struct Run<G: Gas, S: TwistSource> {
    pub(crate) gas: G,
    pub(crate) state: State<S>,
    ghost slow: { state.period ≤ 999 },
    ghost few: { state.steps ≤ 1000000000 },
    ghost ranged: { book_fits state.steps state.book.accounts ≡ true },
}
