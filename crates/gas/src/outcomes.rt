// The outcome that a table of entries gives.
ghost use Rattle.std.specs.Prelude.{◌≡◌, ◌*◌};
ghost use Rattle.gas.specs.Model.{GasModel, states, outcome};

/// The outcome of a state under a twist: the first half of the entries is for twist 0, the other for twist 1.
pub fn outcome_in<const N: usize>(entries: &[u8; N], twist: bool, state: u8) -> u8
    ensures { (m : GasModel) → N ≡ 2 * states m → result ≡ outcome m entries.now twist state }
{
    let states = N / 2;
    if usize::from(state) < states {
        entries[states * usize::from(twist) + usize::from(state)]
    } else {
        state
    }
}
