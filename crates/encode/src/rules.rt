// The rules: the entries of a gas, one byte each.
ghost use Rattle.std.specs.Prelude.{◌≡◌, ◌*◌, ◌<◌, slice_index};
ghost use Rattle.gas.specs.Model.{states as states_of};

use gas::Gas;
use lattice::states_of;

/// The entry at this place: the outcome of a state under the one twist, and behind all those under the other.
fn entry_at<G: Gas>(gas: &G, states: usize, place: usize) -> u8
    requires { (states ≡ states_of (G.model gas.now)) × (place < 2 * states) }
    ensures { result ≡ slice_index (G.entries gas.now) place }
{
    if place < states {
        return gas.collide(false, place as u8);
    }
    gas.collide(true, (place - states) as u8)
}

// The check of a record stands before its payload, so the entries need a lent place of their own: no memory is asked for here.
/// The entries, put into the front of a buffer.
pub(crate) fn rules_bytes<'b, G: Gas>(gas: &G, buffer: &'b mut [u8; 256]) -> &'b [u8]
    ensures { result.now ≡ G.entries gas.now }
{
    let states = states_of(gas.channels());
    let rules = &mut buffer[..2 * states];
    for (place, entry) in rules.iter_mut().enumerate() {
        *entry = entry_at(gas, states, place);
    }
    rules
}
