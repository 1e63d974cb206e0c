// A cell's state, one channel at a time.
ghost use Rattle.std.specs.Prelude.{◌≡◌, ℕ, ◌+◌, ◌^◌, ◌<◌, Bool, slice_index};
ghost use Rattle.lattice.specs.States.{holds, state_of};

// A channel is the plain number of a bit: a type of its own would be opened again at each shift and in each loop.
/// Whether this channel of the state holds a particle.
pub fn held(state: u8, channel: u8) -> bool
    requires { channel < 8 }
    ensures { result ≡ holds state channel }
{
    (state >> channel) & 1 == 1
}

/// The state, whose channels from this one on are empty, with a particle in this channel.
pub fn with_particle(state: u8, channel: u8) -> u8
    requires { (channel < 8) × (state < 2 ^ channel) }
    ensures { result ≡ state + 2 ^ channel }
{
    state | (1 << channel)
}

/// The state of so many channels that holds a particle just in those that `holds` picks.
pub fn state_where<F: Fn(u8) -> bool>(channels: u8, holds: F) -> u8
    requires few { channels < 8 }
    requires callable { (c : ℕ) → c < channels → F.pre holds c }
    ensures { (p : ℕ → Bool) → ((c : ℕ) (b : Bool) → c < channels → F.post holds c b → b ≡ p c) → result ≡ state_of channels p }
{
    let mut state = 0;
    for channel in 0..channels {
        if holds(channel) {
            state = with_particle(state, channel);
        }
    }
    state
}

/// How many states this many channels have.
pub fn states_of(channels: u8) -> usize
    requires { channels < 8 }
    ensures { result ≡ 2 ^ channels }
{
    1 << channels
}

/// The byte at a place, and 0 beyond the end.
pub fn byte_at(bytes: &[u8], place: usize) -> u8
    ensures { result ≡ slice_index bytes.now place }
{
    bytes.get(place).copied().unwrap_or(0)
}
