// The grounds that calls share.
// The cells are counted beside the buffers: a buffer may be longer than its grid, and a refusal is told of it as it was lent.
ghost use Rattle.std.specs.Prelude.{◌≡◌, ℕ, ◌≤◌, length, nat_lt};
ghost use Rattle.calls.specs.Grounds.{fault_if, map_fault, field_fault};
ghost use Rattle.calls.specs.Outcomes.{reply};

use dynamics::HIGHEST_MAP_BYTE;
use faults::CallFault;
use lattice::first_from;

/// A buffer that has no byte for the last cell is refused with this fault.
pub(crate) fn judge_length(bytes: &[u8], cells: usize, short: CallFault) -> Result<(), CallFault>
    ensures { result ≡ reply (fault_if (nat_lt (length bytes.now) cells) short) tt }
{
    if bytes.len() < cells {
        return Err(short);
    }
    Ok(())
}

/// The first map byte that is too high, among the first `cells`.
pub(crate) fn judge_map(map: &[u8], cells: usize) -> Result<(), CallFault>
    requires { cells ≤ length map.now }
    ensures { result ≡ reply (map_fault cells map.now) tt }
{
    match first_from(&map[..cells], HIGHEST_MAP_BYTE as usize + 1) {
        Some(place) => Err(CallFault::MapByte(place)),
        None => Ok(()),
    }
}

/// The first field byte that is no state, among the first `cells`.
pub(crate) fn judge_field(field: &[u8], cells: usize, states: usize) -> Result<(), CallFault>
    requires { cells ≤ length field.now }
    ensures { result ≡ reply (field_fault cells states field.now) tt }
{
    match first_from(&field[..cells], states) {
        Some(place) => Err(CallFault::FieldByte(place)),
        None => Ok(()),
    }
}
