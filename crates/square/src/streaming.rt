// Streaming by rows.
ghost use Rattle.std.specs.Prelude.{◌≡◌, ℕ, ◌+◌, ◌<◌, length};
ghost use Rattle.lattice.specs.Sources.{gathered};
ghost use Rattle.square.specs.Sources.{sources_by};

use lattice::Rows;

/// The state that comes to a column of the first of these rows, between the columns `west` and `east`.
pub(crate) fn gather(from: &[u8], rows: Rows, west: usize, column: usize, east: usize) -> u8
    requires here { (rows.here + west < length from.now) × (rows.here + east < length from.now) }
    requires beside { (rows.south + column < length from.now) × (rows.north + column < length from.now) }
    ensures { result ≡ gathered 4 from.now (sources_by rows west column east) }
{
    (from[rows.north + column] & 8)
        | ((from[rows.here + east] & 4)
            | ((from[rows.south + column] & 2) | (from[rows.here + west] & 1)))
}
