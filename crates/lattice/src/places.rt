// Places on a ring, without division.
ghost use Rattle.std.specs.Prelude.{◌≡◌, ℕ, ◌<◌};
ghost use Rattle.lattice.specs.Grids.{onward, backward};

/// The next place on a ring of so many places.
pub fn one_on(place: usize, ring: usize) -> usize
    requires { place < ring }
    ensures { result ≡ onward ring place }
{
    if place + 1 < ring { place + 1 } else { 0 }
}

/// The place before it.
pub fn one_back(place: usize, ring: usize) -> usize
    requires { place < ring }
    ensures { result ≡ backward ring place }
{
    if place > 0 { place - 1 } else { ring - 1 }
}
