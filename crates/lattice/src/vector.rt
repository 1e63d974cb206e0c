// A vector of two whole numbers.
ghost use Rattle.std.specs.Prelude.{◌≡◌, ◌+ℤ◌, FitsSigned};
ghost use Rattle.std.specs.Int.{w64};
ghost use Rattle.lattice.specs.Vectors.{added};
ghost use Rattle.lattice.specs.Headings.{heading_of};

use std::ops::AddAssign;

/// A velocity or a momentum: its part along the tunnel, and its part across.
#[derive(Clone, Copy, Debug, Default, PartialEq)]
pub struct Vector {
    pub along: i64,
    pub across: i64,
}

/// Where a channel leads by a list of headings, along and across; nowhere beyond the list.
pub fn heading_of(headings: &[(i64, i64)], channel: u8) -> Vector
    ensures { result ≡ heading_of headings.now channel }
{
    let (along, across) = headings
        .get(usize::from(channel))
        .copied()
        .unwrap_or((0, 0));
    Vector { along, across }
}

impl AddAssign for Vector {
    ghost can_add_assign = { λ v w. FitsSigned w64 (v.along +ℤ w.along) × FitsSigned w64 (v.across +ℤ w.across) };

    ghost add_assign_gives = { λ v w r. r ≡ added v w };

    fn add_assign(&mut self, other: Vector) {
        self.along += other.along;
        self.across += other.across;
    }
}
