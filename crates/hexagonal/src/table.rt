// The hexagonal gas by its entries, which are sound by its type.
ghost use Rattle.std.specs.Prelude.{◌≡◌, true};
ghost use Rattle.gas.specs.Judging.{good_table};
ghost use Rattle.hexagonal.specs.Hexagonal.{hexagonal};

/// The hexagonal gas with a rest particle, kind 7.
// A type for each gas: one for all would take a lattice and a number of entries side by side, and nothing would hold the two together.
#[derive(Clone, Copy)]
pub struct HexagonalGas {
    pub(crate) entries: [u8; 256],
    ghost sound: { good_table hexagonal entries ≡ true },
}
