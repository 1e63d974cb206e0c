// The square gas by its entries, which are sound by its type.
ghost use Rattle.std.specs.Prelude.{◌≡◌, true};
ghost use Rattle.gas.specs.Judging.{good_table};
ghost use Rattle.square.specs.Square.{square};

/// The square gas, kind 4.
// A type for each gas: one for all would take a lattice and a number of entries side by side, and nothing would hold the two together.
#[derive(Clone, Copy)]
pub struct SquareGas {
    pub(crate) entries: [u8; 32],
    ghost sound: { good_table square entries ≡ true },
}
