// Numbers as bytes, the lowest byte first.
ghost use Rattle.std.specs.Prelude.{◌≡◌};
ghost use Rattle.records.specs.Format.{le};

/// The two lowest bytes of a number, the lower first.
pub(crate) fn two_bytes(number: u32) -> [u8; 2]
    ensures { result ≡ le 2 number }
{
    let [low, high, _, _] = number.to_le_bytes();
    [low, high]
}
