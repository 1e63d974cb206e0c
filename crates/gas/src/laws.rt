// What is proved of the judging of entries, for every gas.
ghost use Rattle.gas.specs.Judging.{TakenIfSound};

/// A list of entries is taken exactly if it is sound.
pub fn taken_if_sound() -> u8
    ensures { TakenIfSound }
{
    0
}
