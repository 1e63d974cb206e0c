// What is proved of turned sources.
ghost use Rattle.twist.specs.Laws.{TurnedTwice};

/// A source that is turned twice is its lower one again.
pub fn turned_twice() -> u8
    ensures { TurnedTwice }
{
    0
}
