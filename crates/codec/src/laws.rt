// What holds of every tunnel that can be held, and of every file that keeps the rules.
ghost use Rattle.codec.specs.Trips.{WrittenReadsBack, ReadWritesBack};

/// A tunnel that is written reads back as itself.
pub fn written_reads_back() -> u8
    ensures { WrittenReadsBack }
{
    0
}

/// A file that is read writes back as itself, less its skippable records.
pub fn read_writes_back() -> u8
    ensures { ReadWritesBack }
{
    0
}
