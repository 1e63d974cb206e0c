// What holds of every file, as theorems.
ghost use Rattle.records.specs.Laws.{SkipsChangeNothing, Sifts};

/// A skippable record put in before the end changes nothing but the numbers of the records behind it.
pub fn skipped_records_change_nothing() -> u8
    ensures { SkipsChangeNothing }
{
    0
}

/// A file less its skippable records is the file of the records that are kept.
pub fn sifted_files_are_kept_records() -> u8
    ensures { Sifts }
{
    0
}
