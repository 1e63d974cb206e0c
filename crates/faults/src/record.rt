// The record layer: the file's layout.
ghost use Rattle.std.specs.Prelude.{◌≡◌};
ghost use Rattle.faults.specs.Record.{record_number, record_record};

/// What is wrong with the file's records; the number is the record's, counted from 0.
#[derive(Clone, Copy, Debug, PartialEq, Eq, Hash)]
pub enum RecordFault {
    /// The file is empty or too long.
    Size,
    /// The file ends inside this record.
    Cut(usize),
    /// The record's check does not fit its payload.
    Check(usize),
    /// The record's kind is no kind.
    Kind(usize),
    /// The record is not next in order.
    Order(usize),
    /// The end record is missing, or the file goes on behind it.
    Ending(usize),
}

impl RecordFault {
    pub(crate) fn number(&self) -> u8
        ensures { result ≡ record_number self.now }
    {
        match self {
            RecordFault::Size => 1,
            RecordFault::Cut(_) => 2,
            RecordFault::Check(_) => 3,
            RecordFault::Kind(_) => 4,
            RecordFault::Order(_) => 5,
            RecordFault::Ending(_) => 6,
        }
    }

    pub(crate) fn record(&self) -> usize
        ensures { result ≡ record_record self.now }
    {
        match *self {
            RecordFault::Size => 0,
            RecordFault::Cut(record)
            | RecordFault::Check(record)
            | RecordFault::Kind(record)
            | RecordFault::Order(record)
            | RecordFault::Ending(record) => record,
        }
    }
}
