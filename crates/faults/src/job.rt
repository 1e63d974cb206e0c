// The job layer: what the payloads say.
ghost use Rattle.std.specs.Prelude.{◌≡◌};
ghost use Rattle.faults.specs.declared.job.JobFault.TheVariants.{Record};
ghost use Rattle.faults.specs.Job.{job_number, job_layer, job_record, job_offset};

use super::record::RecordFault;

/// What is wrong with a job's payloads; the first number is the record's, the second the offset in its payload.
#[derive(Clone, Copy, Debug, PartialEq, Eq, Hash)]
pub enum JobFault {
    Record(RecordFault),
    /// The payload's length is wrong.
    Length(usize),
    /// The gas kind is not the run's.
    GasKind(usize),
    /// The twist kind is not the run's.
    TwistKind(usize),
    Width(usize),
    Height(usize),
    /// Width times height is too large.
    Area(usize),
    Period(usize),
    Steps(usize),
    /// The twist mark is unlawful.
    Mark(usize),
    /// The entry is unsound.
    Entry(usize, usize),
    MapByte(usize, usize),
    FieldByte(usize, usize),
    /// The account number is out of range.
    Account(usize, usize),
}

impl From<RecordFault> for JobFault {
    ghost from_gives = { λ e r. r ≡ Record e };

    fn from(fault: RecordFault) -> JobFault {
        JobFault::Record(fault)
    }
}

impl JobFault {
    pub(crate) fn number(&self) -> u8
        ensures { result ≡ job_number self.now }
    {
        match self {
            JobFault::Record(fault) => fault.number(),
            JobFault::Length(_) => 7,
            JobFault::GasKind(_) | JobFault::TwistKind(_) => 8,
            JobFault::Width(_)
            | JobFault::Height(_)
            | JobFault::Area(_)
            | JobFault::Period(_)
            | JobFault::Steps(_) => 9,
            JobFault::Mark(_) => 10,
            JobFault::Entry(_, _) => 11,
            JobFault::MapByte(_, _) => 12,
            JobFault::FieldByte(_, _) => 13,
            JobFault::Account(_, _) => 14,
        }
    }

    pub(crate) fn layer(&self) -> u8
        ensures { result ≡ job_layer self.now }
    {
        match self {
            JobFault::Record(_) => 1,
            _ => 2,
        }
    }

    pub(crate) fn record(&self) -> usize
        ensures { result ≡ job_record self.now }
    {
        match *self {
            JobFault::Record(fault) => fault.record(),
            JobFault::Length(record)
            | JobFault::GasKind(record)
            | JobFault::TwistKind(record)
            | JobFault::Width(record)
            | JobFault::Height(record)
            | JobFault::Area(record)
            | JobFault::Period(record)
            | JobFault::Steps(record)
            | JobFault::Mark(record)
            | JobFault::Entry(record, _)
            | JobFault::MapByte(record, _)
            | JobFault::FieldByte(record, _)
            | JobFault::Account(record, _) => record,
        }
    }

    pub(crate) fn offset(&self) -> usize
        ensures { result ≡ job_offset self.now }
    {
        match *self {
            JobFault::Record(_) | JobFault::Length(_) | JobFault::GasKind(_) => 0,
            JobFault::TwistKind(_) => 1,
            JobFault::Width(_) | JobFault::Area(_) => 2,
            JobFault::Height(_) => 4,
            JobFault::Period(_) => 6,
            JobFault::Steps(_) => 8,
            JobFault::Mark(_) => 12,
            JobFault::Entry(_, offset)
            | JobFault::MapByte(_, offset)
            | JobFault::FieldByte(_, offset)
            | JobFault::Account(_, offset) => offset,
        }
    }
}
