// The call layer: buffers and arguments.
ghost use Rattle.std.specs.Prelude.{◌≡◌, Some};
ghost use Rattle.faults.specs.declared.call.CallFault.TheVariants.{Job};
ghost use Rattle.faults.specs.Call.{number as number_of, layer as layer_of, record_of, offset as offset_of, refusal};

use super::job::JobFault;
use std::fmt;

/// Why a call was refused.
#[derive(Clone, Copy, Debug, PartialEq, Eq, Hash)]
pub enum CallFault {
    Job(JobFault),
    /// The map is shorter than the grid.
    ShortMap,
    /// The field is shorter than the grid.
    ShortField,
    /// The spare is shorter than the grid.
    ShortSpare,
    /// The map byte at this offset is out of range.
    MapByte(usize),
    /// The field byte at this offset is out of range.
    FieldByte(usize),
    /// The argument at this position, from 1, breaks the call's rule.
    Argument(usize),
    /// The step count would pass its limit.
    TooManySteps,
    /// The output buffer is too short.
    ShortOutput,
}

impl From<JobFault> for CallFault {
    ghost from_gives = { λ e r. r ≡ Job e };

    fn from(fault: JobFault) -> CallFault {
        CallFault::Job(fault)
    }
}

/// `refused`, and then the fault's number, layer, record and offset.
impl fmt::Display for CallFault {
    ghost output = { λ fault. Some (refusal fault) };

    fn fmt<W: fmt::Write>(&self, f: &mut fmt::Formatter<W>) -> fmt::Result {
        let number = self.number();
        let layer = self.layer();
        let record = self.record();
        let offset = self.offset();
        write!(f, "refused {number} {layer} {record} {offset}")
    }
}

impl CallFault {
    pub fn number(&self) -> u8
        ensures { result ≡ number_of self.now }
    {
        match self {
            CallFault::Job(fault) => fault.number(),
            CallFault::ShortMap | CallFault::ShortField | CallFault::ShortSpare => 15,
            CallFault::MapByte(_) | CallFault::FieldByte(_) => 16,
            CallFault::Argument(_) => 17,
            CallFault::TooManySteps => 18,
            CallFault::ShortOutput => 19,
        }
    }

    pub fn layer(&self) -> u8
        ensures { result ≡ layer_of self.now }
    {
        match self {
            CallFault::Job(fault) => fault.layer(),
            _ => 3,
        }
    }

    pub fn record(&self) -> usize
        ensures { result ≡ record_of self.now }
    {
        match self {
            CallFault::Job(fault) => fault.record(),
            CallFault::ShortMap | CallFault::MapByte(_) => 1,
            CallFault::ShortField | CallFault::FieldByte(_) => 2,
            CallFault::ShortSpare => 3,
            _ => 0,
        }
    }

    pub fn offset(&self) -> usize
        ensures { result ≡ offset_of self.now }
    {
        match *self {
            CallFault::Job(fault) => fault.offset(),
            CallFault::MapByte(offset) | CallFault::FieldByte(offset) => offset,
            CallFault::Argument(position) => position,
            _ => 0,
        }
    }
}
