// A call that may stand in a log, and what comes of it.
use book::Account;
use faults::CallFault;

/// A call by its arguments and the lengths of the buffers that it is handed: of map and field, and of the spare or the output, so many bytes.
#[derive(Clone, Copy)]
pub enum Call {
    Advance(u32, usize, usize, usize),
    Paint(u32, u32, u32, usize),
    Fan(u32),
    Report(u32, usize, usize),
    Account(u32),
    Mark(usize, usize, usize),
}

/// What a call answered, or the fault that it was refused with, whole.
#[derive(Drop)]
pub enum Outcome {
    Advanced(Result<u32, CallFault>),
    Painted(Result<(), CallFault>),
    Fanned(Result<(), CallFault>),
    Reported(Result<usize, CallFault>),
    Told(Result<Account, CallFault>),
    Marked(Result<usize, CallFault>),
}
