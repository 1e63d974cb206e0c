// The lines that the program prints by itself.
ghost use Rattle.std.specs.Prelude.{◌≡◌, IfOk, string_bytes};
ghost use Rattle.front.specs.Lines.{refused_line, records_line};

use faults::CallFault;
use std::alloc::{AllocError, Global};

/// The line of a refusal: `refused`, the fault's number, layer, record and offset.
pub fn refused_line(heap: Global, fault: &CallFault) -> Result<String, AllocError>
    ensures { IfOk result (λ line. string_bytes line ≡ refused_line fault.now) }
{
    format!(in heap; "{fault}\n")
}

/// The line that tells how many records were judged.
pub fn records_line(heap: Global, count: usize) -> Result<String, AllocError>
    ensures { IfOk result (λ line. string_bytes line ≡ records_line count) }
{
    format!(in heap; "records {count}\n")
}
