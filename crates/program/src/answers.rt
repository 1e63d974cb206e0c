// The program's answer to its whole input.
ghost use Rattle.std.specs.Prelude.{◌≡◌, ℕ, ◌≤◌, IfOk};
ghost use Rattle.pairing.specs.Pairings.{chosen};
ghost use Rattle.pairing.specs.Results.{Workable};
ghost use Rattle.program.specs.Answers.{printed, answer_to};
ghost use Rattle.front.specs.Lines.{refused_line};

use faults::CallFault;
use front::{FirstLine, read_first_line, refused_line};
use pairing::{LONGEST_REPORT, MOST_CELLS, choose};
use std::alloc::{AllocError, Global};

/// The bytes of a refusal's line.
fn refusal(heap: Global, fault: &CallFault) -> Result<Vec<u8>, AllocError>
    ensures { IfOk result (λ bytes. bytes.items ≡ refused_line fault.now) }
{
    let line = refused_line(heap, fault)?;
    Ok(line.into_bytes())
}

// The buffers go on one by one, as `choose` asks for them.
/// The report of a job, or its refusal, by way of these buffers.
fn print_job(
    heap: Global,
    line: FirstLine,
    file: &[u8],
    map: &mut [u8],
    field: &mut [u8],
    spare: &mut [u8],
    out: &mut [u8],
) -> Result<Vec<u8>, AllocError>
    requires { Workable map.old field.old spare.old out.old }
    ensures { IfOk result (λ bytes. bytes.items ≡ printed (chosen line.steps line.patch file.now)) }
{
    match choose(line, file, map, field, spare, out) {
        Ok(length) => Vec::from_slice(heap, &out[..length]),
        Err(fault) => refusal(heap, &fault),
    }
}

/// The report of a job, or its refusal.
fn answer_job(heap: Global, line: FirstLine, file: &[u8]) -> Result<Vec<u8>, AllocError>
    ensures { IfOk result (λ bytes. bytes.items ≡ printed (chosen line.steps line.patch file.now)) }
{
    let mut map = vec![in heap; 0u8; MOST_CELLS]?;
    let mut field = vec![in heap; 0u8; MOST_CELLS]?;
    let mut spare = vec![in heap; 0u8; MOST_CELLS]?;
    let mut out = vec![in heap; 0u8; LONGEST_REPORT]?;
    print_job(
        heap,
        line,
        file,
        map.as_mut_slice(),
        field.as_mut_slice(),
        spare.as_mut_slice(),
        out.as_mut_slice(),
    )
}

/// What the program prints.
pub fn answer(heap: Global, input: &[u8]) -> Result<Vec<u8>, AllocError>
    ensures { IfOk result (λ bytes. bytes.items ≡ answer_to input.now) }
{
    match read_first_line(input) {
        Ok((line, file)) => answer_job(heap, line, file),
        Err(fault) => refusal(heap, &fault),
    }
}
