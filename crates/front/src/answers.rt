// The program's answer to its whole input.
ghost use Rattle.std.specs.Prelude.{◌≡◌, IfOk, string_bytes};
ghost use Rattle.front.specs.Answers.{records_in, judged, answer_to};

use super::first_line::read_first_line;
use super::lines::{records_line, refused_line};
use faults::{CallFault, JobFault};
use records::walk;
use std::alloc::{AllocError, Global};

/// How many records the file has.
fn judge_records(file: &[u8]) -> Result<usize, JobFault>
    ensures { result ≡ records_in file.now }
{
    let places = walk(file)?;
    Ok(places.end.record + 1)
}

/// Judges the first line, then the records behind it.
fn judge(input: &[u8]) -> Result<usize, CallFault>
    ensures { result ≡ judged input.now }
{
    let (_, file) = read_first_line(input)?;
    let count = judge_records(file)?;
    Ok(count)
}

/// The line that the program prints.
pub fn answer(heap: Global, input: &[u8]) -> Result<String, AllocError>
    ensures { IfOk result (λ line. string_bytes line ≡ answer_to input.now) }
{
    match judge(input) {
        Ok(count) => records_line(heap, count),
        Err(fault) => refused_line(heap, &fault),
    }
}
