// The first line: how many steps, and how wide the patches are.
ghost use Rattle.std.specs.Prelude.{◌≡◌, ℕ, ◌≤◌, Some, None, Ok, Err, MatchOption, MatchResult};
ghost use Rattle.front.specs.FirstLine.{place_of, before, rest_behind, first_line};

use super::number::number_up_to;
use faults::CallFault;

const MOST_STEPS: u32 = 65_535;

const WIDEST_PATCH: u32 = 64;

/// What the first line asks for: how many steps to take, and how wide the patches of the report are.
#[derive(Clone, Copy, Debug)]
pub struct FirstLine {
    pub steps: u32,
    pub patch: u32,
    ghost some: { 1 ≤ steps },
    ghost few: { steps ≤ 65535 },
}

/// Where the byte stands first.
fn place_of(byte: u8, bytes: &[u8]) -> Option<usize>
    ensures { result ≡ place_of byte bytes.now }
{
    bytes.iter().position(|here| *here == byte)
}

/// What stands before the first such byte, or all; and what stands behind it, if there is one.
fn parted(byte: u8, bytes: &[u8]) -> (&[u8], Option<&[u8]>)
    ensures before { result.0.now ≡ before (place_of byte bytes.now) bytes.now }
    ensures behind { MatchOption result.1 (rest_behind (place_of byte bytes.now) bytes.now ≡ None) (λ rest. rest_behind (place_of byte bytes.now) bytes.now ≡ Some rest.now) }
{
    match place_of(byte, bytes) {
        Some(place) => (&bytes[..place], Some(&bytes[place + 1..])),
        None => (bytes, None),
    }
}

/// Judges the first line of the program's input, and hands on the job file behind it.
pub fn read_first_line(input: &[u8]) -> Result<(FirstLine, &[u8]), CallFault>
    ensures { MatchResult result (λ read. first_line input.now ≡ Ok ((read.0.steps, read.0.patch), read.1.now)) (λ fault. first_line input.now ≡ Err fault) }
{
    let (line, file) = parted(b'\n', input);
    let (steps_text, patch_text) = parted(b' ', line);
    let steps = number_up_to(MOST_STEPS, steps_text).ok_or(CallFault::Argument(1))?;
    let patch_text = patch_text.unwrap_or(&[]);
    let patch = number_up_to(WIDEST_PATCH, patch_text).ok_or(CallFault::Argument(2))?;
    let file = file.ok_or(CallFault::Argument(2))?;
    Ok((FirstLine { steps, patch }, file))
}
