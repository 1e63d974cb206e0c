// Which gas and which source a job is for.
ghost use Rattle.std.specs.Prelude.{◌≡◌, Bool};
ghost use Rattle.pairing.specs.Pairings.{foreign, chosen, chosen_on};
ghost use Rattle.pairing.specs.Results.{Workable, Made};

use super::jobs::work;
use faults::{CallFault, JobFault};
use front::FirstLine;
use gas::Gas;
use hexagonal::HexagonalGas;
use square::SquareGas;
use twist::{Parity, Register};

/// Whether a job was refused because a kind is not the run's.
fn is_foreign(outcome: &Result<usize, CallFault>) -> bool
    ensures { result ≡ foreign outcome.now }
{
    matches!(
        outcome,
        Err(CallFault::Job(JobFault::GasKind(_) | JobFault::TwistKind(_)))
    )
}

// The buffers go on one by one, as `work` asks for them.
/// Works the job on this gas with parity, and with the register if it is foreign to that.
fn work_on<G: Gas + Copy>(
    gas: G,
    line: FirstLine,
    file: &[u8],
    map: &mut [u8],
    field: &mut [u8],
    spare: &mut [u8],
    out: &mut [u8],
) -> Result<usize, CallFault>
    requires { Workable map.old field.old spare.old out.old }
    ensures { Made (chosen_on (G.Gas.model gas) line.steps line.patch file.now) out.old result out.new }
{
    let by_parity = work(gas, Parity, line, file, map, field, spare, out);
    if !is_foreign(&by_parity) {
        return by_parity;
    }
    let register = Register::new();
    work(gas, register, line, file, map, field, spare, out)
}

/// Tries the square gas, then the hexagonal, each with parity and then the register: the first that is not foreign answers, or the last.
pub fn choose(
    line: FirstLine,
    file: &[u8],
    map: &mut [u8],
    field: &mut [u8],
    spare: &mut [u8],
    out: &mut [u8],
) -> Result<usize, CallFault>
    requires { Workable map.old field.old spare.old out.old }
    ensures { Made (chosen line.steps line.patch file.now) out.old result out.new }
{
    let on_square = work_on(SquareGas::new(), line, file, map, field, spare, out);
    if !is_foreign(&on_square) {
        return on_square;
    }
    let hexagonal = HexagonalGas::new();
    work_on(hexagonal, line, file, map, field, spare, out)
}
