// A job from beginning to end, on one gas and one source.
ghost use Rattle.std.specs.Prelude.{◌≡◌};
ghost use Rattle.pairing.specs.Jobs.{job_outcome};
ghost use Rattle.pairing.specs.Results.{Workable, Made};

use faults::CallFault;
use front::FirstLine;
use gas::Gas;
use run::Run;
use twist::TwistSource;

/// No grid has more cells, so map, field and spare of this length suit every file.
pub const MOST_CELLS: usize = 16_384;

/// No report is longer.
pub const LONGEST_REPORT: usize = 65_536;

// Tried as one struct of lent buffers: the borrow checker covers no `&` that is made through a struct's `&mut`.
/// Opens the file in a new run of this gas and this source, takes the steps, and writes the report.
pub fn work<G: Gas + Drop, S: TwistSource>(
    gas: G,
    source: S,
    line: FirstLine,
    file: &[u8],
    map: &mut [u8],
    field: &mut [u8],
    spare: &mut [u8],
    out: &mut [u8],
) -> Result<usize, CallFault>
    requires { Workable map.old field.old spare.old out.old }
    ensures { Made (job_outcome (G.Gas.model gas) (S.TwistSource.model source) line.steps line.patch file.now) out.old result out.new }
{
    let mut run = Run::new(gas, source);
    run.open(file, map, field)?;
    run.advance(line.steps, map, field, spare)?;
    run.report(line.patch, field, out)
}
