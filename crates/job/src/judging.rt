// A head is judged by rising number: its length, its kinds, its limits, its mark.
ghost use Rattle.std.specs.Prelude.{◌≡◌, ℕ, Some, Err};
ghost use Rattle.job.specs.Grounds.{kinds_fault, limits_fault, mark_fault, head_fault, grid_fault};
ghost use Rattle.job.specs.Outcomes.{judgment, Judged};
ghost use Rattle.job.specs.Results.{GridOf, SettingsOf};

use super::head::{Head, read_head};
use super::payloads::Payload;
use faults::JobFault;
use gas::Gas;
use lattice::{Grid, GridFault};
use twist::TwistSource;

const LONGEST_PERIOD: u32 = 999;

const STEP_LIMIT: u32 = 1_000_000_000;

/// A judged head, with its grid.
#[derive(Clone, Copy)]
pub struct Settings {
    pub head: Head,
    pub grid: Grid,
}

/// The kinds are those of this gas and this source.
// Here and below gas and source stay apart, as callers lend them, and so do number and head, since a fault tells the number alone: a struct of either pair would be made for these calls alone.
pub fn judge_kinds<G: Gas, S: TwistSource>(
    gas: &G,
    source: &S,
    number: usize,
    head: Head,
) -> Result<(), JobFault>
    ensures { result ≡ judgment (kinds_fault (G.Gas.model gas.now) (S.TwistSource.model source.now) number head) }
{
    if head.gas != gas.kind() {
        return Err(JobFault::GasKind(number));
    }
    if head.twist != source.kind() {
        return Err(JobFault::TwistKind(number));
    }
    Ok(())
}

/// The fault of a width or a height that stands in this record.
// No `From`: the fault alone does not know its record.
pub fn grid_fault(number: usize, fault: GridFault) -> JobFault
    ensures { Some result ≡ grid_fault number (Err fault) }
{
    match fault {
        GridFault::Width => JobFault::Width(number),
        GridFault::Height => JobFault::Height(number),
        GridFault::Area => JobFault::Area(number),
    }
}

/// The grid of a head that keeps the limits.
pub fn judge_limits(number: usize, head: Head) -> Result<Grid, JobFault>
    ensures { Judged (limits_fault number head) (GridOf head) result }
{
    let grid = Grid::new(head.width, head.height).map_err(|fault| grid_fault(number, fault))?;
    if head.period > LONGEST_PERIOD {
        return Err(JobFault::Period(number));
    }
    if head.steps > STEP_LIMIT {
        return Err(JobFault::Steps(number));
    }
    Ok(grid)
}

/// The mark is lawful for this source.
pub fn judge_mark<S: TwistSource>(source: &S, number: usize, head: Head) -> Result<(), JobFault>
    ensures { result ≡ judgment (mark_fault (S.TwistSource.model source.now) number head) }
{
    if !source.is_lawful(head.mark) {
        return Err(JobFault::Mark(number));
    }
    Ok(())
}

impl<'a> Payload<'a> {
    /// What the payload of a head record says, if it suits this gas and this source and keeps the limits.
    pub(crate) fn judge_head<G: Gas, S: TwistSource>(
        &self,
        gas: &G,
        source: &S,
    ) -> Result<Settings, JobFault>
        ensures { Judged (head_fault (G.Gas.model gas.now) (S.TwistSource.model source.now) self.now.number self.now.bytes.now) (SettingsOf self.now.bytes.now) result }
    {
        let head = read_head(self.bytes).ok_or(JobFault::Length(self.number))?;
        judge_kinds(gas, source, self.number, head)?;
        let grid = judge_limits(self.number, head)?;
        judge_mark(source, self.number, head)?;
        Ok(Settings { head, grid })
    }
}
