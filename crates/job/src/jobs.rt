// A file as a job: its records, and then its payloads in file order.
ghost use Rattle.std.specs.Prelude.{◌≡◌, ℕ};
ghost use Rattle.std.specs.List.{AllByRecursion};
ghost use Rattle.records.specs.Layout.{Inside, listed, parts, payload_at};
ghost use Rattle.job.specs.Grounds.{head_fault};
ghost use Rattle.job.specs.Jobs.{payloads_fault, job_fault};
ghost use Rattle.job.specs.Outcomes.{Judged};
ghost use Rattle.job.specs.Results.{SettingsOf, IsJob};

use super::head::Head;
use super::judging::Settings;
use super::payloads::Payload;
use faults::JobFault;
use gas::Gas;
use lattice::Grid;
use records::{Places, walk};
use twist::TwistSource;

/// A judged file: what its head says, its grid, and where its payloads lie.
// Head and grid stand here beside the places: with a field `settings` for both a caller would say no less.
#[derive(Clone, Copy)]
pub struct Job {
    pub head: Head,
    pub grid: Grid,
    pub places: Places,
}

/// Judges the payloads at these places of a file.
fn judge_payloads<G: Gas, S: TwistSource>(
    gas: &G,
    source: &S,
    file: &[u8],
    places: Places,
) -> Result<Settings, JobFault>
    requires { AllByRecursion (Inside file.now) (listed places) }
    ensures { Judged (payloads_fault (G.Gas.model gas.now) (S.TwistSource.model source.now) (parts file.now places)) (SettingsOf (payload_at file.now places.head)) result }
{
    let settings = Payload::at(places.head, file).judge_head(gas, source)?;
    let cells = settings.grid.cells();
    Payload::at(places.rules, file).judge_rules(gas)?;
    Payload::at(places.map, file).judge_map(cells)?;
    Payload::at(places.field, file).judge_field(gas, cells)?;
    Payload::at(places.book, file).judge_book(settings.head.steps)?;
    Payload::at(places.end, file).judge_end()?;
    Ok(settings)
}

/// Judges a file for a run of this gas and this source.
pub fn judge_job<G: Gas, S: TwistSource>(gas: &G, source: &S, file: &[u8]) -> Result<Job, JobFault>
    ensures { Judged (job_fault (G.Gas.model gas.now) (S.TwistSource.model source.now) file.now) (IsJob file.now) result }
{
    let places = walk(file)?;
    let settings = judge_payloads(gas, source, file, places)?;
    Ok(Job {
        head: settings.head,
        grid: settings.grid,
        places,
    })
}
