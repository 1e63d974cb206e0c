// Opening a job.
ghost use Rattle.std.specs.Prelude.{◌≡◌, ℕ, ◌≤◌, length, None, Ok};
ghost use Rattle.step.specs.Results.{over};
ghost use Rattle.job.specs.Jobs.{job_fault, parts_of, run_in};
ghost use Rattle.job.specs.Results.{IsJob};
ghost use Rattle.run.specs.View.{view};
ghost use Rattle.calls.specs.Grounds.{open_fault};
ghost use Rattle.calls.specs.Outcomes.{Judged};
ghost use Rattle.calls.specs.Calls.{Opened};
ghost use Rattle.calls.specs.Files.{Opens};
ghost use Rattle.calls.specs.Law.{LogLaw, MarksBack};

use super::judging::judge_length;
use super::run::Run;
use faults::CallFault;
use gas::Gas;
use job::{Job, judge_job, read_book};
use twist::TwistSource;

/// Copies these bytes over the first of a buffer.
fn copy_over(buffer: &mut [u8], bytes: &[u8])
    requires { length bytes.now ≤ length buffer.old }
    ensures { buffer.new ≡ over bytes.now buffer.old }
{
    buffer[..bytes.len()].copy_from_slice(bytes);
}

impl<G: Gas, S: TwistSource> Run<G, S> {
    /// The first ground on which `open` is refused, or the job that the file is.
    fn judge_open(&self, file: &[u8], map: &[u8], field: &[u8]) -> Result<Job, CallFault>
        ensures { Judged (open_fault (view G.Gas S.TwistSource self.now) file.now map.now field.now) (IsJob file.now) result }
    {
        let job = judge_job(&self.gas, &self.state.source, file)?;
        let cells = job.grid.cells();
        judge_length(map, cells, CallFault::ShortMap)?;
        judge_length(field, cells, CallFault::ShortField)?;
        Ok(job)
    }

    /// Makes this run, map and field those that a file says.
    pub fn open(&mut self, file: &[u8], map: &mut [u8], field: &mut [u8]) -> Result<(), CallFault>
        ensures outcome { Opened (view G.Gas S.TwistSource self.old) file.now map.old field.old result (view G.Gas S.TwistSource self.new) map.new field.new }
        ensures law { result ≡ Ok tt → LogLaw (record { run = view G.Gas S.TwistSource self.new; map = map.new; field = field.new }) }
        ensures returns { result ≡ Ok tt → MarksBack file.now (record { run = view G.Gas S.TwistSource self.new; map = map.new; field = field.new }) }
        ensures exactly { Opens (view G.Gas S.TwistSource self.old) file.now map.old field.old result (view G.Gas S.TwistSource self.new) map.new field.new }
    {
        let job = self.judge_open(file, map, field)?;
        copy_over(map, job.places.map.payload(file));
        copy_over(field, job.places.field.payload(file));
        self.take_job(file, job);
        Ok(())
    }

    /// Takes what a judged file says of the run itself.
    fn take_job(&mut self, file: &[u8], job: Job)
        requires { (IsJob file.now job) × (job_fault (G.Gas.model self.old.gas) (S.TwistSource.model self.old.state.source) file.now ≡ None) }
        ensures { view G.Gas S.TwistSource self.new ≡ run_in (G.Gas.model self.old.gas) (S.TwistSource.model self.old.state.source) (parts_of file.now) }
    {
        let _ = self.gas.load(job.places.rules.payload(file));
        let _ = self.state.source.set_mark(job.head.mark);
        self.state.grid = job.grid;
        self.state.period = job.head.period;
        self.state.steps = job.head.steps;
        self.state.book = read_book(job.places.book.payload(file));
    }
}
