// The job layer: what the payloads of a file say, judged once every record stands.
#![tactic(auto)]

mod accounts;
mod head;
mod jobs;
mod judging;
mod laws;
mod payloads;

pub use accounts::read_book;
pub use head::{Head, read_head};
pub use jobs::{Job, judge_job};
pub use judging::{Settings, grid_fault, judge_kinds, judge_limits, judge_mark};
pub use laws::faultless_if_kept;
