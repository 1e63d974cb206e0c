// A job on a gas and a source, and the choice of both.
#![tactic(auto)]

mod choice;
mod jobs;

pub use choice::choose;
pub use jobs::{LONGEST_REPORT, MOST_CELLS, work};
