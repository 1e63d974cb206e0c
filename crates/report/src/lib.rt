// The report: its text, and writing it into a lent buffer.
#![tactic(auto)]

mod accounts;
mod lines;
mod patch;
mod patches;
mod report;
mod shown;

pub use shown::Shown;
