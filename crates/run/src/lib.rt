// Runs of the tunnel, and the calls on them.
#![tactic(auto)]

mod advancing;
mod cells;
mod judging;
mod marking;
mod opening;
mod reporting;
mod run;
mod settings;

pub use run::Run;
