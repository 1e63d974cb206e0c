// What each call answers and leaves, and what holds over whole logs of calls.
#![tactic(auto)]

mod call;
mod laws;

pub use call::{Call, Outcome};
pub use laws::law_over_logs;
