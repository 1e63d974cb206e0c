// The state of a run; what a step does, as definitions, and what it keeps, as theorems.
#![tactic(auto)]

mod laws;
mod role;
mod state;

pub use laws::{moves_decide, step_keeps, steps_keep};
pub use role::{HIGHEST_MAP_BYTE, Role};
pub use state::{State, fan_acts};
