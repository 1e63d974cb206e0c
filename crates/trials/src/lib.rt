// Calls of a run, tried on small grids.
#![tactic(auto)]

#[cfg(test)]
mod run_calls;
