// The two round trips, as theorems: from a tunnel to its file and back, and from a file to its tunnel and back.
#![tactic(auto)]

mod laws;

pub use laws::{read_writes_back, written_reads_back};
