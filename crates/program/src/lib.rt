// What the program prints for its whole input: the report of a job, or a refusal.
#![tactic(auto)]

mod answers;

pub use answers::answer;
