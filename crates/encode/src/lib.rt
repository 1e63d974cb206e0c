// The encoder: a tunnel's state as the bytes of a file.
#![tactic(auto)]

mod accounts;
mod file;
mod head;
mod held;
mod numbers;
mod record;
mod rules;

pub use held::Held;
