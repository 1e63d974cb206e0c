// Text in a lent buffer: bytes and decimal numbers, one behind the other.
#![tactic(auto)]

mod sheet;

pub use sheet::Sheet;
