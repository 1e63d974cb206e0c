// What the program decides, as functions on values.
#![tactic(auto)]

mod answers;
mod first_line;
mod lines;
mod number;

pub use answers::answer;
pub use first_line::{FirstLine, read_first_line};
pub use lines::{records_line, refused_line};
pub use number::number_up_to;

/// The longest input that can be lawful: the longest first line, `65535 64` and its end, and the longest file.
/// One byte more is enough to tell that an input is too long, so no program need read further.
pub const LONGEST_INPUT: u64 = 9 + 65_536;
