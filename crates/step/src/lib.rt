// The step: the collision row by row, then streaming, and the pushes on the book.
#![tactic(auto)]

mod cell;
mod rows;
mod settling;
mod steps;
mod streams;

pub use cell::{Collided, collide_cell};
pub use rows::{collide_rows, row_pass};
pub use settling::{settle_fan, settle_walls};
pub use steps::{step, take_steps};
pub use streams::stream_rows;
