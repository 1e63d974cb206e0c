// The grid, its cells, and the vectors and states that stand in them.
#![tactic(auto)]

mod bytes;
mod fault;
mod grid;
mod grids;
mod places;
mod ring;
mod rows;
mod vector;

pub use bytes::first_from;
pub use fault::GridFault;
pub use grid::Grid;
pub use places::{one_back, one_on};
pub use ring::fill_ring;
pub use rows::{Rows, rows_around};
pub use vector::{Vector, heading_of};

mod states;

pub use states::{byte_at, held, state_where, states_of, with_particle};
