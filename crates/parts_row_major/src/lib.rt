// Row-major order: the number of a cell, the coordinates of a number, and the runs of a box.
#![tactic(auto)]

mod numbering;
mod points;
mod runs;

pub use numbering::{count, number_along, ravel_indices, unravel_index};
pub use points::{number_of_point, points_in};
pub use runs::{ContiguousRuns, RowSet, row_set};
