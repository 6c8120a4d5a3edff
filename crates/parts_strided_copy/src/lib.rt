// Elements of one size, one after the other in bytes: runs and subsets of them, filled and copied.
#![tactic(auto)]

mod paired;
mod pieces;
mod rows;
mod strided;
mod subsets;

pub use paired::{AxisStart, PairedRows, RowStep};
pub use pieces::{fill_run, fill_subset, piece_at, push_front, run_at};
pub use rows::{gather, scatter};
pub use strided::StridedSubset;
pub use subsets::copy_subset;
