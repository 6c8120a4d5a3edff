// A write into a stored shard, step by step: nothing here knows the sharding codec.
#![tactic(auto)]

mod appended;
mod cells;
mod change;
mod changed;
mod encoded;
mod numbers;
mod old;
mod overlay;
mod plain;
mod prepare;
mod put;
mod settle;
mod slices;
mod writing;

pub use change::{Change, Prepared};
pub use old::old_cells;
pub use writing::{OldEntry, Update, Writing};
