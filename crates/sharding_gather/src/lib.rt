// The cells of a shard: those that a read asks, by their subchunks, and the elements put together from subchunks.
#![tactic(auto)]

mod fill_values;
mod gathering;
mod grouping;
mod laying;
mod overlap;
mod overlap_rows;
mod placing;
mod requested;
mod sorted;
mod subchunk_rows;
mod update;

pub use fill_values::filled;
pub use gathering::{check_lengths, gathered};
pub use grouping::{Grouping, Positions, Standing, grouped};
pub use laying::room_for;
pub use overlap::{SubchunkOverlap, subchunk_overlap};
pub use overlap_rows::SubsetInGrid;
pub use placing::{placed_subsets, whole_subset};
pub use requested::{check_requested, put_together};
pub use sorted::{RequestedCell, list_positions, located, put_cells, run_length, sorted_cells};
pub use subchunk_rows::{SubchunkRows, first_subchunk};
pub use update::check_update;
