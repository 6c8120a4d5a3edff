// Which subset of an array is requested, and which shards it overlaps: which cell of which shard stands where; elements as text and as JSON;
// and work on shards side by side.
#![tactic(auto)]

mod bands;
mod cells;
mod grid;
mod list_part;
mod parallel;
mod parsing;
mod parts;
mod picking;
mod quoted;
mod shared;
mod subsets;
mod text;
mod touched;
mod varying;
mod words;

pub use bands::Bands;
pub use cells::SubsetCells;
pub use grid::ShardGrid;
pub use list_part::ListPart;
pub use parallel::{ShardWork, piece_length, piece_of, run_in_parallel, threads_of};
pub use parsing::parse;
pub use parts::{ShardPart, ShardParts};
pub use picking::{Requested, resolve};
pub use quoted::is_text;
pub use shared::{SharedElements, shared_elements};
pub use subsets::{SubsetError, subset_of};
pub use text::{
    TextRows, begin_json, end_json, write_cell_line, write_json_cell, write_json_cells,
    write_numbers,
};
pub use varying::{SubsetElements, VaryingCells};
pub use words::{Position, Word};
