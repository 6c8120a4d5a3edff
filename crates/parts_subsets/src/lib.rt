// Shapes, boxes and lists of coordinates, where they meet, and the rows, runs and subchunks of a box.
#![tactic(auto)]

mod axes;
mod grid;
mod indexer;
mod rows;
mod runs;
mod selection;
mod sets;
mod shape;
mod subset;

pub use axes::Axes;
pub use grid::{Located, locate, subchunks_follow};
pub use indexer::{Coordinates, Indexer};
pub use rows::SubsetRows;
pub use runs::subset_numbers;
pub use selection::{check_selection, point_numbers, requested_number};
pub use sets::{SetStarts, first_number};
pub use shape::ChunkShape;
pub use subset::{ArraySubset, check_subset, points_in, touched_subset};
