// Shards of an array that are written anew: elements of a subset that are put into them, and shards that are made compact, in their place
// or in another folder.
#![tactic(auto)]

mod compact_pieces;
mod compaction;
mod elements;
mod rewriting;
mod subset_writing;

pub use compaction::{Way, compact};
pub use elements::{ElementsFile, header_of};
pub use subset_writing::write_subset;
