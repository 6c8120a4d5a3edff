// What stands in the folder of an array or a group: its metadata, the files of its chunks, and what the index of one says of it; the members
// of the group. Maps of shards and of an array, as text and as pictures. A new file that replaces another one, and a file of NumPy's format.
#![tactic(auto)]

mod age;
mod chunk_files;
mod chunk_grid;
mod document;
mod drawing;
mod folder_error;
mod folder_files;
mod index_info;
mod listing;
mod members;
mod names;
mod new_file;
mod npy;
mod picture;

pub use age::{Age, Counted, age_of};
pub use chunk_files::{ChunkFile, ChunkFiles, list_chunks};
pub use chunk_grid::ChunkGrid;
pub use document::{document_length, read_document};
pub use drawing::{Drawn, Mark, ShardMap, SliceOrder, write_array_map, write_shard_map};
pub use folder_error::FolderError;
pub use folder_files::FolderFiles;
pub use index_info::{DeadBytes, IndexInfo, index_interval, info_of, slice_of};
pub use listing::Listing;
pub use members::list_members;
pub use new_file::{begin, begin_new, save, save_bytes, tell_owner};
pub use npy::{npy_beside, npy_header, write_npy};
pub use picture::{write_array_picture, write_shard_picture};
