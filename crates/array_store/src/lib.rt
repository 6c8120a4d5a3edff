// An array over a store of objects by their keys: opened, and subsets of it read and written, chunk by chunk.
#![tactic(auto)]

mod array;
mod chunks;
mod compaction;
mod error;
mod file_store;
mod format;
mod memory_store;
mod opening;
mod read;
mod store;
mod updates;
mod writes;

pub use array::Array;
pub use error::{ArrayError, WriteError};
pub use file_store::FileStore;
pub use format::ArrayFormat;
pub use memory_store::MemoryStore;
pub use opening::{OpenError, create_metadata, open_metadata, put_metadata};
pub use store::Store;
