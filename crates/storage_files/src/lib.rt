// Objects that are files.
#![tactic(auto)]

mod count;
mod entries;
mod file_handle;
mod file_range;
mod interval;
mod read_ahead;
mod replacement;
mod system;

pub use entries::{check_folder, file_length};
pub use file_handle::{FileHandle, HostFile};
pub use file_range::read_file_range;
pub use replacement::{Replacement, folder_of, path_beside};
