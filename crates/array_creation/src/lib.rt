// Arrays that are created: one of no elements; and of one that has those of another array, its document, its folder and its chunks.
#![tactic(auto)]

mod chunk_elements;
mod creating;
mod layout;
mod new_folder;
mod subset_chunk;

pub use chunk_elements::encoded_varying;
pub use creating::{ArrayWords, create};
pub use layout::{LayoutWords, new_document, order_of};
pub use new_folder::{begin_folder, end_folder, put_file, test_served};
pub use subset_chunk::{chunk_of_array, chunk_of_subset, moved_subset};
