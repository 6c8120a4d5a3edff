// The elements of arrays on disk as commands give them: a subset that is written as text, as JSON or as bytes, or into a file of NumPy's
// format, band by band; how the elements of two arrays differ; and an array that is laid out anew in another folder.
#![tactic(auto)]

mod differences;
mod new_array;
mod npy;
mod reading;
mod shared_read;

pub use differences::compare;
pub use new_array::reshard;
pub use npy::save_subset;
pub use reading::{Form, Reading, print_subset};
