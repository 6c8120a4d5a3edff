// What reading an array on disk gives: the elements of a subset, what is sound of one where a shard or a subchunk is refused, the chunks
// of another shape that have elements, and whether the shards are sound.
#![tactic(auto)]

mod checked;
mod checking;
mod checking_pieces;
mod chunks;
mod read;
mod sound;
mod stored;

pub use checking::check;
pub use chunks::chunks_of;
pub use read::read_array;
pub use stored::{ArrayOfFiles, files_of, read_into_cells, read_silently, why_refused};
