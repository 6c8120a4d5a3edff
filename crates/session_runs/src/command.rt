// Commands on a shard, and what they reply.
use parts_arrays::ArrayBytes;
use parts_errors::CodecError;
use parts_subsets::{ArraySubset, Coordinates};

/// A command on a shard that is held open.
#[derive(Debug, Drop)]
pub enum Command {
    /// Writes elements over the cells of a subset, in row-major order of this.
    Write {
        subset: ArraySubset,
        bytes: ArrayBytes<'static>,
    },
    /// Reads the cells of a subset, in row-major order of this.
    Read {
        subset: ArraySubset,
    },
    /// Reads the cells at some coordinates, in their order, duplicates kept.
    ReadCells {
        coordinates: Coordinates,
    },
    /// Lets the object go: each cell is the fill value then.
    Erase,
    /// Rewrites the object without what is not needed, where there is something to gain.
    Compact,
    /// Closes the shard, and opens it anew.
    Reopen,
}

/// What a command replies.
#[derive(Debug, Drop)]
pub enum Reply {
    /// A write, an erase or a reopening was done.
    Done,
    /// The elements that a read asked.
    Cells(ArrayBytes<'static>),
    /// Whether a compaction rewrote the object.
    Compacted(bool),
    /// The command was refused, and changed nothing.
    Refused(CodecError),
}
