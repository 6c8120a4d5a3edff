// Shapes, numbering, subsets, arrays of elements, options and errors: what every codec speaks of.
#![tactic(auto)]

mod laws;

pub use laws::{grid_law, numbering_law, overlap_law, subset_law};
pub use parts_arrays::{
    ArrayBuilder, ArrayBytes, DataType, DataTypeSize, FillValue, FixedTarget, Number,
    VariableParts, update_array_bytes,
};
pub use parts_errors::{CodecError, CodecOptions, CodecSpecificOptions};
pub use parts_row_major::{ContiguousRuns, number_along, ravel_indices, unravel_index};
pub use parts_subsets::{
    ArraySubset, Axes, ChunkShape, Coordinates, Indexer, Located, check_selection, locate,
    point_numbers, requested_number,
};
