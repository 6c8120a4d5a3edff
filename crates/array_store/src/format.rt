// What the metadata of an array says of its elements and its chunks.
ghost use Rattle.std.specs.Prelude.{◌≡◌};

use array_fields::ChunkKeys;
use array_metadata::ArrayMetadata;
use parts_arrays::{DataType, FillValue};
use parts_subsets::ChunkShape;

/// What the metadata of an array says of its elements and its chunks (Zarr V3 core, "Array metadata").
#[derive(Clone, Copy)]
pub struct ArrayFormat<'a> {
    /// How many elements there are along each axis; 0 is served.
    pub shape: &'a [u64],
    /// The shape of a chunk of the regular grid.
    pub chunk: &'a ChunkShape,
    pub data_type: &'a DataType,
    pub fill_value: &'a FillValue,
    pub keys: ChunkKeys,
}

impl<'a> ArrayFormat<'a> {
    /// What the metadata of an array says.
    pub fn of(metadata: &'a ArrayMetadata) -> Self
        ensures shape { result.shape.now ≡ metadata.entry.now.shape.items }
        ensures chunk { result.chunk.now ≡ metadata.entry.now.shard }
        ensures data_type { result.data_type.now ≡ metadata.entry.now.data_type }
        ensures fill_value { result.fill_value.now ≡ metadata.entry.now.fill_value }
        ensures keys { result.keys ≡ metadata.entry.now.keys }
    {
        ArrayFormat {
            shape: metadata.shape.as_slice(),
            chunk: &metadata.shard,
            data_type: &metadata.data_type,
            fill_value: &metadata.fill_value,
            keys: metadata.keys,
        }
    }
}
