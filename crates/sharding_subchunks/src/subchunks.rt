// The inner codec of a shard, and what it is asked to serve of each subchunk.
use parts_arrays::{DataType, FillValue};
use parts_errors::CodecOptions;
use parts_subsets::ChunkShape;

/// The inner codec of a shard, and what it is asked to serve of each subchunk: its shape, its data type and its fill value.
#[derive(Clone, Copy)]
pub struct Subchunks<'a, I> {
    pub codec: &'a I,
    pub shape: &'a ChunkShape,
    pub data_type: &'a DataType,
    pub fill_value: &'a FillValue,
    pub options: &'a CodecOptions,
}
