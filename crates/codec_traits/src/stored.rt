// An array that stands in an interval of an object.
use parts_arrays::{DataType, FillValue};
use parts_subsets::ChunkShape;
use storage_handles::Interval;

/// An array that stands in an interval of an object: its shape, its data type and its fill value.
#[derive(Clone, Copy)]
pub struct StoredArray<'a> {
    pub interval: Interval,
    pub shape: &'a ChunkShape,
    pub data_type: &'a DataType,
    pub fill_value: &'a FillValue,
}
