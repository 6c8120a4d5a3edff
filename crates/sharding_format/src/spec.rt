// What is asked of a codec: the arrays of a shape, a data type and a fill value.
use parts_arrays::{DataType, FillValue};
use parts_subsets::ChunkShape;

/// What a codec is asked to serve: the arrays of a shape, a data type and a fill value.
#[derive(Clone, Copy)]
pub struct ArraySpecRef<'a> {
    pub shape: &'a ChunkShape,
    pub data_type: &'a DataType,
    pub fill_value: &'a FillValue,
}
