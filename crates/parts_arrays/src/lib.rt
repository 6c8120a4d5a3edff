// Data types, fill values, arrays of elements, and borrowed bytes to write elements into.
#![tactic(auto)]

mod array_bytes;
mod data_type;
mod fill_value;
mod numbers;
mod target;

pub use array_bytes::{
    ArrayBuilder, ArrayBytes, VariableParts, push_part, repeated, update_array_bytes,
};
pub use data_type::{DataType, DataTypeSize};
pub use fill_value::FillValue;
pub use numbers::Number;
pub use target::FixedTarget;
