// Data types and fill values.
use crate::compared::same_at;
use crate::examples::fill;
use std::alloc::Global;
use std::process::Abort;
use zarr_parts::{DataType, DataTypeSize};

// Each type has the size of its elements, or none.
#[test]
fn a_type_tells_its_size(rt: HostRuntime) {
    for (data_type, size) in [
        (DataType::Bool, DataTypeSize::Fixed(1)),
        (DataType::UInt8, DataTypeSize::Fixed(1)),
        (DataType::Int16, DataTypeSize::Fixed(2)),
        (DataType::UInt32, DataTypeSize::Fixed(4)),
        (DataType::Int64, DataTypeSize::Fixed(8)),
        (DataType::Raw(3), DataTypeSize::Fixed(3)),
        (DataType::Optional, DataTypeSize::Fixed(0)),
        (DataType::Bytes, DataTypeSize::Variable),
    ] {
        same_at(&rt, data_type, data_type.size(), size);
    }
}

// The mark of an optional type is told from a type of no bytes.
#[test]
fn only_the_mark_is_optional(rt: HostRuntime) {
    assert!(rt; DataType::Optional.is_optional());
    assert!(rt; !DataType::Raw(0).is_optional());
}

fn is_copied<R: Abort>(rt: &R, alloc: Global) -> bool {
    let pair = fill(rt, alloc, &[1, 2]);
    pair.try_clone(alloc).expect(rt, "refused") == pair
}

// A copy of a fill value is equal.
#[test]
fn a_copy_of_a_fill_value_is_equal(rt: HostRuntime) {
    assert!(rt; is_copied(&rt, rt.alloc()));
}
