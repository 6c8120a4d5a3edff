// A codec with `transpose` before it. Elements are ordered by hand, as the standard says and as NumPy's `transpose(order)` orders them.
use crate::compared::{same, same_at};
use array_codecs::{AxisOrder, TransposeCodec};
use std::alloc::Global;
use std::borrow::CowSlice;
use std::process::Abort;
use zarr_codecs::{
    ArrayToBytesCodecTraits, BytesCodec, BytesRepresentation, Interval, MemoryHandle,
};
use zarr_parts::{
    ArrayBytes, ArraySubset, ChunkShape, CodecError, CodecOptions, DataType, FillValue,
};

const FLAT: &[u8] = &[1, 2, 3, 4, 5, 6];

const FLAT_TURNED: &[u8] = &[1, 4, 2, 5, 3, 6];

const DEEP: &[u8] = &[
    1, 2, 3, 4, 5, 6, 7, 8, 9, 10, 11, 12, 13, 14, 15, 16, 17, 18, 19, 20, 21, 22, 23, 24,
];

const DEEP_TURNED: &[u8] = &[
    1, 5, 9, 13, 17, 21, 2, 6, 10, 14, 18, 22, 3, 7, 11, 15, 19, 23, 4, 8, 12, 16, 20, 24,
];

// Arrays of bytes, and a codec whose axes are in another order.
#[derive(Drop)]
struct Turned {
    codec: TransposeCodec<BytesCodec>,
    shape: ChunkShape,
    none: FillValue,
}

fn transposing<R: Abort>(rt: &R, alloc: Global, order: &[u64], axes: &[u64]) -> Turned {
    let order = AxisOrder::new(alloc, order.to_vec(alloc).expect(rt, "memory"))
        .expect(rt, "memory")
        .expect(rt, "an order");
    let codec = BytesCodec::little();
    let shape = ChunkShape::new(alloc, axes).expect(rt, "memory");
    Turned {
        codec: TransposeCodec { order, codec },
        shape: shape.expect(rt, "a shape"),
        none: FillValue::new([0].to_vec(alloc).expect(rt, "memory")),
    }
}

impl Turned {
    // The encoding of elements of one byte.
    fn encoded<R: Abort>(
        &self,
        rt: &R,
        alloc: Global,
        elements: &[u8],
        size: usize,
    ) -> Result<Vec<u8>, CodecError> {
        let options = CodecOptions::default();
        let array = ArrayBytes::new_flen(CowSlice::Borrowed(elements), size).expect(rt, "whole");
        let kind = DataType::UInt8;
        self.codec
            .encode(alloc, &array, &self.shape, &kind, &self.none, &options)
    }

    // The elements that bytes are decoded to.
    fn decoded(&self, alloc: Global, bytes: &[u8]) -> Result<Vec<u8>, CodecError> {
        let options = CodecOptions::default();
        let kind = DataType::UInt8;
        let array = self
            .codec
            .decode(alloc, bytes, &self.shape, &kind, &self.none, &options)?;
        Ok(Vec::from_slice(alloc, array.bytes())?)
    }

    // The elements of a subset that are read of an object which is an encoding.
    fn read(
        &self,
        alloc: Global,
        object: &[u8],
        subset: &ArraySubset,
    ) -> Result<Vec<u8>, CodecError> {
        let options = CodecOptions::default();
        let mut handle = MemoryHandle::new(Some(Vec::from_slice(alloc, object)?));
        let size = object.len() as u64;
        let offset = 0;
        let interval = Interval { offset, size };
        let kind = DataType::UInt8;
        let (shape, none) = (&self.shape, &self.none);
        let array = self.codec.partial_decode(
            alloc,
            &mut handle,
            interval,
            shape,
            &kind,
            none,
            subset,
            &options,
        )?;
        Ok(Vec::from_slice(alloc, array.bytes())?)
    }
}

#[test]
fn arrays_are_transposed_and_back(rt: HostRuntime) {
    const ROWS: &[(&[u64], &[u64], &[u8], &[u8])] = &[
        (&[1, 0], &[2, 3], FLAT, FLAT_TURNED),
        (&[0, 1], &[2, 3], FLAT, FLAT),
        (&[2, 0, 1], &[2, 3, 4], DEEP, DEEP_TURNED),
        (&[], &[], &[7], &[7]),
    ];
    for (order, axes, elements, encoding) in ROWS {
        let turned = transposing(&rt, rt.alloc(), order, axes);
        let encoded = turned.encoded(&rt, rt.alloc(), elements, 1);
        same_at(
            &rt,
            *order,
            encoded.expect(&rt, "served").as_slice(),
            *encoding,
        );
        let decoded = turned.decoded(rt.alloc(), encoding);
        same_at(
            &rt,
            *order,
            decoded.expect(&rt, "served").as_slice(),
            *elements,
        );
    }
}

#[test]
fn a_subset_of_a_transposed_array_is_read(rt: HostRuntime) {
    let turned = transposing(&rt, rt.alloc(), &[2, 0, 1], &[2, 3, 4]);
    let subset = ArraySubset::from_ranges(rt.alloc(), &[1..2, 0..2, 2..4]).expect(&rt, "a subset");
    let read = turned.read(rt.alloc(), DEEP_TURNED, &subset);
    same(
        &rt,
        read.expect(&rt, "served").as_slice(),
        [15, 16, 19, 20].as_slice(),
    );
}

#[test]
fn a_transposed_array_is_as_long(rt: HostRuntime) {
    let Turned { codec, shape, none } = transposing(&rt, rt.alloc(), &[1, 0], &[2, 3]);
    let told = codec.encoded_representation(rt.alloc(), &shape, &DataType::UInt8, &none);
    same(&rt, told, Ok(BytesRepresentation::FixedSize(6)));
}

#[test]
fn orders_have_each_axis_once(rt: HostRuntime) {
    const ROWS: &[(&[u64], bool)] = &[
        (&[], true),
        (&[0], true),
        (&[1], false),
        (&[0, 0], false),
        (&[1, 2], false),
        (&[2, 0, 1], true),
        (&[2, 0, u64::MAX], false),
    ];
    for (axes, is_one) in ROWS {
        let axes = axes.to_vec(rt.alloc()).expect(&rt, "memory");
        let order = AxisOrder::new(rt.alloc(), axes).expect(&rt, "memory");
        same(&rt, order.is_some(), *is_one);
    }
}

#[test]
fn other_arrays_are_refused(rt: HostRuntime) {
    let one = transposing(&rt, rt.alloc(), &[1, 0], &[2, 3]);
    let counted = one.encoded(&rt, rt.alloc(), &[1, 2, 3, 4, 5], 1);
    same(
        &rt,
        counted.err(),
        Some(CodecError::InvalidNumberOfElements),
    );
    let kind = one.encoded(&rt, rt.alloc(), FLAT, 2);
    same(&rt, kind.err(), Some(CodecError::WrongElementKind));
    let short = one.decoded(rt.alloc(), &[1, 2, 3, 4, 5]);
    same(&rt, short.err(), Some(CodecError::Damaged));
    let axes = transposing(&rt, rt.alloc(), &[1, 0], &[2, 3, 4]);
    let many = axes.decoded(rt.alloc(), DEEP);
    same(
        &rt,
        many.err(),
        Some(CodecError::IncompatibleDimensionality),
    );
}
