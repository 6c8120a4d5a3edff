// What is read of an object after a write into it, by the law that says so.
ghost use Rattle.std.specs.Prelude.{Some};
ghost use Rattle.parts_arrays.specs.ArraySpec.{array_spec};
ghost use Rattle.sharding_codec.specs.Decoders.{object_cells};
ghost use Rattle.sharding_write.specs.Writing.{AreOverlaid};

use crate::compared::same;
use crate::shards::{Answer, said, seven, shape_of, subset_of};
use std::alloc::Global;
use std::process::Abort;
use zarr_codecs::{ArrayToBytesCodecTraits, BytesCodec, MemoryHandle};
use zarr_parts::{
    ArrayBytes, ArraySubset, ChunkShape, CodecError, CodecOptions, DataType, FillValue,
};
use zarrs_sharding::{ShardingCodec, ShardingIndexLocation, read_after_write};

type Codec = ShardingCodec<BytesCodec, BytesCodec>;

// A codec, and what it is asked to serve.
struct Coded {
    codec: Codec,
    shape: ChunkShape,
    data_type: DataType,
    fill: FillValue,
}

impl Drop for Coded {
    fn drop(self) {
        let Coded {
            codec: _,
            shape: _,
            data_type: _,
            fill: _,
        } = self;
    }
}

// What a decoder that is opened anew reads of an object into which an update was written, and which had other bytes before.
fn read_written(
    alloc: Global,
    coded: &Coded,
    before: &[u8],
    after: MemoryHandle,
    subset: &ArraySubset,
    update: &ArrayBytes,
    all: &ArraySubset,
) -> Result<ArrayBytes<'static>, CodecError>
    requires { let c = ⟦<Codec as ArrayToBytesCodecTraits>⟧ in let g = array_spec coded.now.shape coded.now.data_type coded.now.fill in
        AreOverlaid g.shape subset.now update.now.elements (object_cells (c.meaning coded.now.codec g).cells g (Some before.now)) (object_cells (c.meaning coded.now.codec g).cells g after) }
{
    let options = CodecOptions::default();
    let opened = coded.codec.partial_decoder(
        alloc,
        after,
        &coded.shape,
        &coded.data_type,
        &coded.fill,
        &options,
    );
    match opened {
        Ok(mut decoder) => read_after_write(
            &mut decoder,
            alloc,
            Some(before),
            subset,
            update,
            all,
            &options,
        ),
        Err((_, error)) => Err(error),
    }
}

// What is read of an object after a write into it.
fn written_and_read(
    alloc: Global,
    coded: &Coded,
    before: &[u8],
    subset: &ArraySubset,
    update: &ArrayBytes,
    all: &ArraySubset,
) -> Result<ArrayBytes<'static>, CodecError> {
    let handle = MemoryHandle::new(Some(before.to_vec(alloc)?));
    let options = CodecOptions::default();
    let opened = coded.codec.open_state(
        alloc,
        handle,
        &coded.shape,
        &coded.data_type,
        &coded.fill,
        &options,
    );
    match opened {
        Ok(mut session) => {
            let written = session.partial_encode(alloc, subset, update, &options);
            let after = session.close();
            written?;
            read_written(alloc, coded, before, after, subset, update, all)
        }
        Err((_, error)) => Err(error),
    }
}

fn four_cells<R: Abort>(rt: &R, alloc: Global) -> Coded {
    let (inner, index) = (BytesCodec::little(), BytesCodec::little());
    let sub = shape_of(rt, alloc, &[2]);
    Coded {
        codec: ShardingCodec::new(sub, inner, index, ShardingIndexLocation::End),
        shape: shape_of(rt, alloc, &[4]),
        data_type: DataType::UInt8,
        fill: FillValue::from_number(alloc, 0u8).expect(rt, "memory"),
    }
}

// The cells 0, 7, 0, 0 after 5 was written over the first.
fn five_and_seven<R: Abort>(rt: &R, alloc: Global, coded: &Coded) -> Answer {
    let before = seven(rt, alloc);
    let update = ArrayBytes::from_numbers(alloc, &[5u8]).expect(rt, "memory");
    let first = subset_of(rt, alloc, 0..1);
    let all = subset_of(rt, alloc, 0..4);
    written_and_read(alloc, coded, &before, &first, &update, &all)
}

#[test]
fn a_read_after_a_write_has_its_cells(rt: HostRuntime) {
    let coded = four_cells(&rt, rt.alloc());
    let found = five_and_seven(&rt, rt.alloc(), &coded);
    same(&rt, said(&found), Ok([5u8, 7, 0, 0].as_slice()));
}
