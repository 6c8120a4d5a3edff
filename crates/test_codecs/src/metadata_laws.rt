// What is written is read as the codec: the laws as calls.
use crate::compared::{same, same_at};
use crate::metadata_examples::{Shards, shape_of};
use std::alloc::Global;
use std::process::Abort;
use zarr_codecs::{
    BytesCodec, CodecTraitsV3, DefaultArrayToBytesCodec, VlenCodec, create_after_metadata,
};
use zarrs_sharding::{ShardingCodec, ShardingIndexLocation, new_after_configuration};

// Whether what is created of a codec's metadata is the codec.
fn is_given_back<C: CodecTraitsV3 + PartialEq + Drop, R: Abort>(
    rt: &R,
    alloc: Global,
    codec: &C,
) -> bool {
    let metadata = codec.metadata(alloc).expect(rt, "refused");
    create_after_metadata(alloc, codec, &metadata).expect(rt, "refused") == *codec
}

// The metadata of a codec names the codec.
#[test]
fn metadata_gives_the_codec_back(rt: HostRuntime) {
    for codec in [
        BytesCodec::new(None),
        BytesCodec::little(),
        BytesCodec::big(),
    ] {
        same_at(&rt, codec, is_given_back(&rt, rt.alloc(), &codec), true);
    }
}

// So does that of a codec that has no configuration.
#[test]
fn a_name_gives_the_codec_back(rt: HostRuntime) {
    same(&rt, is_given_back(&rt, rt.alloc(), &VlenCodec), true);
}

// So does that of the default codec, whichever it holds.
#[test]
fn the_default_codec_is_given_back(rt: HostRuntime) {
    for codec in [
        DefaultArrayToBytesCodec::Bytes(BytesCodec::new(None)),
        DefaultArrayToBytesCodec::Bytes(BytesCodec::big()),
        DefaultArrayToBytesCodec::Vlen(VlenCodec),
    ] {
        same_at(&rt, codec, is_given_back(&rt, rt.alloc(), &codec), true);
    }
}

fn shards<R: Abort>(rt: &R, alloc: Global, location: ShardingIndexLocation) -> Shards {
    let shape = shape_of(rt, alloc, &[3, 5]);
    ShardingCodec::new(shape, BytesCodec::big(), BytesCodec::little(), location)
}

fn written_again<R: Abort>(
    rt: &R,
    alloc: Global,
    location: ShardingIndexLocation,
) -> (String, String) {
    let codec = shards(rt, alloc, location);
    let value = codec.configuration(alloc).expect(rt, "refused");
    let made = new_after_configuration(alloc, &codec, &value).expect(rt, "refused");
    let again = made.configuration(alloc).expect(rt, "refused");
    (
        value.to_string(alloc).expect(rt, "refused"),
        again.to_string(alloc).expect(rt, "refused"),
    )
}

// The codec of a codec's configuration has that configuration.
#[test]
fn a_configuration_gives_the_codec_back(rt: HostRuntime) {
    for location in [ShardingIndexLocation::Start, ShardingIndexLocation::End] {
        let (written, again) = written_again(&rt, rt.alloc(), location);
        same(&rt, again.as_str(), written.as_str());
    }
}
