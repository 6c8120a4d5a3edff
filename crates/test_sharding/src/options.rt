// The codec's options, and what it says of reading and writing parts.
use crate::compared::same;
use crate::shards::{Plain, plain, shape_of};
use std::alloc::Global;
use std::process::Abort;
use zarr_codecs::{BytesCodec, FunctionalCodec};
use zarr_parts::CodecSpecificOptions;
use zarrs_sharding::{
    ShardingCodec, ShardingCodecOptions, ShardingIndexLocation, SubchunkWriteOrder,
};

fn is_ordered(options: ShardingCodecOptions) -> bool {
    matches!(options.subchunk_write_order(), SubchunkWriteOrder::C)
}

// Options on which an order was set after another.
fn set_twice() -> ShardingCodecOptions {
    let mut options = ShardingCodecOptions::default();
    let borrowed = options.set_subchunk_write_order(SubchunkWriteOrder::Unordered);
    let _ = borrowed.set_subchunk_write_order(SubchunkWriteOrder::C);
    options
}

#[test]
fn the_order_that_was_set_is_answered(rt: HostRuntime) {
    let options = ShardingCodecOptions::default();
    assert!(rt; !is_ordered(options));
    assert!(rt; is_ordered(options.with_subchunk_write_order(SubchunkWriteOrder::C)));
    assert!(rt; is_ordered(set_twice()));
}

// A codec of one write order, or of the order that `new` gives.
fn big<R: Abort>(rt: &R, alloc: Global, order: Option<SubchunkWriteOrder>) -> Plain {
    let codec = ShardingCodec::new(
        shape_of(rt, alloc, &[2]),
        BytesCodec::big(),
        BytesCodec::big(),
        ShardingIndexLocation::End,
    );
    match order {
        Some(order) => codec.with_subchunk_write_order(order),
        None => codec,
    }
}

// Whether a codec has one encoding of each array once options are set, or none are.
fn functional_with<R: Abort>(
    rt: &R,
    alloc: Global,
    order: Option<SubchunkWriteOrder>,
    set: Option<SubchunkWriteOrder>,
) -> bool {
    let codec = big(rt, alloc, order);
    let codec = match set {
        Some(set) => codec.with_codec_specific_options(&CodecSpecificOptions::default().with_option(
            ShardingCodecOptions::default().with_subchunk_write_order(set),
        )),
        None => codec.with_codec_specific_options(&CodecSpecificOptions::default()),
    };
    codec.is_functional()
}

#[test]
fn options_that_are_set_replace_the_codecs(rt: HostRuntime) {
    let ordered = Some(SubchunkWriteOrder::C);
    let unordered = Some(SubchunkWriteOrder::Unordered);
    for (order, set, want) in [
        (None, None, false),
        (None, ordered, true),
        (ordered, None, true),
        (ordered, unordered, false),
    ] {
        same(&rt, functional_with(&rt, rt.alloc(), order, set), want);
    }
}

// Whether a codec in order has one encoding of each array once it has the default options.
fn functional_by_default<R: Abort>(rt: &R, alloc: Global) -> bool {
    let codec = big(rt, alloc, Some(SubchunkWriteOrder::C));

    codec
        .with_options(ShardingCodecOptions::default())
        .is_functional()
}

#[test]
fn default_options_leave_the_order_open(rt: HostRuntime) {
    same(&rt, functional_by_default(&rt, rt.alloc()), false);
}

#[test]
fn parts_are_spared(rt: HostRuntime) {
    let decoder = Plain::partial_decoder_capability();
    assert!(rt; decoder.partial_read && decoder.partial_decode);
    assert!(rt; Plain::partial_encoder_capability().partial_encode);
    let codec = plain(&rt, rt.alloc(), &[2, 3], ShardingIndexLocation::End);
    same(
        &rt,
        codec.partial_decode_granularity().as_slice(),
        [2, 3].as_slice(),
    );
}
