// The laws of codecs from arrays to bytes, and the small codecs that keep them.
#![tactic(auto)]

pub use codec_bytes::{BytesCodec, Endianness};
pub use codec_chains::{
    ArrayChain, ArrayToArrayCodecTraits, BytesChain, BytesToBytesCodecTraits, FunctionalBytesCodec,
};
pub use codec_metadata::{
    CodecTraitsV3, MemberTest, PluginCreateError, create_after_metadata, metadata_name,
    test_members,
};
pub use codec_traits::{
    ArrayToBytesCodecTraits, BytesRepresentation, FunctionalCodec, RecommendedConcurrency,
    StoredArray, check_target, decode_after_encode, read_after_decode,
};
pub use codec_vlen::{DefaultArrayToBytesCodec, VlenCodec, default_array_to_bytes_codec};
pub use storage_handles::{
    ByteRange, BytesPartialDecoderTraits, BytesPartialEncoderTraits, CountingHandle,
    FaultingHandle, Interval, LendsSlice, MemoryHandle, SliceHandle, check_interval, copy_range,
    part_of, read_range,
};
