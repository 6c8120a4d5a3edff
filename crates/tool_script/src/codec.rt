// The codec of a script's shards.
ghost use Rattle.std.specs.Prelude.{◌≡◌};
ghost use Rattle.tool_script.specs.Shards.{codec_with};

use crate::element_type::ElementType;
use zarr_codecs::{BytesCodec, DefaultArrayToBytesCodec};
use zarr_parts::ChunkShape;
use zarrs_sharding::{
    ShardingCodec, ShardingCodecBuilder, ShardingIndexLocation, SubchunkWriteOrder,
};

/// The codec of a script's shards.
pub type Codec = ShardingCodec<DefaultArrayToBytesCodec, BytesCodec>;

/// The codec that the builder makes for a type of elements, with an order in which it writes subchunks.
pub fn built_codec(
    subchunk_shape: ChunkShape,
    element_type: ElementType,
    location: ShardingIndexLocation,
    order: SubchunkWriteOrder,
) -> Codec
    ensures { result ≡ codec_with subchunk_shape element_type location order }
{
    ShardingCodecBuilder::new(subchunk_shape, &element_type.data_type())
        .index_location(location)
        .build()
        .with_subchunk_write_order(order)
}
