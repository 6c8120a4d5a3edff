// The codecs of shards.
use crate::inner_codec::InnerCodec;
use array_codecs::ElementCodec;
use sharding_codec::ShardingCodec;

/// The codec of a shard's index.
pub type IndexCodec = ElementCodec;

/// The codec of shards of an array.
pub type ShardsCodec = ShardingCodec<InnerCodec, IndexCodec>;
