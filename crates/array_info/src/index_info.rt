// What the index of a shard says.
use array_cli::{Array, IndexDecoder};
use array_folder::{IndexInfo, info_of};
use parts_errors::CodecError;
use sharding_format::ShardingIndexLocation;
use storage_handles::ByteRange;

/// Where the index of a shard stands, which has a size.
pub fn index_range(location: ShardingIndexLocation, size: u64) -> ByteRange {
    match location {
        ShardingIndexLocation::Start => ByteRange::FromStart(0, Some(size)),
        ShardingIndexLocation::End => ByteRange::Suffix(size),
    }
}

/// What the index of a shard in an object of a length says, which has these bytes.
pub fn index_info(
    array: &Array<'_>,
    indexes: &IndexDecoder<'_>,
    bytes: &[u8],
    length: u64,
) -> Result<IndexInfo, CodecError> {
    let mut numbers = indexes.numbers(array.alloc(), bytes, length)?;
    info_of(
        &mut numbers,
        array.codec.index_location(),
        bytes.len() as u64,
        length,
    )
}
