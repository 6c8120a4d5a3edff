// Where the index stands in a shard.
ghost use Rattle.std.specs.Prelude.{◌≡◌, ◌≤◌, length};
ghost use Rattle.sharding_format.specs.Index.{index_part, data_start, data_end};
ghost use Rattle.sharding_format.specs.steps.Reading.{index_start};

use sharding_format::ShardingIndexLocation;

// The bytes of the index, of this size.
pub(crate) fn index_bytes(bytes: &[u8], location: ShardingIndexLocation, size: usize) -> &[u8]
    requires { size ≤ length bytes.now }
    ensures { result.now ≡ index_part location size bytes.now }
{
    match location {
        ShardingIndexLocation::Start => &bytes[..size],
        ShardingIndexLocation::End => &bytes[bytes.len() - size..],
    }
}

/// Where the data part begins.
pub fn start_of_data(location: ShardingIndexLocation, index_size: u64) -> u64
    ensures { result ≡ data_start location index_size }
{
    match location {
        ShardingIndexLocation::Start => index_size,
        ShardingIndexLocation::End => 0,
    }
}

// Where the data part ends in a shard of so many bytes.
pub(crate) fn end_of_data(location: ShardingIndexLocation, index_size: u64, len: u64) -> u64
    ensures { result ≡ data_end location index_size len }
{
    match location {
        ShardingIndexLocation::Start => len,
        ShardingIndexLocation::End => len.saturating_sub(index_size),
    }
}

// Where the index begins in a shard of so many bytes.
pub(crate) fn start_of_index(location: ShardingIndexLocation, index_size: u64, len: u64) -> u64
    requires { index_size ≤ len }
    ensures { result ≡ index_start location index_size len }
{
    match location {
        ShardingIndexLocation::Start => 0,
        ShardingIndexLocation::End => len - index_size,
    }
}
