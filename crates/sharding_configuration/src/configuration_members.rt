// A configuration of the codec `sharding_indexed` as JSON.
ghost use Rattle.std.specs.Prelude.{◌≡◌, IfOk};
ghost use Rattle.serde_json.specs.Data.{array, item, no_items};
ghost use Rattle.serde_json.specs.View.{view, items_view, members_view};
ghost use Rattle.sharding_configuration.specs.Configuration.{axes_written, configuration_written, location_word};

use parts_subsets::ChunkShape;
use serde_json::{Map, Value, push, put};
use sharding_format::ShardingIndexLocation;
use std::alloc::{AllocError, Global};

// A list of numbers.
fn number_list(alloc: Global, numbers: &[u64]) -> Result<Vec<Value>, AllocError>
    ensures { IfOk result (λ list. items_view list.items ≡ axes_written numbers.now) }
{
    let mut list = Vec::new(alloc);
    for number in numbers {
        push(&mut list, Value::from(*number))?;
    }
    Ok(list)
}

// The word for a place of the index.
fn location_text(location: ShardingIndexLocation) -> &'static str
    ensures { result.now ≡ location_word location }
{
    match location {
        ShardingIndexLocation::Start => "start",
        ShardingIndexLocation::End => "end",
    }
}

/// A list of one codec's metadata. Refused only as out of memory.
pub fn codec_list_of(alloc: Global, metadata: Value) -> Result<Vec<Value>, AllocError>
    ensures { IfOk result (λ list. items_view list.items ≡ item (view metadata) no_items) }
{
    let mut list = Vec::new(alloc);
    push(&mut list, metadata)?;
    Ok(list)
}

/// The members of a configuration, all four. Refused only as out of memory.
pub fn written_members(
    alloc: Global,
    chunk_shape: &ChunkShape,
    codecs: Vec<Value>,
    index_codecs: Vec<Value>,
    index_location: ShardingIndexLocation,
) -> Result<Map<String, Value>, AllocError>
    ensures { IfOk result (λ members. members_view members.entries ≡ configuration_written (record {
      chunk_shape = chunk_shape.now;
      codecs = items_view codecs.items;
      index_codecs = items_view index_codecs.items;
      index_location = index_location;
    })) }
{
    let shape = number_list(alloc, chunk_shape.as_slice())?;
    let position = Value::try_from_str(alloc, location_text(index_location))?;
    let mut members = Map::new(alloc);
    put(&mut members, alloc, "chunk_shape", Value::Array(shape))?;
    put(&mut members, alloc, "codecs", Value::Array(codecs))?;
    put(
        &mut members,
        alloc,
        "index_codecs",
        Value::Array(index_codecs),
    )?;
    put(&mut members, alloc, "index_location", position)?;
    Ok(members)
}
