// What a run of commands says to a caller, as the contract of a call.
ghost use Rattle.std.specs.Prelude.{◌≡◌, IfOk, IfSome};

use crate::command::{Command, Reply};
use crate::run::{CommandRun, run_commands};
use codec_traits::ArrayToBytesCodecTraits;
use parts_arrays::{ArrayBytes, DataType, FillValue};
use parts_subsets::{ArraySubset, ChunkShape};
use sharding_codec::ShardingCodec;
use std::alloc::{AllocError, Global};
use storage_handles::MemoryHandle;

/// What is read of the cells of a subset once elements were written over them into a shard that was not there, the shard was opened
/// anew and compacted: the elements that were written. `None` where a command is refused or the run stops. Refused only as out of
/// memory.
pub fn read_back<I: ArrayToBytesCodecTraits, X: ArrayToBytesCodecTraits>(
    alloc: Global,
    codec: &ShardingCodec<I, X>,
    shape: &ChunkShape,
    data_type: &DataType,
    fill_value: &FillValue,
    subset: ArraySubset,
    bytes: ArrayBytes<'static>,
) -> Result<Option<ArrayBytes<'static>>, AllocError>
    ensures written { IfOk result (λ found. IfSome found (λ cells. cells.elements ≡ bytes.entry.elements)) }
{
    let again = subset.try_clone(alloc)?;
    let commands = [
        Command::Write { subset, bytes },
        Command::Reopen,
        Command::Compact,
        Command::Read { subset: again },
    ];
    let handle = MemoryHandle::new(None);
    let CommandRun { replies, .. } = run_commands(
        alloc, codec, handle, shape, data_type, fill_value, &commands,
    );
    let [written, _, _, read] = replies.as_slice() else {
        return Ok(None);
    };
    match written {
        Reply::Done => match read {
            Reply::Cells(cells) => Ok(Some(cells.try_clone(alloc)?)),
            _ => Ok(None),
        },
        _ => Ok(None),
    }
}
