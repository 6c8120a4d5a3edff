// What threads find out of shards side by side, of a piece of their list each at a time.
use crate::info::{ShardInfo, read_infos};
use array_cli::{Array, Progress, Stop, Workers};
use array_folder::{ChunkFile, ChunkFiles};
use array_grid::{ListPart, ShardWork, piece_length, piece_of, run_in_parallel};
use std::thread::Threads;

// Of how many shards a thread reads the index at a time at most.
const SHARDS_OF_A_PIECE: usize = 64;

/// The shards that a part of an array has.
#[derive(Drop)]
pub struct KnownShards {
    pub files: ChunkFiles,
    /// What is known of each file's shard; nothing where the file is gone.
    pub shards: Vec<Option<ShardInfo>>,
}

// Files of shards, in pieces of as many files.
#[derive(Drop)]
struct InfoPieces<'s> {
    array: &'s Array<'s>,
    files: &'s [ChunkFile],
    in_piece: usize,
}

impl ShardWork for InfoPieces<'_> {
    type Answer = Result<Vec<Option<ShardInfo>>, Stop>;

    // no contract says what files give
    ghost gives = { λ pieces number found. Unit {0} };

    fn run(&self, number: u64) -> Result<Vec<Option<ShardInfo>>, Stop> {
        read_infos(self.array, piece_of(self.files, number, self.in_piece))
    }
}

// Adds what is known of the shards in these files, each piece of them by a thread of its own.
fn add_pieces<'s, T: Threads + Sync>(
    array: &'s Array<'s>,
    workers: &Workers<'_, T>,
    files: &'s [ChunkFile],
    in_piece: usize,
    shards: &mut Vec<Option<ShardInfo>>,
) -> Result<(), Stop> {
    let pieces = InfoPieces {
        array,
        files,
        in_piece,
    };
    let count = files.len().div_ceil(in_piece.max(1));
    for piece in run_in_parallel(workers.threads, array.alloc(), count, &pieces)? {
        shards.append(&mut piece?)?;
    }
    Ok(())
}

/// The shards that a part of an array has, and what is known of each, of which threads read the index; nothing of one whose file is
/// gone. Refused, in this order, as `Stop::System` where the folder is not read, and as `read_infos` refuses the first shard that is refused.
pub fn known_shards<T: Threads + Sync>(
    array: &Array<'_>,
    part: &ListPart,
    workers: &Workers<'_, T>,
    progress: &mut Progress,
) -> Result<KnownShards, Stop> {
    let files = array.files_in(part)?;
    let all = files.chunks.len();
    let mut shards: Vec<Option<ShardInfo>> = Vec::with_capacity(array.alloc(), all)?;
    let in_piece = piece_length(all, workers.jobs, SHARDS_OF_A_PIECE);
    let at_once = in_piece.saturating_mul(workers.jobs).max(1);
    for (number, some) in files.chunks.chunks(at_once).enumerate() {
        progress.step(number.saturating_mul(at_once) as u64, all as u64);
        add_pieces(&*array, workers, some, in_piece, &mut shards)?;
    }
    Ok(KnownShards { files, shards })
}
