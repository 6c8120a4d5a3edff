// Shards that threads compact side by side, a piece of their list each at a time.
use crate::compaction::{Gained, Rule, compact_one};
use array_cli::{Array, Output, Progress, Stop, Workers, written};
use array_folder::ChunkFile;
use array_grid::{ShardWork, piece_length, piece_of, run_in_parallel};
use std::io::Write;
use std::thread::Threads;

// How many shards a thread compacts at a time at most.
const SHARDS_OF_A_PIECE: usize = 4;

// Compacts the shards in these files by one thread, as a rule says.
fn compact_files(
    array: &Array<'_>,
    files: &[ChunkFile],
    rule: &Rule<'_>,
    gained: &mut Gained,
    lines: &mut Output,
) -> Result<(), Stop> {
    for file in files {
        compact_one(array, file, rule, lines, gained)?;
    }
    Ok(())
}

// What came of a piece: what was gained, the lines that tell of it, and why the command stops behind them, if it does.
#[derive(Drop)]
struct PieceCompacted {
    gained: Gained,
    lines: Output,
    stop: Option<Stop>,
}

// Files of shards, in pieces of as many files, and how they are compacted.
#[derive(Drop)]
struct CompactPieces<'s> {
    array: &'s Array<'s>,
    files: &'s [ChunkFile],
    rule: &'s Rule<'s>,
    in_piece: usize,
}

impl ShardWork for CompactPieces<'_> {
    type Answer = PieceCompacted;

    // no contract says what files give
    ghost gives = { λ pieces number compacted. Unit {0} };

    fn run(&self, number: u64) -> PieceCompacted {
        let files = piece_of(self.files, number, self.in_piece);
        let mut lines = Output::memory(self.array.alloc());
        let mut gained = Gained::nothing();
        let ended = compact_files(self.array, files, self.rule, &mut gained, &mut lines);
        PieceCompacted {
            gained,
            lines,
            stop: ended.err().map(Stop::in_memory),
        }
    }
}

// Tells what came of a piece.
fn tell_piece(
    piece: PieceCompacted,
    gained: &mut Gained,
    out: &mut Output,
    progress: &mut Progress,
) -> Result<(), Stop> {
    let PieceCompacted {
        gained: of_piece,
        lines,
        stop,
    } = piece;
    gained.add_all(&of_piece);
    if !lines.bytes().is_empty() {
        progress.clear();
        written(out.write_all(lines.bytes()), gained.ending())?;
    }
    match stop {
        Some(stop) => Err(stop),
        None => Ok(()),
    }
}

// Compacts the shards in files, each piece of them by a thread of its own, and tells what came of them in their order.
fn compact_pieces_of<T: Threads + Sync>(
    workers: &Workers<'_, T>,
    pieces: &CompactPieces<'_>,
    gained: &mut Gained,
    out: &mut Output,
    progress: &mut Progress,
) -> Result<(), Stop> {
    let alloc = pieces.array.alloc();
    let count = pieces.files.len().div_ceil(pieces.in_piece.max(1));
    for piece in run_in_parallel(workers.threads, alloc, count, pieces)? {
        tell_piece(piece, gained, out, progress)?;
    }
    Ok(())
}

/// Compacts the shards in these files by threads, and writes a line for each that is not compact, in their order: those of some shards at a
/// time. Where it stops, shards behind may be compacted of which no line tells.
pub fn compact_all<T: Threads + Sync>(
    array: &Array<'_>,
    files: &[ChunkFile],
    rule: &Rule<'_>,
    workers: &Workers<'_, T>,
    out: &mut Output,
    progress: &mut Progress,
) -> Result<Gained, Stop> {
    let mut gained = Gained::nothing();
    let in_piece = piece_length(files.len(), workers.jobs, SHARDS_OF_A_PIECE);
    let at_once = in_piece.saturating_mul(workers.jobs).max(1);
    for (number, some) in files.chunks(at_once).enumerate() {
        progress.step(number.saturating_mul(at_once) as u64, files.len() as u64);
        let pieces = CompactPieces {
            array: &*array,
            files: some,
            rule: &*rule,
            in_piece,
        };
        compact_pieces_of(workers, &pieces, &mut gained, out, progress)?;
    }
    Ok(gained)
}
