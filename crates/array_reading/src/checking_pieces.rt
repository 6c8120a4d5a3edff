// Shards that threads check side by side, a piece of their list each at a time.
use crate::checked::{Checked, Told};
use crate::checking::check_each_file;
use array_cli::{Array, Ending, Output, Progress, Stop, Workers, written};
use array_folder::ChunkFile;
use array_grid::{ShardWork, piece_length, piece_of, run_in_parallel};
use std::io;
use std::io::Write;
use std::thread::Threads;

// How many shards a thread checks at a time at most.
const SHARDS_OF_A_PIECE: usize = 16;

// What came of a piece: what was checked, the lines that tell of it, and why the command stops behind them, if it does.
#[derive(Drop)]
struct PieceChecked {
    checked: Checked,
    lines: Output,
    stop: Option<Stop>,
}

// Files of shards, in pieces of as many files, and how they are checked.
#[derive(Drop)]
struct FilePieces<'s> {
    array: &'s Array<'s>,
    files: &'s [ChunkFile],
    in_piece: usize,
    is_index_alone: bool,
    is_json: bool,
}

impl ShardWork for FilePieces<'_> {
    type Answer = PieceChecked;

    // no contract says what files give
    ghost gives = { λ pieces number checked. Unit {0} };

    fn run(&self, number: u64) -> PieceChecked {
        let files = piece_of(self.files, number, self.in_piece);
        let alloc = self.array.alloc();
        let mut lines = Output::memory(alloc);
        let mut checked = Checked::none(files.len() as u64, self.is_index_alone);
        let mut told = Told {
            out: &mut lines,
            progress: &mut Progress::silent(),
            is_json: self.is_json,
        };
        let ended = check_each_file(self.array, files, &mut checked, &mut told);
        PieceChecked {
            checked,
            lines,
            stop: ended.err().map(Stop::in_memory),
        }
    }
}

// Writes the lines that tell of a piece, which are seen at once.
fn write_lines(out: &mut Output, lines: &[u8]) -> io::Result<()> {
    if lines.is_empty() {
        return Ok(());
    }
    out.write_all(lines)?;
    out.flush()
}

// Tells what came of a piece.
fn tell_piece(piece: PieceChecked, checked: &mut Checked, told: &mut Told<'_>) -> Result<(), Stop> {
    let PieceChecked {
        checked: of_piece,
        lines,
        stop,
    } = piece;
    checked.add_all(&of_piece);
    told.progress.clear();
    // a line that is none of JSON tells a refusal
    let ending = if told.is_json || lines.bytes().is_empty() {
        checked.ending(true)
    } else {
        Ending::Refused
    };
    written(write_lines(told.out, lines.bytes()), ending)?;
    match stop {
        Some(stop) => Err(stop),
        None => Ok(()),
    }
}

// Checks the shards in these files, each piece of them by a thread of its own, and tells what came of them in their order.
fn check_pieces_of<'s, T: Threads + Sync>(
    array: &'s Array<'s>,
    workers: &Workers<'_, T>,
    files: &'s [ChunkFile],
    in_piece: usize,
    checked: &mut Checked,
    told: &mut Told<'_>,
) -> Result<(), Stop> {
    let pieces = FilePieces {
        array,
        files,
        in_piece,
        is_index_alone: checked.is_index_alone,
        is_json: told.is_json,
    };
    let count = files.len().div_ceil(in_piece.max(1));
    for piece in run_in_parallel(workers.threads, array.alloc(), count, &pieces)? {
        tell_piece(piece, checked, told)?;
    }
    Ok(())
}

/// Checks the shards in these files by threads, and tells what one thread tells, in its order: the lines of some shards at a time.
pub fn check_all<T: Threads + Sync>(
    array: &Array<'_>,
    files: &[ChunkFile],
    workers: &Workers<'_, T>,
    checked: &mut Checked,
    told: &mut Told<'_>,
) -> Result<(), Stop> {
    if workers.jobs == 1 || files.len() < 2 {
        return check_each_file(array, files, checked, told);
    }
    let in_piece = piece_length(files.len(), workers.jobs, SHARDS_OF_A_PIECE);
    let at_once = in_piece.saturating_mul(workers.jobs).max(1);
    for (number, some) in files.chunks(at_once).enumerate() {
        let done = number.saturating_mul(at_once);
        told.progress.step(done as u64, files.len() as u64);
        check_pieces_of(&*array, workers, some, in_piece, checked, told)?;
    }
    Ok(())
}
