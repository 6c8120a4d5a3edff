// Work on the shards of an array, which threads do side by side.
ghost use Rattle.std.specs.Prelude.{◌≡◌, ◌<◌, ◌≤◌, ℕ, IfOk, max, vec_len, slice_index_or};
ghost use Rattle.std.specs.Fork.{slice_chunk};

use std::alloc::{AllocError, Global};
use std::thread;
use std::thread::Threads;

/// How many threads work side by side where nothing else is requested: as many as there are processors, or one where the system does not
/// say how many these are.
pub fn threads_of<R: Threads>(rt: &R) -> usize {
    match thread::available_parallelism(rt) {
        Ok(count) => count.get(),
        Err(_) => 1,
    }
}

/// Work on the shards of an array that is cut into numbered pieces, of which threads do some at a time.
pub trait ShardWork {
    /// What comes of one piece.
    type Answer: Send + Drop;

    // what may come of the piece with a number
    ghost gives: { Self → ℕ → Self.Answer → Type 0 };

    /// Does the piece with this number.
    fn run(&self, number: u64) -> Self::Answer
        ensures { Self.gives self.now number result };
}

/// What comes of the pieces whose numbers are below `count`, in the order of their numbers, each by a thread of its own. Of one piece or
/// none no thread is started. Refused where memory ran out.
pub fn run_in_parallel<R: Threads + Sync, S: ShardWork + Sync>(
    rt: &R,
    alloc: Global,
    count: usize,
    work: &S,
) -> Result<Vec<S::Answer>, AllocError>
    ensures counted { IfOk result (λ found. vec_len found ≡ count) }
    ensures each { IfOk result (λ found. (k : ℕ) (d : _) → k < count → S.gives work.now k (slice_index_or found.items k d)) }
{
    let piece = |number: usize| -> S::Answer
        ensures { S.gives work.entry.now number result }
    { work.run(number as u64) };
    thread::map_indices(rt, alloc, count, &piece)
}

/// How many items a piece has, where `threads` threads have a piece each at a time: no more than `most`, nor than a fair share of `all`, and
/// at least one.
pub fn piece_length(all: usize, threads: usize, most: usize) -> usize
    ensures { (1 ≤ result) × (result ≤ max 1 most) }
{
    let share = all.div_ceil(threads.max(1));
    share.min(most).max(1)
}

/// The piece with a number, of items that are cut into pieces of as many; nothing past the last one.
pub fn piece_of<T>(items: &[T], number: u64, in_piece: usize) -> &[T]
    ensures { result.now ≡ slice_chunk items.now in_piece number }
{
    let first = (number as usize).saturating_mul(in_piece).min(items.len());
    let end = first.saturating_add(in_piece).min(items.len());
    &items[first..end]
}
