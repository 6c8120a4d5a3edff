// What is done with each number by threads, in the order of the numbers.
ghost use Rattle.std.specs.Prelude.{◌<◌, ℕ, IfOk};
ghost use Rattle.std.specs.List.{AllZip, range_with_len};

use rayon::prelude::*;
use std::alloc::{AllocError, Global};
use std::thread::Threads;

// What `work` gives for each number below `count`, in the order of the numbers, by as many threads as there are processors.
pub(crate) fn by_number<R: Threads + Sync, T: Send + Drop, F: Fn(u64) -> T + Copy + Send + Sync>(
    rt: &R,
    alloc: Global,
    count: u64,
    work: F,
) -> Result<Vec<T>, AllocError>
    requires { (k : ℕ) → k < count → F.pre work k }
    ensures { IfOk result (λ found. AllZip (F.post work) (range_with_len 0 count) found.items) }
{
    (0..count)
        .into_par_iter()
        .with_min_len(1)
        .map(work)
        .collect(rt, alloc)
}
