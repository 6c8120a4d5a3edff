// What became of work on numbered pieces, taken in their order.
ghost use Rattle.std.specs.Prelude.{◌≡◌, ◌++◌, ◌∷◌, ◌⊎◌, List, Ok, Err, IfOk, IfErr, map};
ghost use Rattle.parts_errors.specs.declared.error.CodecError.TheVariants.{OutOfMemory};
ghost use Rattle.sharding_workers.specs.InOrder.{IsFirstRefusal};

use parts_errors::CodecError;
use std::alloc::Global;

/// What came of numbered work, in the order of the numbers. The lowest refusal is the refusal; or `OutOfMemory`.
pub fn in_order<T: Drop>(
    alloc: Global,
    results: Vec<Result<T, CodecError>>,
) -> Result<Vec<T>, CodecError>
    ensures taken { IfOk result (λ taken. results.items ≡ map Ok taken.items) }
    ensures refused { IfErr result (λ e. (e ≡ OutOfMemory) ⊎ IsFirstRefusal results.items e) }
{
    let mut taken = Vec::with_capacity(alloc, results.len())?;
    for result in results {
        taken.push(result?)?;
    }
    Ok(taken)
}
