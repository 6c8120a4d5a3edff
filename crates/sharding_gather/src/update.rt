// What is written into an array, tested against it.
ghost use Rattle.std.specs.Prelude.{◌≡◌, IfOk, IfErr, OnOk, All, length};
ghost use Rattle.parts_errors.specs.Order.{done};
ghost use Rattle.parts_row_major.specs.Numbering.{AllPositive, count_of};
ghost use Rattle.parts_row_major.specs.Subsets.{IsSubset, LiesIn};
ghost use Rattle.parts_arrays.specs.Types.{size_of, FitsKind};
ghost use Rattle.parts_subsets.specs.Selections.{subset_selection};
ghost use Rattle.sharding_gather.specs.Updates.{UpdateRefusals, IsUpdateOf};

use parts_arrays::{ArrayBytes, DataType};
use parts_errors::CodecError;
use parts_subsets::{ArraySubset, ChunkShape, Indexer};

/// The subset of an array to which elements are written. Refused, in this order, as `UnsupportedIndexer` where the indexer is
/// no subset, as `IncompatibleDimensionality`, as `OutOfBounds` where the subset, also an empty one, ends outside the shape,
/// as `WrongElementKind`, and as `InvalidNumberOfElements`. Takes no memory.
pub fn check_update<'a, N: Indexer>(
    indexer: &'a N,
    shape: &ChunkShape,
    data_type: &DataType,
    update: &ArrayBytes,
) -> Result<&'a ArraySubset, CodecError>
    ensures update { OnOk result (IsUpdateOf shape.now data_type.now (N.selection indexer.now) update.now) }
    ensures subset { IfOk result (λ subset. N.selection indexer.now ≡ subset_selection subset.now) }
    ensures well_formed { IfOk result (λ subset. IsSubset subset.now.start subset.now.shape) }
    ensures positive { OnOk result (AllPositive shape.now) }
    ensures inside { IfOk result (λ subset. LiesIn subset.now shape.now) }
    ensures fitting { OnOk result (All (FitsKind update.now.kind) update.now.elements) }
    ensures counted { IfOk result (λ subset. length update.now.elements ≡ count_of subset.now.shape) }
    ensures refused { IfErr result (UpdateRefusals shape.now data_type.now (N.selection indexer.now) update.now done) }
{
    let Some(subset) = indexer.as_array_subset() else {
        return Err(CodecError::UnsupportedIndexer);
    };
    if subset.start().len() != shape.as_slice().len() {
        return Err(CodecError::IncompatibleDimensionality);
    }
    if !subset.lies_in(shape.as_slice()) {
        return Err(CodecError::OutOfBounds);
    }
    if update.kind() != data_type.size() {
        return Err(CodecError::WrongElementKind);
    }
    let given = update.len() as u64;
    let Some(count) = indexer.len() else {
        return Err(CodecError::InvalidNumberOfElements);
    };
    if given != count {
        return Err(CodecError::InvalidNumberOfElements);
    }
    Ok(subset)
}
