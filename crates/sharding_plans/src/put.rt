// Elements of a decoded subchunk put into an answer.
ghost use Rattle.std.specs.Prelude.{◌≡◌, ◌↔◌, ◌*◌, IsTrue, IfErr, OnOk, OnErr, length};
ghost use Rattle.parts_row_major.specs.Numbering.{count_of};
ghost use Rattle.parts_row_major.specs.Subsets.{LiesIn, IsTarget};
ghost use Rattle.parts_subsets.specs.Grid.{Divides};
ghost use Rattle.sharding_plans.specs.Puts.{IsPut, IsFilled, CanBePut, PutRefusals, FillRefusals, PutLaw};

use parts_errors::CodecError;
use parts_strided_copy::{copy_subset, fill_subset};
use parts_subsets::{ArraySubset, check_subset};

/// A subset of an array of a shape.
#[derive(Clone, Copy)]
pub struct Part<'a> {
    pub shape: &'a [u64],
    pub subset: &'a ArraySubset,
}

// Whether bytes are this number of elements of a size.
fn is_whole(bytes: &[u8], count: u64, element_size: usize) -> bool
    ensures { IsTrue result ↔ (length bytes.now ≡ count * element_size) }
{
    match count.checked_mul(element_size as u64) {
        Some(size) => size == bytes.len() as u64,
        None => false,
    }
}

/// Puts a part of a decoded subchunk into the part of an answer where it belongs: `decoded` has all elements of the array that `from`
/// is a part of, `answer` those of the one that `into` is a part of, both in row-major order, of `element_size` bytes each. Takes no
/// memory. Refused, in this order, as `IncompatibleDimensionality`, `OutOfBounds` and `TooLarge` where a part does not lie in its
/// array, first `from`; `InvalidNumberOfElements` where the parts have other shapes; `WrongElementKind` where an element has no bytes;
/// `Damaged` where `decoded` has another length, and `InvalidNumberOfElements` where `answer` has.
pub fn put_part(
    answer: &mut [u8],
    into: &Part,
    decoded: &[u8],
    from: &Part,
    element_size: usize,
) -> Result<(), CodecError>
    ensures put { OnOk result (IsPut element_size from.now.subset.now from.now.shape.now into.now.subset.now into.now.shape.now decoded.now answer.old answer.new) }
    ensures length { length answer.new ≡ length answer.old }
    ensures kept { OnErr result (answer.new ≡ answer.old) }
    ensures passed { OnOk result (CanBePut element_size from.now.subset.now from.now.shape.now into.now.subset.now into.now.shape.now (length decoded.now) (length answer.old)) }
    ensures refused { IfErr result (PutRefusals element_size from.now.subset.now from.now.shape.now into.now.subset.now into.now.shape.now (length decoded.now) (length answer.old)) }
{
    let (from_axes, into_axes) = (from.subset.shape(), into.subset.shape());
    let positions = check_subset(from.subset, from.shape)?;
    let count = check_subset(into.subset, into.shape)?;
    if from_axes != into_axes {
        return Err(CodecError::InvalidNumberOfElements);
    }
    if element_size == 0 {
        return Err(CodecError::WrongElementKind);
    }
    if !is_whole(decoded, positions, element_size) {
        return Err(CodecError::Damaged);
    }
    if !is_whole(answer, count, element_size) {
        return Err(CodecError::InvalidNumberOfElements);
    }
    copy_subset(
        answer,
        element_size,
        into.subset,
        into.shape,
        decoded,
        from.subset,
        from.shape,
    );
    Ok(())
}

/// Fills a part of an answer with an element, which is the fill value where a subchunk is absent. Takes no memory. Refused, in this
/// order, as `IncompatibleDimensionality`, `OutOfBounds` and `TooLarge` where the part does not lie in its array; `WrongElementKind`
/// where the element has no bytes; `InvalidNumberOfElements` where `answer` has another length.
pub fn fill_part(answer: &mut [u8], into: &Part, element: &[u8]) -> Result<(), CodecError>
    ensures filled { OnOk result (IsFilled element.now into.now.subset.now into.now.shape.now answer.old answer.new) }
    ensures length { length answer.new ≡ length answer.old }
    ensures kept { OnErr result (answer.new ≡ answer.old) }
    ensures passed { OnOk result (IsTarget (length answer.old) (length element.now) into.now.shape.now into.now.subset.now) }
    ensures refused { IfErr result (FillRefusals (length element.now) into.now.subset.now into.now.shape.now (length answer.old)) }
{
    let _axes = into.subset.shape();
    let count = check_subset(into.subset, into.shape)?;
    if element.is_empty() {
        return Err(CodecError::WrongElementKind);
    }
    if !is_whole(answer, count, element.len()) {
        return Err(CodecError::InvalidNumberOfElements);
    }
    fill_subset(answer, element.len(), into.subset, into.shape, element);
    Ok(())
}

/// The law of puts: parts of a subset that are put one after the other, in any order and also again, leave the elements of the subset
/// once each touched subchunk was put.
pub fn put_law(_shape: &[u64], _subchunk_shape: &[u64], _subset: &ArraySubset)
    requires divides { Divides _subchunk_shape.now _shape.now }
    requires inside { LiesIn _subset.now _shape.now }
    ensures { PutLaw _shape.now _subchunk_shape.now _subset.now }
{}
