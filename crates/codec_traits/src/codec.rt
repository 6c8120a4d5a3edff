// What the sharding codec asks of a codec from arrays to bytes, and keeps itself.
ghost use Rattle.std.specs.Prelude.{◌≡◌, ◌<◌, ◌^◌, ◌⊎◌, ℕ, List, Option, Some, None, SomeIff, IfOk, IfErr, OnOk, OnErr, IfSome, IsSome, IsTrue, map, length, slice_index_or};
ghost use Rattle.parts_errors.specs.Order.{◌or◌then◌, ◌or_as◌then◌, done, RefusedBy};
ghost use Rattle.parts_row_major.specs.Numbering.{count_of};
ghost use Rattle.parts_arrays.specs.ArraySpec.{ArraySpec, array_spec, IsArrayOf};
ghost use Rattle.parts_arrays.specs.Types.{size_of, FitsKind};
ghost use Rattle.parts_arrays.specs.Arrays.{Array};
ghost use Rattle.parts_errors.specs.declared.error.CodecError.{CodecError};
ghost use Rattle.parts_subsets.specs.Selections.{LiesWithin, IsSelectionOf};
ghost use Rattle.parts_arrays.specs.Targets.{target_element_size, target_subset, TargetRefusals};
ghost use Rattle.parts_arrays.specs.declared.data_type.DataTypeSize.TheVariants.{Fixed};
ghost use Rattle.parts_errors.specs.declared.error.CodecError.TheVariants.{TooLarge};
ghost use Rattle.storage_handles.specs.Handles.{IsRead, IsCounted, MayFault};
ghost use Rattle.codec_traits.specs.Reads.{stored_spec, IsDecodedInto, IsOverwritten, cells_at, IsAnswer, IsReadOf, MayRefuseRead, RequestRefusals};
ghost use Rattle.storage_handles.specs.Objects.{interval_part, HasInterval, ObjectRefusals, IntervalRefusals};
ghost use Rattle.codec_traits.specs.Encodings.{IsEncodedOnto, IsPlain};
ghost use Rattle.codec_traits.specs.Meanings.{Meaning, Concurrency};
ghost use Rattle.codec_traits.specs.Laws.{IsLawful};
ghost use Rattle.codec_traits.specs.Refusals.{IsNoFault, RefusesUnserved, MayRefuseEncode, MayRefuseDecode, MayRefuseCompact};
ghost use Rattle.codec_traits.specs.declared.representation.BytesRepresentation.{BytesRepresentation};

use crate::concurrency::RecommendedConcurrency;
use crate::representation::BytesRepresentation;
use crate::stored::StoredArray;
use crate::target::{check_target, put_decoded};
use parts_arrays::{ArrayBytes, DataType, FillValue, FixedTarget};
use parts_errors::{CodecError, CodecOptions};
use parts_subsets::{ChunkShape, Indexer};
use std::alloc::Global;
use storage_handles::{BytesPartialDecoderTraits, Interval};

/// A codec from arrays to bytes (Zarr V3 core, "Codecs"). Every call takes the shape, the data type and the fill value of the
/// array that it is about, `recommended_concurrency` no fill value. Every call makes the tests of `check` first, but for
/// `compact` and `recommended_concurrency`, which state their own.
pub trait ArrayToBytesCodecTraits {
    // what the codec means for the arrays of a shape, a type and a fill value
    ghost meaning: { Self → ArraySpec → Meaning };

    // how the work on the arrays of a shape is shared
    ghost concurrency: { Self → List ℕ → Concurrency };

    /// Tests whether the codec serves these arrays. Each codec states its refusals and their order.
    fn check(
        &self,
        alloc: Global,
        shape: &ChunkShape,
        data_type: &DataType,
        fill_value: &FillValue,
    ) -> Result<(), CodecError>
        ensures serves { OnOk result (meaning self.now (array_spec shape.now data_type.now fill_value.now)).serves }
        ensures refused { let m = meaning self.now (array_spec shape.now data_type.now fill_value.now) in
            IfErr result (RefusedBy (RefusesUnserved m)) };

    /// Encodes the elements of an array, which come in row-major order. Refused as `check` refuses, then as
    /// `WrongElementKind`, `InvalidNumberOfElements`, `CannotEncode` or `TooLarge`.
    fn encode(
        &self,
        alloc: Global,
        bytes: &ArrayBytes,
        shape: &ChunkShape,
        data_type: &DataType,
        fill_value: &FillValue,
        options: &CodecOptions,
    ) -> Result<Vec<u8>, CodecError>
        ensures serves { OnOk result (meaning self.now (array_spec shape.now data_type.now fill_value.now)).serves }
        ensures array { let g = array_spec shape.now data_type.now fill_value.now in
            OnOk result ((bytes.now.kind ≡ size_of data_type.now) × IsArrayOf g bytes.now.elements) }
        ensures written { let m = meaning self.now (array_spec shape.now data_type.now fill_value.now) in
            IfOk result (λ encoded. m.written bytes.now.elements encoded.items) }
        ensures lawful { let g = array_spec shape.now data_type.now fill_value.now in let m = meaning self.now g in
            IfErr result (λ e. m.serves → bytes.now.kind ≡ size_of data_type.now → IsArrayOf g bytes.now.elements
            → MayRefuseEncode m bytes.now.elements e) }
        ensures refused { let m = meaning self.now (array_spec shape.now data_type.now fill_value.now) in
            IfErr result (RefusedBy (
            m.serves or_as RefusesUnserved m then
            m.encode_refusals bytes.now)) };

    /// Encodes an array as `encode` does, and puts the encoding after bytes that are there, which stay. A refusal leaves them.
    /// Refused as `encode`.
    fn encode_onto(
        &self,
        alloc: Global,
        bytes: &ArrayBytes,
        shape: &ChunkShape,
        data_type: &DataType,
        fill_value: &FillValue,
        encoded: &mut Vec<u8>,
        options: &CodecOptions,
    ) -> Result<(), CodecError>
        ensures serves { OnOk result (meaning self.now (array_spec shape.now data_type.now fill_value.now)).serves }
        ensures array { let g = array_spec shape.now data_type.now fill_value.now in
            OnOk result ((bytes.now.kind ≡ size_of data_type.now) × IsArrayOf g bytes.now.elements) }
        ensures written { let m = meaning self.now (array_spec shape.now data_type.now fill_value.now) in
            OnOk result (IsEncodedOnto m.written bytes.now.elements encoded.old.items encoded.new.items) }
        ensures kept { OnErr result (encoded.new.items ≡ encoded.old.items) }
        ensures lawful { let g = array_spec shape.now data_type.now fill_value.now in let m = meaning self.now g in
            IfErr result (λ e. m.serves → bytes.now.kind ≡ size_of data_type.now → IsArrayOf g bytes.now.elements
            → MayRefuseEncode m bytes.now.elements e) }
        ensures refused { let m = meaning self.now (array_spec shape.now data_type.now fill_value.now) in
            IfErr result (RefusedBy (
            m.serves or_as RefusesUnserved m then
            m.encode_refusals bytes.now)) }
    {
        let encoding = self.encode(alloc, bytes, shape, data_type, fill_value, options)?;
        encoded.extend_from_slice(&encoding)?;
        Ok(())
    }

    /// How many bytes each encoding of such an array has, where it is the elements one after the other, as they are in memory;
    /// `None` where it may be other bytes. By default `None`. Takes no memory.
    fn plain_size(
        &self,
        shape: &ChunkShape,
        data_type: &DataType,
        fill_value: &FillValue,
    ) -> Option<u64>
        ensures { let g = array_spec shape.now data_type.now fill_value.now in IfSome result (IsPlain g (meaning self.now g)) }
    {
        None
    }

    /// Decodes an array. The answer may lend the bytes on. Refused as `check` refuses, then as the codec's
    /// bytes may be bad, or as `TooLarge`.
    fn decode<'a>(
        &self,
        alloc: Global,
        bytes: &'a [u8],
        shape: &ChunkShape,
        data_type: &DataType,
        fill_value: &FillValue,
        options: &CodecOptions,
    ) -> Result<ArrayBytes<'a>, CodecError>
        ensures serves { OnOk result (meaning self.now (array_spec shape.now data_type.now fill_value.now)).serves }
        ensures array { let g = array_spec shape.now data_type.now fill_value.now in
            IfOk result (λ array. (array.kind ≡ size_of data_type.now) × IsArrayOf g array.elements) }
        ensures cells { let m = meaning self.now (array_spec shape.now data_type.now fill_value.now) in
            IfOk result (λ array. m.cells bytes.now ≡ map Some array.elements) }
        ensures lawful { let m = meaning self.now (array_spec shape.now data_type.now fill_value.now) in
            IfErr result (λ e. m.serves → MayRefuseDecode (m.cells bytes.now) e) }
        ensures refused { let m = meaning self.now (array_spec shape.now data_type.now fill_value.now) in
            IfErr result (RefusedBy (
            m.serves or_as RefusesUnserved m then
            m.decode_refusals bytes.now)) };

    /// Decodes an array into a target: its elements go to the target's subset, in row-major order. A refusal leaves the
    /// target. Refused as `check` refuses, then as `WrongElementKind` (a type of another element size or of none),
    /// `InvalidNumberOfElements` (another number of elements in the target's subset), then as `decode`.
    fn decode_into(
        &self,
        alloc: Global,
        bytes: &[u8],
        shape: &ChunkShape,
        data_type: &DataType,
        fill_value: &FillValue,
        target: &mut FixedTarget,
        options: &CodecOptions,
    ) -> Result<(), CodecError>
        ensures serves { OnOk result (meaning self.now (array_spec shape.now data_type.now fill_value.now)).serves }
        ensures kind { OnOk result (size_of data_type.now ≡ Fixed (target_element_size target.old)) }
        ensures counted { OnOk result (count_of (target_subset target.old).shape ≡ count_of shape.now) }
        ensures cells { OnOk result (IsDecodedInto target.old target.new ((meaning self.now (array_spec shape.now data_type.now fill_value.now)).cells bytes.now)) }
        ensures kept { OnErr result (target.new ≡ target.old) }
        ensures lawful { let m = meaning self.now (array_spec shape.now data_type.now fill_value.now) in
            IfErr result (λ e. m.serves → size_of data_type.now ≡ Fixed (target_element_size target.old)
            → count_of (target_subset target.old).shape ≡ count_of shape.now → MayRefuseDecode (m.cells bytes.now) e) }
        ensures refused { let m = meaning self.now (array_spec shape.now data_type.now fill_value.now) in
            IfErr result (RefusedBy (
            m.serves or_as RefusesUnserved m then
            TargetRefusals (size_of data_type.now) (count_of shape.now) target.old (
            m.decode_refusals bytes.now))) }
    {
        self.check(alloc, shape, data_type, fill_value)?;
        check_target(target, shape.num_elements(), data_type)?;
        let array = self.decode(alloc, bytes, shape, data_type, fill_value, options)?;
        put_decoded(&array, target);
        Ok(())
    }

    /// The bytes rewritten without what is not needed, or `None` where there is nothing to gain; they stand for the
    /// same cells. By default `None`, with no test. Each codec that compacts states its refusals and their order.
    fn compact(
        &self,
        alloc: Global,
        bytes: &[u8],
        shape: &ChunkShape,
        data_type: &DataType,
        fill_value: &FillValue,
        options: &CodecOptions,
    ) -> Result<Option<Vec<u8>>, CodecError>
        ensures compacted { let m = meaning self.now (array_spec shape.now data_type.now fill_value.now) in
            IfOk result (λ answer. IfSome answer (λ new. m.compacted bytes.now new.items)) }
        ensures lawful { let m = meaning self.now (array_spec shape.now data_type.now fill_value.now) in
            IfErr result (λ e. m.serves → MayRefuseCompact (m.cells bytes.now) e) }
        ensures refused { IfErr result (RefusedBy ((meaning self.now (array_spec shape.now data_type.now fill_value.now)).compact_refusals bytes.now)) }
    {
        Ok(None)
    }

    /// How many workers can share the work on an array of a shape. Takes no memory and makes no test of the fill
    /// value. Each codec states its refusals and their order.
    fn recommended_concurrency(
        &self,
        shape: &ChunkShape,
        data_type: &DataType,
    ) -> Result<RecommendedConcurrency, CodecError>
        ensures served { OnOk result (concurrency self.now shape.now).served }
        ensures recommended { IfOk result (λ told. told ≡ (concurrency self.now shape.now).workers) }
        ensures refused { IfErr result (concurrency self.now shape.now).refusals };

    /// How long the encodings of such an array are. Refused as `check` refuses, then as `TooLarge` where no
    /// 64-bit number can say it.
    fn encoded_representation(
        &self,
        alloc: Global,
        shape: &ChunkShape,
        data_type: &DataType,
        fill_value: &FillValue,
    ) -> Result<BytesRepresentation, CodecError>
        ensures serves { OnOk result (meaning self.now (array_spec shape.now data_type.now fill_value.now)).serves }
        ensures told { let m = meaning self.now (array_spec shape.now data_type.now fill_value.now) in
            IfOk result (λ told. m.representation ≡ Some told) }
        ensures refused { let m = meaning self.now (array_spec shape.now data_type.now fill_value.now) in
            IfErr result (RefusedBy (
            m.serves or_as RefusesUnserved m then
            IsSome m.representation or TooLarge then
            done)) };

    /// Reads the cells that an indexer requests, in its order, of an array that stands in an interval of an object; duplicates are
    /// kept. Ok or refused, the object stays. Refused as `check` refuses, then, in this order, as `IncompatibleDimensionality`
    /// (shape and indexer), as `OutOfBounds` (cells outside the shape), as `TooLarge` (their count), as `OutOfBounds` where no
    /// object has the interval, and as the codec's bytes may be bad; or as `Fault`, where the handle failed, or `OutOfMemory`.
    fn partial_decode<H: BytesPartialDecoderTraits, N: Indexer>(
        &self,
        alloc: Global,
        handle: &mut H,
        interval: Interval,
        shape: &ChunkShape,
        data_type: &DataType,
        fill_value: &FillValue,
        indexer: &N,
        options: &CodecOptions,
    ) -> Result<ArrayBytes<'static>, CodecError>
        ensures serves { OnOk result (meaning self.now (array_spec shape.now data_type.now fill_value.now)).serves }
        ensures read { IsRead (H.state handle.old) (H.state handle.new) }
        ensures answer { IfOk result (IsAnswer (array_spec shape.now data_type.now fill_value.now) (N.selection indexer.now)) }
        ensures answerable { let m = meaning self.now (array_spec shape.now data_type.now fill_value.now) in
            OnOk result (m.answerable (length (N.selection indexer.now).points)) }
        ensures cells { let m = meaning self.now (array_spec shape.now data_type.now fill_value.now) in
            IfOk result (λ array. IsTrue (H.state handle.old).transparent
            → IsReadOf m.cells interval (H.state handle.old).contents shape.now (N.selection indexer.now).points array.elements) }
        ensures counted { IfErr result (IsCounted (H.state handle.old) (H.state handle.new)) }
        ensures lawful { let m = meaning self.now (array_spec shape.now data_type.now fill_value.now) in
            IfErr result (λ e. m.serves → IsTrue (H.state handle.old).transparent → (N.selection indexer.now).axes ≡ length shape.now
            → LiesWithin (N.selection indexer.now).subset (N.selection indexer.now).points shape.now → HasInterval interval (H.state handle.old).contents
            → MayFault (H.state handle.old) (H.state handle.new) e
            ⊎ MayRefuseRead (m.cells (interval_part interval (H.state handle.old).contents))
            (cells_at (m.cells (interval_part interval (H.state handle.old).contents)) shape.now (N.selection indexer.now).points) e) }
        ensures refused { let g = array_spec shape.now data_type.now fill_value.now in let m = meaning self.now g in
            IfErr result (RefusedBy (
            m.serves or_as RefusesUnserved m then
            RequestRefusals g (N.selection indexer.now) m.answerable (
            ObjectRefusals (H.state handle.old) (H.state handle.new) (
            IntervalRefusals interval (H.state handle.old).contents (λ b. m.read_refusals b (N.selection indexer.now).points))))) };

    /// Reads the cells that an indexer requests, as `partial_decode`, into a target: in the indexer's order they go to the target's
    /// subset, in row-major order of this. Ok or refused, the object stays; a refusal leaves the target. Refused as `check`
    /// refuses, then as `WrongElementKind` (a type of another element size or of none), `InvalidNumberOfElements` (another
    /// number of elements in the target's subset), then as `partial_decode`.
    fn partial_decode_into<H: BytesPartialDecoderTraits, N: Indexer>(
        &self,
        alloc: Global,
        handle: &mut H,
        stored: &StoredArray,
        indexer: &N,
        target: &mut FixedTarget,
        options: &CodecOptions,
    ) -> Result<(), CodecError>
        ensures serves { OnOk result (meaning self.now (stored_spec stored.now)).serves }
        ensures read { IsRead (H.state handle.old) (H.state handle.new) }
        ensures kind { OnOk result (size_of stored.now.data_type.now ≡ Fixed (target_element_size target.old)) }
        ensures counted { OnOk result (count_of (target_subset target.old).shape ≡ length (N.selection indexer.now).points) }
        ensures selected { OnOk result (IsSelectionOf stored.now.shape.now (N.selection indexer.now)) }
        ensures answerable { let m = meaning self.now (stored_spec stored.now) in
            OnOk result (m.answerable (length (N.selection indexer.now).points)) }
        ensures written { OnOk result (IsOverwritten target.old target.new) }
        ensures cells { let m = meaning self.now (stored_spec stored.now) in
            OnOk result (IsTrue (H.state handle.old).transparent
            → HasInterval stored.now.interval (H.state handle.old).contents
            × IsDecodedInto target.old target.new (cells_at (m.cells (interval_part stored.now.interval (H.state handle.old).contents)) stored.now.shape.now (N.selection indexer.now).points)) }
        ensures kept { OnErr result (target.new ≡ target.old) }
        ensures fault { IfErr result (IsCounted (H.state handle.old) (H.state handle.new)) }
        ensures lawful { let m = meaning self.now (stored_spec stored.now) in
            IfErr result (λ e. m.serves → size_of stored.now.data_type.now ≡ Fixed (target_element_size target.old)
            → count_of (target_subset target.old).shape ≡ length (N.selection indexer.now).points
            → IsTrue (H.state handle.old).transparent → (N.selection indexer.now).axes ≡ length stored.now.shape.now
            → LiesWithin (N.selection indexer.now).subset (N.selection indexer.now).points stored.now.shape.now
            → HasInterval stored.now.interval (H.state handle.old).contents
            → MayFault (H.state handle.old) (H.state handle.new) e
            ⊎ MayRefuseRead (m.cells (interval_part stored.now.interval (H.state handle.old).contents))
            (cells_at (m.cells (interval_part stored.now.interval (H.state handle.old).contents)) stored.now.shape.now (N.selection indexer.now).points) e) }
        ensures refused { let m = meaning self.now (stored_spec stored.now) in
            IfErr result (RefusedBy (
            m.serves or_as RefusesUnserved m then
            TargetRefusals (size_of stored.now.data_type.now) (length (N.selection indexer.now).points) target.old (
            RequestRefusals (stored_spec stored.now) (N.selection indexer.now) m.answerable (
            ObjectRefusals (H.state handle.old) (H.state handle.new) (
            IntervalRefusals stored.now.interval (H.state handle.old).contents (λ b. m.read_refusals b (N.selection indexer.now).points)))))) }
    {
        self.check(alloc, stored.shape, stored.data_type, stored.fill_value)?;
        check_target(target, indexer.len(), stored.data_type)?;
        let read = self.partial_decode(
            alloc,
            handle,
            stored.interval,
            stored.shape,
            stored.data_type,
            stored.fill_value,
            indexer,
            options,
        )?;
        put_decoded(&read, target);
        Ok(())
    }

    /// Reads the requested elements into a target, as `partial_decode_into`, except that after a refusal the target's subset has
    /// unspecified elements; nothing outside the subset changes. By default a refusal leaves the target. Refused as
    /// `partial_decode_into`.
    fn partial_decode_into_fresh<H: BytesPartialDecoderTraits, N: Indexer>(
        &self,
        alloc: Global,
        handle: &mut H,
        stored: &StoredArray,
        indexer: &N,
        target: &mut FixedTarget,
        options: &CodecOptions,
    ) -> Result<(), CodecError>
        ensures serves { OnOk result (meaning self.now (stored_spec stored.now)).serves }
        ensures read { IsRead (H.state handle.old) (H.state handle.new) }
        ensures kind { OnOk result (size_of stored.now.data_type.now ≡ Fixed (target_element_size target.old)) }
        ensures counted { OnOk result (count_of (target_subset target.old).shape ≡ length (N.selection indexer.now).points) }
        ensures selected { OnOk result (IsSelectionOf stored.now.shape.now (N.selection indexer.now)) }
        ensures answerable { let m = meaning self.now (stored_spec stored.now) in
            OnOk result (m.answerable (length (N.selection indexer.now).points)) }
        ensures written { IsOverwritten target.old target.new }
        ensures cells { let m = meaning self.now (stored_spec stored.now) in
            OnOk result (IsTrue (H.state handle.old).transparent
            → HasInterval stored.now.interval (H.state handle.old).contents
            × IsDecodedInto target.old target.new (cells_at (m.cells (interval_part stored.now.interval (H.state handle.old).contents)) stored.now.shape.now (N.selection indexer.now).points)) }
        ensures fault { IfErr result (IsCounted (H.state handle.old) (H.state handle.new)) }
        ensures lawful { let m = meaning self.now (stored_spec stored.now) in
            IfErr result (λ e. m.serves → size_of stored.now.data_type.now ≡ Fixed (target_element_size target.old)
            → count_of (target_subset target.old).shape ≡ length (N.selection indexer.now).points
            → IsTrue (H.state handle.old).transparent → (N.selection indexer.now).axes ≡ length stored.now.shape.now
            → LiesWithin (N.selection indexer.now).subset (N.selection indexer.now).points stored.now.shape.now
            → HasInterval stored.now.interval (H.state handle.old).contents
            → MayFault (H.state handle.old) (H.state handle.new) e
            ⊎ MayRefuseRead (m.cells (interval_part stored.now.interval (H.state handle.old).contents))
            (cells_at (m.cells (interval_part stored.now.interval (H.state handle.old).contents)) stored.now.shape.now (N.selection indexer.now).points) e) }
        ensures refused { let m = meaning self.now (stored_spec stored.now) in
            IfErr result (RefusedBy (
            m.serves or_as RefusesUnserved m then
            TargetRefusals (size_of stored.now.data_type.now) (length (N.selection indexer.now).points) target.old (
            RequestRefusals (stored_spec stored.now) (N.selection indexer.now) m.answerable (
            ObjectRefusals (H.state handle.old) (H.state handle.new) (
            IntervalRefusals stored.now.interval (H.state handle.old).contents (λ b. m.read_refusals b (N.selection indexer.now).points)))))) }
    {
        self.partial_decode_into(alloc, handle, stored, indexer, target, options)
    }

    // what the codec means for the arrays of a shape, a type and a fill value keeps the laws
    ghost lawful: { (x : Self) (g : ArraySpec) → IsLawful g (meaning x g) };

    // `recommended_concurrency` refuses nothing as a fault
    ghost concurrency_faultless: { (x : Self) (shape : List ℕ) (e : CodecError) → (concurrency x shape).refusals e → IsNoFault e };
}
