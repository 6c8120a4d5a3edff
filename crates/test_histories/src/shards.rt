// Shards for the tests: cells of one byte in subchunks of two, with the fill value 0; and recorded sessions of them.
ghost use Rattle.std.specs.Prelude.{◌≡◌, Some};
ghost use Rattle.parts_arrays.specs.ArraySpec.{array_spec};
ghost use Rattle.parts_arrays.specs.declared.data_type.DataType.TheVariants.{UInt8};

use shard_sessions::{CloseError, Closed, Naming, RecordedPartialEncoder, Seat, recorded};
use std::alloc::Global;
use std::process::Abort;
use std::sync::Wait;
use zarr_codecs::{ArrayToBytesCodecTraits, BytesCodec, FaultingHandle};
use zarr_parts::{
    ArrayBytes, ArraySubset, ChunkShape, CodecError, CodecOptions, DataType, FillValue,
};
use zarrs_sharding::{ShardingCodec, ShardingIndexLocation};

pub(crate) type Encoder<'a, I, X, J> = RecordedPartialEncoder<'a, I, X, FaultingHandle, J>;

pub(crate) const ABSENT: u64 = u64::MAX;

// A codec, and what it is asked to serve.
#[derive(Drop)]
pub(crate) struct Shards<I: ArrayToBytesCodecTraits, X: ArrayToBytesCodecTraits> {
    pub codec: ShardingCodec<I, X>,
    pub shape: ChunkShape,
    pub fill: FillValue,
}

fn shape_of<R: Abort>(rt: &R, alloc: Global, axis: u64) -> ChunkShape {
    ChunkShape::new(alloc, &[axis])
        .expect(rt, "refused")
        .expect(rt, "does not fit")
}

// Shards of this number of cells, with their index at this place.
pub(crate) fn shards_at<R: Abort>(
    rt: &R,
    alloc: Global,
    cells: u64,
    location: ShardingIndexLocation,
) -> Shards<BytesCodec, BytesCodec> {
    let little = BytesCodec::little();
    let sub = shape_of(rt, alloc, 2);
    let zero = vec![in alloc; 0u8; 1].expect(rt, "refused");
    Shards {
        codec: ShardingCodec::new(sub, little, little, location),
        shape: shape_of(rt, alloc, cells),
        fill: FillValue::new(zero),
    }
}

// Shards of this number of cells.
pub(crate) fn shards_of<R: Abort>(
    rt: &R,
    alloc: Global,
    cells: u64,
) -> Shards<BytesCodec, BytesCodec> {
    shards_at(rt, alloc, cells, ShardingIndexLocation::End)
}

impl<I: ArrayToBytesCodecTraits, X: ArrayToBytesCodecTraits> Shards<I, X> {
    // Whether an object has these cells.
    pub(crate) fn are_cells(
        &self,
        alloc: Global,
        object: &Option<Vec<u8>>,
        cells: &[u8],
    ) -> Result<bool, CodecError> {
        let Some(object) = object else {
            return Ok(false);
        };
        let array = self.codec.decode(
            alloc,
            object,
            &self.shape,
            &DataType::UInt8,
            &self.fill,
            &CodecOptions::default(),
        )?;
        Ok(array.fixed_bytes() == Some(cells))
    }

    // An object without what is not needed, or `None` where there is nothing to gain.
    pub(crate) fn compacted(
        &self,
        alloc: Global,
        object: &Option<Vec<u8>>,
    ) -> Result<Option<Vec<u8>>, CodecError> {
        let Some(object) = object else {
            return Err(CodecError::OutOfBounds);
        };
        self.codec.compact(
            alloc,
            object,
            &self.shape,
            &DataType::UInt8,
            &self.fill,
            &CodecOptions::default(),
        )
    }

    // A recorded session of them.
    pub(crate) fn recorded<J: Naming<I, X>>(
        &self,
        alloc: Global,
        handle: FaultingHandle,
    ) -> Result<(Encoder<'_, I, X, J>, Seat), (FaultingHandle, CodecError)>
        requires codec_named { Some self.now.codec ≡ J.codec }
        requires spec_named { array_spec self.now.shape UInt8 self.now.fill ≡ J.array_spec }
    {
        recorded(
            alloc,
            &self.codec,
            handle,
            &self.shape,
            &DataType::UInt8,
            &self.fill,
        )
    }
}

// An object of these slices and this index.
pub(crate) fn object_of<R: Abort>(rt: &R, alloc: Global, slices: &[u8], index: &[u64]) -> Vec<u8> {
    let mut object: Vec<u8> = slices.to_vec(alloc).expect(rt, "refused");
    for number in index.iter() {
        object
            .extend_from_slice(&number.to_le_bytes())
            .expect(rt, "refused");
    }
    object
}

// Whether an object is that of these slices and this index.
pub(crate) fn is_object<R: Abort>(
    rt: &R,
    alloc: Global,
    object: &Option<Vec<u8>>,
    slices: &[u8],
    index: &[u64],
) -> bool {
    let Some(found) = object else {
        return false;
    };
    let wanted = object_of(rt, alloc, slices, index);
    found.as_slice() == wanted.as_slice()
}

// What a test does in a session: it writes a value into a cell, reads the cells of a range, or erases.
#[derive(Clone, Copy)]
pub(crate) enum Call {
    Write { cell: u64, value: u8 },
    Read { first: u64, end: u64 },
    Erase,
}

// What a call answers: its place in the history, and the first cell that was read; or how it is refused.
pub(crate) type Answer = Result<(u64, u8), CodecError>;

fn read_cell(cells: &ArrayBytes) -> u8 {
    match cells.fixed_bytes() {
        Some(bytes) => bytes.first().copied().unwrap_or(0),
        None => 0,
    }
}

fn place_alone(answer: Result<u64, CodecError>) -> Answer {
    Ok((answer?, 0))
}

fn place_and_cell(answer: &Result<(u64, ArrayBytes<'static>), CodecError>) -> Answer {
    match answer {
        Ok((place, cells)) => Ok((*place, read_cell(cells))),
        Err(error) => Err(*error),
    }
}

// A value over one cell.
struct Update {
    subset: ArraySubset,
    bytes: ArrayBytes<'static>,
}

impl Drop for Update {
    fn drop(self) {
        let Update {
            subset: _,
            bytes: _,
        } = self;
    }
}

fn update_of(alloc: Global, cell: u64, value: u8) -> Result<Update, CodecError> {
    let end = cell.saturating_add(1);
    Ok(Update {
        subset: ArraySubset::from_ranges(alloc, &[cell..end])?,
        bytes: ArrayBytes::from_numbers(alloc, &[value])?,
    })
}

fn write<I: ArrayToBytesCodecTraits, X: ArrayToBytesCodecTraits, J: Naming<I, X>, R: Wait>(
    rt: &R,
    alloc: Global,
    encoder: &Encoder<'_, I, X, J>,
    seat: Seat,
    update: &Update,
) -> (Seat, Answer) {
    let (seat, answer) = encoder.write(rt, alloc, seat, &update.subset, &update.bytes);
    (seat, place_alone(answer))
}

fn read<I: ArrayToBytesCodecTraits, X: ArrayToBytesCodecTraits, J: Naming<I, X>, R: Wait>(
    rt: &R,
    alloc: Global,
    encoder: &Encoder<'_, I, X, J>,
    seat: Seat,
    subset: &ArraySubset,
) -> (Seat, Answer) {
    let (seat, answer) = encoder.read(rt, alloc, seat, subset);
    (seat, place_and_cell(&answer))
}

// One call by a seat. Where there is no memory for its arguments it answers so.
pub(crate) fn called<
    I: ArrayToBytesCodecTraits,
    X: ArrayToBytesCodecTraits,
    J: Naming<I, X>,
    R: Wait,
>(rt: &R, alloc: Global, encoder: &Encoder<'_, I, X, J>, seat: Seat, call: Call) -> (Seat, Answer) {
    match call {
        Call::Write { cell, value } => match update_of(alloc, cell, value) {
            Ok(update) => write(rt, alloc, encoder, seat, &update),
            Err(error) => (seat, Err(error)),
        },
        Call::Read { first, end } => match ArraySubset::from_ranges(alloc, &[first..end]) {
            Ok(subset) => read(rt, alloc, encoder, seat, &subset),
            Err(_) => (seat, Err(CodecError::OutOfMemory)),
        },
        Call::Erase => {
            let (seat, answer) = encoder.erase(rt, alloc, seat);
            (seat, place_alone(answer))
        }
    }
}

// A seat alone; or none, where there is no memory.
pub(crate) fn alone(alloc: Global, seat: Seat) -> Vec<Seat> {
    let mut seats = Vec::new(alloc);
    let _ = seats.push(seat);
    seats
}

// How a session ended: by which end, with how many events, which opening cells, which refusal, which receipt that does not agree, by
// seat and place, and which object was left.
#[derive(Drop)]
pub(crate) struct Ended {
    pub how: &'static str,
    pub events: usize,
    pub opening: Option<ArrayBytes<'static>>,
    pub error: Option<CodecError>,
    pub receipt: Option<(u64, u64)>,
    pub object: Option<Vec<u8>>,
}

impl Ended {
    fn of(how: &'static str, closed: Closed<FaultingHandle>, receipt: Option<(u64, u64)>) -> Self {
        let Closed {
            handle,
            opening,
            history,
        } = closed;
        Ended {
            how,
            events: history.len(),
            opening: Some(opening),
            error: None,
            receipt,
            object: handle.into_inner(),
        }
    }

    fn by(how: &'static str, handle: FaultingHandle, error: CodecError) -> Self {
        Ended {
            how,
            events: 0,
            opening: None,
            error: Some(error),
            receipt: None,
            object: handle.into_inner(),
        }
    }

    // One that was refused when it was opened.
    pub(crate) fn refused(handle: FaultingHandle, error: CodecError) -> Self {
        Ended::by("refused", handle, error)
    }

    // The cells that it opened with.
    pub(crate) fn opening_cells(&self) -> &[u8] {
        match &self.opening {
            Some(cells) => cells.fixed_bytes().unwrap_or(&[]),
            None => &[],
        }
    }
}

// How a session ended.
pub(crate) fn how_it_ended(
    end: Result<Closed<FaultingHandle>, CloseError<FaultingHandle>>,
) -> Ended {
    match end {
        Ok(closed) => Ended::of("closed", closed, None),
        Err(CloseError::SeatsMissing(closed)) => Ended::of("seats missing", closed, None),
        Err(
            CloseError::ReceiptMismatch {
                closed,
                seat,
                place,
            },
        ) => Ended::of("mismatch", closed, Some((seat, place))),
        Err(CloseError::Session(handle, error)) => Ended::by("failed", handle, error),
    }
}
