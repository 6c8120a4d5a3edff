// Writes to an object in memory, in place.
ghost use Rattle.std.specs.Prelude.{◌≡◌, ◌≤◌, ◌<◌, ◌+◌, ◌-◌, ◌++◌, ◌^◌, Some, IfOk, IfErr, OnOk, OnErr, length, replicate};
ghost use Rattle.std.specs.Vec.{vec_capacity};
ghost use Rattle.parts_errors.specs.declared.error.CodecError.TheVariants.{TooLarge};
ghost use Rattle.storage_handles.specs.Handles.{in_memory};
ghost use Rattle.storage_handles.specs.Writes.{RefusesWrite, written_at, written_all};

use super::MemoryHandle;
use crate::writing::BytesPartialEncoderTraits;
use parts_errors::CodecError;
use std::alloc::Global;

// The length that an object of these bytes has once the pieces are written. Refused as `TooLarge` where it would reach
// `usize::MAX`.
fn length_after(bytes: &[u8], pieces: &[(u64, &[u8])]) -> Result<usize, CodecError>
    ensures length { IfOk result (λ n. n ≡ length (written_all pieces.now bytes.now)) }
    ensures too_large { IfErr result (λ e. (e ≡ TooLarge) × (2 ^ 64 ≤ length (written_all pieces.now bytes.now) + 1)) }
{
    let mut length = bytes.len();
    for piece in pieces {
        let size = piece.1.len() as u64;
        if piece.0 >= u64::MAX - size {
            return Err(CodecError::TooLarge);
        }
        length = length.max((piece.0 + size) as usize);
    }
    Ok(length)
}

// Adds zeros where bytes end before an offset, up to which they have room.
fn fill_gap(bytes: &mut Vec<u8>, offset: usize)
    requires { offset ≤ vec_capacity bytes.old }
    ensures filled { bytes.new.items ≡ bytes.old.items ++ replicate (offset - length bytes.old.items) 0 }
    ensures room { vec_capacity bytes.old ≤ vec_capacity bytes.new }
{
    if bytes.len() < offset {
        let Ok(()) = bytes.resize(offset, 0) else {
            unreachable!()
        };
    }
}

// Writes a piece into bytes that have room for it: over those that are there, and behind them.
fn put_piece(bytes: &mut Vec<u8>, offset: usize, piece: &[u8])
    requires { offset + length piece.now ≤ vec_capacity bytes.old }
    ensures written { bytes.new.items ≡ written_at offset piece.now bytes.old.items }
    ensures room { vec_capacity bytes.old ≤ vec_capacity bytes.new }
{
    fill_gap(bytes, offset);
    let over = piece.len().min(bytes.len() - offset);
    bytes[offset..offset + over].copy_from_slice(&piece[..over]);
    let Ok(()) = bytes.extend_from_slice(&piece[over..]) else {
        unreachable!()
    };
}

// Writes pieces into bytes that have room for them.
fn put_pieces(bytes: &mut Vec<u8>, pieces: &[(u64, &[u8])])
    requires { length (written_all pieces.now bytes.old.items) ≤ vec_capacity bytes.old }
    ensures { bytes.new.items ≡ written_all pieces.now bytes.old.items }
{
    for piece in pieces {
        put_piece(bytes, piece.0 as usize, piece.1);
    }
}

// Writes pieces into the bytes, which grow as they need to.
fn write_into(bytes: &mut Vec<u8>, pieces: &[(u64, &[u8])]) -> Result<(), CodecError>
    ensures written { OnOk result (bytes.new.items ≡ written_all pieces.now bytes.old.items) }
    ensures fits { OnOk result (length (written_all pieces.now bytes.old.items) + 1 < 2 ^ 64) }
    ensures kept { OnErr result (bytes.new.items ≡ bytes.old.items) }
    ensures refused { IfErr result (RefusesWrite (length (written_all pieces.now bytes.old.items)) (in_memory (Some bytes.old.items)) (in_memory (Some bytes.new.items))) }
{
    let length = length_after(bytes.as_slice(), pieces)?;
    bytes.reserve(length - bytes.len())?;
    put_pieces(bytes, pieces);
    Ok(())
}

impl BytesPartialEncoderTraits for MemoryHandle {
    fn partial_encode_many(
        &mut self,
        alloc: Global,
        pieces: &[(u64, &[u8])],
    ) -> Result<(), CodecError> {
        match &mut self.object {
            Some(bytes) => write_into(bytes, pieces),
            None => {
                let mut bytes = Vec::new(alloc);
                write_into(&mut bytes, pieces)?;
                self.object = Some(bytes);
                Ok(())
            }
        }
    }

    fn replace(&mut self, alloc: Global, bytes: &[u8]) -> Result<(), CodecError> {
        self.object = Some(Vec::from_slice(alloc, bytes)?);
        Ok(())
    }

    fn erase(&mut self) -> Result<(), CodecError> {
        self.object = None;
        Ok(())
    }

    fn supports_partial_encode(&self) -> bool {
        true
    }
}
