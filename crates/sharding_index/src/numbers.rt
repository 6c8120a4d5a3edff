// The numbers of an index: from the elements of an array and back, and from slots.
ghost use Rattle.std.specs.Prelude.{◌≡◌, ◌<◌, ◌*◌, ◌/◌, ◌^◌, ◌++◌, ℕ, IfOk, IfErr, OnOk, map, length, slice_index_or};
ghost use Rattle.std.specs.List.{All, concat};
ghost use Rattle.std.specs.Simd.{first_chunks};
ghost use Rattle.parts_arrays.specs.declared.data_type.DataTypeSize.TheVariants.{Fixed};
ghost use Rattle.parts_errors.specs.declared.error.CodecError.TheVariants.{OutOfMemory};
ghost use Rattle.sharding_format.specs.Index.{number_of_element, element_of_number};
ghost use Rattle.sharding_format.specs.Laying.{offset_number, size_number, EndsBelow, AreNumbersOf};
ghost use Rattle.sharding_format.specs.declared.slot.Slot.TheVariants.{Bad};

use parts_arrays::ArrayBytes;
use parts_errors::CodecError;
use sharding_format::Slot;
use std::alloc::{AllocError, Global};
use std::borrow::CowSlice;

// The numbers that bytes are, of eight bytes each.
fn numbers_of_bytes(alloc: Global, bytes: &[u8]) -> Result<Vec<u64>, AllocError>
    ensures { IfOk result (λ numbers. numbers.items ≡ map number_of_element (first_chunks 8 (length bytes.now / 8) bytes.now)) }
{
    let (chunks, _) = bytes.as_chunks::<8>();
    chunks
        .iter()
        .map(|chunk| u64::from_le_bytes(*chunk))
        .collect(alloc)
}

// Writes the numbers that pieces of eight bytes are over others.
fn read_numbers(numbers: &mut [u64], pieces: &[[u8; 8]])
    requires { length numbers.old ≡ length pieces.now }
    ensures { numbers.new ≡ map number_of_element pieces.now }
{
    for k in 0..pieces.len() {
        numbers[k] = u64::from_le_bytes(pieces[k]);
    }
}

// Puts the numbers that bytes are, of eight bytes each, behind others.
pub(crate) fn append_numbers(numbers: &mut Vec<u64>, bytes: &[u8]) -> Result<(), AllocError>
    ensures { OnOk result (numbers.new.items
        ≡ numbers.old.items ++ map number_of_element (first_chunks 8 (length bytes.now / 8) bytes.now)) }
{
    let (pieces, _) = bytes.as_chunks::<8>();
    let before = numbers.len();
    numbers.resize(before + pieces.len(), 0)?;
    read_numbers(&mut numbers[before..], pieces);
    Ok(())
}

// The numbers that an array's elements are.
pub(crate) fn numbers_of_array(alloc: Global, index: &ArrayBytes) -> Result<Vec<u64>, CodecError>
    requires { All (λ e. length e ≡ 8) index.now.elements }
    ensures refused { IfErr result (λ e. e ≡ OutOfMemory) }
    ensures numbers { IfOk result (λ numbers. numbers.items ≡ map number_of_element index.now.elements) }
{
    let numbers = numbers_of_bytes(alloc, index.bytes())?;
    Ok(numbers)
}

/// The pair of the index that names a slot of the data part, which begins at `start`: its offset and its size.
pub fn entry_of(slot: Slot, start: u64) -> (u64, u64)
    requires { EndsBelow start slot }
    ensures offset { result.0 ≡ offset_number start slot }
    ensures size { result.1 ≡ size_number slot }
{
    match slot {
        Slot::Absent => (u64::MAX, u64::MAX),
        Slot::InRange { offset, size } => (start + offset, size),
        Slot::Bad => (0, 0),
    }
}

// The numbers of the index of these slots.
pub(crate) fn numbers_of_slots(
    alloc: Global,
    slots: &[Slot],
    start: u64,
) -> Result<Vec<u64>, CodecError>
    requires { (k : ℕ) → k < length slots.now → EndsBelow start (slice_index_or slots.now k Bad) }
    ensures refused { IfErr result (λ e. e ≡ OutOfMemory) }
    ensures numbers { IfOk result (λ numbers. AreNumbersOf start slots.now numbers.items (length slots.now)) }
    ensures below { IfOk result (λ numbers. All (λ n. n < 2 ^ 64) numbers.items) }
{
    let mut numbers = Vec::with_capacity(alloc, 2 * slots.len())?;
    for k in 0..slots.len() {
        let (offset, size) = entry_of(slots[k], start);
        numbers.push_reserved(offset);
        numbers.push_reserved(size);
    }
    Ok(numbers)
}

// How many numbers are written at a time, by one copy of memory.
const BLOCK: usize = 256;

// The bytes of each number of a block.
fn elements_of(numbers: &[u64]) -> [[u8; 8]; BLOCK]
    requires { length numbers.now ≡ 256 }
    ensures { result ≡ map element_of_number numbers.now }
{
    let mut elements = [[0; 8]; BLOCK];
    for k in 0..BLOCK {
        elements[k] = numbers[k].to_le_bytes();
    }
    elements
}

// Writes numbers over bytes, eight for each, one by one.
fn write_each(bytes: &mut [u8], numbers: &[u64])
    requires { length bytes.old ≡ length numbers.now * 8 }
    ensures { bytes.new ≡ concat (map element_of_number numbers.now) }
{
    for k in 0..numbers.len() {
        let from = k * 8;
        bytes[from..from + 8].copy_from_slice(&numbers[k].to_le_bytes());
    }
}

// Writes numbers over bytes, eight for each.
fn write_numbers(bytes: &mut [u8], numbers: &[u64])
    requires { length bytes.old ≡ length numbers.now * 8 }
    ensures { bytes.new ≡ concat (map element_of_number numbers.now) }
{
    let count = numbers.len() / BLOCK;
    for k in 0..count {
        let first = k * BLOCK;
        let elements = elements_of(&numbers[first..first + BLOCK]);
        bytes[first * 8..(first + BLOCK) * 8].copy_from_slice(elements.as_flattened());
    }
    let done = count * BLOCK;
    write_each(&mut bytes[done * 8..], &numbers[done..]);
}

// The bytes of these numbers, eight of each, one after the other.
pub(crate) fn bytes_of_numbers(alloc: Global, numbers: &[u64]) -> Result<Vec<u8>, AllocError>
    ensures { IfOk result (λ bytes. bytes.items ≡ concat (map element_of_number numbers.now)) }
{
    let mut bytes = Vec::from_elem(alloc, 0u8, numbers.len() * 8)?;
    write_numbers(&mut bytes, numbers);
    Ok(bytes)
}

// The array whose elements are these numbers, of which the bytes are lent.
pub(crate) fn array_of_numbers<'a>(bytes: &'a [u8], _numbers: &[u64]) -> ArrayBytes<'a>
    requires { bytes.now ≡ concat (map element_of_number _numbers.now) }
    ensures kind { result.kind ≡ Fixed 8 }
    ensures elements { result.elements ≡ map element_of_number _numbers.now }
{
    match ArrayBytes::new_flen(CowSlice::Borrowed(bytes), 8) {
        Some(array) => array,
        None => unreachable!(),
    }
}
