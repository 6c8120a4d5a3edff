// Elements of one size, one after the other in bytes.
ghost use Rattle.std.specs.Prelude.{◌≡◌, ℕ, ◌+◌, ◌*◌, ◌^◌, ◌<◌, ◌≤◌, ◌≢◌, ◌++◌, OnOk, OnErr, length, take};
ghost use Rattle.std.specs.List.{flat_map, range_with_len};
ghost use Rattle.parts_row_major.specs.Numbering.{count_of};
ghost use Rattle.parts_row_major.specs.Subsets.{number_in, IsServed};
ghost use Rattle.parts_row_major.specs.Pieces.{piece, IsUpdated};

use parts_subsets::ArraySubset;
use std::alloc::AllocError;

/// The piece at a place.
pub fn piece_at(bytes: &[u8], size: usize, i: usize) -> &[u8]
    requires { i * size + size ≤ length bytes.now }
    ensures { result.now ≡ piece size bytes.now i }
{
    let from = i * size;
    &bytes[from..from + size]
}

// Writes over the piece at a place.
fn write_piece(bytes: &mut [u8], size: usize, i: usize, with: &[u8])
    requires inside { i * size + size ≤ length bytes.old }
    requires whole { length with.now ≡ size }
    ensures written { piece size bytes.new i ≡ with.now }
    ensures others { (k : ℕ) → k ≢ i → piece size bytes.new k ≡ piece size bytes.old k }
{
    let from = i * size;
    bytes[from..from + size].copy_from_slice(with);
}

// Writes bytes over as many others, of a number that is known when it is compiled. They go by a value of their own, which lies
// apart from the others, so that nothing tests whether the two overlap.
#[inline(always)]
fn copy_exactly<const N: usize>(to: &mut [u8], from: &[u8])
    requires taken { length from.now ≡ N }
    requires whole { length to.old ≡ N }
    ensures { to.new ≡ from.now }
{
    let Some(first) = from.first_chunk::<N>() else {
        unreachable!()
    };
    let first = *first;
    let Some(front) = to.first_chunk_mut::<N>() else {
        unreachable!()
    };
    *front = first;
}

// Writes bytes over as many others, of which there are so many at least, and at most twice as many: the first so many, and the
// last so many, some of which may be both.
#[inline(always)]
fn copy_ends<const M: usize>(to: &mut [u8], from: &[u8])
    requires same { length from.now ≡ length to.old }
    requires least { M ≤ length from.now }
    requires most { length from.now ≤ 2 * M }
    ensures { to.new ≡ from.now }
{
    let rest = from.len() - M;
    copy_exactly::<M>(&mut to[..M], &from[..M]);
    copy_exactly::<M>(&mut to[rest..rest + M], &from[rest..rest + M]);
}

// Writes bytes over as many others. The first number, where it isn't 0, is how many they are, known when it is compiled; the
// second, where it isn't 0, is one that they are no fewer than, and at most twice as many.
#[inline(always)]
fn copy_bytes<const N: usize, const M: usize>(to: &mut [u8], from: &[u8])
    requires same { length from.now ≡ length to.old }
    requires known { N ≢ 0 → length from.now ≡ N }
    requires least { M ≤ length from.now }
    requires most { M ≢ 0 → length from.now ≤ 2 * M }
    ensures { to.new ≡ from.now }
{
    if N != 0 {
        copy_exactly::<N>(to, from);
    } else if M != 0 {
        copy_ends::<M>(to, from);
    } else {
        to.copy_from_slice(from);
    }
}

// Adds the first bytes of others behind bytes, by a copy of so many, of which what is too much is taken back. They go by a value
// of their own, which lies apart from the bytes, so that nothing tests whether the two overlap.
#[inline(always)]
fn push_exactly<const N: usize>(
    bytes: &mut Vec<u8>,
    from: &[u8],
    len: usize,
) -> Result<(), AllocError>
    requires within { len ≤ N }
    requires enough { N ≤ length from.now }
    ensures ok { OnOk result (bytes.new.items ≡ bytes.old.items ++ take len from.now) }
    ensures err { OnErr result (bytes.new.items ≡ bytes.old.items) }
{
    let Some(first) = from.first_chunk::<N>() else {
        unreachable!()
    };
    let end = bytes.len() + len;
    let first = *first;
    bytes.extend_from_slice(&first)?;
    bytes.truncate(end);
    Ok(())
}

// Copies a run of elements over another. The first number, where it isn't 0, is how many bytes they have; the second, where it
// isn't 0, one that these are no fewer than, and at most twice as many.
#[inline(always)]
pub(crate) fn copy_run<const N: usize, const M: usize>(
    output: &mut [u8],
    size: usize,
    first: usize,
    update: &[u8],
    from: usize,
    len: usize,
)
    requires inside { (first + len) * size ≤ length output.old }
    requires inside_update { (from + len) * size ≤ length update.now }
    requires known { N ≢ 0 → len * size ≡ N }
    requires least { M ≤ len * size }
    requires most { M ≢ 0 → len * size ≤ 2 * M }
    ensures written { (r : ℕ) → r < len → piece size output.new (first + r) ≡ piece size update.now (from + r) }
    ensures before { (i : ℕ) → i < first → piece size output.new i ≡ piece size output.old i }
    ensures after { (i : ℕ) → first + len ≤ i → piece size output.new i ≡ piece size output.old i }
{
    let bytes = len * size;
    let to = first * size;
    let taken = from * size;
    copy_bytes::<N, M>(&mut output[to..to + bytes], &update[taken..taken + bytes]);
}

/// Adds the first bytes of others, so many, behind bytes: where they are few and both have room, by one copy of sixteen or of 32,
/// of which what is too much is taken back. Refused only as out of memory; the bytes are then as they were.
#[inline(always)]
pub fn push_front(bytes: &mut Vec<u8>, from: &[u8], len: usize) -> Result<(), AllocError>
    requires { len ≤ length from.now }
    ensures ok { OnOk result (bytes.new.items ≡ bytes.old.items ++ take len from.now) }
    ensures err { OnErr result (bytes.new.items ≡ bytes.old.items) }
{
    let room = (bytes.capacity() - bytes.len()).min(from.len());
    if len <= 16 && room >= 16 {
        return push_exactly::<16>(bytes, from, len);
    }
    if len <= 32 && room >= 32 {
        return push_exactly::<32>(bytes, from, len);
    }
    bytes.extend_from_slice(&from[..len])
}

/// Writes one element at each point of a subset.
pub fn fill_subset(
    output: &mut [u8],
    size: usize,
    subset: &ArraySubset,
    shape: &[u64],
    element: &[u8],
)
    requires served { IsServed subset.now shape.now }
    requires whole { length output.old ≡ count_of shape.now * size }
    requires whole_element { length element.now ≡ size }
    ensures { IsUpdated (count_of subset.now.shape) (number_in subset.now shape.now) (piece size output.old) (λ k. element.now) (piece size output.new) }
{
    for (first, len) in subset.runs_in(shape) {
        fill_run(output, size, first as usize, len as usize, element);
    }
}

/// Writes one element at each place of a run: once, and then what is written so far behind itself.
pub fn fill_run(output: &mut [u8], size: usize, first: usize, len: usize, element: &[u8])
    requires inside { (first + len) * size ≤ length output.old }
    requires fits { first + len < 2 ^ 64 }
    requires whole { length element.now ≡ size }
    ensures written { (r : ℕ) → r < len → piece size output.new (first + r) ≡ element.now }
    ensures before { (i : ℕ) → i < first → piece size output.new i ≡ piece size output.old i }
    ensures after { (i : ℕ) → first + len ≤ i → piece size output.new i ≡ piece size output.old i }
{
    if len == 0 {
        return;
    }
    write_piece(output, size, first, element);
    let mut done = 1;
    while done < len {
        let more = done.min(len - done);
        repeat_run(output, size, first, first + done, more);
        done += more;
    }
}

// Copies a run of elements over a later one.
fn repeat_run(output: &mut [u8], size: usize, from: usize, to: usize, len: usize)
    requires later { from + len ≤ to }
    requires inside { (to + len) * size ≤ length output.old }
    ensures written { (r : ℕ) → r < len → piece size output.new (to + r) ≡ piece size output.old (from + r) }
    ensures before { (i : ℕ) → i < to → piece size output.new i ≡ piece size output.old i }
    ensures after { (i : ℕ) → to + len ≤ i → piece size output.new i ≡ piece size output.old i }
{
    let bytes = len * size;
    let taken = from * size;
    let (front, back) = output.split_at_mut(to * size);
    back[..bytes].copy_from_slice(&front[taken..taken + bytes]);
}

/// The elements of one run.
pub fn run_at(bytes: &[u8], size: usize, first: usize, len: usize) -> &[u8]
    requires { (first + len) * size ≤ length bytes.now }
    ensures { result.now ≡ flat_map (piece size bytes.now) (range_with_len first len) }
{
    let from = first * size;
    &bytes[from..from + len * size]
}
