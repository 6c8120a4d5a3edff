// The bytes of a subchunk as they are stored.
use array_cli::{Array, Ending, OpenShard, Output, Place, Shard, Stop, shard_of, written};
use array_fields::escaped;
use parts_errors::CodecError;
use parts_row_major::unravel_index;
use std::io::Write;

// The number of a subchunk that a word is.
fn number_of(array: &Array<'_>, word: &str) -> Result<u64, Stop> {
    let count = array.subchunks.num_elements().unwrap_or(u64::MAX);
    match word.parse::<u64>() {
        Ok(number) if number < count => Ok(number),
        _ => Err(Stop::NoSubchunk {
            number: escaped(array.alloc(), word)?,
            last: count.saturating_sub(1),
        }),
    }
}

// The bytes of the subchunk with this number; `None` where it is absent.
fn stored<'a>(
    array: &Array<'a>,
    opened: &mut OpenShard<'a>,
    number: u64,
) -> Result<Option<Vec<u8>>, CodecError> {
    let alloc = array.alloc();
    match unravel_index(alloc, number, array.subchunks.as_slice())? {
        Some(subchunk) => opened.stored_bytes(alloc, &subchunk),
        None => Ok(None),
    }
}

// The bytes of a subchunk of a shard that is open.
fn extracted<'a>(
    array: &Array<'a>,
    shard: &Shard<'_>,
    number: u64,
    mut opened: OpenShard<'a>,
) -> Result<Vec<u8>, Stop> {
    let bytes = stored(array, &mut opened, number);
    let file = opened.close();
    match bytes {
        Ok(Some(bytes)) => Ok(bytes),
        Ok(None) => Err(Stop::Absent {
            key: String::from_str(array.alloc(), shard.key)?,
            number,
        }),
        Err(error) => Err(array.stop(shard, &file, error, Place::reading(&error))),
    }
}

// The bytes of a subchunk of the shard that has a key.
fn extracted_of_key(array: &Array<'_>, key: &str, number: &str) -> Result<Vec<u8>, Stop> {
    let files = array.files()?;
    let shard = shard_of(array, &files, key)?;
    let number = number_of(array, number)?;
    let opened = array.opened(&shard, array.file(shard.key)?)?;
    extracted(array, &shard, number, opened)
}

/// Writes the bytes of a subchunk as they are stored, by the key of its shard and its row-major number in it. Refused where no
/// shard has the key, where the word is no number of a subchunk, where the index is refused or its entry of the subchunk, and
/// where the subchunk is absent.
pub fn extract(
    array: &Array<'_>,
    key: &str,
    number: &str,
    out: &mut Output,
) -> Result<Ending, Stop> {
    let bytes = extracted_of_key(array, key, number)?;
    written(out.write_all(&bytes), Ending::Done)?;
    Ok(Ending::Done)
}
