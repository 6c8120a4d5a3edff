// Whether the shards of an array are sound.
use crate::checked::{Checked, Found, Told, write_end, write_end_lines};
use crate::checking_pieces::check_all;
use array_cli::{
    Array, Ending, OpenShard, Output, Place, Progress, Shard, ShardFile, Stop, Workers,
    check_subchunk, written,
};
use array_folder::{ChunkFile, ChunkFiles, Listing};
use parts_errors::CodecError;
use std::io;
use std::thread::Threads;
use storage_handles::BytesPartialDecoderTraits;

// What reading the subchunks of a shard came to.
#[derive(Clone, Copy)]
struct Read {
    // how many are present
    present: u64,
    is_refused: bool,
    // how many have a bad index entry, and the first of these
    bad: u64,
    first_bad: u64,
    // behind which nothing more could be read, and why
    last: Option<(u64, CodecError)>,
}

impl Read {
    // Nothing was read.
    fn nothing() -> Self {
        Read {
            present: 0,
            is_refused: false,
            bad: 0,
            first_bad: 0,
            last: None,
        }
    }

    // A subchunk more has a bad index entry.
    fn add_bad(&mut self, number: u64) {
        if self.bad == 0 {
            self.first_bad = number;
        }
        self.bad = self.bad.saturating_add(1);
        self.is_refused = true;
    }
}

// Tells that a subchunk of a shard is refused.
fn tell_subchunk(
    array: &Array<'_>,
    shard: &Shard<'_>,
    error: CodecError,
    number: u64,
    told: &mut Told<'_>,
) -> Result<(), Stop> {
    let refusal = array.refusal_at(shard, error, Place::Subchunk(number))?;
    told.tell(&refusal)
}

// Reads each subchunk of a shard, and goes on behind one that is refused.
fn check_each<'a>(
    array: &Array<'a>,
    shard: &Shard<'_>,
    checked: &Checked,
    opened: &mut OpenShard<'a>,
    told: &mut Told<'_>,
) -> Result<Read, Stop> {
    let count = array.subchunks.num_elements().unwrap_or(u64::MAX);
    let before = checked.shards.saturating_mul(count);
    let all = checked.all.saturating_mul(count);
    let mut read = Read::nothing();
    for number in 0..count {
        told.progress.step(before.saturating_add(number), all);
        match check_subchunk(array, checked.is_index_alone, opened, number) {
            Ok(is_present) => read.present = read.present.saturating_add(is_present as u64),
            Err(CodecError::BadIndexEntry { number }) => read.add_bad(number),
            Err(error) if matches!(error, CodecError::Fault | CodecError::OutOfMemory) => {
                read.last = Some((number, error));
                break;
            }
            Err(error) => {
                tell_subchunk(array, shard, error, number, told)?;
                read.is_refused = true;
            }
        }
    }
    Ok(read)
}

// Tells the bad index entries of a shard on one line, if there are some.
fn tell_bad(
    array: &Array<'_>,
    shard: &Shard<'_>,
    read: &Read,
    told: &mut Told<'_>,
) -> Result<(), Stop> {
    if read.bad == 0 {
        return Ok(());
    }
    let number = read.first_bad;
    let error = CodecError::BadIndexEntry { number };
    let mut refusal = array.refusal_at(shard, error, Place::Subchunk(number))?;
    refusal.others = read.bad.saturating_sub(1);
    told.tell(&refusal)
}

// Tells the subchunk behind which nothing more could be read of a shard, if there is one.
fn tell_last<'a>(
    array: &Array<'a>,
    shard: &Shard<'_>,
    file: &ShardFile<'a>,
    last: Option<(u64, CodecError)>,
    told: &mut Told<'_>,
) -> Result<(), Stop> {
    if let Some((number, error)) = last {
        let refusal = array.refusal(shard, file, error, Place::Subchunk(number))?;
        told.tell(&refusal)?;
    }
    Ok(())
}

// Tells what reading the subchunks of a shard came to, which has this file.
fn tell_read<'a>(
    array: &Array<'a>,
    shard: &Shard<'_>,
    file: &ShardFile<'a>,
    read: Read,
    told: &mut Told<'_>,
) -> Result<Found, Stop> {
    tell_bad(array, shard, &read, told)?;
    tell_last(array, shard, file, read.last, told)?;
    Ok(Found {
        present: read.present,
        is_refused: read.is_refused,
    })
}

// Reads each subchunk of a shard that is open.
fn check_opened<'a>(
    array: &Array<'a>,
    shard: &Shard<'_>,
    checked: &Checked,
    mut opened: OpenShard<'a>,
    told: &mut Told<'_>,
) -> Result<Found, Stop> {
    let read = check_each(array, shard, checked, &mut opened, told);
    let file = opened.close();
    tell_read(array, shard, &file, read?, told)
}

// Opens the shard that a file holds, and reads each subchunk.
fn found_in<'a>(
    array: &Array<'a>,
    shard: &Shard<'_>,
    file: ShardFile<'a>,
    checked: &Checked,
    told: &mut Told<'_>,
) -> Result<Found, Stop> {
    match array.open_shard(shard, file)? {
        Ok(opened) => check_opened(array, shard, checked, opened, told),
        Err(refusal) => {
            told.tell(&refusal)?;
            Ok(Found {
                present: 0,
                is_refused: true,
            })
        }
    }
}

// Checks the shard that a file holds, which is there.
fn check_file<'a>(
    array: &Array<'a>,
    shard: &Shard<'_>,
    file: ShardFile<'a>,
    checked: &mut Checked,
    told: &mut Told<'_>,
) -> Result<(), Stop> {
    let found = found_in(array, shard, file, checked, told)?;
    checked.add(&found);
    told.tell_shard(shard.key, &found, checked.ending(true))
}

// Opens a shard and reads each subchunk. Where its file is gone, nothing is to be checked.
fn check_shard(
    array: &Array<'_>,
    shard: &Shard<'_>,
    checked: &mut Checked,
    told: &mut Told<'_>,
) -> Result<(), Stop> {
    let mut file = if checked.is_index_alone {
        array.file(shard.key)?
    } else {
        array.whole_file(shard.key)?
    };
    match file.exists() {
        Ok(true) => check_file(array, shard, file, checked, told),
        Ok(false) => Ok(()),
        Err(error) => Err(array.stop(shard, &file, error, Place::Shard)),
    }
}

/// Checks the shards in these files, one after the other.
pub fn check_each_file(
    array: &Array<'_>,
    files: &[ChunkFile],
    checked: &mut Checked,
    told: &mut Told<'_>,
) -> Result<(), Stop> {
    for file in files {
        check_shard(array, &Shard::in_file(file), checked, told)?;
    }
    Ok(())
}

// Writes what was checked, and what else stands in the folder.
fn write_checked(
    array: &Array<'_>,
    out: &mut Output,
    files: &ChunkFiles,
    checked: &Checked,
    is_json: bool,
) -> io::Result<()> {
    let unread = array.unread()?;
    let unread = unread.as_ref().map(String::as_str);
    if is_json {
        write_end_lines(out, files, checked, unread)
    } else {
        write_end(array, out, files, checked, unread)
    }
}

/// Decodes each index of the shards that a part has, and each subchunk if its codec is served and the indexes are not all that is
/// asked, by threads; writes a line for each that is refused, in the order of the shards, what else stands in the folder, how many
/// subchunks were not looked into, and what was checked.
pub fn check<T: Threads + Sync>(
    array: &Array<'_>,
    is_index_asked: bool,
    listing: &Listing,
    workers: &Workers<'_, T>,
    out: &mut Output,
    progress: &mut Progress,
) -> Result<Ending, Stop> {
    let files = array.files_in(&listing.part)?;
    let mut told = Told {
        out,
        progress,
        is_json: listing.is_json,
    };
    let is_index_alone = is_index_asked || array.metadata.unread.is_some();
    let mut checked = Checked::none(files.chunks.len() as u64, is_index_alone);
    check_all(array, &files.chunks, workers, &mut checked, &mut told)?;
    told.progress.clear();
    let ending = checked.ending(is_index_asked);
    let wrote = write_checked(array, told.out, &files, &checked, listing.is_json);
    written(wrote, ending)?;
    Ok(ending)
}
