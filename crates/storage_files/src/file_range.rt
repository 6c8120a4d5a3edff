// A range of the bytes of a file.
use crate::entries::file_length;
use crate::interval::interval_of;
use crate::system::{length_of, open_to_read, read_at};
use std::fs::OpenFile;
use std::io;
use std::io::{Read, Seek, SeekFrom};
use std::rt::Files;
use storage_handles::ByteRange;

// Moves an open file to an offset above 0, counted from its end, and says whether it holds as many bytes as a length says, which is no less.
fn is_moved<F: Seek>(file: &mut F, offset: u64, length: u64) -> bool {
    let Ok(behind) = i64::try_from(length.saturating_sub(offset)) else {
        return false;
    };
    let from_end = SeekFrom::End(0i64.saturating_sub(behind));
    file.seek(from_end).is_ok_and(|place| place == offset)
}

// Moves an open file to its start, and says whether it holds as many bytes as a length says, and some.
fn is_rewound<F: Seek>(file: &mut F, length: u64) -> bool {
    let ends = file.seek(SeekFrom::End(0)).is_ok_and(|end| end == length);
    length > 0 && ends && file.seek(SeekFrom::Start(0)).is_ok()
}

// Moves an open file to an offset, and says whether it is known by that as the regular file of a length that stood at its path: one of
// another length is none, nor is what has no places, as a FIFO, nor a device, which tells of each place that it is 0.
fn is_found<F: Seek>(file: &mut F, offset: u64, length: u64) -> bool {
    if offset > 0 {
        is_moved(file, offset, length)
    } else {
        is_rewound(file, length)
    }
}

// Reads a range of an open file into the room, and gives the file's length. At its path stood a regular file of a length when it was opened;
// where it is not known as that, the system is asked what it is.
fn read_open<F: OpenFile + Read + Seek>(
    file: &mut F,
    found: u64,
    range: ByteRange,
    room: &mut Vec<u8>,
) -> io::Result<u64> {
    if let Ok(interval) = interval_of(range, found)
        && is_found(file, interval.offset, found)
    {
        room.resize(interval.size as usize, 0)?;
        file.read_exact(room.as_mut_slice())?;
        return Ok(found);
    }
    let length = length_of(file)?;
    if let Ok(interval) = interval_of(range, length) {
        room.resize(interval.size as usize, 0)?;
        read_at(file, interval.offset, room.as_mut_slice())?;
    }
    Ok(length)
}

/// Reads a range of the regular file at a path into a room, and gives the length of the file; or `None` where nothing of that name
/// is there. The room has no bytes where there is no file, and where the range passes it. Refused as `file_length` refuses.
pub fn read_file_range<R: Files>(
    files: &R,
    path: &str,
    range: ByteRange,
    room: &mut Vec<u8>,
) -> io::Result<Option<u64>> {
    room.clear();
    let Some(found) = file_length(files, path)? else {
        return Ok(None);
    };
    let Some(mut file) = open_to_read(files, path)? else {
        return Ok(None);
    };
    Ok(Some(read_open(&mut file, found, range, room)?))
}
