// The elements that are written into an array, from a file.
use array_cli::{Array, Stop};
use array_fields::escaped;
use array_folder::npy_header;
use array_grid::Requested;
use std::alloc::Global;
use std::io;
use std::io::ErrorKind;
use storage_files::{file_length, read_file_range};
use storage_handles::ByteRange;

/// A file of elements, by its path.
#[derive(Clone, Copy)]
pub enum ElementsFile<'f> {
    /// Of NumPy's format.
    Npy(&'f str),
    /// Of the bytes of the elements and nothing else, least significant first.
    Raw(&'f str),
}

impl<'f> ElementsFile<'f> {
    // Its path.
    fn path(self) -> &'f str {
        match self {
            ElementsFile::Npy(path) | ElementsFile::Raw(path) => path,
        }
    }
}

/// A file's bytes, of which the first ones are no elements.
#[derive(Drop)]
pub struct FileElements {
    bytes: Vec<u8>,
    header: usize,
}

impl FileElements {
    /// The bytes of the elements.
    pub fn as_slice(&self) -> &[u8] {
        self.bytes.get(self.header..).unwrap_or(&[])
    }
}

// The mark of NumPy's format.
const MARK: &[u8] = b"\x93NUMPY";

// The most bytes of a file before its elements.
const LONGEST_HEADER: u64 = 65_546;

// Where the description of a file of NumPy's format begins and ends, by its version (its format, "Format Version 1.0" and later).
fn description_range(file: &[u8]) -> Option<(usize, usize)> {
    if !file.starts_with(MARK) {
        return None;
    }
    let (start, length) = match file.get(6..12)? {
        [1, _, low, high, ..] => (10usize, u16::from_le_bytes([*low, *high]) as usize),
        [2 | 3, _, a, b, c, d] => (12usize, u32::from_le_bytes([*a, *b, *c, *d]) as usize),
        _ => return None,
    };
    let end = start.checked_add(length)?;
    if end > file.len() {
        return None;
    }
    Some((start, end))
}

// The description of a file of NumPy's format, and where its elements begin.
fn described(file: &[u8]) -> Option<(&str, usize)> {
    let (start, end) = description_range(file)?;
    let text = str::from_utf8(file.get(start..end)?).ok()?;
    Some((text.trim_end(), end))
}

// The length of the regular file at a path.
fn length_of(rt: &HostRuntime, path: &str) -> io::Result<u64> {
    match file_length(rt, path)? {
        Some(length) => Ok(length),
        None => Err(io::Error::new(ErrorKind::NotFound, "is not there")),
    }
}

// The bytes of a file that has a length.
fn read_all(rt: &HostRuntime, path: &str, length: u64) -> io::Result<Vec<u8>> {
    let mut room = Vec::new(rt.alloc());
    let whole = ByteRange::FromStart(0, Some(length));
    let _ = read_file_range(rt, path, whole, &mut room)?;
    Ok(room)
}

// What the system said of a file, with its path.
fn named<T: Drop>(alloc: Global, path: &str, answer: io::Result<T>) -> Result<T, Stop> {
    match answer {
        Ok(value) => Ok(value),
        Err(error) => Err(Stop::system(alloc, path, error)),
    }
}

// Why a file has not as many bytes of elements as are wanted.
fn wrong_length(alloc: Global, path: &str, length: u64, wanted: u64) -> Result<Stop, Stop> {
    Ok(Stop::Length {
        path: escaped(alloc, path)?,
        length,
        wanted,
    })
}

// The bytes of the file at a path: at most a header of a length, and the bytes of elements that are wanted.
fn read_file(rt: &HostRuntime, path: &str, wanted: u64, header: u64) -> Result<Vec<u8>, Stop> {
    let alloc = rt.alloc();
    let length = named(alloc, path, length_of(rt, path))?;
    if length > wanted.saturating_add(header) {
        return Err(wrong_length(alloc, path, length, wanted)?);
    }
    named(alloc, path, read_all(rt, path, length))
}

// How many bytes the elements of a subset take.
fn wanted_bytes(array: &Array<'_>, requested: &Requested) -> Result<u64, Stop> {
    let size = array.metadata.fill_value.as_ne_bytes().len() as u64;
    let count = requested.subset.num_elements().ok_or(Stop::TooLarge)?;
    count.checked_mul(size).ok_or(Stop::TooLarge)
}

/// The header of a file of NumPy's format, at a path, that has the elements that are requested of an array. Refused where memory ran out,
/// and as `npy_header` refuses.
pub fn header_of(array: &Array<'_>, requested: &Requested, path: &str) -> Result<Vec<u8>, Stop> {
    let alloc = array.alloc();
    let element_type = array.metadata.element_type;
    let shape = requested.kept_shape(alloc)?;
    let name = format!(in alloc; "{element_type}")?;
    let size = array.metadata.fill_value.as_ne_bytes().len();
    Ok(npy_header(alloc, path, &name, size, &shape)?)
}

// Where the elements of a file of NumPy's format begin. Refused as `Stop::Header` where it has not the description that is wanted.
fn header_length(alloc: Global, path: &str, bytes: &[u8], wanted: &str) -> Result<usize, Stop> {
    match described(bytes) {
        Some((text, header)) if text == wanted => Ok(header),
        _ => Err(Stop::Header {
            path: escaped(alloc, path)?,
            wanted: String::from_str(alloc, wanted)?,
        }),
    }
}

// The elements of a file of NumPy's format. Refused as `Stop::Header` where it has not the description of those that are wanted.
fn npy_elements(
    array: &Array<'_>,
    requested: &Requested,
    path: &str,
    wanted: u64,
) -> Result<FileElements, Stop> {
    let bytes = read_file(array.rt, path, wanted, LONGEST_HEADER)?;
    let header = header_of(array, requested, path)?;
    let description = described(&header).map_or("", |(text, _)| text);
    let header = header_length(array.alloc(), path, &bytes, description)?;
    Ok(FileElements { bytes, header })
}

// The elements of a file that has nothing else.
fn raw_elements(rt: &HostRuntime, path: &str, wanted: u64) -> Result<FileElements, Stop> {
    let bytes = read_file(rt, path, wanted, 0)?;
    Ok(FileElements { bytes, header: 0 })
}

// Tests how many bytes of elements a file has. Refused as `Stop::Length`.
fn test_length(
    alloc: Global,
    path: &str,
    elements: &FileElements,
    wanted: u64,
) -> Result<(), Stop> {
    let length = elements.as_slice().len() as u64;
    if length != wanted {
        return Err(wrong_length(alloc, path, length, wanted)?);
    }
    Ok(())
}

/// The elements of a file that are to be a subset of an array. Refused, in this order, as `Stop::System` where the file is not read,
/// as `Stop::Length` where it is too long, as `Stop::Header` where it is not of NumPy's format with the description of these elements,
/// and as `Stop::Length` where it is too short.
pub fn elements_of_file(
    array: &Array<'_>,
    requested: &Requested,
    file: ElementsFile<'_>,
) -> Result<FileElements, Stop> {
    let wanted = wanted_bytes(array, requested)?;
    let elements = match file {
        ElementsFile::Npy(path) => npy_elements(array, requested, path, wanted)?,
        ElementsFile::Raw(path) => raw_elements(array.rt, path, wanted)?,
    };
    test_length(array.alloc(), file.path(), &elements, wanted)?;
    Ok(elements)
}
