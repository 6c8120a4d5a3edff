// A file of NumPy's format, version 1.0.
ghost use Rattle.std.specs.Prelude.{◌≤◌, IfOk, IfErr, length};
ghost use Rattle.array_folder.specs.Npy.{IsHeader};
ghost use Rattle.array_folder.specs.Shown.{IsPathPrinted};

use crate::document::named;
use crate::folder_error::FolderError;
use std::alloc::{AllocError, Global};
use std::io;
use std::io::ErrorKind;
use storage_files::{Replacement, check_folder, file_length, folder_of, path_beside};

// What NumPy calls elements of the data type with a name, least significant byte first.
fn descr_of(name: &str) -> Option<&'static str> {
    match name {
        "bool" => Some("|b1"),
        "int8" => Some("|i1"),
        "int16" => Some("<i2"),
        "int32" => Some("<i4"),
        "int64" => Some("<i8"),
        "uint8" => Some("|u1"),
        "uint16" => Some("<u2"),
        "uint32" => Some("<u4"),
        "uint64" => Some("<u8"),
        "float16" => Some("<f2"),
        "float32" => Some("<f4"),
        "float64" => Some("<f8"),
        "complex64" => Some("<c8"),
        "complex128" => Some("<c16"),
        _ => None,
    }
}

// What NumPy calls raw bits of the data type with a name, as `r16`.
fn raw_descr(alloc: Global, name: &str) -> Result<Option<String>, AllocError> {
    let Some(digits) = name.strip_prefix("r") else {
        return Ok(None);
    };
    match digits.parse::<u64>() {
        Ok(bits) => Ok(Some(format!(in alloc; "|V{}", bits / 8)?)),
        Err(_) => Ok(None),
    }
}

// What NumPy calls elements of the data type with a name, of a size in bytes.
fn full_descr(alloc: Global, name: &str, size: usize) -> Result<Option<String>, AllocError> {
    match name {
        "fixed_length_utf32" => Ok(Some(format!(in alloc; "<U{}", size / 4)?)),
        "null_terminated_bytes" => Ok(Some(format!(in alloc; "|S{size}")?)),
        _ => match descr_of(name) {
            Some(descr) => Ok(Some(String::from_str(alloc, descr)?)),
            None => raw_descr(alloc, name),
        },
    }
}

// A shape as a tuple of Python, as `()`, `(3,)` or `(3, 2)`.
fn tuple_of(alloc: Global, shape: &[u64]) -> Result<String, AllocError> {
    let mut text = String::from_str(alloc, "(")?;
    let mut before = "";
    for count in shape {
        text.push_str(format!(in alloc; "{before}{count}")?.as_str())?;
        before = ", ";
    }
    text.push_str(if shape.len() == 1 { ",)" } else { ")" })?;
    Ok(text)
}

// The mark of the format, and its version.
const MARK: [u8; 8] = [0x93, b'N', b'U', b'M', b'P', b'Y', 1, 0];

// The most bytes of a description that fits a header.
const MOST: usize = 65_000;

// The header of a file whose description is this text.
fn header_of(alloc: Global, text: &str) -> Result<Vec<u8>, AllocError>
    requires { length text.now ≤ 65000 }
    ensures { IfOk result (λ header. IsHeader text.now header.items) }
{
    let spaces = 63 - (text.len() + 10) % 64;
    let size = (text.len() + spaces + 1) as u16;
    let mut header = Vec::from_slice(alloc, &MARK)?;
    header.extend_from_slice(&size.to_le_bytes())?;
    header.extend_from_slice(text.as_bytes())?;
    header.extend_from_slice(&Vec::from_elem(alloc, b' ', spaces)?)?;
    header.push(b'\n')?;
    Ok(header)
}

// The header of a file of elements of the data type with a name, of a size in bytes, and with a shape.
fn described(alloc: Global, name: &str, size: usize, shape: &[u64]) -> io::Result<Vec<u8>> {
    let Some(descr) = full_descr(alloc, name, size)? else {
        return Err(io::Error::new(
            ErrorKind::Unsupported,
            "elements of this data type are not written in NumPy's format",
        ));
    };
    let tuple = tuple_of(alloc, shape)?;
    let text = format!(in alloc;
        "{{'descr': '{descr}', 'fortran_order': False, 'shape': {tuple}, }}"
    )?;
    if text.len() > MOST {
        return Err(io::Error::new(
            ErrorKind::Unsupported,
            "NumPy's format has no room for a shape of so many axes",
        ));
    }
    Ok(header_of(alloc, &text)?)
}

/// What stands before the elements in a file at a path, of the data type with a name, of a size in bytes, and with a shape. Refused where
/// elements of the type are not written.
pub fn npy_header(
    alloc: Global,
    path: &str,
    name: &str,
    size: usize,
    shape: &[u64],
) -> Result<Vec<u8>, FolderError>
    ensures { IfErr result IsPathPrinted }
{
    named(alloc, path, described(alloc, name, size, shape))
}

/// The path at which a new file stands until it is whole, and is put at a path. Refused where anything but a regular file stands at
/// this, and where the folder does not.
pub fn npy_beside(rt: &HostRuntime, path: &str) -> Result<String, FolderError>
    ensures { IfErr result IsPathPrinted }
{
    let alloc = rt.alloc();
    named(alloc, path, file_length(rt, path))?;
    let beside = named(alloc, path, path_beside(alloc, rt, path))?;
    named(
        alloc,
        folder_of(&beside),
        check_folder(rt, folder_of(&beside)),
    )?;
    Ok(beside)
}

/// Writes a header and elements to a new file, and puts it in its place. Where that is refused nothing is left of it.
pub fn write_npy(
    mut new: Replacement<&HostRuntime>,
    header: &[u8],
    elements: &[u8],
) -> io::Result<()> {
    let wrote = match new.write(header) {
        Ok(()) => new.write(elements),
        refused => refused,
    };
    match wrote {
        Ok(()) => new.finish(),
        Err(error) => {
            new.abandon();
            Err(error)
        }
    }
}
