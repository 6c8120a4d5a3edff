// The arrays below a group.
use array_cli::{Array, Ending, Output, Stop, metadata_of, written};
use array_fields::{MetadataError, escaped};
use array_folder::list_members;
use array_metadata::{ArrayMetadata, Obstacles};
use std::alloc::{AllocError, Global};
use std::io;
use std::io::Write;

// Whether what is refused is the metadata of a group.
fn is_group(obstacles: &Obstacles) -> bool {
    match &obstacles.first {
        MetadataError::Refused { sentence, .. } => { sentence.starts_with("this is a group, ") }
        _ => false,
    }
}

// A name for a terminal: that of the path that is listed is `.`.
fn shown(alloc: Global, name: &str) -> Result<String, AllocError> {
    escaped(alloc, if name.is_empty() { "." } else { name })
}

// Writes a line for an array: what its elements are, its shape, and why they are not read, if so.
fn write_array(
    out: &mut Output,
    alloc: Global,
    name: &str,
    metadata: &ArrayMetadata,
) -> io::Result<()> {
    let name = shown(alloc, name)?;
    let data_type = match &metadata.type_text {
        Some(text) => text.data_type.as_str(),
        None => metadata.element_type.name(),
    };
    write!(out, "{name}: {data_type} {:?}", metadata.shape)?;
    match metadata.test_read(alloc) {
        Ok(()) => out.write_all(b"\n"),
        Err(error) => writeln!(out, "; not read: {error}"),
    }
}

// Writes a line for a group.
fn write_group(out: &mut Output, alloc: Global, name: &str) -> io::Result<()> {
    let name = shown(alloc, name)?;
    writeln!(out, "{name}: a group")
}

// Writes a line for what is refused.
fn write_refused(out: &mut Output, alloc: Global, name: &str, stop: &Stop) -> io::Result<()> {
    let name = shown(alloc, name)?;
    writeln!(out, "{name}: refused: {stop}")
}

// Of which kind it is what stands at a path.
#[derive(Clone, Copy)]
enum Kind {
    Array,
    Group,
    Refused,
}

impl Kind {
    // How a listing ends that tells of it.
    fn ending(self) -> Ending {
        match self {
            Kind::Refused => Ending::Undone,
            _ => Ending::Done,
        }
    }
}

// What was told of, by a line that was written.
fn told(wrote: io::Result<()>, kind: Kind) -> Result<Kind, Stop> {
    written(wrote, kind.ending())?;
    Ok(kind)
}

// Whether what stops a listing is the metadata of a group.
fn is_at_group(stop: &Stop) -> bool {
    match stop {
        Stop::Metadata(obstacles) => is_group(obstacles),
        _ => false,
    }
}

// Writes a line for what stands under a name where no metadata of an array is read. At the path that is listed, this stops the listing.
fn tell_other(out: &mut Output, alloc: Global, name: &str, stop: Stop) -> Result<Kind, Stop> {
    if is_at_group(&stop) {
        return told(write_group(out, alloc, name), Kind::Group);
    }
    if name.is_empty() || matches!(&stop, Stop::OutOfMemory) {
        return Err(stop);
    }
    told(write_refused(out, alloc, name, &stop), Kind::Refused)
}

// A path below another one, or this one itself.
fn below(alloc: Global, path: &str, name: &str) -> Result<String, AllocError> {
    if path.is_empty() {
        return String::from_str(alloc, name);
    }
    if name.is_empty() {
        return String::from_str(alloc, path);
    }
    format!(in alloc; "{path}/{name}")
}

// Adds the members of a group under a name to those that are still to be listed, of which the last one is the next.
fn add_members(
    rt: &HostRuntime,
    path: &str,
    name: &str,
    names: &mut Vec<String>,
) -> Result<(), Stop> {
    let members = list_members(rt, &below(rt.alloc(), path, name)?)?;
    for member in members.iter().rev() {
        names.push(below(rt.alloc(), name, member)?)?;
    }
    Ok(())
}

// Writes a line for what stands under a name, and says of which kind it is.
fn list_one(rt: &HostRuntime, path: &str, name: &str, out: &mut Output) -> Result<Kind, Stop> {
    let path = below(rt.alloc(), path, name)?;
    match metadata_of(rt, &path) {
        Ok(metadata) => told(write_array(out, rt.alloc(), name, &metadata), Kind::Array),
        Err(stop) => tell_other(out, rt.alloc(), name, stop),
    }
}

// Writes a line for what stands under a name, and adds its members to those that are still to be listed.
fn list_next(
    rt: &HostRuntime,
    path: &str,
    name: &str,
    out: &mut Output,
    names: &mut Vec<String>,
) -> Result<Ending, Stop> {
    let kind = list_one(rt, path, name, out)?;
    if matches!(kind, Kind::Group) {
        add_members(rt, path, name, names)?;
    }
    Ok(kind.ending())
}

/// Writes a line for the array or the group at a path, and for each below a group: its name, what its elements are, its shape, and
/// whether they are read. What is refused has a line, and the listing goes on. Refused as `metadata_of` refuses what stands at the path
/// itself, as `Stop::System` where the members of a group are not listed, and as `Stop::Output` or `Stop::Closed` where a line is not
/// taken.
pub fn list_nodes(rt: &HostRuntime, path: &str, out: &mut Output) -> Result<Ending, Stop> {
    let mut ending = Ending::Done;
    let mut names = vec![in rt.alloc(); String::new(rt.alloc())]?;
    for _ in 0..u64::MAX {
        let Some(name) = names.pop() else {
            break;
        };
        if list_next(rt, path, &name, out, &mut names)? != Ending::Done {
            ending = Ending::Undone;
        }
    }
    Ok(ending)
}
