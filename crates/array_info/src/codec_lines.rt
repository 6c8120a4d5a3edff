// The codecs of an array, a line each, those of a subchunk and of an index behind the one that has them.
use array_cli::Output;
use array_fields::{escaped_whole, value_in};
use serde_json::Value;
use std::alloc::{AllocError, Global};
use std::io;
use std::io::Write;

// A codec that is still to be written: which list it is of, how far its line stands to the right, and what metadata says of it.
#[derive(Clone, Copy)]
struct Listed<'v> {
    label: &'static str,
    indent: usize,
    codec: &'v Value,
}

// The list that a member of a configuration is, where it is one of codecs.
fn list_label(key: &str) -> Option<&'static str> {
    match key {
        "codecs" => Some("codecs"),
        "index_codecs" => Some("index_codecs"),
        _ => None,
    }
}

// The name of a codec, which may stand alone.
fn name_of(codec: &Value) -> Option<&str> {
    codec.as_str().or_else(|| codec.get("name")?.as_str())
}

// Adds the codecs of a list, of which the first one is to be written next.
fn add_list<'v>(
    label: &'static str,
    indent: usize,
    list: &'v Value,
    left: &mut Vec<Listed<'v>>,
) -> Result<(), AllocError> {
    let Some(codecs) = list.as_array() else {
        return Ok(());
    };
    for codec in codecs.iter().rev() {
        left.push(Listed {
            label,
            indent,
            codec,
        })?;
    }
    Ok(())
}

// Writes what a configuration says besides its lists of codecs.
fn write_members(out: &mut Output, alloc: Global, codec: &Value) -> io::Result<()> {
    let Some(members) = codec.get("configuration").and_then(Value::as_object) else {
        return Ok(());
    };
    for (key, value) in members.iter() {
        if list_label(key).is_none() {
            let value = value.to_string(alloc)?;
            write!(
                out,
                ", {} {}",
                escaped_whole(alloc, key)?,
                escaped_whole(alloc, &value)?
            )?;
        }
    }
    Ok(())
}

// Adds the lists of codecs that a configuration has.
fn add_lists<'v>(listed: Listed<'v>, left: &mut Vec<Listed<'v>>) -> Result<(), AllocError> {
    let indent = listed.indent.saturating_add(2);
    let Some(configuration) = listed.codec.get("configuration") else {
        return Ok(());
    };
    for label in ["index_codecs", "codecs"] {
        if let Some(list) = configuration.get(label) {
            add_list(label, indent, list, left)?;
        }
    }
    Ok(())
}

// Writes a codec's line.
fn write_codec(out: &mut Output, alloc: Global, listed: Listed<'_>) -> io::Result<()> {
    let Listed {
        label,
        indent,
        codec,
    } = listed;
    write!(out, "{:indent$}{label}: ", "")?;
    match name_of(codec) {
        Some(name) => write!(out, "{}", escaped_whole(alloc, name)?)?,
        None => write!(out, "{}", escaped_whole(alloc, &codec.to_string(alloc)?)?)?,
    }
    write_members(out, alloc, codec)?;
    out.write_all(b"\n")
}

// Writes the codecs of a list, and of the lists that they have.
fn write_list(out: &mut Output, alloc: Global, list: &Value) -> io::Result<()> {
    let mut left = Vec::new(alloc);
    add_list("codecs", 0, list, &mut left)?;
    for _ in 0..u64::MAX {
        let Some(listed) = left.pop() else {
            break;
        };
        write_codec(out, alloc, listed)?;
        add_lists(listed, &mut left)?;
    }
    Ok(())
}

/// Writes the codecs that a text of metadata lists, a line each; the text itself, where escapes for a terminal left it no JSON.
pub fn write_codecs(out: &mut Output, alloc: Global, text: &str) -> io::Result<()> {
    match value_in(alloc, text) {
        Ok(list) => write_list(out, alloc, &list),
        Err(_) => writeln!(out, "codecs: {text}"),
    }
}
