// What a check came to, and what is written of it.
use array_cli::{
    Array, Ending, Output, Progress, Refusal, Stop, put_refusal, write_folder, write_folder_lines,
    written,
};
use array_fields::JsonLine;
use array_folder::{ChunkFiles, Counted};
use std::io;
use std::io::Write;

/// What was checked so far, and what is refused.
#[derive(Clone, Copy)]
pub struct Checked {
    /// Shards, and of these the refused ones.
    pub shards: u64,
    pub refused: u64,
    /// Subchunks that are present.
    pub subchunks: u64,
    /// How many shards there are in all.
    pub all: u64,
    /// Whether subchunks are not looked into.
    pub is_index_alone: bool,
}

/// What was found of a shard: how many subchunks are present, and whether it is refused.
#[derive(Clone, Copy)]
pub struct Found {
    pub present: u64,
    pub is_refused: bool,
}

impl Checked {
    /// Nothing was checked yet, of as many shards as there are in all.
    pub fn none(all: u64, is_index_alone: bool) -> Self {
        Checked {
            shards: 0,
            refused: 0,
            subchunks: 0,
            all,
            is_index_alone,
        }
    }

    /// Adds what was checked beside it.
    pub fn add_all(&mut self, other: &Checked) {
        self.shards = self.shards.saturating_add(other.shards);
        self.refused = self.refused.saturating_add(other.refused);
        self.subchunks = self.subchunks.saturating_add(other.subchunks);
    }

    /// Adds a shard.
    pub fn add(&mut self, shard: &Found) {
        self.shards = self.shards.saturating_add(1);
        self.subchunks = self.subchunks.saturating_add(shard.present);
        self.refused = self.refused.saturating_add(shard.is_refused as u64);
    }

    /// How a check ends that came to this. What is asked is not done where there are subchunks that should have been looked into.
    pub fn ending(&self, is_index_asked: bool) -> Ending {
        if self.refused > 0 {
            Ending::Refused
        } else if self.is_index_alone && !is_index_asked && self.subchunks > 0 {
            Ending::Undone
        } else {
            Ending::Done
        }
    }
}

/// Where a check shows how far it is, and what is refused.
#[derive(Drop)]
pub struct Told<'t> {
    pub out: &'t mut Output,
    pub progress: &'t mut Progress,
    pub is_json: bool,
}

// Writes a line of JSON for a refusal.
fn write_refusal_line(out: &mut Output, refusal: &Refusal) -> io::Result<()> {
    let mut line = JsonLine::new(out, "refusal")?;
    line.text("key", &refusal.key)?;
    put_refusal(&mut line, refusal)?;
    line.end()
}

// Writes a line for a refusal, which is seen at once.
fn write_refusal(out: &mut Output, refusal: &Refusal, is_json: bool) -> io::Result<()> {
    if is_json {
        write_refusal_line(out, refusal)?;
    } else {
        writeln!(out, "{refusal}")?;
    }
    out.flush()
}

// Writes a line of JSON for a shard that was checked.
fn write_shard_line(out: &mut Output, key: &str, shard: &Found) -> io::Result<()> {
    let mut line = JsonLine::new(out, "shard")?;
    line.text("key", key)?;
    line.number("present", shard.present)?;
    line.flag("refused", shard.is_refused)?;
    line.end()
}

impl Told<'_> {
    /// Tells a refusal.
    pub fn tell(&mut self, refusal: &Refusal) -> Result<(), Stop> {
        self.progress.clear();
        written(
            write_refusal(self.out, refusal, self.is_json),
            Ending::Refused,
        )
    }

    /// Tells, in JSON, that a shard was checked, of a check that ends so, as far as it has come.
    pub fn tell_shard(&mut self, key: &str, shard: &Found, ending: Ending) -> Result<(), Stop> {
        if !self.is_json {
            return Ok(());
        }
        self.progress.clear();
        written(write_shard_line(self.out, key, shard), ending)
    }
}

// Writes how many subchunks were not looked into, and for which codec.
fn write_unread(out: &mut Output, checked: &Checked, unread: Option<&str>) -> io::Result<()> {
    let subchunks = Counted(checked.subchunks, "subchunk");
    match unread {
        Some(name) => writeln!(
            out,
            "{subchunks} not looked into: the codec {name} is not served"
        ),
        None => writeln!(out, "{subchunks} not looked into"),
    }
}

// Writes what was checked.
fn write_checked(out: &mut Output, checked: &Checked) -> io::Result<()> {
    let shards = Counted(checked.shards, "shard");
    let subchunks = Counted(checked.subchunks, "subchunk");
    match checked.refused {
        0 if checked.is_index_alone => writeln!(out, "{shards}: all indexes sound"),
        0 => writeln!(out, "{shards}, {subchunks}: all sound"),
        1 => writeln!(out, "{shards}: 1 is refused"),
        refused => writeln!(out, "{shards}: {refused} are refused"),
    }
}

/// Writes what else stands in the folder, how many subchunks were not looked into, and what was checked.
pub fn write_end(
    array: &Array<'_>,
    out: &mut Output,
    files: &ChunkFiles,
    checked: &Checked,
    unread: Option<&str>,
) -> io::Result<()> {
    write_folder(array, out, files)?;
    if checked.is_index_alone && checked.subchunks > 0 {
        write_unread(out, checked, unread)?;
    }
    write_checked(out, checked)
}

/// Writes the same as lines of JSON.
pub fn write_end_lines(
    out: &mut Output,
    files: &ChunkFiles,
    checked: &Checked,
    unread: Option<&str>,
) -> io::Result<()> {
    write_folder_lines(out, files)?;
    let mut line = JsonLine::new(out, "sum")?;
    line.each(&[
        ("shards", checked.shards),
        ("present", checked.subchunks),
        ("refused", checked.refused),
    ])?;
    line.flag("index_alone", checked.is_index_alone)?;
    if let Some(name) = unread {
        line.text("unread_codec", name)?;
    }
    line.end()
}
