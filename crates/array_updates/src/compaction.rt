// The compaction of an array's shards.
use crate::compact_pieces::compact_all;
use crate::rewriting::replace;
use array_cli::{
    Array, Ending, Output, Place, Planned, Progress, Refusal, Shard, ShardFile, Stop, Workers,
    put_refusal, written,
};
use array_fields::{JsonLine, escaped};
use array_folder::{ChunkFile, Listing, age_of, save};
use array_grid::ListPart;
use sharding_layout::CompactionPlan;
use std::io::{ErrorKind, Write};
use std::thread::Threads;
use std::{fs, io};
use storage_files::path_beside;

/// How shards are compacted.
#[derive(Clone, Copy)]
pub struct Rule<'r> {
    /// Whether no file is written.
    is_dry: bool,
    /// The folder to which shards are written; where it is `None` they are replaced.
    folder: Option<&'r str>,
    /// Whether a line of JSON is written for each shard.
    is_json: bool,
}

/// Where compact shards go.
#[derive(Clone, Copy)]
pub enum Way<'w> {
    /// In the place of the shards.
    Replace,
    /// Nowhere: it is only told what would be saved.
    Dry,
    /// To the folder of another array, which is not there yet.
    Copy { folder: &'w str },
}

impl<'w> Way<'w> {
    // The folder of another array.
    fn folder(self) -> Option<&'w str> {
        match self {
            Way::Copy { folder } => Some(folder),
            Way::Replace | Way::Dry => None,
        }
    }
}

/// What was gained, and what was not done.
#[derive(Clone, Copy)]
pub struct Gained {
    /// Shards that were not compact.
    pub shards: u64,
    /// Their dead bytes.
    pub bytes: u64,
    /// Whether a shard is refused.
    pub is_refused: bool,
    /// Whether a shard could not be replaced.
    pub is_undone: bool,
}

impl Gained {
    /// Nothing.
    pub fn nothing() -> Self {
        Gained {
            shards: 0,
            bytes: 0,
            is_refused: false,
            is_undone: false,
        }
    }

    /// What was gained beside it.
    pub fn add_all(&mut self, other: &Gained) {
        self.shards = self.shards.saturating_add(other.shards);
        self.bytes = self.bytes.saturating_add(other.bytes);
        self.is_refused |= other.is_refused;
        self.is_undone |= other.is_undone;
    }

    // One shard more, of which this became.
    fn add(&mut self, outcome: &Outcome) {
        match outcome {
            Outcome::Saved(saved) => {
                self.shards = self.shards.saturating_add(1);
                self.bytes = self.bytes.saturating_add(*saved);
            }
            Outcome::Refused(_) => self.is_refused = true,
            Outcome::Busy(_) => self.is_undone = true,
            Outcome::Compact | Outcome::Longer(_) => {}
        }
    }

    /// How a command ends that gained this.
    pub fn ending(&self) -> Ending {
        if self.is_undone {
            Ending::Undone
        } else if self.is_refused {
            Ending::Refused
        } else {
            Ending::Done
        }
    }
}

// What became of a shard.
#[derive(Drop)]
enum Outcome {
    // It is compact.
    Compact,
    // Its dead bytes.
    Saved(u64),
    // How many bytes more it would have.
    Longer(u64),
    Refused(Refusal),
    // A new file stands at this path already.
    Busy(String),
}

// The path at which the new file of a path stands until it is whole.
fn beside_of(array: &Array<'_>, path: &str) -> Result<String, Stop> {
    match path_beside(array.alloc(), array.rt, path) {
        Ok(beside) => Ok(beside),
        Err(error) => Err(Stop::system(array.alloc(), path, error)),
    }
}

// Puts what a plan says of a shard, or without a plan the shard, at a path. Gives the path of the new file that stands there already, if
// one does.
fn put_at<'a>(
    array: &Array<'a>,
    shard: &Shard<'_>,
    file: &mut ShardFile<'a>,
    path: &str,
    plan: Option<&CompactionPlan>,
    out: &mut Output,
) -> Result<Option<String>, Stop> {
    let beside = beside_of(array, path)?;
    if replace(array, shard, file, (path, &beside), plan, out)? {
        Ok(None)
    } else {
        Ok(Some(beside))
    }
}

// The path of the new file of a path, if one stands there.
fn new_file_of(array: &Array<'_>, path: &str) -> Result<Option<String>, Stop> {
    let beside = beside_of(array, path)?;
    if fs::symlink_metadata(array.rt, &beside).is_err() {
        Ok(None)
    } else {
        Ok(Some(beside))
    }
}

// What became of a shard that is to be put somewhere, where a new file may stand already.
fn unless_busy(busy: Option<String>, outcome: Outcome) -> Outcome {
    match busy {
        Some(beside) => Outcome::Busy(beside),
        None => outcome,
    }
}

// Compacts a shard by a plan to save these bytes, if no new file stands beside it. Without a plan no file is written.
fn put<'a>(
    array: &Array<'a>,
    shard: &Shard<'_>,
    file: &mut ShardFile<'a>,
    bytes: u64,
    plan: Option<&CompactionPlan>,
    out: &mut Output,
) -> Result<Outcome, Stop> {
    let path = array.path_of(shard.key)?;
    let busy = match plan {
        Some(_) => put_at(array, shard, file, &path, plan, out)?,
        None => new_file_of(array, &path)?,
    };
    Ok(unless_busy(busy, Outcome::Saved(bytes)))
}

// What a compaction makes of the shard in a file: its plan, if it has one, and what is said of it.
fn plan_and_outcome<'a>(
    array: &Array<'a>,
    shard: &Shard<'_>,
    file: &mut ShardFile<'a>,
) -> Result<(Option<CompactionPlan>, Outcome), Stop> {
    match array.plan_compaction(file, false) {
        Ok(Planned::Nothing) => Ok((None, Outcome::Compact)),
        Ok(Planned::Longer(longer)) => Ok((None, Outcome::Longer(longer))),
        Ok(Planned::Saves { bytes, plan }) => Ok((plan, Outcome::Saved(bytes))),
        Err(error) => {
            let refusal = array.refusal(shard, file, error, Place::opening(&error))?;
            Ok((None, Outcome::Refused(refusal)))
        }
    }
}

// Puts what a plan says of a shard, or without a plan the shard, into another folder, as `put_at` does.
fn put_in<'a>(
    array: &Array<'a>,
    shard: &Shard<'_>,
    file: &mut ShardFile<'a>,
    folder: &str,
    plan: Option<&CompactionPlan>,
    out: &mut Output,
) -> Result<Option<String>, Stop> {
    let key = shard.key;
    let path = format!(in array.alloc(); "{folder}/{key}")?;
    put_at(array, shard, file, &path, plan, out)
}

// Writes a shard to another folder: compacted, or as it is where that would not make it shorter or where it is refused.
fn copy_to<'a>(
    array: &Array<'a>,
    shard: &Shard<'_>,
    file: &mut ShardFile<'a>,
    folder: &str,
    out: &mut Output,
) -> Result<Outcome, Stop> {
    let (plan, outcome) = plan_and_outcome(array, shard, file)?;
    let busy = put_in(array, shard, file, folder, plan.as_ref(), out)?;
    Ok(unless_busy(busy, outcome))
}

// Compacts the shard in a file.
fn compact_file<'a>(
    array: &Array<'a>,
    shard: &Shard<'_>,
    file: &mut ShardFile<'a>,
    is_dry: bool,
    out: &mut Output,
) -> Result<Outcome, Stop> {
    match array.plan_compaction(file, is_dry) {
        Ok(Planned::Nothing) => Ok(Outcome::Compact),
        Ok(Planned::Longer(longer)) => Ok(Outcome::Longer(longer)),
        Ok(Planned::Saves { bytes, plan }) => put(array, shard, file, bytes, plan.as_ref(), out),
        Err(error) => {
            let refusal = array.refusal(shard, file, error, Place::opening(&error))?;
            Ok(Outcome::Refused(refusal))
        }
    }
}

// Writes that a shard is not compacted, since a new file stands at a path.
fn write_busy(rt: &HostRuntime, out: &mut Output, key: &str, path: &str) -> io::Result<()> {
    let age = age_of(rt, path);
    let path = escaped(rt.alloc(), path)?;
    writeln!(
        out,
        "{key}: not compacted: {path} stands there{age}: a compaction writes it, or was stopped and left it; if none runs, remove it"
    )
}

// Writes what became of a shard, but of one that is compact.
fn write_outcome(
    rt: &HostRuntime,
    out: &mut Output,
    key: &str,
    outcome: &Outcome,
) -> io::Result<()> {
    match outcome {
        Outcome::Compact => Ok(()),
        Outcome::Saved(saved) => writeln!(out, "{key}: {saved} bytes saved"),
        Outcome::Longer(longer) => {
            writeln!(
                out,
                "{key}: {longer} bytes longer if compacted: overlapping slices"
            )
        }
        Outcome::Refused(refusal) => {
            let reason = refusal.reason();
            writeln!(out, "{key}: refused: {reason}")
        }
        Outcome::Busy(path) => write_busy(rt, out, key, path),
    }
}

// Writes a line of JSON for a shard of which this became.
fn write_outcome_line(out: &mut Output, key: &str, outcome: &Outcome) -> io::Result<()> {
    let mut line = JsonLine::new(out, "shard")?;
    line.text("key", key)?;
    match outcome {
        Outcome::Compact => line.number("saved", 0)?,
        Outcome::Saved(saved) => line.number("saved", *saved)?,
        Outcome::Longer(longer) => line.number("longer", *longer)?,
        Outcome::Refused(refusal) => put_refusal(&mut line, refusal)?,
        Outcome::Busy(path) => line.text("new_file", path)?,
    }
    line.end()
}

// Tells what became of a shard, in a line of JSON or one for a reader.
fn tell(
    rt: &HostRuntime,
    out: &mut Output,
    key: &str,
    outcome: &Outcome,
    is_json: bool,
) -> io::Result<()> {
    if is_json {
        write_outcome_line(out, key, outcome)
    } else {
        write_outcome(rt, out, key, outcome)
    }
}

// Writes a line of JSON for what was gained, of as many shards as there are.
fn write_sum_line(out: &mut Output, gained: &Gained, all: u64) -> io::Result<()> {
    let mut line = JsonLine::new(out, "sum")?;
    line.each(&[
        ("saved", gained.bytes),
        ("compacted", gained.shards),
        ("shards", all),
    ])?;
    line.end()
}

// Compacts a shard, and says what became of it.
fn outcome_of(
    array: &Array<'_>,
    shard: &Shard<'_>,
    rule: &Rule<'_>,
    out: &mut Output,
) -> Result<Outcome, Stop> {
    let mut file = array.file(shard.key)?;
    match rule.folder {
        Some(folder) => copy_to(array, shard, &mut file, folder, out),
        None => compact_file(array, shard, &mut file, rule.is_dry, out),
    }
}

/// Compacts the shard in a file, and writes a line where it is not compact.
pub fn compact_one(
    array: &Array<'_>,
    file: &ChunkFile,
    rule: &Rule<'_>,
    out: &mut Output,
    gained: &mut Gained,
) -> Result<(), Stop> {
    let outcome = outcome_of(array, &Shard::in_file(file), rule, out)?;
    gained.add(&outcome);
    let wrote = tell(array.rt, out, &file.key, &outcome, rule.is_json);
    written(wrote, gained.ending())
}

// Writes what was gained, of as many shards as there are.
fn write_sum(out: &mut Output, gained: &Gained, all: u64, is_json: bool) -> Result<(), Stop> {
    let Gained { bytes, shards, .. } = *gained;
    let wrote = if is_json {
        write_sum_line(out, gained, all)
    } else {
        writeln!(out, "{bytes} bytes saved in {shards} of {all} shards")
    };
    written(wrote, gained.ending())
}

// Tests that a folder does not hold an array or a group yet.
fn test_no_array(array: &Array<'_>, folder: &str) -> Result<(), Stop> {
    let alloc = array.alloc();
    let path = format!(in alloc; "{folder}/zarr.json")?;
    if fs::symlink_metadata(array.rt, &path).is_err() {
        return Ok(());
    }
    let error = io::Error::new(ErrorKind::AlreadyExists, "stands there already");
    Err(Stop::system(alloc, &path, error))
}

// Copies the metadata of an array to another folder, which is an array's from then on.
fn copy_metadata(array: &Array<'_>, folder: &str, out: &mut Output) -> Result<(), Stop> {
    let path = format!(in array.alloc(); "{folder}/zarr.json")?;
    let beside = beside_of(array, &path)?;
    let text = array.metadata.text.as_bytes();
    Ok(save(array.rt, &path, &beside, text, &[], out)?)
}

// Compacts each shard that a part has, as a rule says, and writes a line for each that is not compact and how many bytes were saved.
fn compact_part<T: Threads + Sync>(
    array: &Array<'_>,
    part: &ListPart,
    rule: &Rule<'_>,
    workers: &Workers<'_, T>,
    out: &mut Output,
    progress: &mut Progress,
) -> Result<Gained, Stop> {
    let files = array.files_in(part)?;
    let gained = compact_all(array, &files.chunks, rule, workers, out, progress)?;
    progress.clear();
    write_sum(out, &gained, files.chunks.len() as u64, rule.is_json)?;
    Ok(gained)
}

/// Compacts each shard that a part has, by threads, and writes a line for each that is not compact, in the order of the shards, and
/// how many bytes were saved in all. As a copy, each shard is written to the folder of another array, also one that is compact or refused,
/// and the metadata last, once every shard is there.
pub fn compact<T: Threads + Sync>(
    array: &Array<'_>,
    way: Way<'_>,
    listing: &Listing,
    workers: &Workers<'_, T>,
    out: &mut Output,
    progress: &mut Progress,
) -> Result<Ending, Stop> {
    if let Way::Copy { folder } = way {
        test_no_array(array, folder)?;
    }
    let rule = Rule {
        is_dry: matches!(way, Way::Dry),
        folder: way.folder(),
        is_json: listing.is_json,
    };
    let gained = compact_part(array, &listing.part, &rule, workers, out, progress)?;
    // a copy that has not every shard becomes no array
    if let Way::Copy { folder } = way
        && !gained.is_undone
    {
        copy_metadata(array, folder, out)?;
    }
    Ok(gained.ending())
}
