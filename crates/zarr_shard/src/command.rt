// A command line that is run.
ghost use Rattle.std.specs.Prelude.{◌≤◌, IfOk};

use crate::command_line::{ArrayWork, Scope, SharedWork, Target, Work, array_words, work_of};
use crate::usages::program;
use array_cli::{Array, Ending, Output, Progress, Stop, Workers, metadata_of};
use array_creation::create;
use array_elements::{Form, Reading, compare, print_subset, reshard, save_subset};
use array_fields::escaped;
use array_folder::Listing;
use array_grid::{ListPart, subset_of, threads_of};
use array_info::{extract, info_of_array, info_of_shard, list_nodes, map_array, map_shard};
use array_metadata::ArrayMetadata;
use array_reading::check;
use array_updates::{Way, compact, write_subset};
use clap::ArgMatches;
use std::alloc::Global;
use std::io;
use std::io::Write;
use std::thread::Threads;

// By how many threads a command works at most.
const MOST_THREADS: usize = 256;

// By how many threads a command works, by a word. Refused as `Stop::BadWord` where that is no number above 0.
fn jobs_of<T: Threads>(alloc: Global, threads: &T, word: Option<&str>) -> Result<usize, Stop> {
    let Some(word) = word else {
        return Ok(threads_of(threads).min(MOST_THREADS));
    };
    match word.parse::<usize>() {
        Ok(jobs) if jobs > 0 => Ok(jobs.min(MOST_THREADS)),
        _ => Err(Stop::BadWord(escaped(alloc, word)?)),
    }
}

// Tests that the elements of an array are read, and written in a form: bytes alone do not say where one begins that has a length of its own.
fn test_form(array: &Array<'_>, form: Form) -> Result<(), Stop> {
    match form {
        Form::Raw => array.test_sized(),
        Form::Text | Form::Json => array.test_read(),
    }
}

// Reads the subset that a word names, and writes its elements.
fn run_read<T: Threads + Sync>(
    array: &Array<'_>,
    requested: Option<&str>,
    target: Target<'_>,
    reading: &Reading<'_, T>,
    out: &mut Output,
    progress: &mut Progress,
) -> Result<Ending, Stop> {
    match target {
        Target::NumPy(path) => save_subset(array, requested, path, reading, out, progress),
        Target::Answer(form) => {
            test_form(array, form)?;
            let subset = subset_of(array.alloc(), requested, &array.metadata.shape)?.subset;
            print_subset(array, &subset, form, reading, out, progress)
        }
    }
}

// Which shards a command goes over, and how it tells of them. Refused as `Stop::NoPart` where a word names no part.
fn listing_of(alloc: Global, scope: Scope<'_>) -> Result<Listing, Stop> {
    let is_json = scope.is_json;
    let Some(word) = scope.part else {
        let part = ListPart::whole();
        return Ok(Listing { part, is_json });
    };
    match ListPart::named(word) {
        Some(part) => Ok(Listing { part, is_json }),
        None => Err(Stop::NoPart(escaped(alloc, word)?)),
    }
}

// Where compact shards go.
fn way_of(is_dry: bool, output: Option<&str>) -> Way<'_> {
    match output {
        Some(folder) => Way::Copy { folder },
        None if is_dry => Way::Dry,
        None => Way::Replace,
    }
}

// Does a work of one thread, and writes its answer.
fn run_work(
    array: &Array<'_>,
    work: Work<'_>,
    out: &mut Output,
    progress: &mut Progress,
) -> Result<Ending, Stop> {
    match work {
        Work::InfoOfShard { key, is_json } => info_of_shard(array, key, is_json, out),
        Work::MapOfShard { key, svg } => map_shard(array, key, svg, out, progress),
        Work::Extract { key, number } => extract(array, key, number, out),
        Work::Write { requested, file } => write_subset(array, requested, file, out, progress),
    }
}

// The status of a command that ended so. An answer that nobody reads any more is no error.
fn status_of(ran: Result<Ending, Stop>) -> Result<u8, Stop>
    ensures { IfOk result (λ status. status ≤ 2) }
{
    match ran {
        Ok(ending) | Err(Stop::Closed(ending)) => Ok(ending.status()),
        Err(stop) => Err(stop),
    }
}

// Does a work of several threads, and writes its answer.
fn run_shared<T: Threads + Sync>(
    array: &Array<'_>,
    work: SharedWork<'_>,
    workers: &Workers<'_, T>,
    out: &mut Output,
    progress: &mut Progress,
) -> Result<Ending, Stop> {
    let alloc = array.alloc();
    match work {
        SharedWork::Info { scope } => {
            info_of_array(array, &listing_of(alloc, scope)?, workers, out, progress)
        }
        SharedWork::Map { svg } => map_array(array, svg, workers, out, progress),
        SharedWork::Compact {
            is_dry,
            output,
            scope,
        } => {
            let way = way_of(is_dry, output);
            compact(
                array,
                way,
                &listing_of(alloc, scope)?,
                workers,
                out,
                progress,
            )
        }
        SharedWork::Check {
            is_index_alone,
            scope,
        } => {
            let listing = listing_of(alloc, scope)?;
            check(array, is_index_alone, &listing, workers, out, progress)
        }
        SharedWork::Read {
            requested,
            target,
            fills,
        } => {
            let reading = Reading { fills, workers };
            run_read(array, requested, target, &reading, out, progress)
        }
        SharedWork::Reshard {
            path,
            requested,
            words,
        } => reshard(array, path, requested, &words, workers, out, progress),
    }
}

// Does a work of one thread on an array that has this metadata.
fn run_alone(
    rt: &HostRuntime,
    path: &str,
    metadata: &ArrayMetadata,
    work: Work<'_>,
    out: &mut Output,
    progress: &mut Progress,
) -> Result<Ending, Stop> {
    let array = Array::open(rt, path, metadata)?;
    run_work(&array, work, out, progress)
}

// Does a work on an array that has this metadata.
fn run_described<T: Threads + Sync>(
    rt: &HostRuntime,
    threads: &T,
    path: &str,
    metadata: &ArrayMetadata,
    work: ArrayWork<'_>,
    out: &mut Output,
    progress: &mut Progress,
) -> Result<Ending, Stop> {
    match work {
        ArrayWork::Shared { work, jobs } => {
            let array = Array::open(rt, path, metadata)?;
            let jobs = jobs_of(rt.alloc(), threads, jobs)?;
            run_shared(&array, work, &Workers { threads, jobs }, out, progress)
        }
        ArrayWork::Alone(work) => run_alone(rt, path, metadata, work, out, progress),
    }
}

// Reads the metadata of an array, and does a work.
fn run_array<T: Threads + Sync>(
    rt: &HostRuntime,
    threads: &T,
    path: &str,
    work: ArrayWork<'_>,
    out: &mut Output,
    progress: &mut Progress,
) -> Result<Ending, Stop> {
    match metadata_of(rt, path) {
        Ok(metadata) => run_described(rt, threads, path, &metadata, work, out, progress),
        Err(stop) => Err(stop),
    }
}

// Compares the arrays at two paths, which have this metadata.
fn compare_described(
    rt: &HostRuntime,
    paths: (&str, &str),
    metadata: (&ArrayMetadata, &ArrayMetadata),
    out: &mut Output,
    progress: &mut Progress,
) -> Result<Ending, Stop> {
    let one = Array::open(rt, paths.0, metadata.0)?;
    let other = Array::open(rt, paths.1, metadata.1)?;
    compare(&one, &other, out, progress)
}

// Compares the arrays at two paths, of which the first has this metadata.
fn compare_with(
    rt: &HostRuntime,
    paths: (&str, &str),
    one: &ArrayMetadata,
    out: &mut Output,
    progress: &mut Progress,
) -> Result<Ending, Stop> {
    match metadata_of(rt, paths.1) {
        Ok(other) => compare_described(rt, paths, (one, &other), out, progress),
        Err(stop) => Err(stop),
    }
}

// Compares the arrays at two paths.
fn run_compare(
    rt: &HostRuntime,
    paths: (&str, &str),
    out: &mut Output,
    progress: &mut Progress,
) -> Result<Ending, Stop> {
    match metadata_of(rt, paths.0) {
        Ok(one) => compare_with(rt, paths, &one, out, progress),
        Err(stop) => Err(stop),
    }
}

// Does what the words of a command line say.
fn run_matches<T: Threads + Sync>(
    rt: &HostRuntime,
    threads: &T,
    matches: &ArgMatches<'_>,
    out: &mut Output,
    shows_progress: bool,
) -> Result<u8, Stop>
    ensures { IfOk result (λ status. status ≤ 2) }
{
    let Some((name, found)) = matches.subcommand() else {
        return Ok(2);
    };
    let path = found.get_str("PATH").unwrap_or(".");
    if name == "list" {
        return status_of(list_nodes(rt, path, out));
    }
    if name == "create" {
        return status_of(create(rt, path, &array_words(found)));
    }
    let mut progress = Progress::new(rt, shows_progress);
    let ran = if name == "compare" {
        let other = found.get_str("OTHER").unwrap_or("");
        run_compare(rt, (path, other), out, &mut progress)
    } else {
        run_array(rt, threads, path, work_of(name, found), out, &mut progress)
    };
    progress.clear();
    status_of(ran)
}

// Writes what is wrong with a command line, of which a word may be the name of a stranger's file.
fn tell_wrong(rt: &HostRuntime, error: &clap::Error) -> Result<(), Stop> {
    let alloc = rt.alloc();
    let text = format!(in alloc; "{error}")?;
    let mut messages = rt.stderr();
    for line in text.lines() {
        let line = escaped(alloc, line)?;
        let _ = writeln!(messages, "{line}");
    }
    Ok(())
}

// Writes the help that a command line asks for, or what is wrong with it.
fn tell(rt: &HostRuntime, error: &clap::Error, out: &mut Output) -> Result<u8, Stop>
    ensures { IfOk result (λ status. status ≤ 2) }
{
    if error.use_stderr() {
        tell_wrong(rt, error)?;
        return Ok(2);
    }
    write!(out, "{error}")?;
    Ok(0)
}

// Reads the words of a command line, and does what they say.
fn run_words<T: Threads + Sync>(
    rt: &HostRuntime,
    threads: &T,
    words: &[String],
    out: &mut Output,
    shows_progress: bool,
) -> Result<u8, Stop>
    ensures { IfOk result (λ status. status ≤ 2) }
{
    match program(rt.alloc())?.try_get_matches_from(words) {
        Ok(matches) => run_matches(rt, threads, &matches, out, shows_progress),
        Err(error) => tell(rt, &error, out),
    }
}

// Runs a command line, and sees that its answer is written.
fn run_buffered<T: Threads + Sync>(
    rt: &HostRuntime,
    threads: &T,
    words: &[String],
    shows_progress: bool,
) -> Result<u8, Stop>
    ensures { IfOk result (λ status. status ≤ 2) }
{
    let mut out = Output::standard(rt)?;
    let ran = run_words(rt, threads, words, &mut out, shows_progress);
    match out.flush() {
        Err(error) if error.kind() != io::ErrorKind::BrokenPipe => Err(Stop::Output(error)),
        _ => ran,
    }
}

/// Runs a command line, whose first word is the program's name: writes the answer to the standard output, or one sentence to the
/// standard error, and returns the status for the program to end with. 0 where it was done; 1 where a shard is refused; 2 where it, or a
/// part of it, could not be done, and then nothing is written but what `list`, `check` and `compact` had said before, and a line on the
/// owner of a new file. A message that is not taken is dropped, and an answer that nobody reads. Where `shows_progress` is
/// true, the standard error shows how far the command is while it runs, and it is blanked before an answer or a sentence is written.
pub fn run_command<T: Threads + Sync>(
    rt: &HostRuntime,
    threads: &T,
    words: &[String],
    shows_progress: bool,
) -> u8
    ensures { result ≤ 2 }
{
    match run_buffered(rt, threads, words, shows_progress) {
        Ok(status) => status,
        Err(stop) => {
            let _ = writeln!(rt.stderr(), "zarr_shard: {stop}");
            stop.status()
        }
    }
}
