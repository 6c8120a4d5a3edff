// The command line as a usage writes it, and the parser that is made of it.
use clap::{Arg, ArgAction, Command};
use std::alloc::{AllocError, Global};

// An argument, what its help says, and the arguments beside which it may not stand. `<PATH>` must be there and `[KEY]` may be; `--json` is a
// flag, `--part <K/N>` takes a value, and `-j --jobs <N>` has a letter too. One that must be there need not, where another stands there beside which it may not.
type Argument = (&'static str, &'static str, &'static [&'static str]);

// A command: its name, what it does, what stands behind its help, and its arguments.
type Usage = (
    &'static str,
    &'static str,
    &'static str,
    &'static [Argument],
);

// The arguments that may begin with a hyphen: a subset from the end of an axis, as -1,0..2, and a fill value.
const HYPHENS: &[&str] = &["SUBSET", "--subset <SUBSET>", "--fill <VALUE>"];

const PATH: Argument = (
    "<PATH>",
    "The folder of the array, in which its zarr.json lies",
    &[],
);

const KEY: Argument = ("[KEY]", "The key of the shard, as c/0/3", &[]);

const SUBSET: Argument = (
    "[SUBSET]",
    "A word for each axis, with commas, as 0..2,3..5; without it the whole array",
    &[],
);

const LINES: Argument = (
    "[--json]",
    "Lines of JSON: an object for each shard, with its kind",
    &[],
);

const PART_HELP: &str = "Only the K-th of N parts of the shards, which are dealt out in turn";

const PART: Argument = ("[--part <K/N>]", PART_HELP, &[]);

const JOBS_HELP: &str =
    "By how many threads, each with shards of its own; without it as many as there are processors";

const JOBS: Argument = ("[-j --jobs <N>]", JOBS_HELP, &[]);

const JOBS_OF_ALL: Argument = ("[-j --jobs <N>]", JOBS_HELP, &["KEY"]);

const SHARD_HELP: &str = "The shape of a shard, as 512,512";

const SUBCHUNK_HELP: &str = "The shape of a subchunk, as 64,64";

const INDEX: Argument = (
    "[--index <PLACE>]",
    "Where the index stands: start or end",
    &[],
);

const CHECKED: Argument = ("[--crc32c]", "The index has a checksum", &[]);

const UNCHECKED: Argument = ("[--no-crc32c]", "The index has no checksum", &["crc32c"]);

const ORDER: Argument = (
    "[--order <ORDER>]",
    "The order of the subchunks in a shard: c or morton",
    &[],
);

const INNER: Argument = (
    "[--inner <CODEC>]",
    "The codec behind bytes in a shard: none, crc32c, gzip, zlib or zstd",
    &[],
);

const NEW_FOLDER: &str = "The folder of the new array, which is not there yet";

// What is said of an array and its shards.
const LOOKING: &[Usage] = &[
    (
        "list",
        "Says what arrays lie below a group, and of each its data type, its shape, and whether it is read",
        "Example: zarr_shard list weather",
        &[(
            "<PATH>",
            "The folder of the group, in which its zarr.json lies",
            &[],
        )],
    ),
    (
        "info",
        "Says what the array holds, and of each shard its key, length, subchunks and dead bytes",
        "Example: zarr_shard info weather/temperature\nWith KEY only of this shard, and where in its file each subchunk lies.",
        &[
            PATH,
            KEY,
            LINES,
            ("[--part <K/N>]", PART_HELP, &["KEY"]),
            JOBS_OF_ALL,
        ],
    ),
    (
        "check",
        "Decodes every index and subchunk of the shards that are there; a line for each that is refused, and status 1 then",
        "Example: zarr_shard check weather/temperature\nA line has the shard's key, the number and name of the refusal, and where and why.",
        &[
            PATH,
            (
                "[--index]",
                "Checks the indexes alone, and reads no subchunk",
                &[],
            ),
            LINES,
            PART,
            JOBS,
        ],
    ),
    (
        "map",
        "Draws which shards of the array are there, or the subchunks of a shard and the bytes of its file",
        "Example: zarr_shard map weather/temperature c/0/3\nOf a shard each subchunk that is present is decoded.",
        &[
            PATH,
            KEY,
            (
                "[--svg <FILE>]",
                "A picture of the format SVG, written in place of an answer",
                &[],
            ),
            JOBS_OF_ALL,
        ],
    ),
];

// What gives elements and bytes.
const READING: &[Usage] = &[
    (
        "read",
        "Writes the cells of a subset in row-major order, a row of the last axis a line",
        "Example: zarr_shard read weather/temperature 0..2,3..5\nA word: 0..2 or 0:2 to before 2; 0..=2 to 2; 3.., :5 and : to an end of the axis; 7 one coordinate; -1 the last; ... the axes that are missing.\nA bool is 0 or 1 as text, and true or false in JSON.",
        &[
            PATH,
            SUBSET,
            (
                "[--json]",
                "An object of JSON with shape, data_type and cells",
                &[],
            ),
            (
                "[--raw]",
                "The bytes of the cells, least significant first",
                &["json"],
            ),
            (
                "[--npy <FILE>]",
                "A file of NumPy's format, written in place of an answer; an axis named by one coordinate is dropped",
                &["json", "raw"],
            ),
            (
                "[--fill-damaged]",
                "Fill values for what is refused, which is told on standard error; status 1 then",
                &[],
            ),
            JOBS,
        ],
    ),
    (
        "extract",
        "Writes the bytes of a subchunk as they are stored, and nothing else",
        "Example: zarr_shard extract weather/temperature c/0/3 12 | zstd -d",
        &[
            PATH,
            ("<KEY>", "The key of the shard, as c/0/3", &[]),
            (
                "<NUMBER>",
                "The row-major number of the subchunk in the shard, from 0 on",
                &[],
            ),
        ],
    ),
];

// What writes files.
const WRITING: &[Usage] = &[
    (
        "compact",
        "Puts a compact shard in the place of each that has dead bytes",
        "Example: zarr_shard compact --dry-run weather/temperature",
        &[
            PATH,
            (
                "[--dry-run]",
                "Says what would be saved, and writes no file",
                &[],
            ),
            (
                "[--output <DIR>]",
                "Leaves the array as it is, and writes another one into this folder",
                &["dry-run", "part"],
            ),
            LINES,
            PART,
            JOBS,
        ],
    ),
    (
        "create",
        "Makes an array that has no shard yet: all of its elements are the fill value",
        "Example: zarr_shard create new --shape 4096,4096 --shard 512,512 --subchunk 64,64 --type uint16 --inner zstd",
        &[
            ("<PATH>", NEW_FOLDER, &[]),
            (
                "--shape <SHAPE>",
                "The shape of the array, as 4096,4096",
                &[],
            ),
            ("--shard <SHAPE>", SHARD_HELP, &[]),
            ("--subchunk <SHAPE>", SUBCHUNK_HELP, &[]),
            ("--type <TYPE>", "The data type, as uint16 or float32", &[]),
            (
                "[--fill <VALUE>]",
                "The fill value, as in zarr.json or as NaN; without it 0",
                &[],
            ),
            INDEX,
            CHECKED,
            UNCHECKED,
            ORDER,
            INNER,
        ],
    ),
    (
        "write",
        "Writes the elements of a file into a subset of the array, each shard as a whole",
        "Example: zarr_shard write weather/temperature 0..2,3..5 --npy new.npy\nA shard is replaced by a new file once that is whole; a line tells of each.",
        &[
            PATH,
            SUBSET,
            (
                "[--npy <FILE>]",
                "A file of NumPy's format with the elements; an axis named by one coordinate is none of its axes",
                &[],
            ),
            (
                "--raw <FILE>",
                "A file of the bytes of the elements, least significant first",
                &["npy"],
            ),
        ],
    ),
    (
        "reshard",
        "Makes a new array of the elements, laid out in another way; what is not named stays as it is",
        "Example: zarr_shard reshard weather/temperature new --shard 512,512 --subchunk 64,64 --inner zstd",
        &[
            PATH,
            ("<DST>", NEW_FOLDER, &[]),
            (
                "[--subset <SUBSET>]",
                "The elements of this subset alone, as 0..2,3..5",
                &[],
            ),
            ("[--shard <SHAPE>]", SHARD_HELP, &[]),
            ("[--subchunk <SHAPE>]", SUBCHUNK_HELP, &[]),
            INDEX,
            CHECKED,
            UNCHECKED,
            ORDER,
            INNER,
            JOBS,
        ],
    ),
];

// What compares arrays.
const COMPARING: &[Usage] = &[(
    "compare",
    "Says how many elements of two arrays differ, and the first one; status 1 where one does",
    "Example: zarr_shard compare weather/temperature new",
    &[PATH, ("<OTHER>", "The folder of the other array", &[])],
)];

// The argument of a form without brackets.
fn named<'a>(alloc: Global, form: &'static str) -> Arg<'a> {
    let (flags, value) = form.split_once('<').unwrap_or((form, ""));
    let value = value.trim_end_matches('>');
    let Some((short, long)) = flags.trim_end().split_once("--") else {
        return Arg::new(alloc, if value.is_empty() { form } else { value });
    };
    let arg = Arg::new(alloc, long).long(long);
    let arg = match short.chars().nth(1) {
        Some(letter) => arg.short(letter),
        None => arg,
    };
    if value.is_empty() {
        arg.action(ArgAction::SetTrue)
    } else {
        arg.value_name(value)
    }
}

fn argument_of<'a>(alloc: Global, argument: &Argument) -> Result<Arg<'a>, AllocError> {
    let (form, help, others) = *argument;
    let is_optional = form.starts_with('[');
    let form = form.trim_start_matches('[').trim_end_matches(']');
    let mut arg = named(alloc, form)
        .help(help)
        .required(!is_optional && others.is_empty())
        .allow_hyphen_values(HYPHENS.contains(&form));
    for other in others {
        arg = arg.conflicts_with(other)?;
        if !is_optional {
            arg = arg.required_unless_present(other)?;
        }
    }
    Ok(arg)
}

fn command_of<'a>(alloc: Global, usage: &Usage) -> Result<Command<'a>, AllocError> {
    let (name, about, after, arguments) = *usage;
    let mut command = Command::new(alloc, name).about(about).after_help(after);
    for argument in arguments {
        command = command.arg(argument_of(alloc, argument)?)?;
    }
    Ok(command)
}

// The version of the program, and the logic in which it is proved.
const VERSION: &str = "0.1.0 (logic dac8208d650f15bf)";

// Adds commands to a command line.
fn with_commands<'a>(
    alloc: Global,
    program: Command<'a>,
    usages: &[Usage],
) -> Result<Command<'a>, AllocError> {
    let mut program = program;
    for usage in usages {
        program = program.subcommand(command_of(alloc, usage)?)?;
    }
    Ok(program)
}

// The command line with the commands of a table. Each table is named by a function of its own, since the proof of one that names them all
// takes more memory.
fn looking<'a>(alloc: Global, program: Command<'a>) -> Result<Command<'a>, AllocError> {
    with_commands(alloc, program, LOOKING)
}

fn reading<'a>(alloc: Global, program: Command<'a>) -> Result<Command<'a>, AllocError> {
    with_commands(alloc, program, READING)
}

fn writing<'a>(alloc: Global, program: Command<'a>) -> Result<Command<'a>, AllocError> {
    with_commands(alloc, program, WRITING)
}

fn comparing<'a>(alloc: Global, program: Command<'a>) -> Result<Command<'a>, AllocError> {
    with_commands(alloc, program, COMPARING)
}

// The program's command line without its commands.
fn without_commands<'a>(alloc: Global) -> Command<'a> {
    Command::new(alloc, "zarr_shard")
        .about("Works on an array on disk whose chunks are shards (Zarr V3, sharding_indexed)")
        .version(VERSION)
        .after_help(
            "Example: zarr_shard read weather/temperature 0..2,3..5\nStatus: 0 done; 1 a shard is refused; 2 it, or a part of it, could not be done.",
        )
        .subcommand_required(true)
        .arg_required_else_help(true)
}

/// The program's command line.
pub fn program<'a>(alloc: Global) -> Result<Command<'a>, AllocError> {
    let program = looking(alloc, without_commands(alloc))?;
    let program = reading(alloc, program)?;
    let program = writing(alloc, program)?;
    comparing(alloc, program)
}
