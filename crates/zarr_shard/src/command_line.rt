// What a command line says.
use array_creation::{ArrayWords, LayoutWords};
use array_elements::Form;
use array_updates::ElementsFile;
use clap::ArgMatches;

/// Where cells are written: in a form to the answer, or into a file of NumPy's format, which has a path.
#[derive(Clone, Copy)]
pub enum Target<'a> {
    Answer(Form),
    NumPy(&'a str),
}

/// Over which shards a command goes, and how it tells of them.
#[derive(Clone, Copy)]
pub struct Scope<'a> {
    /// A part of the list of shards, as `2/8`; all of them where it is `None`.
    pub part: Option<&'a str>,
    /// Whether it writes lines of JSON.
    pub is_json: bool,
}

/// What one thread does with an array.
#[derive(Clone, Copy)]
pub enum Work<'a> {
    InfoOfShard {
        key: &'a str,
        is_json: bool,
    },
    Extract {
        key: &'a str,
        number: &'a str,
    },
    MapOfShard {
        key: &'a str,
        svg: Option<&'a str>,
    },
    Write {
        requested: Option<&'a str>,
        file: ElementsFile<'a>,
    },
}

/// What several threads do with an array.
#[derive(Clone, Copy)]
pub enum SharedWork<'a> {
    Info {
        scope: Scope<'a>,
    },
    Map {
        svg: Option<&'a str>,
    },
    Compact {
        is_dry: bool,
        output: Option<&'a str>,
        scope: Scope<'a>,
    },
    Check {
        is_index_alone: bool,
        scope: Scope<'a>,
    },
    Read {
        requested: Option<&'a str>,
        target: Target<'a>,
        fills: bool,
    },
    Reshard {
        path: &'a str,
        requested: Option<&'a str>,
        words: LayoutWords<'a>,
    },
}

/// What is done with an array.
#[derive(Clone, Copy)]
pub enum ArrayWork<'a> {
    Alone(Work<'a>),
    /// By how many threads, a word may say.
    Shared {
        work: SharedWork<'a>,
        jobs: Option<&'a str>,
    },
}

// How the cells that a command reads are to be written.
fn form_of(matches: &ArgMatches<'_>) -> Form {
    if matches.get_flag("json") {
        Form::Json
    } else if matches.get_flag("raw") {
        Form::Raw
    } else {
        Form::Text
    }
}

// Over which shards a command goes, and how it tells of them.
fn scope_of<'a>(matches: &ArgMatches<'a>) -> Scope<'a> {
    Scope {
        part: matches.get_str("part"),
        is_json: matches.get_flag("json"),
    }
}

// What the command `compact` does.
fn compacting<'a>(matches: &ArgMatches<'a>) -> SharedWork<'a> {
    SharedWork::Compact {
        is_dry: matches.get_flag("dry-run"),
        output: matches.get_str("output"),
        scope: scope_of(matches),
    }
}

// What the command `read` does.
fn reading<'a>(matches: &ArgMatches<'a>) -> SharedWork<'a> {
    let target = match matches.get_str("npy") {
        Some(path) => Target::NumPy(path),
        None => Target::Answer(form_of(matches)),
    };
    SharedWork::Read {
        requested: matches.get_str("SUBSET"),
        target,
        fills: matches.get_flag("fill-damaged"),
    }
}

// The words for a new layout.
fn layout_words<'a>(matches: &ArgMatches<'a>) -> LayoutWords<'a> {
    LayoutWords {
        shard: matches.get_str("shard"),
        subchunk: matches.get_str("subchunk"),
        index: matches.get_str("index"),
        is_checked: if matches.get_flag("crc32c") {
            Some(true)
        } else if matches.get_flag("no-crc32c") {
            Some(false)
        } else {
            None
        },
        inner: matches.get_str("inner"),
        order: matches.get_str("order"),
    }
}

// The file from which the command `write` takes elements.
fn elements_file<'a>(matches: &ArgMatches<'a>) -> ElementsFile<'a> {
    match matches.get_str("npy") {
        Some(path) => ElementsFile::Npy(path),
        None => ElementsFile::Raw(matches.get_str("raw").unwrap_or("")),
    }
}

// What the command of a name does that several threads do.
fn shared_work_of<'a>(name: &str, matches: &ArgMatches<'a>) -> SharedWork<'a> {
    match name {
        "check" => SharedWork::Check {
            is_index_alone: matches.get_flag("index"),
            scope: scope_of(matches),
        },
        "read" => reading(matches),
        "reshard" => SharedWork::Reshard {
            path: matches.get_str("DST").unwrap_or(""),
            requested: matches.get_str("subset"),
            words: layout_words(matches),
        },
        "compact" => compacting(matches),
        "map" => SharedWork::Map {
            svg: matches.get_str("svg"),
        },
        _ => SharedWork::Info {
            scope: scope_of(matches),
        },
    }
}

// What the command of a name does that one thread does, if it does: what goes over no shards, or over one that has a key.
fn lone_work_of<'a>(name: &str, matches: &ArgMatches<'a>) -> Option<Work<'a>> {
    match (name, matches.get_str("KEY")) {
        ("extract", key) => Some(Work::Extract {
            key: key.unwrap_or(""),
            number: matches.get_str("NUMBER").unwrap_or(""),
        }),
        ("write", _) => Some(Work::Write {
            requested: matches.get_str("SUBSET"),
            file: elements_file(matches),
        }),
        ("map", Some(key)) => Some(Work::MapOfShard {
            key,
            svg: matches.get_str("svg"),
        }),
        ("info", Some(key)) => Some(Work::InfoOfShard {
            key,
            is_json: matches.get_flag("json"),
        }),
        _ => None,
    }
}

/// What the command of a name does.
pub fn work_of<'a>(name: &str, matches: &ArgMatches<'a>) -> ArrayWork<'a> {
    match lone_work_of(name, matches) {
        Some(work) => ArrayWork::Alone(work),
        None => ArrayWork::Shared {
            work: shared_work_of(name, matches),
            jobs: matches.get_str("jobs"),
        },
    }
}

/// What the command `create` makes.
pub fn array_words<'a>(matches: &ArgMatches<'a>) -> ArrayWords<'a> {
    let shard = matches.get_str("shard").unwrap_or("");
    let subchunk = matches.get_str("subchunk").unwrap_or("");
    ArrayWords {
        shape: matches.get_str("shape").unwrap_or(""),
        shard,
        subchunk,
        data_type: matches.get_str("type").unwrap_or(""),
        fill: matches.get_str("fill"),
        layout: layout_words(matches),
    }
}
