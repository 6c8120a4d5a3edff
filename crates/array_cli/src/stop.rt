// Why a command stops, and how it ends.
ghost use Rattle.std.specs.Prelude.{◌≡◌, ◌≤◌};
ghost use Rattle.array_cli.specs.Statuses.{status_of};

use crate::refusal::Refusal;
use array_fields::ElementType;
use array_folder::FolderError;
use array_grid::SubsetError;
use array_metadata::Obstacles;
use parts_errors::CodecError;
use std::alloc::{AllocError, AllocFailed, Global};
use std::io;
use thiserror::Error;

/// How a command ends that does not stop.
#[derive(Debug, Clone, Copy, PartialEq, Eq)]
pub enum Ending {
    /// It was done.
    Done,
    /// A shard is refused.
    Refused,
    /// A part of it could not be done.
    Undone,
    /// Two arrays differ.
    Different,
}

impl Ending {
    /// The status for the program to end with.
    pub fn status(self) -> u8
        ensures { result ≤ 2 }
    {
        match self {
            Ending::Done => 0,
            Ending::Refused | Ending::Different => 1,
            Ending::Undone => 2,
        }
    }
}

/// What was written of the answer of a command that ends so, as far as it has come.
pub fn written(wrote: io::Result<()>, ending: Ending) -> Result<(), Stop> {
    match wrote {
        Ok(()) => Ok(()),
        Err(error) => Err(Stop::output(error, ending)),
    }
}

/// Why a command stops.
#[derive(Debug, Drop, Error)]
pub enum Stop {
    /// A growth was refused.
    #[error("out of memory")]
    OutOfMemory,
    /// The answer could not be written.
    #[error("the answer could not be written: {0}")]
    Output(io::Error),
    /// Nobody reads the answer any more; so far it ends so.
    #[error("nobody reads the answer")]
    Closed(Ending),
    /// What the system said of a file or folder. Its path, as each path here, is escaped for a terminal.
    #[error("{path}: {error}")]
    System {
        path: String,
        error: io::Error,
    },
    /// A folder in which a new file cannot be made.
    #[error("{path}: no new file can be made in this folder: {error}")]
    Folder {
        path: String,
        error: io::Error,
    },
    /// Metadata that is refused.
    #[error("{0}")]
    Metadata(Obstacles),
    /// An array that the codecs do not serve.
    #[error("the codecs do not serve the array: {0}")]
    Codec(CodecError),
    /// A shard that is refused.
    #[error("{0}")]
    Refused(Refusal),
    /// A subchunk that is absent, which has no bytes.
    #[error("{key}: subchunk {number} is absent: all its elements are the fill value")]
    Absent {
        key: String,
        number: u64,
    },
    /// A key that no shard has.
    #[error("no shard of this array has the key {0}")]
    NoShard(String),
    /// A grid that has too many places to be drawn.
    #[error("a map has at most {most} places, and this one would have more; name one of its shards")]
    TooManyPlaces {
        most: u64,
    },
    /// A word that is none of those that it may be.
    #[error("{0} is none of the words that can stand there")]
    BadWord(String),
    /// A file with another number of bytes of elements than are wanted.
    #[error("{path} has {length} bytes of elements, and {wanted} are wanted")]
    Length {
        path: String,
        length: u64,
        wanted: u64,
    },
    /// A file that is none of NumPy's format with this description of its elements.
    #[error("{path} is no file of NumPy's format for elements of {wanted}")]
    Header {
        path: String,
        wanted: String,
    },
    /// What names no part of the shards.
    #[error("{0} is no part of the shards, as 2/8 is the second of eight")]
    NoPart(String),
    /// What is no number of a subchunk.
    #[error("{number} is no number of a subchunk, which are 0 to {last}")]
    NoSubchunk {
        number: String,
        last: u64,
    },
    /// A subset that is refused.
    #[error("{0}")]
    Subset(SubsetError),
    /// An array whose chunks have too many elements for their numbers to be told.
    #[error("the chunks of the array have 2^64 elements or more, and `read` serves fewer")]
    TooManyElements,
    /// Elements of a data type that have lengths of their own, where each is to have one size.
    #[error("elements of the data type {0} have lengths of their own, which is not served here: they are read as text or as JSON, compared, and laid out anew")]
    Varying(ElementType),
    /// An element that is no text in UTF-8; its coordinates.
    #[error("the element at {0} is no text: its bytes are not UTF-8")]
    NoUtf8(String),
    /// An element that is no text in UTF-32; its coordinates.
    #[error("the element at {0} is no text: its bytes are not UTF-32")]
    NoUtf32(String),
    /// A size that no number here can say.
    #[error("the subset has more elements than this program can hold")]
    TooLarge,
}

impl Stop {
    /// What the system said of the file or folder at a path, or that memory ran out.
    pub fn system(alloc: Global, path: &str, error: io::Error) -> Stop {
        FolderError::system(alloc, path, error).into()
    }

    /// Why an answer could not be written of a command that ends so, as far as it has come.
    pub fn output(error: io::Error, ending: Ending) -> Stop {
        if error.kind() == io::ErrorKind::BrokenPipe {
            Stop::Closed(ending)
        } else {
            Stop::Output(error)
        }
    }

    /// Why a command stops whose lines go to memory: where they are not taken, that ran out.
    pub fn in_memory(self) -> Stop {
        match self {
            Stop::Output(_) => Stop::OutOfMemory,
            stop => stop,
        }
    }

    /// The status for the program to end with: 1 where a shard is refused or a subchunk is absent, else 2.
    pub fn status(&self) -> u8
        ensures bound { result ≤ 2 }
        ensures status { result ≡ status_of self.now }
    {
        match self {
            Stop::Refused(_) | Stop::Absent { .. } => 1,
            _ => 2,
        }
    }
}

impl From<AllocError> for Stop {
    fn from(_error: AllocError) -> Stop {
        Stop::OutOfMemory
    }
}

impl<T: Drop> From<AllocFailed<T>> for Stop {
    fn from(_error: AllocFailed<T>) -> Stop {
        Stop::OutOfMemory
    }
}

impl From<FolderError> for Stop {
    fn from(error: FolderError) -> Stop {
        match error {
            FolderError::OutOfMemory => Stop::OutOfMemory,
            FolderError::System { path, error } => Stop::System { path, error },
            FolderError::Folder { path, error } => Stop::Folder { path, error },
        }
    }
}

impl From<SubsetError> for Stop {
    fn from(error: SubsetError) -> Stop {
        match error {
            SubsetError::OutOfMemory => Stop::OutOfMemory,
            _ => Stop::Subset(error),
        }
    }
}

impl From<CodecError> for Stop {
    fn from(error: CodecError) -> Stop {
        match error {
            CodecError::OutOfMemory => Stop::OutOfMemory,
            CodecError::TooLarge => Stop::TooLarge,
            _ => Stop::Codec(error),
        }
    }
}

impl From<io::Error> for Stop {
    fn from(error: io::Error) -> Stop {
        Stop::Output(error)
    }
}
