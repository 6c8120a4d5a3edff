// An array on disk that is open: its metadata, its shards, and their files.
use crate::compaction_plans::Planned;
use crate::open_shard::OpenShard;
use crate::refusal::{Place, Refusal};
use crate::shard_codec::{ShardCodec, ShardFile};
use crate::stop::Stop;
use array_codecs::reversed_parts;
use array_fields::{LONGEST_TEXT, MetadataError, escaped};
use array_folder::{
    ChunkFile, ChunkFiles, ChunkGrid, FolderError, document_length, list_chunks, read_document,
};
use array_grid::ListPart;
use array_metadata::{ArrayCodec, ArrayMetadata, Obstacles, reversed_size};
use parts_arrays::{DataTypeSize, FillValue};
use parts_errors::CodecError;
use parts_subsets::ChunkShape;
use sharding_format::SubchunkWriteOrder;
use std::alloc::{AllocError, Global};
use std::borrow::CowSlice;
use std::io;
use storage_files::{HostFile, file_length};

// How many bytes of a file are read at once at most, where its slices are small.
const READ_AHEAD: usize = 65_536;

/// A shard of an array: the key of its chunk, and the chunk's coordinates in the chunk grid.
#[derive(Debug, Clone, Copy)]
pub struct Shard<'s> {
    pub key: &'s str,
    pub coordinates: &'s [u64],
}

impl<'s> Shard<'s> {
    /// The shard in the file of a chunk.
    pub fn in_file(file: &'s ChunkFile) -> Self {
        Shard {
            key: &file.key,
            coordinates: &file.coordinates,
        }
    }
}

/// An array on disk, whose shards are of a codec.
#[derive(Drop)]
pub struct Array<'a> {
    pub rt: &'a HostRuntime,
    pub path: &'a str,
    pub metadata: &'a ArrayMetadata,
    /// The codec of its shards, which the metadata names.
    pub codec: ShardCodec<'a>,
    pub grid: ChunkGrid,
    /// How many subchunks a shard has along each axis.
    pub subchunks: ChunkShape,
}

// Why metadata is refused; or that memory ran out before that was known.
fn refused(obstacles: Result<Obstacles, MetadataError>) -> Stop {
    match obstacles {
        Ok(obstacles) => Stop::Metadata(obstacles),
        Err(_) => Stop::OutOfMemory,
    }
}

/// Bytes of elements in the other order, where these are complex numbers whose parts are stored most significant byte first; the codecs do
/// not turn them. `None` where elements are stored least significant byte first.
pub fn turned(
    alloc: Global,
    metadata: &ArrayMetadata,
    bytes: &[u8],
) -> Result<Option<Vec<u8>>, AllocError> {
    match reversed_size(metadata.element_type, &metadata.codec) {
        Some(size) if size > 0 => Ok(Some(reversed_parts(alloc, bytes, size)?)),
        _ => Ok(None),
    }
}

// Has shards written anew in an order.
fn set_order(metadata: &mut ArrayMetadata, order: SubchunkWriteOrder) {
    if let ArrayCodec::Sharded(shards) = &mut metadata.codec {
        shards.order = order;
    }
}

// Puts the fill value in the order in which elements are stored.
fn turn_fill_value(alloc: Global, metadata: &mut ArrayMetadata) -> Result<(), AllocError> {
    if let Some(bytes) = turned(alloc, metadata, metadata.fill_value.as_ne_bytes())? {
        metadata.fill_value = FillValue::new(bytes);
    }
    Ok(())
}

// What this text of a `zarr.json` says; the fill value as elements are stored, and shards to be written in an order.
fn read_metadata(
    alloc: Global,
    text: &str,
    order: SubchunkWriteOrder,
) -> Result<ArrayMetadata, MetadataError> {
    let mut metadata = ArrayMetadata::from_text(alloc, text)?;
    set_order(&mut metadata, order);
    turn_fill_value(alloc, &mut metadata)?;
    Ok(metadata)
}

/// The metadata of an array that is to have a path, by the text of its `zarr.json`, and whose shards are written in an order.
pub fn described(
    alloc: Global,
    path: &str,
    text: &str,
    order: SubchunkWriteOrder,
) -> Result<ArrayMetadata, Stop> {
    let document = format!(in alloc; "{path}/zarr.json")?;
    match read_metadata(alloc, text, order) {
        Ok(metadata) => Ok(metadata),
        Err(error) => Err(refused(Obstacles::of_text(alloc, &document, text, error))),
    }
}

// Whether a folder has metadata of Zarr V2: of an array, or of a group.
fn is_of_v2(rt: &HostRuntime, path: &str) -> Result<bool, AllocError> {
    for name in [".zarray", ".zgroup"] {
        let document = format!(in rt.alloc(); "{path}/{name}")?;
        if let Ok(Some(_)) = file_length(rt, &document) {
            return Ok(true);
        }
    }
    Ok(false)
}

// Why the document of a folder is not read, where the system said so.
fn unread_document(rt: &HostRuntime, path: &str, document: &str, error: FolderError) -> Stop {
    let is_absent = match &error {
        FolderError::System { error, .. } => error.kind() == io::ErrorKind::NotFound,
        _ => false,
    };
    if !is_absent {
        return error.into();
    }
    match is_of_v2(rt, path) {
        Ok(true) => {
            let said = "is not there: this is Zarr V2, only V3 is read";
            let error = io::Error::new(io::ErrorKind::NotFound, said);
            Stop::system(rt.alloc(), document, error)
        }
        Ok(false) => error.into(),
        Err(_) => Stop::OutOfMemory,
    }
}

// Tests how long the document of a folder is.
fn test_document(rt: &HostRuntime, path: &str, document: &str) -> Result<(), Stop> {
    let length = match document_length(rt, path, document) {
        Ok(length) => length,
        Err(error) => return Err(unread_document(rt, path, document, error)),
    };
    match MetadataError::test_length(length) {
        Ok(()) => Ok(()),
        Err(error) => Err(Stop::Metadata(Obstacles::one(rt.alloc(), document, error)?)),
    }
}

// The text of the `zarr.json` in a folder.
fn text_of(rt: &HostRuntime, path: &str) -> Result<String, Stop> {
    let document = format!(in rt.alloc(); "{path}/zarr.json")?;
    test_document(rt, path, &document)?;
    Ok(read_document(rt, &document, LONGEST_TEXT)?)
}

/// The metadata of the array whose folder has this path. How long the text is, is tested before it is read.
pub fn metadata_of(rt: &HostRuntime, path: &str) -> Result<ArrayMetadata, Stop> {
    let text = text_of(rt, path)?;
    described(rt.alloc(), path, &text, SubchunkWriteOrder::C)
}

// The files that a part has of a list of them, in its order.
fn chunks_in(
    alloc: Global,
    chunks: Vec<ChunkFile>,
    part: &ListPart,
) -> Result<Vec<ChunkFile>, AllocError> {
    // of two places beside each other both are in one part only where it is the only one
    if part.has(0) && part.has(1) {
        return Ok(chunks);
    }
    let mut kept = Vec::new(alloc);
    for (place, chunk) in chunks.into_iter().enumerate() {
        if part.has(place as u64) {
            kept.push(chunk)?;
        }
    }
    Ok(kept)
}

impl<'a> Array<'a> {
    /// The allocator.
    pub fn alloc(&self) -> Global {
        self.rt.alloc()
    }

    /// The name, for a terminal, of the codec for which no subchunk is looked into; `None` where they are.
    pub fn unread(&self) -> Result<Option<String>, AllocError> {
        match &self.metadata.unread {
            Some(name) => Ok(Some(escaped(self.alloc(), name)?)),
            None => Ok(None),
        }
    }

    /// Tests that the elements of the array are read.
    pub fn test_read(&self) -> Result<(), Stop> {
        let Err(error) = self.metadata.test_read(self.alloc()) else {
            return Ok(());
        };
        let document = self.path_of("zarr.json")?;
        let alloc = self.alloc();
        let obstacles = Obstacles::of_reading(alloc, &document, self.metadata, error);
        Err(refused(obstacles))
    }

    /// Tests that the elements of the array are read, and that each has one size.
    pub fn test_sized(&self) -> Result<(), Stop> {
        self.test_read()?;
        match self.metadata.data_type.size() {
            DataTypeSize::Fixed(_) => Ok(()),
            DataTypeSize::Variable => Err(Stop::Varying(self.metadata.element_type)),
        }
    }

    /// Bytes of elements that the codecs gave, each number of them least significant byte first.
    pub fn least_first<'b>(&self, bytes: &'b [u8]) -> Result<CowSlice<'b, u8>, AllocError> {
        match turned(self.alloc(), self.metadata, bytes)? {
            Some(bytes) => Ok(CowSlice::Owned(bytes)),
            None => Ok(CowSlice::Borrowed(bytes)),
        }
    }

    /// The files of the array's chunks.
    pub fn files(&self) -> Result<ChunkFiles, Stop> {
        let keys = self.metadata.keys;
        Ok(list_chunks(self.rt, self.path, keys, &self.grid)?)
    }

    /// The files of the array's chunks that a part has of their list. What else stands in the folder goes with the first part.
    pub fn files_in(&self, part: &ListPart) -> Result<ChunkFiles, Stop> {
        let ChunkFiles {
            chunks,
            others,
            replacing,
        } = self.files()?;
        let chunks = chunks_in(self.alloc(), chunks, part)?;
        if part.is_first() {
            return Ok(ChunkFiles {
                chunks,
                others,
                replacing,
            });
        }
        Ok(ChunkFiles {
            chunks,
            others: 0,
            replacing: Vec::new(self.alloc()),
        })
    }

    /// The path of the file with this key.
    pub fn path_of(&self, key: &str) -> Result<String, AllocError> {
        format!(in self.alloc(); "{}/{key}", self.path)
    }

    /// The file of the shard with this key.
    pub fn file(&self, key: &str) -> Result<ShardFile<'a>, Stop> {
        let path = self.path_of(key)?;
        Ok(HostFile::new(self.alloc(), self.rt, &path)?)
    }

    /// The file of the shard with this key, of which all slices are to be read: small ones that follow one another are read at once.
    pub fn whole_file(&self, key: &str) -> Result<ShardFile<'a>, Stop> {
        let mut file = self.file(key)?;
        file.read_ahead(self.alloc(), READ_AHEAD);
        Ok(file)
    }

    /// Why a shard is refused. What no shard is the cause of stops the command: what the system said, and memory.
    pub fn refusal(
        &self,
        shard: &Shard<'_>,
        file: &ShardFile<'a>,
        error: CodecError,
        position: Place,
    ) -> Result<Refusal, Stop> {
        match (error, file.error()) {
            (CodecError::OutOfMemory, _) => Err(Stop::OutOfMemory),
            (CodecError::Fault, Some(error)) => Err(Stop::system(self.alloc(), shard.key, error)),
            _ => Ok(self.refusal_at(shard, error, position)?),
        }
    }

    /// Why a command stops at a place in a shard.
    pub fn stop(
        &self,
        shard: &Shard<'_>,
        file: &ShardFile<'a>,
        error: CodecError,
        position: Place,
    ) -> Stop {
        match self.refusal(shard, file, error, position) {
            Ok(refusal) => Stop::Refused(refusal),
            Err(stop) => stop,
        }
    }

    /// The refusal of a place in a shard.
    pub fn refusal_at(
        &self,
        shard: &Shard<'_>,
        error: CodecError,
        position: Place,
    ) -> Result<Refusal, AllocError> {
        Refusal::new(
            self.alloc(),
            self.metadata,
            &self.subchunks,
            shard,
            error,
            position,
        )
    }

    /// Opens the array whose folder has this path, with its metadata.
    pub fn open(
        rt: &'a HostRuntime,
        path: &'a str,
        metadata: &'a ArrayMetadata,
    ) -> Result<Self, Stop> {
        let alloc = rt.alloc();
        let codec = ShardCodec::of(metadata);
        let subchunks = codec.subchunks(alloc, metadata)?;
        let grid = ChunkGrid::new(alloc, &metadata.shape, metadata.shard.as_slice())?;
        Ok(Array {
            rt,
            path,
            metadata,
            codec,
            grid,
            subchunks,
        })
    }

    /// Opens the shard that a file holds, where it is not refused.
    pub fn open_shard(
        &self,
        shard: &Shard<'_>,
        file: ShardFile<'a>,
    ) -> Result<Result<OpenShard<'a>, Refusal>, Stop> {
        match self.codec.open(self.alloc(), file, self.metadata) {
            Ok(opened) => Ok(Ok(opened)),
            Err((file, error)) => match self.refusal(shard, &file, error, Place::opening(&error)) {
                Ok(refusal) => Ok(Err(refusal)),
                Err(stop) => Err(stop),
            },
        }
    }

    /// The shard that a file holds, opened. A refusal of it stops the command.
    pub fn opened(&self, shard: &Shard<'_>, file: ShardFile<'a>) -> Result<OpenShard<'a>, Stop> {
        match self.open_shard(shard, file)? {
            Ok(opened) => Ok(opened),
            Err(refusal) => Err(Stop::Refused(refusal)),
        }
    }

    /// What a compaction does to the shard in a file. Only its index is read.
    pub fn plan_compaction(
        &self,
        file: &mut ShardFile<'a>,
        is_dry: bool,
    ) -> Result<Planned, CodecError> {
        self.codec
            .plan_compaction(self.alloc(), file, &self.metadata.encoded, is_dry)
    }
}
