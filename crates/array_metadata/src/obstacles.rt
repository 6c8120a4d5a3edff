// All that keeps metadata from being read: each member of a text is looked at, also behind one that is refused.
ghost use Rattle.std.specs.Prelude.{◌≡◌, Ok, IfOk, IfSome, length, vec_len};

use crate::chunk_codecs::array_codec;
use crate::metadata::{
    ArrayMetadata, Cells, codecs_of_cells, fill_in, names_in, shape_in, shard_in, type_in,
};
use array_fields::{MetadataError, Placed, escaped, test_array, test_understood, value_in};
use parts_arrays::DataType;
use parts_subsets::ChunkShape;
use std::alloc::{AllocError, Global};
use std::fmt;

/// Why the document with a path is refused: the refusal of its metadata that decides, and behind it what else is in the way. Each has a
/// line.
#[derive(Debug, Drop)]
pub struct Obstacles {
    path: String,
    /// The refusal that decides.
    pub first: MetadataError,
    // what else is in the way; the first may stand here again
    others: Vec<MetadataError>,
}

// Keeps why something is refused, if it is; gives what was read else.
fn keep<T: Drop>(
    refusals: &mut Vec<MetadataError>,
    read: Result<T, MetadataError>,
) -> Result<Option<T>, MetadataError>
    ensures { IfOk result (λ kept. IfSome kept (λ value. read ≡ Ok value)) }
{
    match read {
        Ok(value) => Ok(Some(value)),
        Err(MetadataError::OutOfMemory) => Err(MetadataError::OutOfMemory),
        Err(refusal) => {
            refusals.push(refusal)?;
            Ok(None)
        }
    }
}

// The shape of a chunk, if it is not refused; keeps why else.
fn chunk_of(
    alloc: Global,
    whole: &Placed,
    axes: usize,
    refusals: &mut Vec<MetadataError>,
) -> Result<Option<ChunkShape>, MetadataError>
    ensures { IfOk result (λ found. IfSome found (λ shape. length shape ≡ axes)) }
{
    match keep(refusals, whole.required(alloc, "chunk_grid"))? {
        Some(grid) => keep(refusals, shard_in(alloc, &grid, axes)),
        None => Ok(None),
    }
}

// The cells, if nothing that is said of them is refused; keeps what is.
fn cells_of(
    alloc: Global,
    whole: &Placed,
    refusals: &mut Vec<MetadataError>,
) -> Result<Option<Cells>, MetadataError>
    ensures { IfOk result (λ found. IfSome found (λ cells. length cells.shard ≡ vec_len cells.shape)) }
{
    let shape = keep(refusals, shape_in(alloc, whole))?;
    let element_type = keep(refusals, type_in(alloc, whole))?;
    let Some(shape) = shape else {
        return Ok(None);
    };
    let shard = chunk_of(alloc, whole, shape.len(), refusals)?;
    match (element_type, shard) {
        (Some(element_type), Some(shard)) => Ok(Some(Cells {
            shape,
            element_type,
            shard,
        })),
        _ => Ok(None),
    }
}

// Whether what is read is refused.
fn tested<T: Drop>(read: Result<T, MetadataError>) -> Result<(), MetadataError> {
    match read {
        Ok(_) => Ok(()),
        Err(refusal) => Err(refusal),
    }
}

// Tests the member `codecs` of an array of which not all cells are known.
fn test_array_codec(alloc: Global, whole: &Placed, codecs: &Placed) -> Result<(), MetadataError> {
    let shape = shape_in(alloc, whole)?;
    tested(array_codec(alloc, codecs, DataType::UInt8, shape.len()))
}

// Tests the member `codecs` of an array of these cells, or of one of which not all is known.
fn test_codecs(alloc: Global, whole: &Placed, cells: &Option<Cells>) -> Result<(), MetadataError>
    requires { IfSome cells.now (λ known. length known.shard ≡ vec_len known.shape) }
{
    let codecs = whole.required(alloc, "codecs")?;
    match cells {
        Some(cells) => tested(codecs_of_cells(alloc, &codecs, cells)),
        None => test_array_codec(alloc, whole, &codecs),
    }
}

// Tests the names of chunks, and the fill value where the type of elements is known.
fn test_names_and_fill(
    alloc: Global,
    whole: &Placed,
    refusals: &mut Vec<MetadataError>,
) -> Result<(), MetadataError> {
    let _ = keep(refusals, names_in(alloc, whole))?;
    if let Ok(element_type) = type_in(alloc, whole) {
        let _ = keep(refusals, fill_in(alloc, whole, element_type))?;
    }
    Ok(())
}

impl Obstacles {
    /// A refusal of the document with a path.
    pub fn one(alloc: Global, path: &str, refusal: MetadataError) -> Result<Self, AllocError> {
        Ok(Obstacles {
            path: escaped(alloc, path)?,
            first: refusal,
            others: Vec::new(alloc),
        })
    }

    // Adds what of the metadata of an array is refused, in the order in which `ArrayMetadata::from_text` looks at it.
    fn add_of_array(&mut self, alloc: Global, whole: &Placed) -> Result<(), MetadataError> {
        let others = &mut self.others;
        let _ = keep(others, test_understood(alloc, whole))?;
        let cells = cells_of(alloc, whole, others)?;
        test_names_and_fill(alloc, whole, others)?;
        let _ = keep(others, test_codecs(alloc, whole, &cells))?;
        Ok(())
    }

    // Adds what else of a text is refused, where it is the metadata of an array.
    fn add_of_text(&mut self, alloc: Global, text: &str) -> Result<(), MetadataError> {
        let Ok(value) = value_in(alloc, text) else {
            return Ok(());
        };
        let whole = Placed::whole(alloc, &value)?;
        match test_array(alloc, &whole) {
            Ok(()) => self.add_of_array(alloc, &whole),
            Err(_) => Ok(()),
        }
    }

    /// Why a document with a path and this text is refused, which `ArrayMetadata::from_text` refuses so; and what else of it is refused,
    /// where the text is the metadata of an array of Zarr V3. Refused only as `OutOfMemory`.
    pub fn of_text(
        alloc: Global,
        path: &str,
        text: &str,
        refusal: MetadataError,
    ) -> Result<Self, MetadataError> {
        let mut obstacles = Obstacles::one(alloc, path, refusal)?;
        obstacles.add_of_text(alloc, text)?;
        Ok(obstacles)
    }

    /// Why the elements of an array with this metadata, which the document with a path holds, are not read, as `ArrayMetadata::test_read`
    /// refuses them; and what else is in the way. Refused only as `OutOfMemory`.
    pub fn of_reading(
        alloc: Global,
        path: &str,
        metadata: &ArrayMetadata,
        refusal: MetadataError,
    ) -> Result<Self, MetadataError> {
        let mut obstacles = Obstacles::one(alloc, path, refusal)?;
        let _ = keep(&mut obstacles.others, metadata.test_type(alloc))?;
        Ok(obstacles)
    }
}

impl fmt::Display for Obstacles {
    /// Writes a line for each refusal; the last one does not end.
    fn fmt<W: fmt::Write>(&self, f: &mut fmt::Formatter<W>) -> fmt::Result {
        let (path, first) = (&self.path, &self.first);
        write!(f, "{path}: {first}")?;
        for other in self.others.iter() {
            if other != first {
                write!(f, "\n{path}: {other}")?;
            }
        }
        Ok(())
    }
}
