// An array's metadata.
ghost use Rattle.std.specs.Prelude.{◌≡◌, ◌≤◌, ℕ, List, Some, None, Ok, IfOk, OnOk, IsTrue, codes, length, option_and_then, option_map, string_bytes, unwrap_or, vec_len};
ghost use Rattle.serde_json.specs.Find.{as_array, as_str, get};
ghost use Rattle.serde_json.specs.Read.{read};
ghost use Rattle.parts_errors.specs.Words.{Bytes};
ghost use Rattle.serde_json.specs.View.{view};
ghost use Rattle.codec_metadata.specs.Metadata.{name_in};
ghost use Rattle.array_metadata.specs.AcceptedMetadata.{IsServedText, IsReadAs, FitsTogether};
ghost use Rattle.array_fields.specs.MetadataFields.{configured_in, whole_numbers_in};
ghost use Rattle.array_fields.specs.FillValues.{IsFillIn};
ghost use Rattle.array_fields.specs.ChunkKeys.{separator_of};
ghost use Rattle.array_fields.specs.KeyEncodings.{encoding_name, default_separator};
ghost use Rattle.array_metadata.specs.ArrayCodecs.{array_codec_in, encoded_of, subchunk_in, subchunk_of, HasAxes, are_transposed};
ghost use Rattle.array_codecs.specs.UnreadCodecs.{chunks_in, unread_codec_in};
ghost use Rattle.array_fields.specs.ElementTypes.{IsTypeIn, IsRead, carrier};
ghost use Rattle.parts_subsets.specs.Grid.{Divides};
ghost use Rattle.parts_arrays.specs.Types.{size_of, FitsKind, HasElements};

use crate::array_codec::ArrayCodec;
use crate::chunk_codecs::array_codec;
use crate::chunk_cuts::cut_of;
use array_codecs::{unread_codec, unserved};
use array_fields::{
    ChunkKeys, ElementType, KeptText, MetadataError, Placed, TypeText, axes_in, element_type_in,
    escaped, escaped_whole, fill_value_in, kept_text, keys_in, test_array, test_understood,
    unread_type, value_in,
};
use codec_metadata::PluginCreateError;
use parts_arrays::{DataType, FillValue};
use parts_subsets::ChunkShape;
use serde_json::Value;
use std::alloc::{AllocError, Global};

/// The metadata of an array whose chunks are shards, or elements (Zarr V3 core, "Array metadata").
pub struct ArrayMetadata {
    /// How many cells there are along each axis; 0 is served.
    pub shape: Vec<u64>,
    /// The value of `dimension_names`, as it stands in the text, for a terminal; `None` where there are no names.
    pub dimension_names: Option<String>,
    /// The shape of a chunk, which is a shard or not.
    pub shard: ChunkShape,
    /// The shape in which a chunk is cut into subchunks: where `transpose` stands before shards, that of the transposed chunk.
    pub encoded: ChunkShape,
    /// The shape of a subchunk of a shard; a chunk that is no shard is one subchunk.
    pub subchunk: ChunkShape,
    /// The names of the chunks' files.
    pub keys: ChunkKeys,
    pub element_type: ElementType,
    /// As what the codecs take the elements.
    pub data_type: DataType,
    pub fill_value: FillValue,
    pub codec: ArrayCodec,
    /// The name of the codec for which no subchunk is looked into: `transpose` where it stands before shards, else the first codec that
    /// elements go through and that is not served.
    pub unread: Option<String>,
    /// Of elements that are no whole numbers and no `bool`, what stands in the text. Where they are not read, `fill_value` has zeros in
    /// the place of its own.
    pub type_text: Option<TypeText>,
    /// The value of `codecs`, as it stands in the text, for a terminal.
    pub codecs: String,
    /// The text of the `zarr.json` that says this, as it stands there, with attributes and all members that need not be understood.
    pub text: String,
}

impl Drop for ArrayMetadata {
    fn drop(self) {
        let ArrayMetadata {
            shape: _,
            dimension_names: _,
            shard: _,
            encoded: _,
            subchunk: _,
            keys: _,
            element_type: _,
            data_type: _,
            fill_value: _,
            codec: _,
            unread: _,
            type_text: _,
            codecs: _,
            text: _,
        } = self;
    }
}

// Tests that a grid is the regular one. Refused as `BadField`.
fn test_regular(alloc: Global, grid: &Placed) -> Result<(), MetadataError>
    ensures { OnOk result (name_in (view grid.now.value.now) ≡ Some (codes "regular")) }
{
    let name = grid.extension_name(alloc)?;
    if name == "regular" {
        return Ok(());
    }
    let name = escaped(alloc, name)?;
    let sentence = format!(in alloc; "the chunk grid {name} is not served, only regular")?;
    Err(grid.bad(alloc, sentence.as_str()))
}

// The shape of a chunk of the regular grid. Refused as `BadField` where the grid is another, or as `MissingField`.
pub(crate) fn shard_in(
    alloc: Global,
    grid: &Placed,
    axes: usize,
) -> Result<ChunkShape, MetadataError>
    ensures axes { IfOk result (λ shape. length shape ≡ axes) }
    ensures regular { OnOk result (name_in (view grid.now.value.now) ≡ Some (codes "regular")) }
    ensures read { IfOk result (λ shape. option_and_then whole_numbers_in (configured_in (codes "chunk_shape") (view grid.now.value.now)) ≡ Some shape) }
{
    test_regular(alloc, grid)?;
    let configuration = grid.required(alloc, "configuration")?;
    configuration.only_members(alloc, &["chunk_shape"])?;
    let chunk_shape = configuration.required(alloc, "chunk_shape")?;
    chunk_shape.chunk_shape(alloc, axes)
}

// What the metadata says of an array's cells: how many there are along each axis, their type, and how they are cut into chunks.
#[derive(Drop)]
pub(crate) struct Cells {
    pub(crate) shape: Vec<u64>,
    pub(crate) element_type: ElementType,
    pub(crate) shard: ChunkShape,
}

// The type of an array's elements. Refused for `data_type`.
pub(crate) fn type_in(alloc: Global, whole: &Placed) -> Result<ElementType, MetadataError>
    ensures read { IfOk result (IsTypeIn (unread_codec_in (option_and_then as_array (get (codes "codecs") (view whole.now.value.now))))
        (get (codes "data_type") (view whole.now.value.now))) }
    ensures elements { IfOk result (λ element_type. HasElements (carrier element_type)) }
{
    let codec = unread_in(alloc, whole)?;
    let data_type = whole.required(alloc, "data_type")?;
    element_type_in(alloc, &data_type, &codec)
}

// How many cells an array has along each axis. Refused for `shape`.
pub(crate) fn shape_in(alloc: Global, whole: &Placed) -> Result<Vec<u64>, MetadataError>
    ensures read { IfOk result (λ shape. option_and_then whole_numbers_in (get (codes "shape") (view whole.now.value.now)) ≡ Some shape.items) }
    ensures few { IfOk result (λ shape. vec_len shape ≤ 64) }
{
    let shape = whole.required(alloc, "shape")?;
    axes_in(alloc, &shape)
}

// The cells of an array. Refused for `shape`, `data_type` and `chunk_grid` in turn.
fn cells_in(alloc: Global, whole: &Placed) -> Result<Cells, MetadataError>
    ensures shape_read { IfOk result (λ cells. option_and_then whole_numbers_in (get (codes "shape") (view whole.now.value.now)) ≡ Some cells.shape.items) }
    ensures element_type_read { IfOk result (λ cells. IsTypeIn (unread_codec_in (option_and_then as_array (get (codes "codecs") (view whole.now.value.now))))
        (get (codes "data_type") (view whole.now.value.now)) cells.element_type) }
    ensures shard_read { IfOk result (λ cells.
        option_and_then whole_numbers_in (option_and_then (configured_in (codes "chunk_shape")) (get (codes "chunk_grid") (view whole.now.value.now))) ≡ Some cells.shard) }
    ensures grid_read { OnOk result (option_and_then name_in (get (codes "chunk_grid") (view whole.now.value.now)) ≡ Some (codes "regular")) }
    ensures few { IfOk result (λ cells. vec_len cells.shape ≤ 64) }
    ensures shard { IfOk result (λ cells. length cells.shard ≡ vec_len cells.shape) }
    ensures elements { IfOk result (λ cells. HasElements (carrier cells.element_type)) }
{
    let shape = shape_in(alloc, whole)?;
    let element_type = type_in(alloc, whole)?;
    let shard = shard_in(alloc, &whole.required(alloc, "chunk_grid")?, shape.len())?;
    Ok(Cells {
        shape,
        element_type,
        shard,
    })
}

// The fill value of an array whose elements are of this type. Refused for `fill_value`.
pub(crate) fn fill_in(
    alloc: Global,
    whole: &Placed,
    element_type: ElementType,
) -> Result<FillValue, MetadataError>
    ensures size { IfOk result (λ fill_value. FitsKind (size_of (carrier element_type)) fill_value) }
    ensures read { IfOk result (IsFillIn element_type (get (codes "fill_value") (view whole.now.value.now))) }
{
    let fill = whole.required(alloc, "fill_value")?;
    fill_value_in(alloc, &fill, element_type)
}

// The name of the codec for which no subchunk is looked into.
fn unread_in(alloc: Global, whole: &Placed) -> Result<Option<String>, MetadataError>
    ensures { IfOk result (λ unread. option_map string_bytes unread ≡ unread_codec_in (option_and_then as_array (get (codes "codecs") (view whole.now.value.now)))) }
{
    match whole.member(alloc, "codecs")? {
        Some(codecs) => Ok(unread_codec(alloc, &codecs)?),
        None => Ok(None),
    }
}

// What the member `codecs` says for a terminal: the codec for which no subchunk is looked into, and its text.
#[derive(Drop)]
struct SaidCodecs {
    unread: Option<String>,
    text: String,
}

// What the member `codecs` says for a terminal.
fn said_codecs(alloc: Global, codecs: &Placed) -> Result<SaidCodecs, MetadataError>
    ensures { IfOk result (λ said. option_map string_bytes said.unread ≡ unread_codec_in (as_array (view codecs.now.value.now))) }
{
    let unread = unread_codec(alloc, codecs)?;
    let text = escaped_whole(alloc, codecs.value.to_string(alloc)?.as_str())?;
    Ok(SaidCodecs { unread, text })
}

// What the member `codecs` says: the codec of chunks, how it cuts them, and what is said for a terminal.
#[derive(Drop)]
pub(crate) struct ChunkCodecs {
    codec: ArrayCodec,
    encoded: ChunkShape,
    subchunk: ChunkShape,
    unread: Option<String>,
    text: String,
}

// What the member `codecs` says of an array of these cells. Refused for `codecs`.
pub(crate) fn codecs_of_cells(
    alloc: Global,
    codecs: &Placed,
    cells: &Cells,
) -> Result<ChunkCodecs, MetadataError>
    requires shard { length cells.now.shard ≡ vec_len cells.now.shape }
    ensures encoded { IfOk result (λ found. encoded_of found.codec cells.now.shard ≡ found.encoded) }
    ensures encoded_axes { IfOk result (λ found. length found.encoded ≡ vec_len cells.now.shape) }
    ensures divides { IfOk result (λ found. Divides found.subchunk found.encoded) }
    ensures axes { IfOk result (λ found. length found.subchunk ≡ vec_len cells.now.shape) }
    ensures codec { IfOk result (λ found. subchunk_of found.codec cells.now.shard ≡ found.subchunk) }
    ensures subchunk_read { IfOk result (λ found. subchunk_in (chunks_in (view codecs.now.value.now)) cells.now.shard ≡ Some found.subchunk) }
    ensures read { IfOk result (λ found. option_map (array_codec_in (vec_len cells.now.shape)) (as_array (view codecs.now.value.now)) ≡ Some (Ok found.codec)) }
    ensures unread { IfOk result (λ found. option_map string_bytes found.unread ≡ unread_codec_in (as_array (view codecs.now.value.now))) }
{
    let said = said_codecs(alloc, codecs)?;
    let part_type = cells.element_type.part_type();
    let codec = array_codec(alloc, codecs, part_type, cells.shape.len())?;
    let cut = cut_of(alloc, &codec, &cells.shard)?;
    Ok(ChunkCodecs {
        codec,
        encoded: cut.encoded,
        subchunk: cut.subchunk,
        unread: said.unread,
        text: said.text,
    })
}

// The metadata of an array of these cells, with these codecs of its chunks.
fn with_codecs(
    cells: Cells,
    codecs: ChunkCodecs,
    keys: ChunkKeys,
    fill_value: FillValue,
    kept: KeptText,
) -> ArrayMetadata
    ensures shape { result.shape ≡ cells.shape }
    ensures element_type { result.element_type ≡ cells.element_type }
    ensures data_type { result.data_type ≡ carrier cells.element_type }
    ensures shard { result.shard ≡ cells.shard }
    ensures keys { result.keys ≡ keys }
    ensures fill_value { result.fill_value ≡ fill_value }
    ensures encoded { result.encoded ≡ codecs.encoded }
    ensures subchunk { result.subchunk ≡ codecs.subchunk }
    ensures codec { result.codec ≡ codecs.codec }
    ensures unread { result.unread ≡ codecs.unread }
    ensures text { result.text ≡ kept.text }
{
    ArrayMetadata {
        shape: cells.shape,
        dimension_names: kept.dimension_names,
        shard: cells.shard,
        encoded: codecs.encoded,
        subchunk: codecs.subchunk,
        keys,
        element_type: cells.element_type,
        data_type: cells.element_type.carrier(),
        fill_value,
        codec: codecs.codec,
        unread: codecs.unread,
        type_text: kept.type_text,
        codecs: codecs.text,
        text: kept.text,
    }
}

// The names of the files of an array's chunks. Refused for `chunk_key_encoding`.
pub(crate) fn names_in(alloc: Global, whole: &Placed) -> Result<ChunkKeys, MetadataError>
    ensures encoding { IfOk result (λ keys. option_and_then name_in (get (codes "chunk_key_encoding") (view whole.now.value.now)) ≡ Some (encoding_name keys.encoding)) }
    ensures separator { IfOk result (λ keys. unwrap_or (option_and_then as_str (option_and_then (configured_in (codes "separator")) (get (codes "chunk_key_encoding") (view whole.now.value.now))))
        (default_separator keys.encoding) ≡ separator_of keys.slashes) }
{
    let encoding = whole.required(alloc, "chunk_key_encoding")?;
    keys_in(alloc, &encoding)
}

// The codecs of an array of these cells. Refused for `codecs`.
fn codecs_in(alloc: Global, whole: &Placed, cells: &Cells) -> Result<ChunkCodecs, MetadataError>
    requires shard { length cells.now.shard ≡ vec_len cells.now.shape }
    ensures encoded { IfOk result (λ found. encoded_of found.codec cells.now.shard ≡ found.encoded) }
    ensures encoded_axes { IfOk result (λ found. length found.encoded ≡ vec_len cells.now.shape) }
    ensures divides { IfOk result (λ found. Divides found.subchunk found.encoded) }
    ensures axes { IfOk result (λ found. length found.subchunk ≡ vec_len cells.now.shape) }
    ensures codec { IfOk result (λ found. subchunk_of found.codec cells.now.shard ≡ found.subchunk) }
    ensures subchunk_read { IfOk result (λ found. subchunk_in (option_and_then chunks_in (get (codes "codecs") (view whole.now.value.now))) cells.now.shard ≡ Some found.subchunk) }
    ensures read { IfOk result (λ found. option_map (array_codec_in (vec_len cells.now.shape)) (option_and_then as_array (get (codes "codecs") (view whole.now.value.now))) ≡ Some (Ok found.codec)) }
    ensures unread { IfOk result (λ found. option_map string_bytes found.unread ≡ unread_codec_in (option_and_then as_array (get (codes "codecs") (view whole.now.value.now)))) }
{
    let codecs = whole.required(alloc, "codecs")?;
    codecs_of_cells(alloc, &codecs, cells)
}

// The metadata of an array of which all members are understood. Refused for `shape` and the others in turn.
fn array_in(alloc: Global, whole: &Placed, text: &str) -> Result<ArrayMetadata, MetadataError>
    ensures grid { OnOk result (option_and_then name_in (get (codes "chunk_grid") (view whole.now.value.now)) ≡ Some (codes "regular")) }
    ensures says { IfOk result (λ metadata. (text : Bytes) → read text ≡ Some (view whole.now.value.now) → IsReadAs text metadata) }
    ensures fits { IfOk result FitsTogether }
    ensures text { IfOk result (λ metadata. string_bytes metadata.text ≡ text.now) }
{
    let cells = cells_in(alloc, whole)?;
    let keys = names_in(alloc, whole)?;
    let fill_value = fill_in(alloc, whole, cells.element_type)?;
    let kept = kept_text(alloc, whole, cells.element_type, text)?;
    let codecs = codecs_in(alloc, whole, &cells)?;
    Ok(with_codecs(cells, codecs, keys, fill_value, kept))
}

// The metadata that a value of JSON is, which a text says. Refused as `from_text` refuses.
fn metadata_of(alloc: Global, value: &Value, text: &str) -> Result<ArrayMetadata, MetadataError>
    ensures served { OnOk result ((text : Bytes) → read text ≡ Some (view value.now) → IsServedText text) }
    ensures says { IfOk result (λ metadata. (text : Bytes) → read text ≡ Some (view value.now) → IsReadAs text metadata) }
    ensures fits { IfOk result FitsTogether }
    ensures text { IfOk result (λ metadata. string_bytes metadata.text ≡ text.now) }
{
    let whole = Placed::whole(alloc, value)?;
    test_array(alloc, &whole)?;
    test_understood(alloc, &whole)?;
    array_in(alloc, &whole, text)
}

impl ArrayMetadata {
    /// Whether `transpose` stands before shards, so that their subchunks have the axes of the array in another order.
    pub fn is_transposed(&self) -> bool
        ensures { result ≡ are_transposed self.now.codec }
    {
        matches!(&self.codec, ArrayCodec::Transposed(_))
    }

    /// Tests that the elements are read. Refused, in this order, as `UnsupportedCodec` with the codec for which no subchunk is looked
    /// into, and as `BadField` where their type is not read.
    pub fn test_read(&self, alloc: Global) -> Result<(), MetadataError>
        ensures codec { OnOk result (self.now.unread ≡ None) }
        ensures element_type { OnOk result (IsRead self.now.element_type) }
    {
        self.test_subchunks(alloc)?;
        self.test_type(alloc)
    }

    // Tests that subchunks are looked into. Refused as `UnsupportedCodec`.
    fn test_subchunks(&self, alloc: Global) -> Result<(), MetadataError>
        ensures { OnOk result (self.now.unread ≡ None) }
    {
        if let Some(name) = &self.unread {
            let error = PluginCreateError::unsupported_codec(alloc, name);
            let place = if self.is_transposed() {
                "codecs[0]"
            } else {
                "codecs[0].configuration.codecs"
            };
            return Err(MetadataError::refused(alloc, error, place, unserved(name)));
        }
        Ok(())
    }

    // Tests that elements of the type are read. Refused as `BadField`.
    pub(crate) fn test_type(&self, alloc: Global) -> Result<(), MetadataError>
        ensures { OnOk result (IsRead self.now.element_type) }
    {
        match (self.element_type, &self.type_text) {
            (ElementType::Unread(_), Some(text)) => Err(unread_type(alloc, &text.data_type)?),
            (ElementType::Unread(_), None) => Err(unread_type(alloc, "raw")?),
            _ => Ok(()),
        }
    }

    /// The metadata that a `zarr.json` holds (Zarr V3 core, "Array metadata"). Refused, in this order, where the text is no JSON,
    /// nests deeper than is read, has a number past the range of a float, is no object, of another `zarr_format` than 3, of another
    /// `node_type` than `array`, has an unknown member that must be understood, or `storage_transformers`; and then for `shape` (whole
    /// numbers), `data_type` (`bool`, `int8` to `int64`, `uint8` to `uint64`, floats, complex numbers, raw bits, times, `string` or `bytes`), `chunk_grid` (`regular`), `chunk_key_encoding` (`default` or `v2`), `fill_value` (an element of the type, or of one that
    /// is not read any value) and `codecs` (`bytes`, or `vlen-utf8` or `vlen-bytes`, up to three of `crc32c`, `gzip`, `numcodecs.zlib` and `zstd` behind it, `transpose`
    /// before it; or `sharding_indexed` alone, with these inside, `sharding_indexed` once more, or codecs of other names, which are not
    /// looked into; or `transpose` and `sharding_indexed`, of which no subchunk is looked into) in turn: each with its place, and a
    /// sentence that says what is not served; or as `OutOfMemory`. Where no subchunk of shards is looked into, the type of elements may
    /// have any name. The text is kept: it is how the metadata is written.
    pub fn from_text(alloc: Global, text: &str) -> Result<Self, MetadataError>
        ensures served { OnOk result (IsServedText text.now) }
        ensures read { IfOk result (IsReadAs text.now) }
        ensures fits { IfOk result FitsTogether }
        ensures text { IfOk result (λ metadata. string_bytes metadata.text ≡ text.now) }
    {
        let value = value_in(alloc, text)?;
        metadata_of(alloc, &value, text)
    }
}
