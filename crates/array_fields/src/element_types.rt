// The data type of an array.
ghost use Rattle.std.specs.Prelude.{◌≡◌, ◌<◌, ◌%◌, Some, None, IfOk, IfSome, IfNone, option_map, string_bytes};
ghost use Rattle.serde_json.specs.View.{view};
ghost use Rattle.parts_arrays.specs.Types.{type_name, HasElements};
ghost use Rattle.array_fields.specs.ElementTypes.{IsTypeIn, IsTypeOf, IsConfigured, IsOfSize, IsUnnamed, IsRaw, IsNameOf, carrier, length_in, listed_type};

use crate::error::MetadataError;
use crate::escape::escaped;
use crate::fields::Placed;
use crate::floats::FloatFormat;
use codec_metadata::PluginCreateError;
use parts_arrays::DataType;
use std::alloc::{AllocError, Global};
use std::fmt;

// How many bytes an element may have of a type that is named by its bits: 64 KiB.
const MOST_BYTES: usize = 65_536;

/// What the elements of an array are.
#[derive(Debug, Clone, Copy, PartialEq, Eq)]
pub enum ElementType {
    /// `bool`, or a whole number, as the codecs know it.
    Number(DataType),
    /// A float.
    Float(FloatFormat),
    /// Two floats: the real part, and then the imaginary one.
    Complex(FloatFormat),
    /// So many bytes, as `r16` has two.
    RawBits(usize),
    /// A time, by how many units after 1970 it is (Zarr extension `numpy.datetime64`).
    DateTime64,
    /// A length of time in units (Zarr extension `numpy.timedelta64`).
    TimeDelta64,
    /// A text in UTF-8, of any length (Zarr extension `string`).
    Utf8,
    /// Any number of bytes (Zarr extension `bytes`).
    Binary,
    /// A text in UTF-32, of this size in bytes with the zeros behind it (`fixed_length_utf32` of zarr-python).
    Utf32(usize),
    /// A text in UTF-8, of this size with the zeros behind it (`null_terminated_bytes` of zarr-python).
    NullTerminated(usize),
    /// So many bytes that are not read.
    Unread(usize),
}

impl ElementType {
    /// As what the codecs take an element: a float as the unsigned number of the same size, a time as `int64`, a complex number, raw
    /// bits and a text as their bytes.
    pub fn carrier(self) -> DataType
        ensures { result ≡ carrier self }
    {
        match self {
            ElementType::Number(data_type) => data_type,
            ElementType::Float(format) => format.carrier(),
            ElementType::DateTime64 | ElementType::TimeDelta64 => DataType::Int64,
            ElementType::Utf8 | ElementType::Binary => DataType::Bytes,
            ElementType::Complex(format) => DataType::Raw(2 * format.size()),
            ElementType::Utf32(size) | ElementType::NullTerminated(size) => DataType::Raw(size),
            ElementType::RawBits(size) | ElementType::Unread(size) => DataType::Raw(size),
        }
    }

    /// What has a byte order: of a complex number its parts, and of a text in UTF-32 its characters.
    pub fn part_type(self) -> DataType {
        match self {
            ElementType::Complex(format) => format.carrier(),
            ElementType::Utf32(_) => DataType::UInt32,
            _ => self.carrier(),
        }
    }

    /// In which encoding an element is a text, if it is one.
    pub fn encoding(self) -> Option<&'static str> {
        match self {
            ElementType::Utf8 | ElementType::NullTerminated(_) => Some("UTF-8"),
            ElementType::Utf32(_) => Some("UTF-32"),
            _ => None,
        }
    }

    /// The Zarr name, of types that are read; of raw bits `raw`.
    pub fn name(self) -> &'static str
        ensures { IsNameOf self result.now }
    {
        match self {
            ElementType::Number(data_type) => data_type.name().unwrap_or("raw"),
            ElementType::Float(format) => format.name(),
            ElementType::DateTime64 => "numpy.datetime64",
            ElementType::TimeDelta64 => "numpy.timedelta64",
            ElementType::Complex(format) => format.complex_name(),
            ElementType::Utf8 => "string",
            ElementType::Binary => "bytes",
            ElementType::Utf32(_) => "fixed_length_utf32",
            ElementType::NullTerminated(_) => "null_terminated_bytes",
            ElementType::RawBits(_) | ElementType::Unread(_) => "raw",
        }
    }
}

// The keys that the configuration of the type of a name may have.
fn configuration_keys(name: &str) -> &'static [&'static str] {
    match name {
        "numpy.datetime64" | "numpy.timedelta64" => &["scale_factor", "unit"],
        "fixed_length_utf32" | "null_terminated_bytes" | "raw_bytes" => &["length_bytes"],
        _ => &[],
    }
}

impl fmt::Display for ElementType {
    /// Writes the Zarr name of a type that is read.
    fn fmt<W: fmt::Write>(&self, f: &mut fmt::Formatter<W>) -> fmt::Result {
        match self {
            ElementType::RawBits(size) => write!(f, "r{}", (*size as u64).saturating_mul(8)),
            _ => f.write_str(self.name()),
        }
    }
}

// The type of a name that the codecs know, and whose elements are of one size.
#[tactic(auto, using(crate::proofs::Types::unnamed))]
fn known_type(name: &str) -> Option<DataType>
    ensures named { IfSome result (λ data_type. type_name data_type ≡ Some name.now) }
    ensures elements { IfSome result HasElements }
    ensures unnamed { IfNone result (IsUnnamed name.now) }
{
    match DataType::from_name(name) {
        Some(DataType::Bytes) | None => None,
        Some(data_type) => Some(data_type),
    }
}

// The type of a name that the codecs do not know.
fn listed_type(name: &str) -> Option<ElementType>
    ensures listed { result ≡ listed_type name.now }
    ensures elements { IfSome result (λ element_type. HasElements (carrier element_type)) }
{
    match name {
        "float16" => Some(ElementType::Float(FloatFormat::Float16)),
        "bfloat16" => Some(ElementType::Float(FloatFormat::BFloat16)),
        "float32" => Some(ElementType::Float(FloatFormat::Float32)),
        "float64" => Some(ElementType::Float(FloatFormat::Float64)),
        "numpy.datetime64" => Some(ElementType::DateTime64),
        "numpy.timedelta64" => Some(ElementType::TimeDelta64),
        "complex64" => Some(ElementType::Complex(FloatFormat::Float32)),
        "complex128" => Some(ElementType::Complex(FloatFormat::Float64)),
        "complex_float16" => Some(ElementType::Complex(FloatFormat::Float16)),
        "complex_bfloat16" => Some(ElementType::Complex(FloatFormat::BFloat16)),
        "string" => Some(ElementType::Utf8),
        "bytes" | "variable_length_bytes" => Some(ElementType::Binary),
        _ => None,
    }
}

// How many bytes an element has by the configuration of its type: a multiple of as many as a part has. Refused as `MissingField` where none
// says so, and as `BadField`.
fn length_in(alloc: Global, value: &Placed, part: usize) -> Result<usize, MetadataError>
    requires { 0 < part }
    ensures read { IfOk result (λ size. length_in (view value.now.value.now) ≡ Some size) }
    ensures some { IfOk result (λ size. 0 < size) }
    ensures parts { IfOk result (λ size. size % part ≡ 0) }
{
    let configuration = value.required(alloc, "configuration")?;
    let length = configuration.required(alloc, "length_bytes")?;
    match length.value.as_u64() {
        Some(size) if 0 < size && size <= MOST_BYTES as u64 && size as usize % part == 0 => {
            Ok(size as usize)
        }
        _ => {
            let sentence = format!(in alloc;
                "this is no multiple of {part} from {part} to {MOST_BYTES}"
            )?;
            Err(length.bad(alloc, sentence.as_str()))
        }
    }
}

// The type of a name whose configuration says how many bytes an element has; nothing of another name.
fn configured_type(
    alloc: Global,
    value: &Placed,
    name: &str,
) -> Result<Option<ElementType>, MetadataError>
    ensures configured { IfOk result (λ found. IfSome found (IsConfigured name.now (view value.now.value.now))) }
    ensures elements { IfOk result (λ found. IfSome found (λ element_type. HasElements (carrier element_type))) }
{
    match name {
        "fixed_length_utf32" => Ok(Some(ElementType::Utf32(length_in(alloc, value, 4)?))),
        "null_terminated_bytes" => {
            Ok(Some(ElementType::NullTerminated(length_in(alloc, value, 1)?)))
        }
        "raw_bytes" => Ok(Some(ElementType::RawBits(length_in(alloc, value, 1)?))),
        _ => Ok(None),
    }
}

// How many bytes an element has of a type that is named by its bits, as `r16`.
fn raw_size(name: &str) -> Option<usize>
    ensures { IfSome result (IsRaw name.now) }
{
    let bits: usize = name.strip_prefix("r")?.parse().ok()?;
    if bits == 0 || bits % 8 != 0 || bits / 8 > MOST_BYTES {
        return None;
    }
    Some(bits / 8)
}

/// Why elements of a type of a name are not read (Zarr V3 core, "Data types"): `BadField` with the place `data_type`.
pub fn unread_type(alloc: Global, name: &str) -> Result<MetadataError, AllocError> {
    let name = escaped(alloc, name)?;
    let sentence = format!(in alloc;
        "elements of the data type {name} are not read, only bool, int8 to int64, uint8 to uint64, floats, complex numbers, raw bits, times, texts and bytes"
    )?;
    let error = PluginCreateError::bad_field(alloc, "data_type");
    Ok(MetadataError::refused(alloc, error, "data_type", sentence.as_str()))
}

// The type of a name that says how many bits an element has, which a codec of elements that is not served may tell nothing of.
fn sized_type(
    alloc: Global,
    name: &str,
    codec: &Option<String>,
) -> Result<ElementType, MetadataError>
    ensures elements { IfOk result (λ element_type. HasElements (carrier element_type)) }
    ensures sized { IfOk result (IsOfSize (option_map string_bytes codec.now) name.now) }
{
    match raw_size(name) {
        Some(size) => Ok(ElementType::RawBits(size)),
        None if codec.is_some() => Ok(ElementType::Unread(1)),
        None => Err(unread_type(alloc, name)?),
    }
}

// The type that a value with a name gives.
fn named_type(
    alloc: Global,
    value: &Placed,
    name: &str,
    codec: &Option<String>,
) -> Result<ElementType, MetadataError>
    ensures elements { IfOk result (λ element_type. HasElements (carrier element_type)) }
    ensures named { IfOk result (IsTypeOf (option_map string_bytes codec.now) name.now (view value.now.value.now)) }
{
    if let Some(data_type) = known_type(name) {
        return Ok(ElementType::Number(data_type));
    }
    if let Some(element_type) = listed_type(name) {
        return Ok(element_type);
    }
    match configured_type(alloc, value, name)? {
        Some(element_type) => Ok(element_type),
        None => sized_type(alloc, name, codec),
    }
}

/// The type of elements that a value names (Zarr V3 core, "Data types"): one that is read, or the number of its bytes. Where a codec of
/// elements is not served, which is named, elements of an unknown size are one byte. Refused as `BadField`, and as `MissingField` where the
/// configuration must say how many bytes an element has, and does not.
pub fn element_type_in(
    alloc: Global,
    value: &Placed,
    codec: &Option<String>,
) -> Result<ElementType, MetadataError>
    ensures elements { IfOk result (λ element_type. HasElements (carrier element_type)) }
    ensures named { IfOk result (IsTypeIn (option_map string_bytes codec.now) (Some (view value.now.value.now))) }
{
    let name = value.extension_name(alloc)?;
    let element_type = named_type(alloc, value, name, codec)?;
    if matches!(element_type, ElementType::Unread(_)) {
        return Ok(element_type);
    }
    if let Some(configuration) = value.member(alloc, "configuration")? {
        configuration.only_members(alloc, configuration_keys(name))?;
    }
    Ok(element_type)
}
