// The types of elements that a script can name.
ghost use Rattle.std.specs.Prelude.{◌≡◌, ◌+◌, ◌*◌, ◌^◌};
ghost use Rattle.parts_arrays.specs.Types.{size_of};
ghost use Rattle.tool_script.specs.Elements.{number_type, type_of, width_of, IsShortSize};

use zarr_parts::DataType;

/// A type of whole numbers without sign.
#[derive(Clone, Copy)]
pub enum NumberType {
    UInt8,
    UInt16,
    UInt32,
    UInt64,
}

/// A type of elements that a script can name: whole numbers without sign, or bytes, of which each element has a length of its
/// own.
#[derive(Clone, Copy)]
pub enum ElementType {
    Number(NumberType),
    Bytes,
}

impl NumberType {
    /// The type as codecs know it.
    pub fn data_type(self) -> DataType
        ensures { result ≡ number_type self }
    {
        match self {
            NumberType::UInt8 => DataType::UInt8,
            NumberType::UInt16 => DataType::UInt16,
            NumberType::UInt32 => DataType::UInt32,
            NumberType::UInt64 => DataType::UInt64,
        }
    }

    /// How many bytes an element has.
    pub fn width(self) -> usize
        ensures { result ≡ width_of self }
    {
        match self {
            NumberType::UInt8 => 1,
            NumberType::UInt16 => 2,
            NumberType::UInt32 => 4,
            NumberType::UInt64 => 8,
        }
    }

    /// The greatest number of the type.
    pub fn greatest(self) -> u64
        ensures { result + 1 ≡ 2 ^ (8 * width_of self) }
    {
        match self {
            NumberType::UInt8 => 0xff,
            NumberType::UInt16 => 0xffff,
            NumberType::UInt32 => 0xffff_ffff,
            NumberType::UInt64 => u64::MAX,
        }
    }
}

impl ElementType {
    /// The type that a word names. `None` where it names none.
    pub fn parse(word: &[u8]) -> Option<Self> {
        match word {
            b"uint8" => Some(ElementType::Number(NumberType::UInt8)),
            b"uint16" => Some(ElementType::Number(NumberType::UInt16)),
            b"uint32" => Some(ElementType::Number(NumberType::UInt32)),
            b"uint64" => Some(ElementType::Number(NumberType::UInt64)),
            b"bytes" => Some(ElementType::Bytes),
            _ => None,
        }
    }

    /// The type as codecs know it.
    pub fn data_type(self) -> DataType
        ensures value { result ≡ type_of self }
        ensures sized { IsShortSize (size_of result) }
    {
        match self {
            ElementType::Number(number) => number.data_type(),
            ElementType::Bytes => DataType::Bytes,
        }
    }
}
