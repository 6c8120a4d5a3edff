// Data types and the sizes of their elements.
ghost use Rattle.std.specs.Prelude.{◌≡◌, ◌≢◌, ◌↔◌, IsTrue, Some, None, IfSome, IfNone};
ghost use Rattle.parts_arrays.specs.declared.data_type.DataType.TheVariants.{Optional};
ghost use Rattle.parts_arrays.specs.declared.data_type.DataType.{DataType};
ghost use Rattle.parts_arrays.specs.Types.{size_of, type_name};

/// What the elements of an array are (Zarr V3 core, "Data types").
#[derive(Debug, Clone, Copy, PartialEq, Eq)]
pub enum DataType {
    /// `bool`: one byte.
    Bool,
    /// `int8`.
    Int8,
    /// `int16`.
    Int16,
    /// `int32`.
    Int32,
    /// `int64`.
    Int64,
    /// `uint8`.
    UInt8,
    /// `uint16`.
    UInt16,
    /// `uint32`.
    UInt32,
    /// `uint64`.
    UInt64,
    /// Elements of so many bytes that are not looked into.
    Raw(usize),
    /// Elements each of a length of its own.
    Bytes,
    /// A mark for optional types, which every call refuses.
    Optional,
}

/// How many bytes an element has.
#[derive(Debug, Clone, Copy, PartialEq, Eq)]
pub enum DataTypeSize {
    /// Each element has so many bytes.
    Fixed(usize),
    /// Each element has a length of its own.
    Variable,
}

impl DataType {
    /// The type with a Zarr name (Zarr V3 core, "Core data types"; `bytes` is an extension). `None` where it names no other than
    /// `Raw`, whose names say how many bits it has.
    pub fn from_name(name: &str) -> Option<Self>
        ensures named { IfSome result (λ data_type. type_name data_type ≡ Some name.now) }
        ensures unnamed { IfNone result ((data_type : DataType) → type_name data_type ≢ Some name.now) }
    {
        match name {
            "bool" => Some(DataType::Bool),
            "int8" => Some(DataType::Int8),
            "int16" => Some(DataType::Int16),
            "int32" => Some(DataType::Int32),
            "int64" => Some(DataType::Int64),
            "uint8" => Some(DataType::UInt8),
            "uint16" => Some(DataType::UInt16),
            "uint32" => Some(DataType::UInt32),
            "uint64" => Some(DataType::UInt64),
            "bytes" => Some(DataType::Bytes),
            _ => None,
        }
    }

    /// The type's Zarr name. `None` of `Raw`, whose name says how many bits it has, and of `Optional`.
    pub fn name(&self) -> Option<&'static str>
        ensures named { IfSome result (λ name. type_name self.now ≡ Some name.now) }
        ensures unnamed { IfNone result (type_name self.now ≡ None) }
    {
        match self {
            DataType::Bool => Some("bool"),
            DataType::Int8 => Some("int8"),
            DataType::Int16 => Some("int16"),
            DataType::Int32 => Some("int32"),
            DataType::Int64 => Some("int64"),
            DataType::UInt8 => Some("uint8"),
            DataType::UInt16 => Some("uint16"),
            DataType::UInt32 => Some("uint32"),
            DataType::UInt64 => Some("uint64"),
            DataType::Bytes => Some("bytes"),
            DataType::Raw(_) | DataType::Optional => None,
        }
    }

    /// How many bytes an element has: 1 to 8, the number of `Raw`, or a length of its own.
    /// `Optional` answers `Fixed(0)`.
    pub fn size(&self) -> DataTypeSize
        ensures { result ≡ size_of self.now }
    {
        match self {
            DataType::Bool | DataType::Int8 | DataType::UInt8 => DataTypeSize::Fixed(1),
            DataType::Int16 | DataType::UInt16 => DataTypeSize::Fixed(2),
            DataType::Int32 | DataType::UInt32 => DataTypeSize::Fixed(4),
            DataType::Int64 | DataType::UInt64 => DataTypeSize::Fixed(8),
            DataType::Raw(size) => DataTypeSize::Fixed(*size),
            DataType::Bytes => DataTypeSize::Variable,
            DataType::Optional => DataTypeSize::Fixed(0),
        }
    }

    /// Whether this is the mark for optional types.
    pub fn is_optional(&self) -> bool
        ensures { IsTrue result ↔ (self.now ≡ Optional) }
    {
        matches!(self, DataType::Optional)
    }
}
