/// How long the encodings of an array are, in bytes.
#[derive(Debug, Clone, Copy, PartialEq, Eq)]
pub enum BytesRepresentation {
    /// Each has this length.
    FixedSize(u64),
    /// None is longer.
    BoundedSize(u64),
    /// Nothing is said.
    UnboundedSize,
}
