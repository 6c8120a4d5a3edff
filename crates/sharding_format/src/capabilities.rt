// What codecs can do with parts of an array.

/// What a codec's partial decoder can spare.
#[derive(Debug, Clone, Copy, PartialEq, Eq)]
pub struct PartialDecoderCapability {
    /// Whether it reads only a part of the bytes.
    pub partial_read: bool,
    /// Whether it decodes only a part of the array.
    pub partial_decode: bool,
}

/// What a codec's partial encoder can spare.
#[derive(Debug, Clone, Copy, PartialEq, Eq)]
pub struct PartialEncoderCapability {
    /// Whether it encodes only a part of the array.
    pub partial_encode: bool,
}
