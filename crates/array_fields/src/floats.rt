// Floats: their formats, and the bits that metadata gives them.
ghost use Rattle.std.specs.Prelude.{◌≡◌, ◌↔◌, ◌≤◌, ◌<◌, ◌^◌, ◌%◌, IfSome, true};
ghost use Rattle.std.specs.Float.{NotNan, is_sign_negative};
ghost use Rattle.array_fields.specs.ElementTypes.{float_carrier, float_size, IsNameOf};
ghost use Rattle.array_fields.specs.declared.element_types.ElementType.TheVariants.{Complex, Float};
ghost use Rattle.array_fields.specs.Floats.{digits_of, infinity_of, nan_of, sign_of, named_bits, IsHexadecimal, IsFloatText, finer_half, finer_brain, is_between, is_nearest, half_size, half_value, IsFloatNumber};

use parts_arrays::DataType;
use std::num::{
    f32_from_bits_with_nan, f32_to_bits_with_nan, f32_to_f64_with_nan, f64_from_bits_with_nan,
    f64_to_bits_with_nan, nearest_f64_to_f32_with_nan, nearest_u64_to_f32, saturating_f64_to_u64,
};

/// The formats of floats.
#[derive(Debug, Clone, Copy, PartialEq, Eq)]
pub enum FloatFormat {
    /// `float16`: IEEE 754's binary16.
    Float16,
    /// `bfloat16`: the upper half of a `float32`.
    BFloat16,
    /// `float32`: IEEE 754's binary32.
    Float32,
    /// `float64`: IEEE 754's binary64.
    Float64,
}

impl FloatFormat {
    /// The Zarr name.
    pub fn name(self) -> &'static str
        ensures { IsNameOf (Float self) result.now }
    {
        match self {
            FloatFormat::Float16 => "float16",
            FloatFormat::BFloat16 => "bfloat16",
            FloatFormat::Float32 => "float32",
            FloatFormat::Float64 => "float64",
        }
    }

    /// The Zarr name of a pair of these.
    pub fn complex_name(self) -> &'static str
        ensures { IsNameOf (Complex self) result.now }
    {
        match self {
            FloatFormat::Float16 => "complex_float16",
            FloatFormat::BFloat16 => "complex_bfloat16",
            FloatFormat::Float32 => "complex64",
            FloatFormat::Float64 => "complex128",
        }
    }

    /// How many bytes a float has.
    pub fn size(self) -> usize
        ensures { result ≡ float_size self }
    {
        match self {
            FloatFormat::Float16 | FloatFormat::BFloat16 => 2,
            FloatFormat::Float32 => 4,
            FloatFormat::Float64 => 8,
        }
    }

    /// As what the codecs take a float: as the unsigned number of the same size.
    pub fn carrier(self) -> DataType
        ensures { result ≡ float_carrier self }
    {
        match self {
            FloatFormat::Float16 | FloatFormat::BFloat16 => DataType::UInt16,
            FloatFormat::Float32 => DataType::UInt32,
            FloatFormat::Float64 => DataType::UInt64,
        }
    }

    // How many hexadecimal digits the bits have.
    fn digits(self) -> usize
        ensures { result ≡ digits_of self }
    {
        match self {
            FloatFormat::Float16 | FloatFormat::BFloat16 => 4,
            FloatFormat::Float32 => 8,
            FloatFormat::Float64 => 16,
        }
    }

    // The bits of infinity.
    fn infinity(self) -> u64
        ensures { result ≡ infinity_of self }
    {
        match self {
            FloatFormat::Float16 => 0x7c00,
            FloatFormat::BFloat16 => 0x7f80,
            FloatFormat::Float32 => 0x7f80_0000,
            FloatFormat::Float64 => 0x7ff0_0000_0000_0000,
        }
    }

    // The bits of the NaN that the name says.
    fn nan(self) -> u64
        ensures { result ≡ nan_of self }
    {
        match self {
            FloatFormat::Float16 => 0x7e00,
            FloatFormat::BFloat16 => 0x7fc0,
            FloatFormat::Float32 => 0x7fc0_0000,
            FloatFormat::Float64 => 0x7ff8_0000_0000_0000,
        }
    }

    /// The bit of the sign.
    pub fn sign(self) -> u64
        ensures { result ≡ sign_of self }
    {
        match self {
            FloatFormat::Float16 | FloatFormat::BFloat16 => 0x8000,
            FloatFormat::Float32 => 0x8000_0000,
            FloatFormat::Float64 => 0x8000_0000_0000_0000,
        }
    }

    // The bits of a name.
    fn named_bits(self, text: &str) -> Option<u64>
        ensures { result ≡ named_bits self text.now }
    {
        match text {
            "NaN" => Some(self.nan()),
            "Infinity" => Some(self.infinity()),
            "-Infinity" => Some(self.sign() + self.infinity()),
            _ => None,
        }
    }

    // The bits that a text has in hexadecimal digits.
    fn hexadecimal_bits(self, text: &str) -> Option<u64>
        ensures { IfSome result (IsHexadecimal self text.now) }
    {
        let digits = text.strip_prefix("0x")?;
        if digits.len() != self.digits() || digits.starts_with('+') {
            return None;
        }
        u64::from_str_radix(digits, 16).ok()
    }

    /// The bits that a text says.
    pub fn text_bits(self, text: &str) -> Option<u64>
        ensures { IfSome result (IsFloatText self text.now) }
    {
        match self.named_bits(text) {
            Some(bits) => Some(bits),
            None => self.hexadecimal_bits(text),
        }
    }
}

// The number that float16 would have with one digit more, by its place among these: the bits of a float16 and a 0 or 1 behind them.
fn finer_half(place: u64) -> f32
    requires { place < 2 ^ 16 }
    ensures { result ≡ finer_half place }
{
    if place < 2048 {
        nearest_u64_to_f32(place) / nearest_u64_to_f32(0x200_0000)
    } else {
        f32_from_bits_with_nan((place * 0x1000 + 0x3800_0000) as u32)
    }
}

// And bfloat16.
fn finer_brain(place: u64) -> f32
    requires { place < 2 ^ 16 }
    ensures { result ≡ finer_brain place }
{
    f32_from_bits_with_nan((place * 0x8000) as u32)
}

// Whether a number lies between two halfway ones, and is neither where the magnitude of its bits is odd.
fn is_between(magnitude: u64, lower: f32, x: f64, upper: f32) -> bool
    ensures { result ≡ is_between magnitude lower x upper }
{
    let (lower, upper) = (f32_to_f64_with_nan(lower), f32_to_f64_with_nan(upper));
    if magnitude % 2 == 0 {
        lower <= x && x <= upper
    } else {
        lower < x && x < upper
    }
}

// The bits of the nearest float of sixteen bits to a number that is not negative, by those of the float64, which are divided by `step`;
// where the number has fewer digits, by how often it has the least. The exponents of a float64 are higher by `bias`.
fn guessed(x: f64, bias: u64, step: u64, scale: f64) -> u64
    requires { 2 ≤ step }
{
    let bits = f64_to_bits_with_nan(x);
    let kept = bits.wrapping_sub(bias.wrapping_mul(0x10_0000_0000_0000));
    if bits / 0x10_0000_0000_0000 > bias {
        kept.wrapping_add(step / 2 - 1 + kept / step % 2) / step
    } else {
        saturating_f64_to_u64((x * scale).round_ties_even())
    }
}

// The bits of the finite float16 that is nearest to a number that is not negative.
fn half_bits(x: f64) -> Option<u64>
    ensures nearest { IfSome result (λ bits. is_nearest finer_half x bits ≡ true) }
    ensures finite { IfSome result (λ bits. bits < 0x7c00) }
{
    let bits = guessed(x, 1008, 0x400_0000_0000, 16777216.0);
    if bits >= 0x7c00 {
        return None;
    }
    let (lower, upper) = (
        finer_half((2 * bits).saturating_sub(1)),
        finer_half(2 * bits + 1),
    );
    if is_between(bits, lower, x, upper) {
        Some(bits)
    } else {
        None
    }
}

// The bits of the finite bfloat16 that is nearest to a number that is not negative.
fn brain_bits(x: f64) -> Option<u64>
    ensures nearest { IfSome result (λ bits. is_nearest finer_brain x bits ≡ true) }
    ensures finite { IfSome result (λ bits. bits < 0x7f80) }
{
    let bits = guessed(
        x,
        896,
        0x2000_0000_0000,
        f64_from_bits_with_nan(0x4840_0000_0000_0000),
    );
    if bits >= 0x7f80 {
        return None;
    }
    let (lower, upper) = (
        finer_brain((2 * bits).saturating_sub(1)),
        finer_brain(2 * bits + 1),
    );
    if is_between(bits, lower, x, upper) {
        Some(bits)
    } else {
        None
    }
}

// Bits of sixteen with the sign of a number.
fn with_sign(bits: u64, x: f64) -> u64
    requires bits { bits < 0x8000 }
    requires number { NotNan x }
    ensures magnitude { result % 0x8000 ≡ bits }
    ensures sign { (0x8000 ≤ result) ↔ (is_sign_negative x ≡ true) }
{
    if x.is_sign_negative() {
        bits + 0x8000
    } else {
        bits
    }
}

impl FloatFormat {
    /// The bits of the finite float that is nearest to a number.
    pub fn number_bits(self, x: f64) -> Option<u64>
        ensures { IfSome result (IsFloatNumber self x) }
    {
        if x.is_nan() {
            return None;
        }
        let bits = match self {
            FloatFormat::Float16 => with_sign(half_bits(x.abs())?, x),
            FloatFormat::BFloat16 => with_sign(brain_bits(x.abs())?, x),
            FloatFormat::Float32 => f32_to_bits_with_nan(nearest_f64_to_f32_with_nan(x)) as u64,
            FloatFormat::Float64 => f64_to_bits_with_nan(x),
        };
        if bits % self.sign() < self.infinity() {
            Some(bits)
        } else {
            None
        }
    }
}

// The number that the bits of a float16 with a clear sign are.
fn half_size(bits: u64) -> f32
    requires { bits < 0x8000 }
    ensures { result ≡ half_size bits }
{
    if bits < 0x7c00 {
        finer_half(2 * bits)
    } else if bits == 0x7c00 {
        f32_from_bits_with_nan(0x7f80_0000)
    } else {
        f32_from_bits_with_nan(0x7fc0_0000)
    }
}

/// The number that the bits of a `float16` are.
pub fn half_to_f32(bits: u16) -> f32
    ensures { result ≡ half_value bits }
{
    if bits < 0x8000 {
        half_size(bits as u64)
    } else {
        -half_size((bits % 0x8000) as u64)
    }
}
