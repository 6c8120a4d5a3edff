// The register of a checksum.
ghost use Rattle.std.specs.Prelude.{◌≡◌, ◌+◌, ◌*◌, ◌<◌, ℕ, fold};
ghost use Rattle.codec_checksums.specs.Checksum.{with_bits, with_byte, crc};

/// A polynomial of degree 32, by what single bytes leave in the register of its checksum.
pub trait Polynomial {
    // the polynomial without x^32, whose least significant bit is the highest power
    ghost polynomial: { ℕ };

    /// The register, once the eight bits of a byte have left it, which were all that stood in it, and then those of as many bytes that
    /// are 0.
    fn remainder_after(byte: u8, zeros: usize) -> u32
        requires { zeros < 8 }
        ensures { result ≡ with_bits polynomial (8 * (1 + zeros)) byte };
}

// The register, once 64 bits have left it.
fn after_bits<P: Polynomial>(bits: u64) -> u32
    ensures { result ≡ with_bits P.polynomial 64 bits }
{
    let bytes = bits.to_le_bytes();
    let high = P::remainder_after(bytes[4], 3)
        ^ (P::remainder_after(bytes[5], 2)
            ^ (P::remainder_after(bytes[6], 1) ^ P::remainder_after(bytes[7], 0)));
    P::remainder_after(bytes[0], 7)
        ^ (P::remainder_after(bytes[1], 6)
            ^ (P::remainder_after(bytes[2], 5) ^ (P::remainder_after(bytes[3], 4) ^ high)))
}

// The register after eight bytes more.
fn after_eight<P: Polynomial>(register: u32, bytes: &[u8; 8]) -> u32
    ensures { result ≡ fold (with_byte P.polynomial) register bytes.now }
{
    after_bits::<P>(register as u64 ^ u64::from_le_bytes(*bytes))
}

// The register after as many times eight bytes more.
fn after_eights<P: Polynomial>(register: u32, eights: &[[u8; 8]]) -> u32
    ensures { result ≡ fold (fold (with_byte P.polynomial)) register eights.now }
{
    let mut after = register;
    for bytes in eights {
        after = after_eight::<P>(after, bytes);
    }
    after
}

// The register after a byte more.
fn after_byte<P: Polynomial>(register: u32, byte: u8) -> u32
    ensures { result ≡ with_byte P.polynomial register byte }
{
    let leaving = ((register ^ byte as u32) % 256) as u8;
    P::remainder_after(leaving, 0) ^ (register >> 8)
}

// The register after bytes more.
fn after_bytes<P: Polynomial>(register: u32, bytes: &[u8]) -> u32
    ensures { result ≡ fold (with_byte P.polynomial) register bytes.now }
{
    let mut after = register;
    for byte in bytes {
        after = after_byte::<P>(after, *byte);
    }
    after
}

/// The checksum of bytes by a polynomial: the remainder of a division, the least significant bit of each byte first, where all bits of
/// the register are set at first and inverted at the end.
pub fn checksum<P: Polynomial>(bytes: &[u8]) -> u32
    ensures { result ≡ crc P.polynomial bytes.now }
{
    let (eights, rest) = bytes.as_chunks::<8>();
    let register = after_bytes::<P>(after_eights::<P>(u32::MAX, eights), rest);
    register ^ u32::MAX
}
