// The checksum Adler-32 (RFC 1950, 8.2).
ghost use Rattle.std.specs.Prelude.{◌≡◌, ◌<◌, ◌≤◌, fold, length};
ghost use Rattle.codec_gzip.specs.Adler.{base, after_byte, first_sums, adler32};

// The two sums are modulo this prime.
const BASE: u32 = 65521;

#[derive(Clone, Copy)]
struct Sums {
    s1: u32,
    s2: u32,
}

// The sums after at most 2,048 bytes more, which are added up before they are reduced.
fn after_block(sums: Sums, bytes: &[u8]) -> Sums
    requires few { length bytes.now ≤ 2048 }
    requires first { sums.s1 < base }
    requires second { sums.s2 < base }
    ensures sums { result ≡ fold after_byte sums bytes.now }
    ensures first { result.s1 < base }
    ensures second { result.s2 < base }
{
    let mut s1 = sums.s1;
    let mut s2 = sums.s2;
    for byte in bytes {
        s1 += *byte as u32;
        s2 += s1;
    }
    Sums {
        s1: s1 % BASE,
        s2: s2 % BASE,
    }
}

// The sums after blocks, the first of which is the first of all.
fn after_blocks(blocks: &[[u8; 2048]]) -> Sums
    ensures sums { result ≡ fold (fold after_byte) first_sums blocks.now }
    ensures first { result.s1 < base }
    ensures second { result.s2 < base }
{
    let mut sums = Sums { s1: 1, s2: 0 };
    for block in blocks {
        sums = after_block(sums, block);
    }
    sums
}

/// The checksum Adler-32 of bytes (RFC 1950, 8.2).
pub fn adler32(bytes: &[u8]) -> u32
    ensures { result ≡ adler32 bytes.now }
{
    let (blocks, rest) = bytes.as_chunks::<2048>();
    let sums = after_block(after_blocks(blocks), rest);
    sums.s2 * 65536 + sums.s1
}
