// The checksum XXH64 with seed 0, by the steps of its specification.
ghost use Rattle.std.specs.Prelude.{◌≡◌, ◌+◌, ◌%◌, ◌^◌, ◌==◌, ◌≤◌, ◌<◌, fold, length};
ghost use Rattle.codec_checksums.specs.XxHash.{round, first_accumulators, lane, after_stripe, merge_accumulator, converged, after_eight, after_four, after_one, after_last, after_rest, avalanche, xxh64};

const PRIME1: u64 = 0x9E37_79B1_85EB_CA87;

const PRIME2: u64 = 0xC2B2_AE3D_27D4_EB4F;

const PRIME3: u64 = 0x1656_67B1_9E37_79F9;

const PRIME4: u64 = 0x85EB_CA77_C2B2_AE63;

const PRIME5: u64 = 0x27D4_EB2F_1656_67C5;

#[derive(Clone, Copy)]
struct Accumulators {
    acc1: u64,
    acc2: u64,
    acc3: u64,
    acc4: u64,
}

// An accumulator after a lane.
#[inline(always)]
#[tactic(auto, unfolding(crate::specs::XxHash::round))]
fn round(acc: u64, lane: u64) -> u64
    ensures { result ≡ round acc lane }
{
    acc.wrapping_add(lane.wrapping_mul(PRIME2))
        .rotate_left(31)
        .wrapping_mul(PRIME1)
}

// The accumulators at first.
#[tactic(auto, unfolding(crate::specs::XxHash::first_accumulators))]
fn first_accumulators() -> Accumulators
    ensures { result ≡ first_accumulators }
{
    Accumulators {
        acc1: PRIME1.wrapping_add(PRIME2),
        acc2: PRIME2,
        acc3: 0,
        acc4: 0u64.wrapping_sub(PRIME1),
    }
}

// A lane of a stripe.
#[inline(always)]
fn lane(stripe: &[u8; 32], place: usize) -> u64
    requires { place ≤ 24 }
    ensures { result ≡ lane stripe.now place }
{
    let Some(lane) = stripe[place..].first_chunk::<8>() else {
        unreachable!()
    };
    u64::from_le_bytes(*lane)
}

// The accumulators after a stripe more.
#[inline(always)]
#[tactic(auto, unfolding(crate::specs::XxHash::after_stripe))]
fn after_stripe(accumulators: Accumulators, stripe: &[u8; 32]) -> Accumulators
    ensures { result ≡ after_stripe accumulators stripe.now }
{
    Accumulators {
        acc1: round(accumulators.acc1, lane(stripe, 0)),
        acc2: round(accumulators.acc2, lane(stripe, 8)),
        acc3: round(accumulators.acc3, lane(stripe, 16)),
        acc4: round(accumulators.acc4, lane(stripe, 24)),
    }
}

// The accumulators after stripes, the first of which is the first of all.
fn after_stripes(stripes: &[[u8; 32]]) -> Accumulators
    ensures { result ≡ fold after_stripe first_accumulators stripes.now }
{
    let mut accumulators = first_accumulators();
    for stripe in stripes {
        accumulators = after_stripe(accumulators, stripe);
    }
    accumulators
}

#[inline(always)]
#[tactic(auto, unfolding(crate::specs::XxHash::merge_accumulator))]
fn merge_accumulator(acc: u64, accumulator: u64) -> u64
    ensures { result ≡ merge_accumulator acc accumulator }
{
    (acc ^ round(0, accumulator))
        .wrapping_mul(PRIME1)
        .wrapping_add(PRIME4)
}

// The four accumulators as one.
#[tactic(auto, unfolding(crate::specs::XxHash::converged))]
fn converged(accumulators: Accumulators) -> u64
    ensures { result ≡ converged accumulators }
{
    let acc = accumulators
        .acc1
        .rotate_left(1)
        .wrapping_add(accumulators.acc2.rotate_left(7))
        .wrapping_add(accumulators.acc3.rotate_left(12))
        .wrapping_add(accumulators.acc4.rotate_left(18));
    let acc = merge_accumulator(acc, accumulators.acc1);
    let acc = merge_accumulator(acc, accumulators.acc2);
    let acc = merge_accumulator(acc, accumulators.acc3);
    merge_accumulator(acc, accumulators.acc4)
}

// After eight bytes more.
#[inline(always)]
#[tactic(auto, unfolding(crate::specs::XxHash::after_eight))]
fn after_eight(acc: u64, bytes: &[u8; 8]) -> u64
    ensures { result ≡ after_eight acc bytes.now }
{
    (acc ^ round(0, u64::from_le_bytes(*bytes)))
        .rotate_left(27)
        .wrapping_mul(PRIME1)
        .wrapping_add(PRIME4)
}

// After four bytes more.
#[tactic(auto, unfolding(crate::specs::XxHash::after_four))]
fn after_four(acc: u64, bytes: &[u8; 4]) -> u64
    ensures { result ≡ after_four acc bytes.now }
{
    (acc ^ (u32::from_le_bytes(*bytes) as u64).wrapping_mul(PRIME1))
        .rotate_left(23)
        .wrapping_mul(PRIME2)
        .wrapping_add(PRIME3)
}

// After a byte more.
#[tactic(auto, unfolding(crate::specs::XxHash::after_one))]
fn after_one(acc: u64, byte: u8) -> u64
    ensures { result ≡ after_one acc byte }
{
    (acc ^ (byte as u64).wrapping_mul(PRIME5))
        .rotate_left(11)
        .wrapping_mul(PRIME1)
}

// After as many times eight bytes more.
fn after_eights(acc: u64, eights: &[[u8; 8]]) -> u64
    ensures { result ≡ fold after_eight acc eights.now }
{
    let mut after = acc;
    for bytes in eights {
        after = after_eight(after, bytes);
    }
    after
}

// After as many bytes more.
fn after_ones(acc: u64, bytes: &[u8]) -> u64
    ensures { result ≡ fold after_one acc bytes.now }
{
    let mut after = acc;
    for byte in bytes {
        after = after_one(after, *byte);
    }
    after
}

// After fewer than eight bytes more.
#[tactic(auto, unfolding(crate::specs::XxHash::after_last))]
fn after_last(acc: u64, bytes: &[u8]) -> u64
    ensures { result ≡ after_last acc bytes.now }
{
    match bytes.split_first_chunk::<4>() {
        Some((four, rest)) => after_ones(after_four(acc, four), rest),
        None => after_ones(acc, bytes),
    }
}

// After what is left after the stripes.
fn after_rest(acc: u64, bytes: &[u8]) -> u64
    ensures { result ≡ after_rest acc bytes.now }
{
    let (eights, rest) = bytes.as_chunks::<8>();
    after_last(after_eights(acc, eights), rest)
}

// The final mix.
#[tactic(auto, unfolding(crate::specs::XxHash::avalanche))]
fn avalanche(acc: u64) -> u64
    ensures { result ≡ avalanche acc }
{
    let acc = (acc ^ (acc >> 33)).wrapping_mul(PRIME2);
    let acc = (acc ^ (acc >> 29)).wrapping_mul(PRIME3);
    acc ^ (acc >> 32)
}

/// The checksum XXH64 of bytes with seed 0, as the xxHash specification has it, and as it ends a zstd frame (RFC 8878, 3.1.1).
pub fn xxh64(bytes: &[u8]) -> u64
    ensures { result ≡ xxh64 bytes.now }
{
    let (stripes, rest) = bytes.as_chunks::<32>();
    let acc = if bytes.len() < 32 {
        PRIME5
    } else {
        converged(after_stripes(stripes))
    };
    avalanche(after_rest(acc.wrapping_add(bytes.len() as u64), rest))
}

/// Whether a number is Content_Checksum of bytes (RFC 8878, 3.1.1): the low four bytes of their checksum XXH64.
pub fn is_content_checksum(number: u64, content: &[u8]) -> bool
    ensures { result ≡ (number == xxh64 content.now % 2 ^ 32) }
{
    number == xxh64(content) % (1 << 32)
}
