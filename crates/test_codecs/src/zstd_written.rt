// Zstd files that are written: each is read back as its content, and is as short as those of the command zstd 1.5.4 where content repeats.
use crate::compared::same_at;
use codec_zstd::{unzstd, zstd};
use std::alloc::{AllocError, Global};
use std::process::Abort;

// What content is made of.
#[derive(Clone, Copy, Debug)]
enum Kind {
    Run,
    Words,
    // of two bytes, that rise with noise
    Numbers,
    Random,
    // 64 different ones, from 128 on
    High,
    // 0 and 1
    Bits,
    // that repeats after seven bytes
    Period,
}

const KINDS: [Kind; 7] = [
    Kind::Run,
    Kind::Words,
    Kind::Numbers,
    Kind::Random,
    Kind::High,
    Kind::Bits,
    Kind::Period,
];

const WORDS: [&[u8]; 8] = [
    b"chunk ", b"shard ", b"of the ", b"array\n", b"index, ", b"codec ", b"a ", b"bytes. ",
];

const LEVELS: [i32; 5] = [-5, 1, 3, 9, 19];

// The byte of a place, by a random one.
fn byte_at(kind: Kind, place: usize, random: u8) -> u8 {
    match kind {
        Kind::Run => 7,
        Kind::High => 128 + random % 64,
        Kind::Bits => random % 2,
        Kind::Period => (place % 7) as u8,
        _ => random,
    }
}

// Appends what comes at a place, by a random byte.
fn push_next(
    content: &mut Vec<u8>,
    kind: Kind,
    place: usize,
    random: u8,
) -> Result<(), AllocError> {
    match kind {
        Kind::Words => content.extend_from_slice(WORDS[random as usize % 8]),
        Kind::Numbers => {
            let number = 1000 + (place % 4096) as u16 + random as u16 % 16;
            content.extend_from_slice(&number.to_le_bytes())
        }
        _ => content.extend_from_slice(&[byte_at(kind, place, random)]),
    }
}

// Content of `size` bytes.
fn content(alloc: Global, kind: Kind, size: usize) -> Result<Vec<u8>, AllocError> {
    let mut content = Vec::new(alloc);
    let mut random = 1u32;
    for place in 0..size {
        random = random.wrapping_mul(1664525).wrapping_add(1013904223);
        push_next(&mut content, kind, place, (random >> 24) as u8)?;
    }
    content.truncate(size);
    Ok(content)
}

// How long the file of content is, and the content that is read of it.
fn written(
    alloc: Global,
    kind: Kind,
    size: usize,
    level: i32,
    checksum: bool,
) -> Result<(usize, Vec<u8>, Vec<u8>), AllocError> {
    let content = content(alloc, kind, size)?;
    let file = zstd(alloc, &content, level, checksum)?;
    let read = unzstd(alloc, &file, size).unwrap_or(Vec::new(alloc));
    Ok((file.len(), read, content))
}

// Ends the test where a file is longer than `most` bytes, or not read back.
fn is_written<R: Abort>(rt: &R, alloc: Global, kind: Kind, size: usize, level: i32, most: usize) {
    let (length, read, content) = written(alloc, kind, size, level, size % 2 == 0).expect(
        rt, "refused",
    );
    let case = (kind, size, level);
    same_at(rt, case, (length <= most, read), (true, content));
}

// Short files, at each level. Without compression a file has a header of at most nine bytes, three more for the block, and the checksum.
#[test]
fn short_files_are_read_back(rt: HostRuntime) {
    const SIZES: [usize; 8] = [0, 1, 2, 33, 70, 259, 1030, 2048];
    for kind in KINDS {
        for size in SIZES {
            for level in LEVELS {
                is_written(&rt, rt.alloc(), kind, size, level, size.saturating_add(16));
            }
        }
    }
}

// Files of several blocks.
#[test]
fn long_files_are_read_back(rt: HostRuntime) {
    const SIZES: [usize; 2] = [131072, 140001];
    for kind in KINDS {
        for size in SIZES {
            is_written(&rt, rt.alloc(), kind, size, 1, size.saturating_add(20));
        }
    }
}

// At most a tenth more than `zstd -3` writes of 64 KiB of the same content, and ten bytes for its size and the checksum.
#[test]
fn files_are_short(rt: HostRuntime) {
    const ROWS: [(Kind, usize); 6] = [
        (Kind::Run, 19),
        (Kind::Words, 9736),
        (Kind::Numbers, 51743),
        (Kind::High, 49203),
        (Kind::Bits, 12274),
        (Kind::Period, 24),
    ];
    for (kind, theirs) in ROWS {
        let most = (theirs / 10).saturating_add(theirs).saturating_add(10);
        is_written(&rt, rt.alloc(), kind, 65536, 3, most);
    }
}
