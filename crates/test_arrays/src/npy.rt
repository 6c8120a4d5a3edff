// Headers of NumPy's format, as NumPy writes them for these arrays.
use crate::compared::same_at;
use array_folder::npy_header;
use std::alloc::{AllocError, Global};

// How many bytes a header has, and the text in it after the mark and the size; or why it is refused.
fn text_of(alloc: Global, name: &str, size: usize, shape: &[u64]) -> Result<String, AllocError> {
    match npy_header(alloc, "a.npy", name, size, shape) {
        Ok(header) => {
            let text = String::from_utf8_lossy(alloc, header.get(10..).unwrap_or(&[]))?;
            format!(in alloc; "{} {}", header.len(), text.trim_end())
        }
        Err(error) => format!(in alloc; "{error}"),
    }
}

const HEADERS: &[(&str, usize, &[u64], &str)] = &[
    (
        "bool",
        1,
        &[],
        "128 {'descr': '|b1', 'fortran_order': False, 'shape': (), }",
    ),
    (
        "int8",
        1,
        &[3],
        "128 {'descr': '|i1', 'fortran_order': False, 'shape': (3,), }",
    ),
    (
        "uint8",
        1,
        &[0, 2],
        "128 {'descr': '|u1', 'fortran_order': False, 'shape': (0, 2), }",
    ),
    (
        "int16",
        2,
        &[3, 2],
        "128 {'descr': '<i2', 'fortran_order': False, 'shape': (3, 2), }",
    ),
    (
        "uint16",
        2,
        &[1, 1],
        "128 {'descr': '<u2', 'fortran_order': False, 'shape': (1, 1), }",
    ),
    (
        "int32",
        4,
        &[10],
        "128 {'descr': '<i4', 'fortran_order': False, 'shape': (10,), }",
    ),
    (
        "uint32",
        4,
        &[10],
        "128 {'descr': '<u4', 'fortran_order': False, 'shape': (10,), }",
    ),
    (
        "int64",
        8,
        &[1, 2, 3],
        "128 {'descr': '<i8', 'fortran_order': False, 'shape': (1, 2, 3), }",
    ),
    (
        "uint64",
        8,
        &[18446744073709551615, 18446744073709551615, 0, 1, 2, 3],
        "128 {'descr': '<u8', 'fortran_order': False, 'shape': (18446744073709551615, 18446744073709551615, 0, 1, 2, 3), }",
    ),
    (
        "complex64",
        8,
        &[2],
        "128 {'descr': '<c8', 'fortran_order': False, 'shape': (2,), }",
    ),
    (
        "complex128",
        16,
        &[2],
        "128 {'descr': '<c16', 'fortran_order': False, 'shape': (2,), }",
    ),
    (
        "r16",
        2,
        &[1],
        "128 {'descr': '|V2', 'fortran_order': False, 'shape': (1,), }",
    ),
    (
        "fixed_length_utf32",
        20,
        &[40],
        "128 {'descr': '<U5', 'fortran_order': False, 'shape': (40,), }",
    ),
    (
        "null_terminated_bytes",
        3,
        &[2],
        "128 {'descr': '|S3', 'fortran_order': False, 'shape': (2,), }",
    ),
    (
        "bfloat16",
        2,
        &[1],
        "a.npy: elements of this data type are not written in NumPy's format",
    ),
];

#[test]
fn headers_are_those_of_numpy(rt: HostRuntime) {
    for (name, size, shape, want) in HEADERS {
        let found = text_of(rt.alloc(), name, *size, shape).expect(&rt, "refused");
        same_at(&rt, *name, found.as_str(), *want);
    }
}
