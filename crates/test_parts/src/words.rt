// What errors print, their numbers and names, and the options of a call.
use crate::compared::same;
use std::alloc::Global;
use std::process::Abort;
use zarr_parts::{CodecError, CodecOptions, CodecSpecificOptions};

const TEXTS: &[(CodecError, &str)] = &[
    (CodecError::OutOfMemory, "OutOfMemory"),
    (CodecError::TooLarge, "TooLarge"),
    (
        CodecError::IncompatibleDimensionality,
        "IncompatibleDimensionality",
    ),
    (CodecError::OutOfBounds, "OutOfBounds"),
    (
        CodecError::InvalidNumberOfElements,
        "InvalidNumberOfElements",
    ),
    (CodecError::InvalidSubchunkShape, "InvalidSubchunkShape"),
    (CodecError::ShardTooShort, "ShardTooShort"),
    (CodecError::VariableIndexSize, "VariableIndexSize"),
    (CodecError::BadIndexEntry { number: 7 }, "BadIndexEntry 7"),
    (CodecError::UnsupportedDataType, "UnsupportedDataType"),
    (CodecError::BadFillValue, "BadFillValue"),
    (CodecError::WrongElementKind, "WrongElementKind"),
    (CodecError::UnsupportedIndexer, "UnsupportedIndexer"),
    (CodecError::CannotEncode, "CannotEncode"),
    (CodecError::Damaged, "Damaged"),
    (CodecError::Fault, "Fault"),
    (CodecError::SessionFailed, "SessionFailed"),
];

fn printed<R: Abort>(rt: &R, alloc: Global, error: CodecError) -> String {
    format!(in alloc; "{error}").expect(rt, "refused")
}

// An error prints its name, and the number of the pair that it names.
#[test]
fn an_error_prints_its_name(rt: HostRuntime) {
    for (error, text) in TEXTS {
        let found = printed(&rt, rt.alloc(), *error);
        same(&rt, found.as_str(), *text);
    }
}

// An error has a number, and a name without the number of a pair.
#[test]
fn an_error_tells_its_number_and_name(rt: HostRuntime) {
    let fault = CodecError::Fault;
    same(&rt, (fault.number(), fault.name()), (16, "Fault"));
    let bad_pair = CodecError::BadIndexEntry { number: 7 };
    same(
        &rt,
        (bad_pair.number(), bad_pair.name()),
        (9, "BadIndexEntry"),
    );
}

// An option is there once it is set, as it was set last.
#[test]
fn what_is_set_is_there(rt: HostRuntime) {
    let none: CodecSpecificOptions<u8> = CodecSpecificOptions::default();
    let is_unset = none.get_option().is_none();
    let seven = none.with_option(7);
    let is_seven = seven.get_option() == Some(&7);
    let eight = seven.with_option(8);
    same(
        &rt,
        (is_unset, is_seven, eight.get_option()),
        (true, true, Some(&8)),
    );
}

// No worker counts as one.
#[test]
fn no_worker_counts_as_one(rt: HostRuntime) {
    let options = CodecOptions::default();
    let none = options.with_concurrent_target(0).concurrent_target();
    let four = options.with_concurrent_target(4).concurrent_target();
    same(&rt, (options.concurrent_target(), none, four), (1, 1, 4));
}
