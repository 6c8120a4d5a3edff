// The numbers and names of refusals.
use crate::compared::{same, same_at};
use crate::metadata_examples::codec_of;
use serde_json::Value;
use std::alloc::Global;
use std::process::Abort;
use zarr_codecs::PluginCreateError;

fn told(error: &PluginCreateError) -> (u8, &'static str) {
    (error.number(), error.name())
}

// What the refusal of a configuration tells.
fn refusal_of(alloc: Global, value: &Value) -> (u8, &'static str) {
    match codec_of(alloc, value) {
        Ok(_) => (0, ""),
        Err(error) => told(&error),
    }
}

fn refusal<R: Abort>(rt: &R, alloc: Global, text: &str) -> (u8, &'static str) {
    let value = Value::from_str(alloc, text).expect(rt, "refused");
    refusal_of(alloc, &value)
}

// A refusal has a number, and a name without the text that it carries.
#[test]
fn a_refusal_tells_its_number_and_name(rt: HostRuntime) {
    for (text, want) in [
        (
            r#"{"chunk_shape":[],"codecs":["gzip"],"index_codecs":[]}"#,
            (2, "UnsupportedCodec"),
        ),
        ("{}", (3, "MissingField")),
        ("7", (4, "BadField")),
        (
            r#"{"chunk_shape":[],"codecs":[],"index_codecs":[]}"#,
            (5, "UnsupportedChain"),
        ),
    ] {
        same_at(&rt, text, refusal(&rt, rt.alloc(), text), want);
    }
    same(
        &rt,
        told(&PluginCreateError::OutOfMemory),
        (1, "OutOfMemory"),
    );
}
