// A codec that takes each byte of an array from 255.
ghost use Rattle.std.specs.Prelude.{◌≡◌, IfOk, IfErr, map};
ghost use Rattle.parts_errors.specs.declared.error.CodecError.TheVariants.{OutOfMemory};
ghost use Rattle.test_helpers.specs.Inverted.{inverted_byte, inverted_elements};

use codec_chains::ArrayToArrayCodecTraits;
use std::alloc::{AllocError, Global};
use zarr_parts::{ArrayBuilder, ArrayBytes, CodecError};

/// A codec that takes each byte from 255, which turns each of its bits over.
#[derive(Debug, Clone, Copy, PartialEq, Eq)]
pub struct InvertedCodec;

// The bytes of an element, each taken from 255.
fn turned(alloc: Global, element: &[u8]) -> Result<Vec<u8>, AllocError>
    ensures { IfOk result (λ turned. turned.items ≡ map inverted_byte element.now) }
{
    element.iter().map(|byte| *byte ^ 255).collect(alloc)
}

// The elements of an array, each byte taken from 255.
#[tactic(auto, unfolding(crate::specs::Inverted::inverted_elements))]
fn inverted_array(alloc: Global, array: &ArrayBytes) -> Result<ArrayBytes<'static>, AllocError>
    ensures { IfOk result (λ inverted. inverted ≡ record { kind = array.now.kind; elements = inverted_elements array.now.elements }) }
{
    let mut builder = ArrayBuilder::new(alloc, array.kind())?;
    for i in 0..array.len() {
        let element = turned(alloc, array.element(i))?;
        builder.push(&element)?;
    }
    Ok(builder.finish())
}

impl ArrayToArrayCodecTraits for InvertedCodec {
    ghost use Rattle.test_helpers.specs.Inverted.{inverted_coding};
    ghost use Rattle.test_helpers.specs.InvertedLaws.{inverted_invertible, inverted_keeps};

    ghost coding = { λ _. inverted_coding };

    ghost invertible = { λ _. inverted_invertible };

    ghost keeps_lengths = { λ _. inverted_keeps };

    fn encode(&self, alloc: Global, array: &ArrayBytes) -> Result<ArrayBytes<'static>, CodecError> {
        Ok(inverted_array(alloc, array)?)
    }

    fn decode(&self, alloc: Global, array: &ArrayBytes) -> Result<ArrayBytes<'static>, CodecError> {
        Ok(inverted_array(alloc, array)?)
    }
}
