// The tests that every call makes first, and what they find.
ghost use Rattle.std.specs.Prelude.{IfOk, IfErr, OnOk};
ghost use Rattle.parts_errors.specs.Order.{RefusedBy};
ghost use Rattle.codec_traits.specs.Refusals.{RefusesUnserved};
ghost use Rattle.sharding_index.specs.Indexes.{index_meaning};
ghost use Rattle.sharding_index.specs.steps.Plans.{spec_of, IsPlan};
ghost use Rattle.sharding_engine.specs.Meanings.{meaning_of};

use crate::sharding::Sharding;
use codec_traits::ArrayToBytesCodecTraits;
use parts_errors::{CodecError, CodecOptions};
use sharding_format::{ArraySpecRef, element_size};
use sharding_index::Plan;
use std::alloc::Global;

/// What a call is asked to serve, what is known of it before bytes are looked at, and how it is to be served.
#[derive(Clone, Copy)]
pub struct Planned<'a> {
    pub spec: ArraySpecRef<'a>,
    pub plan: &'a Plan,
    pub options: &'a CodecOptions,
}

// The subchunks of a shard that is planned: written out where they are used, so that a proof sees what each field is.
macro_rules! subchunks {
    ($sharding:expr, $planned:expr) => {
        sharding_subchunks::Subchunks {
            codec: $sharding.inner,
            shape: $sharding.subchunk_shape,
            data_type: $planned.spec.data_type,
            fill_value: $planned.spec.fill_value,
            options: $planned.options,
        }
    };
}

pub(crate) use subchunks;

impl<I: ArrayToBytesCodecTraits, X: ArrayToBytesCodecTraits> Sharding<'_, I, X> {
    /// Makes the tests of a sharding codec's `check`, in its order.
    pub fn prepared(&self, alloc: Global, spec: &ArraySpecRef) -> Result<Plan, CodecError>
        ensures serves { OnOk result (meaning_of I.meaning X.meaning self.now (spec_of spec.now)).serves }
        ensures plan { IfOk result (IsPlan (index_meaning X.meaning self.now.index_codec.codec.now) spec.now.shape.now self.now.subchunk_shape.now) }
        ensures refused { IfErr result (RefusedBy (RefusesUnserved (meaning_of I.meaning X.meaning self.now (spec_of spec.now)))) }
    {
        let size = element_size(spec.data_type, spec.fill_value)?;
        let plan = Plan::new(
            alloc,
            &self.index_codec,
            spec.shape,
            self.subchunk_shape,
            size,
        )?;
        self.inner.check(alloc, self.subchunk_shape, spec.data_type, spec.fill_value)?;
        Ok(plan)
    }
}
