// What a session holds of a shard.
ghost use Rattle.std.specs.Prelude.{◌≡◌, ◌*◌, None, IfOk, IfErr, IfSome, IfNone, length, replicate};
ghost use Rattle.parts_errors.specs.Order.{◌or_as◌then◌, RefusedBy};
ghost use Rattle.storage_handles.specs.Handles.{IsRead, IsCounted};
ghost use Rattle.storage_handles.specs.Objects.{ObjectRefusals};
ghost use Rattle.codec_traits.specs.Refusals.{RefusesUnserved};
ghost use Rattle.sharding_format.specs.Index.{absent_number};
ghost use Rattle.sharding_index.specs.Indexes.{index_meaning};
ghost use Rattle.sharding_engine.specs.Meanings.{meaning_of};
ghost use Rattle.sharding_index.specs.steps.Plans.{spec_of};
ghost use Rattle.sharding_open.specs.Cached.{cached_len};
ghost use Rattle.sharding_open.specs.OpenShards.{shard_spec};
ghost use Rattle.sharding_open.specs.OpenSessions.{IsOpenSession, numbers_cached, SessionIndexRefusals};
ghost use Rattle.sharding_open.specs.PreparedWrites.{cached_after};

use crate::shard::OpenShard;
use codec_traits::ArrayToBytesCodecTraits;
use parts_errors::{CodecError, CodecOptions};
use sharding_engine::Sharding;
use sharding_format::{ArraySpecRef, ShardIndex};
use sharding_index::{IndexPlan, check_entries, without_entries};
use sharding_write::{Change, Prepared};
use std::alloc::Global;
use storage_handles::BytesPartialDecoderTraits;

/// What a session holds of a shard that is open for reading and writing.
#[derive(Drop)]
pub struct OpenSession {
    pub shard: OpenShard,
    pub plan: IndexPlan,
    /// The index of no object, where there is none.
    pub blank: Vec<u64>,
}

impl OpenSession {
    /// Tests what is asked, and reads what is held of a handle's object. Refused as `OpenShard::open` refuses, and then as
    /// `BadIndexEntry` with the number of the lowest subchunk that is neither absent nor a slice of the data part.
    pub fn open<
        I: ArrayToBytesCodecTraits,
        X: ArrayToBytesCodecTraits,
        H: BytesPartialDecoderTraits,
    >(
        sharding: &Sharding<'_, I, X>,
        alloc: Global,
        handle: &mut H,
        spec: &ArraySpecRef,
        options: &CodecOptions,
    ) -> Result<OpenSession, CodecError>
        ensures read { IsRead (H.state handle.old) (H.state handle.new) }
        ensures spec { IfOk result (λ opened. shard_spec opened.shard ≡ spec_of spec.now) }
        ensures cached { let s = sharding.now in
            IfOk result (IsOpenSession (meaning_of I.meaning X.meaning s) (index_meaning X.meaning s.index_codec.codec.now) s.index_codec.location s.subchunk_shape.now H.state handle.new) }
        ensures fault { IfErr result (IsCounted (H.state handle.old) (H.state handle.new)) }
        ensures refused { let s = sharding.now in let g = spec_of spec.now in let shard = meaning_of I.meaning X.meaning s g in
            IfErr result (RefusedBy (
            shard.serves or_as RefusesUnserved shard then
            ObjectRefusals (H.state handle.old) (H.state handle.new) (
            SessionIndexRefusals (index_meaning X.meaning s.index_codec.codec.now) s.index_codec.location s.subchunk_shape.now g (H.state handle.old).contents))) }
    {
        let (shard, plan) = OpenShard::open(sharding, alloc, handle, spec, options)?;
        let Some(index) = &shard.cached else {
            let blank = vec![in alloc; u64::MAX; 2 * shard.subchunks as usize]?;
            return Ok(OpenSession { shard, plan, blank });
        };
        check_entries(sharding.index_codec.location, plan.size, index)?;
        Ok(OpenSession {
            shard,
            plan,
            blank: Vec::new(alloc),
        })
    }

    /// The length of the object of which an index is held, and the index's numbers: without an object the blank ones.
    pub fn cached_index(&self) -> (u64, &[u64])
        ensures len { result.0 ≡ cached_len self.now.shard.cached }
        ensures numbers { result.1.now ≡ numbers_cached self.now.shard.cached self.now.blank.items }
    {
        match &self.shard.cached {
            Some(index) => (index.len, &index.numbers),
            None => (0, &self.blank),
        }
    }

    // Holds what a write left.
    pub(crate) fn hold(&mut self, prepared: Prepared)
        ensures shard { self.new.shard ≡ record self.old.shard { cached = cached_after prepared.change prepared.len prepared.numbers } }
        ensures plan { self.new.plan ≡ self.old.plan }
        ensures blank { IfNone self.new.shard.cached (self.new.blank.items ≡ replicate (length prepared.numbers.items) absent_number) }
    {
        let Prepared {
            change,
            len,
            numbers,
        } = prepared;
        match change {
            Change::Erase => {
                self.shard.cached = None;
                self.blank = without_entries(numbers);
            }
            Change::Replace(_) => self.shard.cached = Some(ShardIndex { len, numbers }),
            Change::Append { .. } => self.shard.cached = Some(ShardIndex { len, numbers }),
        }
    }

    /// Holds that there is no object. Takes no memory.
    pub fn cache_none(&mut self)
        ensures shard { self.new.shard ≡ record self.old.shard { cached = None } }
        ensures plan { self.new.plan ≡ self.old.plan }
        ensures blank { IfSome self.old.shard.cached (λ index. self.new.blank.items ≡ replicate (length index.numbers.items) absent_number) }
        ensures kept { IfNone self.old.shard.cached (self.new.blank.items ≡ self.old.blank.items) }
    {
        if let Some(index) = self.shard.cached.take() {
            self.blank = without_entries(index.numbers);
        }
    }
}
